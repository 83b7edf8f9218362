// The job table as it is lent to be changed, and a job to be put into it.
ghost use Rattle.std.specs.Prelude.{◌≡◌};
ghost use Rattle.rows.specs.InSlices.{jobs_in};
ghost use Rattle.job_rows.specs.Table.{table_in};

use rows::jobs::Jobs;
use rows::sources::Sources;
use rules::tables::Ulid;

// "Every table is lent at its full capacity, with counts that say how much of it is used.": the count changes with the rows.
#[derive(Drop)]
pub struct JobTable<'a> {
    pub count: usize,
    pub ids: &'a mut [u64],
    pub marks: &'a mut [u8],
    pub specs: &'a mut [u32],
    pub source_marks: &'a mut [u8],
    pub source_runs: &'a mut [u32],
    pub source_views: &'a mut [u64],
}

// A job by itself, with its source entries. Status and kind are numbers as C hands them in: any may stand there until refusal 2
// has looked.
#[derive(Clone, Copy)]
pub struct NewJob<'a> {
    pub id: Ulid,
    pub status: u8,
    pub drain: u8,
    pub prefix: u32,
    pub destination: u32,
    pub sources: Sources<'a>,
}

impl JobTable<'_> {
    // The jobs as they stand, to be read.
    pub fn rows(&self) -> Jobs<'_>
        ensures { jobs_in result ≡ table_in self.now }
    {
        Jobs {
            count: self.count,
            ids: self.ids,
            marks: self.marks,
            specs: self.specs,
            sources: Sources {
                marks: self.source_marks,
                runs: self.source_runs,
                views: self.source_views,
            },
        }
    }
}
