// What finish and drain share: the lent jobs, of which only the marks are lent to change, and what both find first.
ghost use Rattle.std.specs.Prelude.{◌≡◌, ◌*◌, ◌<◌, length, set};
ghost use Rattle.rules.specs.Tables.{status_of, mark_of};
ghost use Rattle.rows.specs.InSlices.{trees_in, jobs_in};
ghost use Rattle.compactor_finish.specs.Ending.{ending_in, with_marks, SameMarks};
ghost use Rattle.compactor_finish.specs.Finishes.{WorkCase};

use finishing::work::{Work, find_work};
use rows::jobs::Jobs;
use rows::sources::Sources;
use rows::tables::check_tables;
use rows::trees::Trees;
use rules::answers::Refusal;
use rules::tables::{Kind, Status, Ulid};

// The jobs, of which the marks alone are lent to change. Flat as the other tables that are lent to be changed: a struct of slices
// in it would ask the calls for C for one lifetime of them all.
#[derive(Drop)]
pub struct EndingJobs<'a> {
    pub count: usize,
    pub ids: &'a [u64],
    pub marks: &'a mut [u8],
    pub specs: &'a [u32],
    pub source_marks: &'a [u8],
    pub source_runs: &'a [u32],
    pub source_views: &'a [u64],
}

impl EndingJobs<'_> {
    // The jobs as they stand.
    pub fn rows(&self) -> Jobs<'_>
        ensures { jobs_in result ≡ ending_in self.now }
    {
        Jobs {
            count: self.count,
            ids: self.ids,
            marks: self.marks,
            specs: self.specs,
            sources: Sources {
                marks: self.source_marks,
                runs: self.source_runs,
                views: self.source_views,
            },
        }
    }

    // The status of a job.
    pub fn set_status(&mut self, job: usize, status: Status)
        requires { 2 * job < length self.old.marks.now }
        ensures same { SameMarks self.old self.new }
        ensures set { ending_in self.new ≡ with_marks (set self.old.marks.now (2 * job) (status_of status)) (ending_in self.old) }
    {
        self.marks[2 * job] = status.number();
    }
}

// 1 and 2 of both tables, then "11, 12, 7, missing segment" of a tiered job, and "11, 12, missing segment" of a drain.
pub fn find(trees: &Trees, jobs: &Jobs, id: Ulid, kind: Kind) -> Result<Work, Refusal>
    ensures { WorkCase (trees_in trees.now) (jobs_in jobs.now) id (mark_of kind) result }
{
    check_tables(trees, jobs)?;
    find_work(trees, jobs, id, kind)
}
