// A job table, and the calls on it.
use compactor_state::add::add;
use compactor_state::merge::merge;
use compactor_state::retain::retain;
use job_rows::table::{JobTable, NewJob};
use rows::sources::Sources;
use rules::answers::Refusal;

// The tables of the jobs.
#[derive(Clone, Copy, PartialEq, Eq)]
pub struct Jobs {
    pub count: usize,
    pub ids: [u64; 128],
    pub marks: [u8; 128],
    pub specs: [u32; 192],
    pub source_marks: [u8; 1024],
    pub source_runs: [u32; 1024],
    pub source_views: [u64; 2048],
}

impl Default for Jobs {
    // No jobs.
    fn default() -> Jobs {
        Jobs {
            count: 0,
            ids: [0; 128],
            marks: [0; 128],
            specs: [0; 192],
            source_marks: [0; 1024],
            source_runs: [0; 1024],
            source_views: [0; 2048],
        }
    }
}

impl Jobs {
    // The slices that a call is lent to be read.
    pub fn lent(&self) -> rows::jobs::Jobs<'_> {
        rows::jobs::Jobs {
            count: self.count,
            ids: &self.ids,
            marks: &self.marks,
            specs: &self.specs,
            sources: Sources {
                marks: &self.source_marks,
                runs: &self.source_runs,
                views: &self.source_views,
            },
        }
    }
}

// The tables of `$jobs`, to be changed by a call.
macro_rules! table {
    ($jobs:ident) => {
        JobTable {
            count: $jobs.count,
            ids: &mut $jobs.ids,
            marks: &mut $jobs.marks,
            specs: &mut $jobs.specs,
            source_marks: &mut $jobs.source_marks,
            source_runs: &mut $jobs.source_runs,
            source_views: &mut $jobs.source_views,
        }
    };
}

pub fn add_job(jobs: &mut Jobs, job: &NewJob) -> Result<(), Refusal> {
    let mut table = table!(jobs);
    let answer = add(&mut table, job);
    jobs.count = table.count;
    answer
}

pub fn merge_jobs(jobs: &mut Jobs, remote: &Jobs) -> Result<(), Refusal> {
    let mut table = table!(jobs);
    let answer = merge(&mut table, &remote.lent());
    jobs.count = table.count;
    answer
}

pub fn retain_jobs(jobs: &mut Jobs) -> Result<(), Refusal> {
    let mut table = table!(jobs);
    let answer = retain(&mut table);
    jobs.count = table.count;
    answer
}
