// Finish and drain over the tables of trees and jobs.
use crate::jobs::Jobs;
use crate::trees::Trees;
use compactor_finish::drain::drain;
use compactor_finish::ending::EndingJobs;
use compactor_finish::finish::finish;
use rules::answers::{Finished, Refusal};
use rules::tables::{Run, Ulid};
use tree_rows::table::TreeTable;

// How a job ends: by finish, with the output, or by drain.
#[derive(Clone, Copy)]
pub enum Ending {
    Finish(Run),
    Drain,
}

// Of the jobs only a mark may change.
pub fn end_job(
    trees: &mut Trees,
    jobs: &mut Jobs,
    id: Ulid,
    ending: Ending,
) -> Result<Finished, Refusal> {
    let mut tree_table = TreeTable {
        count: trees.count,
        rows: &mut trees.rows,
        watermark_marks: &mut trees.watermark_marks,
        watermarks: &mut trees.watermarks,
        l0_ids: &mut trees.l0_ids,
        l0_sizes: &mut trees.l0_sizes,
        run_ids: &mut trees.run_ids,
        run_sizes: &mut trees.run_sizes,
    };
    let mut ending_jobs = EndingJobs {
        count: jobs.count,
        ids: &jobs.ids,
        marks: &mut jobs.marks,
        specs: &jobs.specs,
        source_marks: &jobs.source_marks,
        source_runs: &jobs.source_runs,
        source_views: &jobs.source_views,
    };
    // Two calls with parameters of their own: a closure for either would only hide which it is.
    match ending {
        Ending::Finish(output) => finish(&mut tree_table, &mut ending_jobs, id, output),
        Ending::Drain => drain(&mut tree_table, &mut ending_jobs, id),
    }
}
