// 01's cabinet, and the jobs of its plan.
use crate::answers::JobChange;
use crate::job_calls::{Kind, add};
use crate::sources::{run, view};
use crate::trees::{parted, root};
use lent::jobs::Jobs;
use lent::trees::Trees;
use rules::tables::Status;

// "Root: L0 a, b, c, d of size 1, runs 12, 11 of size 100. Segment 7: runs 10, 9 of size 50."
pub fn cabinet() -> Trees {
    parted(root(4, 12, &[100, 100, 50, 50]), 2, 7, 2)
}

// "prefix 0, b c d to 13"
pub fn add_views(jobs: &mut Jobs, job: u64) -> JobChange {
    let sources = [view(2), view(3), view(4)];
    add(jobs, job, Status::Submitted, Kind::To(13), 0, &sources)
}

// "prefix 7, 10 9 to 9"
pub fn add_segment(jobs: &mut Jobs, job: u64) -> JobChange {
    let sources = [run(10), run(9)];
    add(jobs, job, Status::Submitted, Kind::To(9), 7, &sources)
}

// "prefix 0, 12 11 to 11"
pub fn add_runs(jobs: &mut Jobs, job: u64) -> JobChange {
    let sources = [run(12), run(11)];
    add(jobs, job, Status::Submitted, Kind::To(11), 0, &sources)
}
