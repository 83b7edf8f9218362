// A job table from the first job on: adding, merging and retention.
use crate::answers::JobChange;
use crate::cabinet::{add_runs, add_segment, add_views};
use crate::job_calls::{Kind, add, merge, retain};
use crate::job_text::show_jobs;
use crate::show::{call, heading};
use crate::sources::{run, view};
use lent::jobs::Jobs;
use rules::tables::Status;
use std::io;

fn two_jobs(rt: &impl Print, jobs: &mut Jobs) -> io::Result<()> {
    call(
        rt,
        "add 1 Submitted: prefix 0, 12 11 to 11",
        "1 job",
        &add_runs(jobs, 1),
    )?;
    call(
        rt,
        "add 2 Submitted: prefix 0, view 2 view 3 view 4 to 13",
        "2 jobs",
        &add_views(jobs, 2),
    )?;
    show_jobs(
        rt,
        &[
            "1 Submitted: prefix 0, 12 11 to 11",
            "2 Submitted: prefix 0, view 2 view 3 view 4 to 13",
        ],
        jobs,
    )
}

// "Adding an id already present replaces that record."
fn replaced(rt: &impl Print, jobs: &mut Jobs) -> io::Result<()> {
    call(
        rt,
        "add 1 Submitted: prefix 7, 10 9 to 9",
        "2 jobs",
        &add_segment(jobs, 1),
    )?;
    show_jobs(
        rt,
        &[
            "1 Submitted: prefix 7, 10 9 to 9",
            "2 Submitted: prefix 0, view 2 view 3 view 4 to 13",
        ],
        jobs,
    )
}

// "its destination is an active job's destination": refused 10, and the table is as it was.
fn destination_taken(rt: &impl Print, jobs: &mut Jobs) -> io::Result<()> {
    call(
        rt,
        "add 3 Submitted: prefix 0, view 1 to 13",
        "refused 10",
        &add(jobs, 3, Status::Submitted, Kind::To(13), 0, &[view(1)]),
    )?;
    show_jobs(
        rt,
        &[
            "1 Submitted: prefix 7, 10 9 to 9",
            "2 Submitted: prefix 0, view 2 view 3 view 4 to 13",
        ],
        jobs,
    )
}

// "job is a drain and an active drain has its prefix": the first drain of prefix 8 is added, the second refused 10.
fn drains(rt: &impl Print, jobs: &mut Jobs) -> io::Result<()> {
    call(
        rt,
        "add 3 Submitted: prefix 8, 6 drained",
        "3 jobs",
        &add(jobs, 3, Status::Submitted, Kind::Drained, 8, &[run(6)]),
    )?;
    call(
        rt,
        "add 4 Submitted: prefix 8, 5 drained",
        "refused 10",
        &add(jobs, 4, Status::Submitted, Kind::Drained, 8, &[run(5)]),
    )?;
    show_jobs(
        rt,
        &[
            "1 Submitted: prefix 7, 10 9 to 9",
            "2 Submitted: prefix 0, view 2 view 3 view 4 to 13",
            "3 Submitted: prefix 8, 6 drained",
        ],
        jobs,
    )
}

// Jobs 1 Compacted, 2 Running, 4 Failed, 5 Completed and 6 Scheduled.
fn add_remote(jobs: &mut Jobs) -> JobChange {
    let runs = [run(12), run(11)];
    add(jobs, 1, Status::Compacted, Kind::To(11), 0, &runs);
    add(jobs, 2, Status::Running, Kind::To(14), 0, &[view(4)]);
    add(jobs, 4, Status::Failed, Kind::To(4), 7, &[run(4)]);
    add(jobs, 5, Status::Completed, Kind::To(5), 7, &[run(5)]);
    add(jobs, 6, Status::Scheduled, Kind::To(6), 7, &[run(6)])
}

fn remote_jobs(rt: &impl Print, remote: &mut Jobs) -> io::Result<()> {
    call(
        rt,
        "add five jobs to a remote table",
        "5 jobs",
        &add_remote(remote),
    )?;
    show_jobs(
        rt,
        &[
            "1 Compacted: prefix 0, 12 11 to 11",
            "2 Running: prefix 0, view 4 to 14",
            "4 Failed: prefix 7, 4 to 4",
            "5 Completed: prefix 7, 5 to 5",
            "6 Scheduled: prefix 7, 6 to 6",
        ],
        remote,
    )
}

// Of the adoption table: 0 adopts 3 and not 2; absent adopts 5 and 4, and not 1. "Local jobs missing remotely stay.": job 3.
fn merged(rt: &impl Print, jobs: &mut Jobs, remote: &Jobs) -> io::Result<()> {
    call(rt, "merge it", "5 jobs", &merge(jobs, remote))?;
    show_jobs(
        rt,
        &[
            "1 Compacted: prefix 0, 12 11 to 11",
            "2 Submitted: prefix 0, view 2 view 3 view 4 to 13",
            "3 Submitted: prefix 8, 6 drained",
            "4 Failed: prefix 7, 4 to 4",
            "5 Completed: prefix 7, 5 to 5",
        ],
        jobs,
    )
}

// "Retention keeps active jobs and the finished job of largest id.": job 4 goes.
fn retained(rt: &impl Print, jobs: &mut Jobs) -> io::Result<()> {
    call(rt, "retain", "4 jobs", &retain(jobs))?;
    show_jobs(
        rt,
        &[
            "1 Compacted: prefix 0, 12 11 to 11",
            "2 Submitted: prefix 0, view 2 view 3 view 4 to 13",
            "3 Submitted: prefix 8, 6 drained",
            "5 Completed: prefix 7, 5 to 5",
        ],
        jobs,
    )
}

pub fn adding_and_merging(rt: &impl Print) -> io::Result<()> {
    heading(rt, "Jobs: adding, merging and retention")?;
    let mut jobs = Jobs::default();
    two_jobs(rt, &mut jobs)?;
    replaced(rt, &mut jobs)?;
    destination_taken(rt, &mut jobs)?;
    drains(rt, &mut jobs)?;
    let mut remote = Jobs::default();
    remote_jobs(rt, &mut remote)?;
    merged(rt, &mut jobs, &remote)?;
    retained(rt, &mut jobs)
}
