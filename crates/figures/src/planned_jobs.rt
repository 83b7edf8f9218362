// The cabinet planned, its specs added as jobs, and these finished one after another.
use crate::cabinet::cabinet;
use crate::finish_calls::Tables;
use crate::finishes::finish_views;
use crate::job_calls::add_spec;
use crate::job_text::show_jobs;
use crate::plan_calls::{Plan, options, show_plan};
use crate::show::{call, heading};
use lent::jobs::Jobs;
use rules::tables::Status;
use size_tiered_compaction::validate::Spec;
use std::io;

// Adds a spec of a plan as a job.
fn add_planned(
    rt: &impl Print,
    said: &str,
    expected: &str,
    jobs: &mut Jobs,
    job: u64,
    spec: Option<Spec>,
) -> io::Result<()> {
    match spec {
        Some(spec) => call(
            rt,
            said,
            expected,
            &add_spec(jobs, job, Status::Submitted, &spec),
        ),
        None => call(rt, said, expected, &"no spec"),
    }
}

fn added(rt: &impl Print, jobs: &mut Jobs, plan: &Plan) -> io::Result<()> {
    let first = "add the first spec as job 1";
    add_planned(rt, first, "1 job", jobs, 1, plan.spec(0))?;
    let second = "add the second spec as job 2";
    add_planned(rt, second, "2 jobs", jobs, 2, plan.spec(1))?;
    let third = "add the third spec as job 3";
    add_planned(rt, third, "3 jobs", jobs, 3, plan.spec(2))?;
    show_jobs(
        rt,
        &[
            "1 Submitted: prefix 0, view 2 view 3 view 4 to 13",
            "2 Submitted: prefix 7, 10 9 to 9",
            "3 Submitted: prefix 0, 12 11 to 11",
        ],
        jobs,
    )
}

fn finish_segment(rt: &impl Print, tables: &mut Tables) -> io::Result<()> {
    call(
        rt,
        "finish 10 9 to 9, as job 2 with output 9 of size 100",
        "committed",
        &tables.finish(2, 9, 100),
    )?;
    tables.show(
        rt,
        &[
            "prefix 0, L0 1 (1); runs 13 (3) 12 (100) 11 (100); watermark view 2 SST 22",
            "prefix 7, L0 none; runs 9 (100); watermark none",
        ],
        "2 Completed: prefix 7, 10 9 to 9",
        1,
    )
}

// Run 11 goes behind run 13, which the first finish put there.
fn finish_runs(rt: &impl Print, tables: &mut Tables) -> io::Result<()> {
    call(
        rt,
        "finish 12 11 to 11, as job 3 with output 11 of size 200",
        "committed",
        &tables.finish(3, 11, 200),
    )?;
    tables.show(
        rt,
        &[
            "prefix 0, L0 1 (1); runs 13 (3) 11 (200); watermark view 2 SST 22",
            "prefix 7, L0 none; runs 9 (100); watermark none",
        ],
        "3 Completed: prefix 0, 12 11 to 11",
        2,
    )
}

// "Finish, any status", and "the watermark takes it, and its SST id if the view is still there, else absent".
fn finish_again(rt: &impl Print, tables: &mut Tables) -> io::Result<()> {
    call(
        rt,
        "finish 1 again with output 13 of size 4",
        "committed",
        &tables.finish(1, 13, 4),
    )?;
    tables.show(
        rt,
        &[
            "prefix 0, L0 1 (1); runs 13 (4) 11 (200); watermark view 2",
            "prefix 7, L0 none; runs 9 (100); watermark none",
        ],
        "1 Completed: prefix 0, view 2 view 3 view 4 to 13",
        0,
    )
}

pub fn planned_jobs(rt: &impl Print) -> io::Result<()> {
    heading(rt, "The cabinet, planned and finished")?;
    let mut tables = Tables {
        trees: cabinet(),
        jobs: Jobs::default(),
    };
    let plan = show_plan(
        rt,
        "plan the cabinet, F = 3",
        "3 specs, passes 2",
        &tables.trees,
        options(4.0, 2, 3, 3),
    )?;
    added(rt, &mut tables.jobs, &plan)?;
    finish_views(rt, &mut tables)?;
    finish_segment(rt, &mut tables)?;
    finish_runs(rt, &mut tables)?;
    finish_again(rt, &mut tables)
}
