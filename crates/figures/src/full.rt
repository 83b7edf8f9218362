// Full tables: "the result exceeds 64 jobs, 1,024 entries .. (entries of a job to be added count only here)".
use crate::answers::JobChange;
use crate::job_calls::{Kind, add, merge};
use crate::job_text::{show_counts, show_job};
use crate::show::{call, heading};
use crate::sources::run;
use lent::jobs::Jobs;
use rules::tables::Status;
use std::io;

// Adds a job of sixteen runs that go down to `low`, to `low`.
fn add_sixteen(jobs: &mut Jobs, job: u64, low: u32) -> JobChange {
    let mut runs = [run(low); 16];
    for (id, source) in (low..).zip(runs.iter_mut().rev()) {
        *source = run(id);
    }
    add(jobs, job, Status::Submitted, Kind::To(low), 0, &runs)
}

// Adds the jobs 1 to 64, of the runs 1 to 1,024, and hands back what the last call answered.
fn add_sixty_four(jobs: &mut Jobs) -> JobChange {
    let mut last = JobChange(Ok(0));
    for (job, low) in (1..65).zip((1..1025).step_by(16)) {
        last = add_sixteen(jobs, job, low);
    }
    last
}

// The counts, the first job and the last, which a refusal leaves as they are.
fn show_full(rt: &impl Print, jobs: &Jobs) -> io::Result<()> {
    show_counts(rt, "64 jobs, 1024 entries", jobs)?;
    show_job(
        rt,
        "1 Submitted: prefix 0, 16 sources 16 .. 1 to 1",
        jobs,
        0,
    )?;
    show_job(
        rt,
        "64 Submitted: prefix 0, 16 sources 1024 .. 1009 to 1009",
        jobs,
        63,
    )
}

fn one_job_more(rt: &impl Print, jobs: &mut Jobs) -> io::Result<()> {
    call(
        rt,
        "add 65 Submitted: prefix 0, nothing to 2000",
        "refused 14",
        &add(jobs, 65, Status::Submitted, Kind::To(2000), 0, &[]),
    )?;
    show_full(rt, jobs)
}

fn one_entry_more(rt: &impl Print, jobs: &mut Jobs) -> io::Result<()> {
    let sources = [run(2000); 17];
    call(
        rt,
        "add 64 anew with 17 entries",
        "refused 14",
        &add(jobs, 64, Status::Submitted, Kind::To(2000), 0, &sources),
    )?;
    show_full(rt, jobs)
}

fn one_remote_more(rt: &impl Print, jobs: &mut Jobs) -> io::Result<()> {
    let mut remote = Jobs::default();
    add(&mut remote, 65, Status::Submitted, Kind::To(2000), 0, &[]);
    call(
        rt,
        "merge a remote table with a job 65 of no entries",
        "refused 14",
        &merge(jobs, &remote),
    )?;
    show_full(rt, jobs)
}

// As many entries as before still fit.
fn as_many_entries(rt: &impl Print, jobs: &mut Jobs) -> io::Result<()> {
    call(
        rt,
        "add 64 anew with 16 entries",
        "64 jobs",
        &add_sixteen(jobs, 64, 2000),
    )?;
    show_counts(rt, "64 jobs, 1024 entries", jobs)?;
    show_job(
        rt,
        "64 Submitted: prefix 0, 16 sources 2015 .. 2000 to 2000",
        jobs,
        63,
    )
}

pub fn full_tables(rt: &impl Print) -> io::Result<()> {
    heading(rt, "Full job tables")?;
    let mut jobs = Jobs::default();
    call(
        rt,
        "add 64 jobs of 16 entries each",
        "64 jobs",
        &add_sixty_four(&mut jobs),
    )?;
    show_full(rt, &jobs)?;
    one_job_more(rt, &mut jobs)?;
    one_entry_more(rt, &mut jobs)?;
    one_remote_more(rt, &mut jobs)?;
    as_many_entries(rt, &mut jobs)
}
