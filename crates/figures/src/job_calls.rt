// The calls on jobs whose ids have no high word.
use crate::answers::JobChange;
use crate::sources::SourceTable;
use job_rows::table::NewJob;
use lent::jobs::{Jobs, add_job, merge_jobs, retain_jobs};
use rules::answers::Refusal;
use rules::tables::{SourceId, Status, Ulid};
use size_tiered_compaction::validate::Spec;

// Where a job's sources go: to a run, or nowhere.
#[derive(Clone, Copy)]
pub enum Kind {
    To(u32),
    Drained,
}

fn change(answer: Result<(), Refusal>, jobs: &Jobs) -> JobChange {
    match answer {
        Ok(()) => JobChange(Ok(jobs.count)),
        Err(refusal) => JobChange(Err(refusal)),
    }
}

pub fn add_spec(jobs: &mut Jobs, job: u64, status: Status, spec: &Spec) -> JobChange {
    let new = NewJob {
        id: Ulid { high: 0, low: job },
        status: status as u8,
        drain: spec.drain,
        prefix: spec.prefix,
        destination: spec.destination,
        sources: spec.sources,
    };
    let answer = add_job(jobs, &new);
    change(answer, jobs)
}

pub fn add(
    jobs: &mut Jobs,
    job: u64,
    status: Status,
    kind: Kind,
    prefix: u32,
    sources: &[SourceId],
) -> JobChange {
    let table = SourceTable::of(sources);
    let (drain, destination) = match kind {
        Kind::To(run) => (rules::tables::Kind::Tiered as u8, run),
        Kind::Drained => (rules::tables::Kind::Drain as u8, 0),
    };
    let spec = Spec {
        drain,
        prefix,
        destination,
        sources: table.lent(),
    };
    add_spec(jobs, job, status, &spec)
}

pub fn merge(jobs: &mut Jobs, remote: &Jobs) -> JobChange {
    let answer = merge_jobs(jobs, remote);
    change(answer, jobs)
}

pub fn retain(jobs: &mut Jobs) -> JobChange {
    let answer = retain_jobs(jobs);
    change(answer, jobs)
}
