// Jobs as text.
use crate::show::row;
use crate::specs::{SpecText, spec_of};
use lent::jobs::Jobs;
use rows::bounds::column_sum;
use rules::tables::Status;
use std::{fmt, io};

// The statuses in the order of their numbers.
const STATUSES: [Status; 6] = [
    Status::Submitted,
    Status::Scheduled,
    Status::Running,
    Status::Compacted,
    Status::Completed,
    Status::Failed,
];

// A job whose id has no high word.
#[derive(Clone, Copy)]
struct Job<'a> {
    id: u64,
    status: Status,
    spec: SpecText<'a>,
}

impl fmt::Display for Job<'_> {
    fn fmt<W: fmt::Write>(&self, f: &mut fmt::Formatter<W>) -> fmt::Result {
        write!(f, "{} {:?}: {}", self.id, self.status, self.spec)
    }
}

// The job in row i.
fn job_of(jobs: &Jobs, i: usize) -> Option<Job<'_>> {
    if i >= 64 {
        return None;
    }
    let sources = jobs.lent().sources;
    Some(Job {
        id: jobs.ids[2 * i + 1],
        status: *STATUSES.get(jobs.marks[2 * i] as usize)?,
        spec: SpecText(spec_of(&jobs.specs, &sources, i, jobs.marks[2 * i + 1])?),
    })
}

// The job in row i, behind what 01 says of it.
pub fn show_job(rt: &impl Print, expected: &str, jobs: &Jobs, i: usize) -> io::Result<()> {
    match job_of(jobs, i) {
        Some(job) => row(rt, expected, &job),
        None => row(rt, expected, &"no job"),
    }
}

// The first jobs, each behind what 01 says of it.
pub fn show_jobs(rt: &impl Print, expected: &[&str], jobs: &Jobs) -> io::Result<()> {
    for (i, job) in expected.iter().enumerate() {
        show_job(rt, *job, jobs, i)?;
    }
    Ok(())
}

// How many jobs and source entries there are.
#[derive(Clone, Copy)]
struct Counts {
    jobs: usize,
    entries: usize,
}

impl fmt::Display for Counts {
    fn fmt<W: fmt::Write>(&self, f: &mut fmt::Formatter<W>) -> fmt::Result {
        write!(f, "{} jobs, {} entries", self.jobs, self.entries)
    }
}

pub fn show_counts(rt: &impl Print, expected: &str, jobs: &Jobs) -> io::Result<()> {
    let counts = Counts {
        jobs: jobs.count,
        entries: column_sum(&jobs.specs, 2, jobs.count.min(64)),
    };
    row(rt, expected, &counts)
}
