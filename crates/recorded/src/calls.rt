// The calls that change tables, and whether each answers and leaves what its line says. `n` is the refusal that the line says,
// 0 for none.
use crate::jobs::{change_jobs, read_jobs};
use crate::reader::Reader;
use crate::trees::{change_trees, read_trees};
use lent::endings::{Ending, end_job};
use lent::jobs::{Jobs, merge_jobs, retain_jobs};
use lent::trees::Trees;
use rules::answers::{Finished, Refusal};
use rules::tables::{Run, Ulid};

// The number of an answer's refusal, 0 for none.
pub fn refusal_of(answer: Result<(), Refusal>) -> u32 {
    match answer {
        Ok(()) => 0,
        Err(refusal) => refusal.number(),
    }
}

// The refusal, the count and the changes that the line says, against the answer of a call and the jobs that it left.
pub fn jobs_agree(
    reader: &mut Reader,
    n: u32,
    before: &Jobs,
    answer: Result<(), Refusal>,
    left: &Jobs,
) -> bool {
    let mut said = *before;
    said.count = reader.count();
    change_jobs(reader, &mut said);
    refusal_of(answer) == n && *left == said
}

pub fn merge_agrees(reader: &mut Reader, n: u32) -> bool {
    let local = read_jobs(reader);
    let remote = read_jobs(reader);
    let mut left = local;
    let answer = merge_jobs(&mut left, &remote);
    jobs_agree(reader, n, &local, answer, &left)
}

pub fn retain_agrees(reader: &mut Reader, n: u32) -> bool {
    let jobs = read_jobs(reader);
    let mut left = jobs;
    let answer = retain_jobs(&mut left);
    jobs_agree(reader, n, &jobs, answer, &left)
}

fn answer_agrees(answer: Result<Finished, Refusal>, n: u32, missing: bool) -> bool {
    match answer {
        Ok(Finished::Committed) => n == 0 && !missing,
        Ok(Finished::SegmentMissing) => n == 0 && missing,
        Err(refusal) => refusal.number() == n && !missing,
    }
}

// What the line says of a finish or a drain, against the tables that it left: 1 where the segment is missing, and the changes. Of
// the jobs only marks may change.
fn end_agrees(
    reader: &mut Reader,
    n: u32,
    trees: &Trees,
    jobs: &Jobs,
    id: Ulid,
    ending: Ending,
) -> bool {
    let mut left_trees = *trees;
    let mut left_jobs = *jobs;
    let answer = end_job(&mut left_trees, &mut left_jobs, id, ending);
    let missing = reader.number::<u64>() == 1;
    let mut said_trees = *trees;
    change_trees(reader, &mut said_trees);
    let mut said_jobs = *jobs;
    reader.change(&mut said_jobs.marks);
    answer_agrees(answer, n, missing) && left_trees == said_trees && left_jobs == said_jobs
}

pub fn finish_agrees(reader: &mut Reader, n: u32) -> bool {
    let trees = read_trees(reader);
    let jobs = read_jobs(reader);
    let id = reader.ulid();
    let output = Run {
        id: reader.number(),
        size: reader.number(),
    };
    end_agrees(reader, n, &trees, &jobs, id, Ending::Finish(output))
}

pub fn drain_agrees(reader: &mut Reader, n: u32) -> bool {
    let trees = read_trees(reader);
    let jobs = read_jobs(reader);
    let id = reader.ulid();
    end_agrees(reader, n, &trees, &jobs, id, Ending::Drain)
}
