// The calls that are lent a spec by itself.
use crate::calls::{jobs_agree, refusal_of};
use crate::jobs::read_jobs;
use crate::reader::Reader;
use crate::slices::first;
use crate::trees::read_trees;
use job_rows::table::NewJob;
use lent::jobs::add_job;
use rows::sources::Sources;
use size_tiered_compaction::validate::{Spec, validate};

// The three slices of a spec's sources, and how much of each is lent: room for more than a table has.
#[derive(Drop)]
struct SpecSources {
    mark_end: usize,
    marks: [u8; 1100],
    run_end: usize,
    runs: [u32; 1100],
    view_end: usize,
    views: [u64; 2200],
}

impl SpecSources {
    fn read(reader: &mut Reader) -> SpecSources {
        SpecSources {
            mark_end: reader.count(),
            marks: reader.table(0),
            run_end: reader.count(),
            runs: reader.table(0),
            view_end: reader.count(),
            views: reader.table(0),
        }
    }

    fn lent(&self) -> Sources<'_> {
        Sources {
            marks: first(&self.marks, self.mark_end),
            runs: first(&self.runs, self.run_end),
            views: first(&self.views, self.view_end),
        }
    }
}

pub fn validate_agrees(reader: &mut Reader, n: u32) -> bool {
    let trees = read_trees(reader);
    let drain = reader.number();
    let prefix = reader.number();
    let destination = reader.number();
    let sources = SpecSources::read(reader);
    let spec = Spec {
        drain,
        prefix,
        destination,
        sources: sources.lent(),
    };
    refusal_of(validate(&trees.lent(), &spec)) == n
}

pub fn add_agrees(reader: &mut Reader, n: u32) -> bool {
    let jobs = read_jobs(reader);
    let id = reader.ulid();
    let status = reader.number();
    let drain = reader.number();
    let prefix = reader.number();
    let destination = reader.number();
    let sources = SpecSources::read(reader);
    let job = NewJob {
        id,
        status,
        drain,
        prefix,
        destination,
        sources: sources.lent(),
    };
    let mut left = jobs;
    let answer = add_job(&mut left, &job);
    jobs_agree(reader, n, &jobs, answer, &left)
}
