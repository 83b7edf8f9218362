// Planning.
use crate::jobs::read_jobs;
use crate::reader::Reader;
use crate::slices::first_mut;
use crate::trees::read_trees;
use hex_text::threshold_of;
use lent::jobs::Jobs;
use lent::trees::Trees;
use plan_passes::lay::PlanTable;
use rules::Options;
use rules::answers::{Planned, Refusal};
use size_tiered_compaction::plan::plan;

// A plan's four slices, and how much of each is lent.
#[derive(Clone, Copy, PartialEq, Eq)]
struct Plan {
    spec_end: usize,
    specs: [u32; 192],
    mark_end: usize,
    marks: [u8; 1024],
    run_end: usize,
    runs: [u32; 1024],
    view_end: usize,
    views: [u64; 2048],
}

impl Plan {
    // The byte that unused places hold, and how much is lent of each slice.
    fn read(reader: &mut Reader) -> Plan {
        let unused = reader.number();
        Plan {
            spec_end: reader.count(),
            specs: reader.table(unused),
            mark_end: reader.count(),
            marks: reader.table(unused),
            run_end: reader.count(),
            runs: reader.table(unused),
            view_end: reader.count(),
            views: reader.table(unused),
        }
    }

    // Makes the changes that are written here.
    fn change(&mut self, reader: &mut Reader) {
        reader.change(&mut self.specs);
        reader.change(&mut self.marks);
        reader.change(&mut self.runs);
        reader.change(&mut self.views);
    }

    // Plans into the places that are lent.
    fn make(&mut self, trees: &Trees, jobs: &Jobs, o: Options) -> Result<Planned, Refusal> {
        let mut lent = PlanTable {
            specs: first_mut(&mut self.specs, self.spec_end),
            marks: first_mut(&mut self.marks, self.mark_end),
            runs: first_mut(&mut self.runs, self.run_end),
            views: first_mut(&mut self.views, self.view_end),
        };
        plan(&trees.lent(), &jobs.lent(), o, &mut lent)
    }
}

fn read_options(reader: &mut Reader) -> Options {
    Options {
        min: reader.number(),
        max: reader.number(),
        concurrent: reader.number(),
        threshold: threshold_of(reader.number()),
    }
}

// The specs and passes that the line says, or the refusal.
fn answer_agrees(answer: Result<Planned, Refusal>, n: u32, said: Planned) -> bool {
    match answer {
        Ok(made) => n == 0 && made == said,
        Err(refusal) => refusal.number() == n,
    }
}

// The changes that the line says, against the plan that the call left of the one that it was lent.
pub fn plan_agrees(reader: &mut Reader, n: u32) -> bool {
    let o = read_options(reader);
    let trees = read_trees(reader);
    let jobs = read_jobs(reader);
    let mut left = Plan::read(reader);
    let mut said = left;
    let answer = left.make(&trees, &jobs, o);
    let made = Planned {
        specs: reader.count(),
        passes: reader.count(),
    };
    said.change(reader);
    answer_agrees(answer, n, made) && left == said
}
