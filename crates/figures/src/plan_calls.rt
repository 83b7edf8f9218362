// Planning with no jobs, and validation; each writes its call.
use crate::answers::{Planning, Validation};
use crate::show::{call, row};
use crate::specs::{SpecText, spec_of};
use lent::jobs::Jobs;
use lent::trees::Trees;
use plan_passes::lay::PlanTable;
use rows::sources::Sources;
use rules::Options;
use size_tiered_compaction::plan::plan;
use size_tiered_compaction::validate::{Spec, validate};
use std::io;

#[derive(Clone, Copy)]
pub struct Plan {
    specs: [u32; 192],
    marks: [u8; 1024],
    runs: [u32; 1024],
    views: [u64; 2048],
}

impl Default for Plan {
    fn default() -> Plan {
        Plan {
            specs: [0; 192],
            marks: [0; 1024],
            runs: [0; 1024],
            views: [0; 2048],
        }
    }
}

impl Plan {
    pub fn spec(&self, k: usize) -> Option<Spec<'_>> {
        let sources = Sources {
            marks: &self.marks,
            runs: &self.runs,
            views: &self.views,
        };
        spec_of(&self.specs, &sources, k, 0)
    }

    // Spec k, behind what 01 says of it.
    fn show_spec(&self, rt: &impl Print, expected: &str, k: usize) -> io::Result<()> {
        match self.spec(k) {
            Some(spec) => row(rt, expected, &SpecText(spec)),
            None => row(rt, expected, &"no spec"),
        }
    }

    // The first specs, each behind what 01 says of it.
    pub fn show(&self, rt: &impl Print, expected: &[&str]) -> io::Result<()> {
        for (k, spec) in expected.iter().enumerate() {
            self.show_spec(rt, *spec, k)?;
        }
        Ok(())
    }
}

pub fn options(threshold: f32, min: u32, max: u32, concurrent: u32) -> Options {
    Options {
        min,
        max,
        concurrent,
        threshold,
    }
}

pub fn show_plan(
    rt: &impl Print,
    said: &str,
    expected: &str,
    trees: &Trees,
    o: Options,
) -> io::Result<Plan> {
    let jobs = Jobs::default();
    let mut made = Plan::default();
    let mut lent = PlanTable {
        specs: &mut made.specs,
        marks: &mut made.marks,
        runs: &mut made.runs,
        views: &mut made.views,
    };
    let answer = plan(&trees.lent(), &jobs.lent(), o, &mut lent);
    call(rt, said, expected, &Planning(answer))?;
    Ok(made)
}

// Plans, where one pass picks one spec and the next none.
pub fn show_one_spec(
    rt: &impl Print,
    said: &str,
    spec: &str,
    trees: &Trees,
    o: Options,
) -> io::Result<()> {
    let plan = show_plan(rt, said, "1 spec, passes 1", trees, o)?;
    plan.show(rt, &[spec])
}

pub fn show_validation(
    rt: &impl Print,
    said: &str,
    expected: &str,
    trees: &Trees,
    spec: &Spec,
) -> io::Result<()> {
    let answer = validate(&trees.lent(), spec);
    call(rt, said, expected, &Validation(answer))
}
