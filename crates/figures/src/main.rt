// Runs every figure of document 01 through the public calls, then walks of our own, and writes what 01 says of each call and what
// came of it.
#![tactic(auto)]

mod answers;
mod bounds;
mod cabinet;
mod finish_calls;
mod finishes;
mod full;
mod job_calls;
mod job_text;
mod jobs;
mod limits;
mod plan_calls;
mod plan_refusals;
mod planned_jobs;
mod planning;
mod refusals;
mod show;
mod sources;
mod specs;
mod tree_text;
mod trees;
mod validation;

use std::io;

// "Figures to hold to", in 01's order.
fn figures(rt: &impl Print) -> io::Result<()> {
    show::heading(rt, "Figures of document 01")?;
    println!(rt; "a, b, c, d are the views 1 to 4 of the SSTs 21 to 24; sizes stand in brackets")?;
    limits::limits(rt)?;
    planning::planning(rt)?;
    validation::validation(rt)?;
    finishes::finishing(rt)?;
    bounds::bounds(rt)
}

fn main(rt: HostRuntime) -> io::Result<()> {
    figures(&rt)?;
    plan_refusals::plan_refusals(&rt)?;
    jobs::adding_and_merging(&rt)?;
    full::full_tables(&rt)?;
    planned_jobs::planned_jobs(&rt)?;
    refusals::refusals(&rt)
}
