// What finish and drain refuse, a missing segment, and draining.
use crate::cabinet::{add_segment, cabinet};
use crate::finish_calls::Tables;
use crate::job_calls::{Kind, add};
use crate::job_text::show_jobs;
use crate::show::{call, heading};
use crate::sources::{run, view};
use crate::tree_text::show_trees;
use crate::trees::root;
use lent::jobs::Jobs;
use rules::tables::Status;
use std::io;

// Job 1 is a drain of b, d and run 12 that names d first, job 2 has no sources, job 3 a prefix that no tree has, job 4 is tiered.
fn four_jobs() -> Jobs {
    let mut jobs = Jobs::default();
    let first = [view(4), view(2), run(12)];
    add(&mut jobs, 1, Status::Submitted, Kind::Drained, 0, &first);
    add(&mut jobs, 2, Status::Submitted, Kind::To(20), 0, &[]);
    add(&mut jobs, 3, Status::Submitted, Kind::To(21), 5, &[run(21)]);
    add_segment(&mut jobs, 4);
    jobs
}

fn refused_finishes(rt: &impl Print, tables: &mut Tables) -> io::Result<()> {
    call(
        rt,
        "finish 9, which is no job",
        "refused 11",
        &tables.finish(9, 11, 1),
    )?;
    call(
        rt,
        "finish 1, which is a drain",
        "refused 12",
        &tables.finish(1, 11, 1),
    )?;
    call(
        rt,
        "finish 2, which has no sources",
        "refused 7",
        &tables.finish(2, 20, 1),
    )?;
    call(
        rt,
        "finish 4 with output 12, a run of the other tree",
        "refused 13",
        &tables.finish(4, 12, 1),
    )?;
    call(
        rt,
        "drain 9, which is no job",
        "refused 11",
        &tables.drain(9),
    )?;
    call(
        rt,
        "drain 4, which is tiered",
        "refused 12",
        &tables.drain(4),
    )
}

// The cabinet as it was, and the four jobs, of which the third may have failed.
fn show_unchanged(rt: &impl Print, third: &str, tables: &Tables) -> io::Result<()> {
    show_trees(
        rt,
        &[
            "prefix 0, L0 1 (1) 2 (1) 3 (1) 4 (1); runs 12 (100) 11 (100); watermark none",
            "prefix 7, L0 none; runs 10 (50) 9 (50); watermark none",
        ],
        &tables.trees,
    )?;
    show_jobs(
        rt,
        &[
            "1 Submitted: prefix 0, view 4 view 2 12 drained",
            "2 Submitted: prefix 0, nothing to 20",
            third,
            "4 Submitted: prefix 7, 10 9 to 9",
        ],
        &tables.jobs,
    )
}

// "A missing segment is no refusal: status becomes 5 and nothing else changes."
fn missing_segment(rt: &impl Print, tables: &mut Tables) -> io::Result<()> {
    call(
        rt,
        "finish 3, whose segment is missing",
        "segment missing",
        &tables.finish(3, 21, 1),
    )?;
    show_unchanged(rt, "3 Failed: prefix 5, 21 to 21", tables)
}

// "Drain: the watermark moves to the first L0 row in table order that is a source, if any; source rows go; status 4.": b, though
// the job names d first.
fn drained(rt: &impl Print, tables: &mut Tables) -> io::Result<()> {
    call(rt, "drain 1", "committed", &tables.drain(1))?;
    show_trees(
        rt,
        &[
            "prefix 0, L0 1 (1) 3 (1); runs 11 (100); watermark view 2 SST 22",
            "prefix 7, L0 none; runs 10 (50) 9 (50); watermark none",
        ],
        &tables.trees,
    )?;
    show_jobs(
        rt,
        &[
            "1 Completed: prefix 0, view 4 view 2 12 drained",
            "2 Submitted: prefix 0, nothing to 20",
            "3 Failed: prefix 5, 21 to 21",
            "4 Submitted: prefix 7, 10 9 to 9",
        ],
        &tables.jobs,
    )
}

// A full root, job 1 of its view and job 2 of its first run.
fn full_root() -> Tables {
    let mut jobs = Jobs::default();
    add(
        &mut jobs,
        1,
        Status::Submitted,
        Kind::To(513),
        0,
        &[view(1)],
    );
    add(
        &mut jobs,
        2,
        Status::Submitted,
        Kind::To(512),
        0,
        &[run(512)],
    );
    Tables {
        trees: root(1, 512, &[1; 512]),
        jobs,
    }
}

// "the result exceeds .. 512 runs": a view's job brings a run more, a run's job does not.
fn one_run_more(rt: &impl Print) -> io::Result<()> {
    let mut tables = full_root();
    call(
        rt,
        "512 runs: finish view 1 to 513",
        "refused 14",
        &tables.finish(1, 513, 1),
    )?;
    tables.show(
        rt,
        &["prefix 0, L0 1 (1); runs 512 (1) .. 1 (1), 512 in all; watermark none"],
        "1 Submitted: prefix 0, view 1 to 513",
        0,
    )?;
    call(
        rt,
        "512 runs: finish 512 to 512",
        "committed",
        &tables.finish(2, 512, 9),
    )?;
    show_trees(
        rt,
        &["prefix 0, L0 1 (1); runs 512 (9) .. 1 (1), 512 in all; watermark none"],
        &tables.trees,
    )
}

pub fn refusals(rt: &impl Print) -> io::Result<()> {
    heading(rt, "Finish and drain: refusals, a missing segment, a drain")?;
    let mut tables = Tables {
        trees: cabinet(),
        jobs: four_jobs(),
    };
    refused_finishes(rt, &mut tables)?;
    show_unchanged(rt, "3 Submitted: prefix 5, 21 to 21", &tables)?;
    missing_segment(rt, &mut tables)?;
    drained(rt, &mut tables)?;
    one_run_more(rt)
}
