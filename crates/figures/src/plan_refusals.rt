// What planning and validation refuse beside 01's figures.
use crate::cabinet::cabinet;
use crate::plan_calls::{options, show_plan, show_validation};
use crate::show::heading;
use lent::trees::Trees;
use rows::sources::Sources;
use rules::tables::Kind;
use size_tiered_compaction::validate::Spec;
use std::io;

// "not 1 <= min <= max <= 64", and "at most 64 concurrent jobs".
fn wrong_options(rt: &impl Print) -> io::Result<()> {
    show_plan(
        rt,
        "plan the cabinet, min 4, max 3",
        "refused 3",
        &cabinet(),
        options(4.0, 4, 3, 3),
    )?;
    show_plan(
        rt,
        "plan the cabinet, 65 concurrent jobs",
        "refused 1",
        &cabinet(),
        options(4.0, 2, 3, 65),
    )?;
    Ok(())
}

// The spec c, d to 11, but for its kind and its prefix.
fn c_and_d(
    rt: &impl Print,
    said: &str,
    expected: &str,
    trees: &Trees,
    drain: u8,
    prefix: u32,
) -> io::Result<()> {
    let spec = Spec {
        drain,
        prefix,
        destination: 11,
        sources: Sources {
            marks: &[0; 2],
            runs: &[0; 2],
            views: &[0, 3, 0, 4],
        },
    };
    show_validation(rt, said, expected, trees, &spec)
}

// "drain accepted at once, then 6": of a prefix that no tree has. "a mark above 1, .. a spec to validate included": the kind.
fn kinds(rt: &impl Print) -> io::Result<()> {
    let trees = cabinet();
    let of_prefix_8 = "validate c, d to 11 of prefix 8";
    c_and_d(rt, of_prefix_8, "refused 6", &trees, Kind::Tiered as u8, 8)?;
    let drain = "validate a drain of c, d of prefix 8";
    c_and_d(rt, drain, "accepted", &trees, Kind::Drain as u8, 8)?;
    let of_kind_2 = "validate c, d to 11 of a kind 2";
    c_and_d(rt, of_kind_2, "refused 2", &trees, 2, 0)
}

// A tiered spec to 11 on the cabinet's root.
fn to_11(rt: &impl Print, said: &str, expected: &str, sources: Sources) -> io::Result<()> {
    let spec = Spec {
        drain: Kind::Tiered as u8,
        prefix: 0,
        destination: 11,
        sources,
    };
    show_validation(rt, said, expected, &cabinet(), &spec)
}

// "tiered spec has no sources"; "lent lengths disagree .. a mark above 1".
fn wrong_sources(rt: &impl Print) -> io::Result<()> {
    to_11(
        rt,
        "validate nothing to 11",
        "refused 7",
        Sources {
            marks: &[],
            runs: &[],
            views: &[],
        },
    )?;
    to_11(
        rt,
        "validate c, d to 11 with a mark 2",
        "refused 2",
        Sources {
            marks: &[0, 2],
            runs: &[0; 2],
            views: &[0, 3, 0, 4],
        },
    )?;
    to_11(
        rt,
        "validate c, d to 11 with half of d's id",
        "refused 2",
        Sources {
            marks: &[0; 2],
            runs: &[0; 2],
            views: &[0, 3, 0],
        },
    )
}

// "1 to 32 trees", and "a prefix twice": the third row is a root too.
fn wrong_trees(rt: &impl Print) -> io::Result<()> {
    let mut trees = cabinet();
    trees.count = 0;
    let no_tree = "validate c, d to 11 on no tree";
    c_and_d(rt, no_tree, "refused 1", &trees, 0, 0)?;
    trees.count = 33;
    let too_many = "validate c, d to 11 on 33 trees";
    c_and_d(rt, too_many, "refused 1", &trees, 0, 0)?;
    trees.count = 3;
    let two_roots = "validate c, d to 11 on two roots";
    c_and_d(rt, two_roots, "refused 2", &trees, 0, 0)
}

pub fn plan_refusals(rt: &impl Print) -> io::Result<()> {
    heading(rt, "Planning and validation: refusals")?;
    wrong_options(rt)?;
    kinds(rt)?;
    wrong_sources(rt)?;
    wrong_trees(rt)
}
