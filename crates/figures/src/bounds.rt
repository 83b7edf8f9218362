// Document 01's figures of what planning takes and what it refuses.
use crate::cabinet::cabinet;
use crate::plan_calls::{options, show_plan};
use crate::trees::{parted, root};
use lent::trees::Trees;
use std::io;

// "Sizes 2^64 - 1 and 1 as runs of one tree: refused 4; in two trees: planned."
fn large_sizes(rt: &impl Print) -> io::Result<()> {
    let one_tree = root(0, 2, &[u64::MAX, 1]);
    show_plan(
        rt,
        "plan runs of 2^64 - 1 and 1 in one tree, min 1",
        "refused 4",
        &one_tree,
        options(4.0, 1, 3, 3),
    )?;
    let plan = show_plan(
        rt,
        "plan runs of 2^64 - 1 and 1 in two trees, min 1",
        "2 specs, passes 1",
        &parted(one_tree, 1, 1, 1),
        options(4.0, 1, 3, 3),
    )?;
    plan.show(rt, &["prefix 0, 2 to 2", "prefix 1, 1 to 1"])
}

// "min 0: refused 3."
fn no_min(rt: &impl Print) -> io::Result<()> {
    show_plan(
        rt,
        "plan the cabinet, min 0",
        "refused 3",
        &cabinet(),
        options(4.0, 0, 3, 3),
    )?;
    Ok(())
}

// Trees with nothing in them, of the prefixes 0 to 31.
fn empty_trees() -> Trees {
    let mut trees = root(0, 0, &[]);
    for (prefix, first) in (0..32).zip(trees.rows.iter_mut().step_by(3)) {
        *first = prefix;
    }
    trees.count = 32;
    trees
}

// "32 trees pass, 33 refused 1."
fn tree_counts(rt: &impl Print) -> io::Result<()> {
    let mut trees = empty_trees();
    show_plan(
        rt,
        "plan 32 trees",
        "0 specs, passes 0",
        &trees,
        options(4.0, 2, 3, 3),
    )?;
    trees.count = 33;
    show_plan(
        rt,
        "plan 33 trees",
        "refused 1",
        &trees,
        options(4.0, 2, 3, 3),
    )?;
    Ok(())
}

pub fn bounds(rt: &impl Print) -> io::Result<()> {
    large_sizes(rt)?;
    no_min(rt)?;
    tree_counts(rt)
}
