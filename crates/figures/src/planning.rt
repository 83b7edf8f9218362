// Document 01's figures of planning.
use crate::cabinet::cabinet;
use crate::plan_calls::{options, show_one_spec, show_plan};
use crate::trees::root;
use std::io;

// "threshold 4, runs 100, 10, 1: one chain of three. Runs 1, 4, 5: chain of two.": a window takes the whole chain, since no
// beginning of it is held back at a max of 3.
fn chains(rt: &impl Print) -> io::Result<()> {
    show_one_spec(
        rt,
        "plan runs of 100, 10, 1, threshold 4, min 2, max 3",
        "prefix 0, 3 2 1 to 1",
        &root(0, 3, &[100, 10, 1]),
        options(4.0, 2, 3, 3),
    )?;
    show_one_spec(
        rt,
        "plan runs of 1, 4, 5, threshold 4, min 2, max 3",
        "prefix 0, 3 2 to 2",
        &root(0, 3, &[1, 4, 5]),
        options(4.0, 2, 3, 3),
    )
}

// "Threshold 4, min 2, max 3, runs 5, 4, 3, 2, 1 of size 10, no L0: own list is 3, 2, 1 to 1, alone.": nine slots leave room for
// more.
fn own_list(rt: &impl Print) -> io::Result<()> {
    show_one_spec(
        rt,
        "plan runs 5 to 1 of size 10, threshold 4, min 2, max 3",
        "prefix 0, 3 2 1 to 1",
        &root(0, 5, &[10; 5]),
        options(4.0, 2, 3, 9),
    )
}

// "F = 3, no jobs. Plan whole: prefix 0, b c d to 13; prefix 7, 10 9 to 9; prefix 0, 12 11 to 11; passes 2. F = 2: the first two,
// passes 1. F = 0: none, passes 0."
fn plans_of_the_cabinet(rt: &impl Print) -> io::Result<()> {
    let specs = [
        "prefix 0, view 2 view 3 view 4 to 13",
        "prefix 7, 10 9 to 9",
        "prefix 0, 12 11 to 11",
    ];
    let whole = show_plan(
        rt,
        "plan the cabinet, F = 3",
        "3 specs, passes 2",
        &cabinet(),
        options(4.0, 2, 3, 3),
    )?;
    whole.show(rt, &specs)?;
    let part = show_plan(
        rt,
        "plan the cabinet, F = 2",
        "2 specs, passes 1",
        &cabinet(),
        options(4.0, 2, 3, 2),
    )?;
    part.show(rt, &specs[..2])?;
    show_plan(
        rt,
        "plan the cabinet, F = 0",
        "0 specs, passes 0",
        &cabinet(),
        options(4.0, 2, 3, 0),
    )?;
    Ok(())
}

pub fn planning(rt: &impl Print) -> io::Result<()> {
    chains(rt)?;
    own_list(rt)?;
    plans_of_the_cabinet(rt)
}
