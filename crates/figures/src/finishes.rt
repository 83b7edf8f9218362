// Document 01's figures of finishing.
use crate::cabinet::{add_runs, add_segment, add_views, cabinet};
use crate::finish_calls::Tables;
use crate::job_calls::{Kind, add};
use crate::show::call;
use crate::sources::run;
use crate::trees::root;
use lent::jobs::Jobs;
use rules::tables::Status;
use std::io;

// "Finishing b c d to 13: L0 a, runs 13, 12, 11, watermark b."
pub fn finish_views(rt: &impl Print, tables: &mut Tables) -> io::Result<()> {
    call(
        rt,
        "finish b c d to 13, as job 1 with output 13 of size 3",
        "committed",
        &tables.finish(1, 13, 3),
    )?;
    tables.show(
        rt,
        &[
            "prefix 0, L0 1 (1); runs 13 (3) 12 (100) 11 (100); watermark view 2 SST 22",
            "prefix 7, L0 none; runs 10 (50) 9 (50); watermark none",
        ],
        "1 Completed: prefix 0, view 2 view 3 view 4 to 13",
        0,
    )
}

// "Finishing 12 11 to 11: runs 11."
fn finish_runs(rt: &impl Print, tables: &mut Tables) -> io::Result<()> {
    call(
        rt,
        "finish 12 11 to 11, as job 3 with output 11 of size 200",
        "committed",
        &tables.finish(3, 11, 200),
    )?;
    tables.show(
        rt,
        &[
            "prefix 0, L0 1 (1) 2 (1) 3 (1) 4 (1); runs 11 (200); watermark none",
            "prefix 7, L0 none; runs 10 (50) 9 (50); watermark none",
        ],
        "3 Completed: prefix 0, 12 11 to 11",
        2,
    )
}

// "Runs 12, 11, job 11 to 11 with output 12: refused 13."
fn output_out_of_order(rt: &impl Print) -> io::Result<()> {
    let mut jobs = Jobs::default();
    add(&mut jobs, 1, Status::Submitted, Kind::To(11), 0, &[run(11)]);
    let mut tables = Tables {
        trees: root(0, 12, &[100, 100]),
        jobs,
    };
    call(
        rt,
        "runs 12, 11: finish 11 to 11 with output 12",
        "refused 13",
        &tables.finish(1, 12, 100),
    )?;
    tables.show(
        rt,
        &["prefix 0, L0 none; runs 12 (100) 11 (100); watermark none"],
        "1 Submitted: prefix 0, 11 to 11",
        0,
    )
}

pub fn finishing(rt: &impl Print) -> io::Result<()> {
    let mut jobs = Jobs::default();
    add_views(&mut jobs, 1);
    add_segment(&mut jobs, 2);
    add_runs(&mut jobs, 3);
    let tables = Tables {
        trees: cabinet(),
        jobs,
    };
    let mut with_views = tables;
    finish_views(rt, &mut with_views)?;
    let mut with_runs = tables;
    finish_runs(rt, &mut with_runs)?;
    output_out_of_order(rt)
}
