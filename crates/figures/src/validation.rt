// Document 01's figures of validation.
use crate::cabinet::cabinet;
use crate::plan_calls::show_validation;
use crate::sources::{SourceTable, run, view};
use rules::tables::{Kind, SourceId};
use size_tiered_compaction::validate::Spec;
use std::io;

// Of a tiered spec on the cabinet's root.
fn on_root(
    rt: &impl Print,
    said: &str,
    expected: &str,
    destination: u32,
    sources: &[SourceId],
) -> io::Result<()> {
    let table = SourceTable::of(sources);
    let spec = Spec {
        drain: Kind::Tiered as u8,
        prefix: 0,
        destination,
        sources: table.lent(),
    };
    show_validation(rt, said, expected, &cabinet(), &spec)
}

// "On that root: d, 12 to 12 accepted; to 11 refused 9; b, d refused 8; c, d to 11 accepted."
pub fn validation(rt: &impl Print) -> io::Result<()> {
    let d_and_12 = [view(4), run(12)];
    on_root(rt, "validate d, 12 to 12", "accepted", 12, &d_and_12)?;
    on_root(rt, "validate d, 12 to 11", "refused 9", 11, &d_and_12)?;
    let b_and_d = [view(2), view(4)];
    on_root(rt, "validate b, d to 13", "refused 8", 13, &b_and_d)?;
    let c_and_d = [view(3), view(4)];
    on_root(rt, "validate c, d to 11", "accepted", 11, &c_and_d)
}
