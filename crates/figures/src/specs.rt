// A spec of a job or of a plan, and its text.
use crate::sources::{part, source};
use rows::bounds::column_sum;
use rows::sources::Sources;
use rules::tables::{Kind, SourceId};
use size_tiered_compaction::validate::Spec;
use std::fmt;

// Spec i of the tables of jobs or of a plan, whose sources stand behind those of the specs before it.
pub fn spec_of<'a>(
    specs: &'a [u32; 192],
    sources: &Sources<'a>,
    i: usize,
    drain: u8,
) -> Option<Spec<'a>> {
    if i >= 64 {
        return None;
    }
    Some(Spec {
        drain,
        prefix: specs[3 * i],
        destination: specs[3 * i + 1],
        sources: part(sources, column_sum(specs, 2, i), specs[3 * i + 2] as usize)?,
    })
}

#[derive(Clone, Copy)]
struct Named(Option<SourceId>);

impl fmt::Display for Named {
    fn fmt<W: fmt::Write>(&self, f: &mut fmt::Formatter<W>) -> fmt::Result {
        match self.0 {
            Some(SourceId::SortedRun(id)) => write!(f, "{id}"),
            Some(SourceId::SstView(id)) => write!(f, "view {}", id.low),
            None => write!(f, "?"),
        }
    }
}

// Of more than four sources only their number, the first and the last.
fn write_sources<W: fmt::Write>(f: &mut fmt::Formatter<W>, sources: &Sources) -> fmt::Result {
    let n = sources.marks.len();
    if n == 0 {
        return write!(f, " nothing");
    }
    if n > 4 {
        let first = Named(source(sources, 0));
        let last = Named(source(sources, n - 1));
        return write!(f, " {n} sources {first} .. {last}");
    }
    for i in 0..n {
        write!(f, " {}", Named(source(sources, i)))?;
    }
    Ok(())
}

// A drain goes to no run.
#[derive(Clone, Copy)]
pub struct SpecText<'a>(pub Spec<'a>);

impl fmt::Display for SpecText<'_> {
    fn fmt<W: fmt::Write>(&self, f: &mut fmt::Formatter<W>) -> fmt::Result {
        write!(f, "prefix {},", self.0.prefix)?;
        write_sources(f, &self.0.sources)?;
        if self.0.drain == Kind::Drain as u8 {
            write!(f, " drained")
        } else {
            write!(f, " to {}", self.0.destination)
        }
    }
}
