// Finish and drain of jobs whose ids have no high word.
use crate::answers::End;
use crate::job_text::show_job;
use crate::tree_text::show_trees;
use lent::endings::{Ending, end_job};
use lent::jobs::Jobs;
use lent::trees::Trees;
use rules::tables::{Run, Ulid};
use std::io;

#[derive(Clone, Copy)]
pub struct Tables {
    pub trees: Trees,
    pub jobs: Jobs,
}

impl Tables {
    fn end(&mut self, job: u64, ending: Ending) -> End {
        let id = Ulid { high: 0, low: job };
        End(end_job(&mut self.trees, &mut self.jobs, id, ending))
    }

    pub fn finish(&mut self, job: u64, output: u32, size: u64) -> End {
        self.end(job, Ending::Finish(Run { id: output, size }))
    }

    pub fn drain(&mut self, job: u64) -> End {
        self.end(job, Ending::Drain)
    }

    // The trees, and the job in row i.
    pub fn show(&self, rt: &impl Print, trees: &[&str], job: &str, i: usize) -> io::Result<()> {
        show_trees(rt, trees, &self.trees)?;
        show_job(rt, job, &self.jobs, i)
    }
}
