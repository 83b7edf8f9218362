// Refusals 1 and 2 of a call that is lent trees and jobs.
ghost use Rattle.std.specs.Prelude.{◌≡◌};
ghost use Rattle.rules.specs.Lent.{lent_trees, lent_jobs};
ghost use Rattle.rules.specs.Answers.{refused};
ghost use Rattle.rows.specs.InSlices.{trees_in, jobs_in};
ghost use Rattle.rows.specs.Refusals.{tables_refusal};

use crate::bounds::{jobs_outside, trees_outside};
use crate::jobs::Jobs;
use crate::sources::Sources;
use crate::trees::Trees;
use rules::answers::Refusal;

// 1 of the jobs comes before 2 of the trees.
pub fn check_tables(trees: &Trees, jobs: &Jobs) -> Result<(), Refusal>
    ensures { refused result ≡ tables_refusal (trees_in trees.now) (jobs_in jobs.now) }
{
    if trees_outside(trees.count, trees.rows) {
        return Err(Refusal::OutOfBounds);
    }
    if jobs_outside(jobs.count, jobs.specs) {
        return Err(Refusal::OutOfBounds);
    }
    trees.check()?;
    jobs.check()
}
