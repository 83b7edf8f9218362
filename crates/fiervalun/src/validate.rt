// Validation of a spec, for C.
ghost use Rattle.std.specs.Prelude.{◌≡◌};
ghost use Rattle.rules.specs.Lent.{lent_trees};
ghost use Rattle.rules.specs.Validation.{lent_spec};
ghost use Rattle.rules.specs.Calls.{validate_call, validate_number};

use rows::sources::Sources;
use rows::trees::Trees;
use size_tiered_compaction::validate::{Spec, validate};

#[unsafe(no_mangle)]
pub extern "C" fn fiervalun_validate(
    tree_count: usize,
    trees: &[u32],
    watermark_marks: &[u8],
    watermarks: &[u64],
    l0_ids: &[u64],
    l0_sizes: &[u64],
    run_ids: &[u32],
    run_sizes: &[u64],
    drain: u8,
    prefix: u32,
    destination: u32,
    marks: &[u8],
    runs: &[u32],
    views: &[u64],
) -> u32
    ensures { result ≡ validate_number (validate_call (lent_trees tree_count trees.now watermark_marks.now watermarks.now l0_ids.now l0_sizes.now run_ids.now run_sizes.now) (lent_spec drain prefix destination marks.now runs.now views.now)) }
{
    let lent = Trees {
        count: tree_count,
        rows: trees,
        watermark_marks,
        watermarks,
        l0_ids,
        l0_sizes,
        run_ids,
        run_sizes,
    };
    let spec = Spec {
        drain,
        prefix,
        destination,
        sources: Sources { marks, runs, views },
    };
    match validate(&lent, &spec) {
        Ok(()) => 0,
        Err(refusal) => refusal.number(),
    }
}
