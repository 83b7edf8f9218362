// The watermark that a finish or a drain leaves to its tree.
ghost use Rattle.std.specs.Prelude.{◌≡◌, Bool, not, ℕ, ◌+◌, ◌*◌, ◌<◌, ◌≤◌, eqb, length, get_or, List, ◌∷◌, IfSome};
ghost use Rattle.rules.specs.Lists.{keep, leading};
ghost use Rattle.rules.specs.declared.tables.SourceId.{SourceId};
ghost use Rattle.rules.specs.Tables.{L0Row, Tree};
ghost use Rattle.rules.specs.Lent.{LentTrees, rows_from, l0_at, watermark_at};
ghost use Rattle.rules.specs.Finish.{finish_mark, drain_mark};
ghost use Rattle.rows.specs.Movers.{marked};
ghost use Rattle.rows.specs.Found.{place_of};

use rows::find::view_in;
use rows::ids::ulid;
use rows::read::TreeRows;
use rows::trees::Trees;
use rules::tables::{SourceId, Ulid, Watermark};

// "If the first source is an L0 view, the watermark takes it, and its SST id if the view is still there, else absent.": of tree
// `i`, whose rows are those of `part`.
pub fn finish_mark(trees: &Trees, i: usize, part: TreeRows, first: SourceId) -> Watermark
    requires { (2 * i + 1 < length trees.now.watermark_marks.now) × (4 * i + 3 < length trees.now.watermarks.now) × (4 * (part.first_row + part.rows) ≤ length trees.now.l0_ids.now) }
    ensures { (t : LentTrees) (x : Tree) (others : List SourceId) → t.watermark_marks ≡ trees.now.watermark_marks.now → t.watermarks ≡ trees.now.watermarks.now → t.l0_ids ≡ trees.now.l0_ids.now → x.watermark ≡ watermark_at t i → x.l0 ≡ rows_from (l0_at t) part.first_row part.rows → result ≡ finish_mark (first ∷ others) x }
{
    let SourceId::SstView(view) = first else {
        return trees.watermark(i);
    };
    let end = part.first_row + part.rows;
    match view_in(trees.l0_ids, part.first_row, end, view) {
        Some(k) => Watermark {
            view_mark: 1,
            sst_mark: 1,
            view,
            sst: ulid(trees.l0_ids, 4 * (part.first_row + k) + 2),
        },
        None => Watermark {
            view_mark: 1,
            sst_mark: 0,
            view,
            sst: Ulid { high: 0, low: 0 },
        },
    }
}

// How many of `rows` rows from row `first` on stand before the first that goes, where one goes.
#[tactic(auto, using(rows::proofs::Finds::seek_found))]
fn first_gone(kept: &[u8], first: usize, rows: usize) -> Option<usize>
    requires { first + rows ≤ length kept.now }
    ensures found { place_of rows result ≡ leading (λ f. not (eqb f 0)) (rows_from (λ k. get_or kept.now k 0) first rows) }
    ensures within { IfSome result (λ k. k < rows) }
{
    for i in first..first + rows {
        if kept[i] == 0 {
            return Some(i - first);
        }
    }
    None
}

// "the watermark moves to the first L0 row in table order that is a source, if any": `kept` has 0 for those.
pub fn drain_mark(trees: &Trees, i: usize, part: TreeRows, kept: &[u8]) -> Watermark
    requires { (2 * i + 1 < length trees.now.watermark_marks.now) × (4 * i + 3 < length trees.now.watermarks.now) × (4 * (part.first_row + part.rows) ≤ length trees.now.l0_ids.now) × (part.first_row + part.rows ≤ length kept.now) }
    ensures { (t : LentTrees) (x : Tree) (p : L0Row → Bool) → t.watermark_marks ≡ trees.now.watermark_marks.now → t.watermarks ≡ trees.now.watermarks.now → t.l0_ids ≡ trees.now.l0_ids.now → x.watermark ≡ watermark_at t i → ((k : ℕ) → k < part.rows → marked (get_or kept.now (part.first_row + k) 0) ≡ not (p (l0_at t (part.first_row + k)))) → result ≡ drain_mark (keep p (rows_from (l0_at t) part.first_row part.rows)) x }
{
    let Some(k) = first_gone(kept, part.first_row, part.rows) else {
        return trees.watermark(i);
    };
    let at = part.first_row + k;
    Watermark {
        view_mark: 1,
        sst_mark: 1,
        view: ulid(trees.l0_ids, 4 * at),
        sst: ulid(trees.l0_ids, 4 * at + 2),
    }
}
