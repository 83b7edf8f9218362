// The scans behind refusal 2: marks, ids that stand twice, ids out of order.
ghost use Rattle.std.specs.Prelude.{◌≡◌, ℕ, ◌+◌, ◌-◌, ◌*◌, ◌<◌, ◌≤◌, eqb, ltb, length, get_or};
ghost use Rattle.std.specs.List.{list_all};
ghost use Rattle.rules.specs.Lists.{any, linked, distinct};
ghost use Rattle.rules.specs.declared.tables.Ulid.{Ulid};
ghost use Rattle.rules.specs.Tables.{same_ulid, ulid_below};
ghost use Rattle.rules.specs.Lent.{rows_from, ulid_at};
ghost use Rattle.rules.specs.Bounds.{is_mark};

use crate::ids::ulid;
use rules::tables::Ulid;

// "a mark above 1": these marks have none.
pub fn marks_good(marks: &[u8]) -> bool
    ensures { result ≡ list_all is_mark marks.now }
{
    marks.iter().all(|mark| *mark <= 1)
}

// Whether number x is the first of a row from row `from` up to row `n`, in rows of `w` numbers.
fn number_from(s: &[u32], w: usize, from: usize, n: usize, x: u32) -> bool
    requires { (0 < w) × (w * n ≤ length s.now) }
    ensures { result ≡ any (eqb x) (rows_from (λ i. get_or s.now (w * i) 0) from (n - from)) }
{
    for i in from..n {
        if x == s[w * i] {
            return true;
        }
    }
    false
}

// "a prefix twice", "a run id .. twice anywhere": the first numbers of `n` rows are distinct.
pub fn numbers_distinct(s: &[u32], w: usize, n: usize) -> bool
    requires { (0 < w) × (w * n ≤ length s.now) }
    ensures { result ≡ distinct eqb (rows_from (λ i. get_or s.now (w * i) 0) 0 n) }
{
    for i in 0..n {
        if number_from(s, w, i + 1, n, s[w * i]) {
            return false;
        }
    }
    true
}

// The next two are the two above for views: one search for both would be handed how a row's key is read, and be no plainer.

// Whether a view of L0 rows from row `from` up to row `n` is this one.
fn view_from(l0_ids: &[u64], from: usize, n: usize, view: Ulid) -> bool
    requires { 4 * n ≤ length l0_ids.now }
    ensures { result ≡ any (same_ulid view) (rows_from (λ i. ulid_at l0_ids.now (4 * i)) from (n - from)) }
{
    for i in from..n {
        if view == ulid(l0_ids, 4 * i) {
            return true;
        }
    }
    false
}

// ".. or L0 view id twice anywhere": the views of `n` L0 rows are distinct.
pub fn views_distinct(l0_ids: &[u64], n: usize) -> bool
    requires { 4 * n ≤ length l0_ids.now }
    ensures { result ≡ distinct same_ulid (rows_from (λ i. ulid_at l0_ids.now (4 * i)) 0 n) }
{
    for i in 0..n {
        if view_from(l0_ids, i + 1, n, ulid(l0_ids, 4 * i)) {
            return false;
        }
    }
    true
}

// "run ids not strictly falling in a tree": these fall.
pub fn falling(run_ids: &[u32]) -> bool
    ensures { result ≡ linked (λ a b. ltb b a) run_ids.now }
{
    for i in 1..run_ids.len() {
        if run_ids[i - 1] <= run_ids[i] {
            return false;
        }
    }
    true
}

// As `falling`, of ids that are two words of a row, in the other direction.
// "job ids not strictly rising": those of `n` jobs rise.
pub fn rising(job_ids: &[u64], n: usize) -> bool
    requires { 2 * n ≤ length job_ids.now }
    ensures { result ≡ linked ulid_below (rows_from (λ i. ulid_at job_ids.now (2 * i)) 0 n) }
{
    for i in 1..n {
        if !(ulid(job_ids, 2 * (i - 1)) < ulid(job_ids, 2 * i)) {
            return false;
        }
    }
    true
}
