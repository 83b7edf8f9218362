// Finding a row by its id. Each search reads a key of its own rows: one for all would be handed how, and be no plainer.
ghost use Rattle.std.specs.Prelude.{◌≡◌, not, ℕ, ◌+◌, ◌-◌, ◌*◌, ◌<◌, ◌≤◌, eqb, length, get_or, IfSome};
ghost use Rattle.rows.specs.Found.{place_of};
ghost use Rattle.rules.specs.Lists.{leading};
ghost use Rattle.rules.specs.declared.tables.Ulid.{Ulid};
ghost use Rattle.rules.specs.Tables.{same_ulid};
ghost use Rattle.rules.specs.Lent.{rows_from, ulid_at};

use crate::ids::ulid;
use crate::jobs::Jobs;
use crate::trees::Trees;
use rules::tables::Ulid;

impl Trees<'_> {
    // The tree of a prefix, by its row.
    pub fn find(&self, prefix: u32) -> Option<usize>
        requires { 3 * self.now.count ≤ length self.now.rows.now }
        ensures found { place_of self.now.count result ≡ leading (λ p. not (eqb p prefix)) (rows_from (λ k. get_or self.now.rows.now (3 * k) 0) 0 self.now.count) }
        ensures within { IfSome result (λ i. i < self.now.count) }
    {
        for i in 0..self.count {
            if self.rows[3 * i] == prefix {
                return Some(i);
            }
        }
        None
    }
}

impl Jobs<'_> {
    // The job of an id, by its row.
    pub fn find(&self, id: Ulid) -> Option<usize>
        requires { 2 * self.now.count ≤ length self.now.ids.now }
        ensures found { place_of self.now.count result ≡ leading (λ u. not (same_ulid u id)) (rows_from (λ k. ulid_at self.now.ids.now (2 * k)) 0 self.now.count) }
        ensures within { IfSome result (λ i. i < self.now.count) }
    {
        for i in 0..self.count {
            if ulid(self.ids, 2 * i) == id {
                return Some(i);
            }
        }
        None
    }
}

// The run of an id, from run `from` up to run `to`, by how many runs stand before it there.
pub fn run_in(run_ids: &[u32], from: usize, to: usize, id: u32) -> Option<usize>
    requires { (from ≤ to) × (to ≤ length run_ids.now) }
    ensures found { place_of (to - from) result ≡ leading (λ x. not (eqb x id)) (rows_from (λ k. get_or run_ids.now k 0) from (to - from)) }
    ensures within { IfSome result (λ k. k < to - from) }
{
    for i in from..to {
        if run_ids[i] == id {
            return Some(i - from);
        }
    }
    None
}

// The L0 row of a view, from row `from` up to row `to`, by how many rows stand before it there.
pub fn view_in(l0_ids: &[u64], from: usize, to: usize, view: Ulid) -> Option<usize>
    requires { (from ≤ to) × (4 * to ≤ length l0_ids.now) }
    ensures found { place_of (to - from) result ≡ leading (λ u. not (same_ulid u view)) (rows_from (λ k. ulid_at l0_ids.now (4 * k)) from (to - from)) }
    ensures within { IfSome result (λ k. k < to - from) }
{
    for i in from..to {
        if ulid(l0_ids, 4 * i) == view {
            return Some(i - from);
        }
    }
    None
}
