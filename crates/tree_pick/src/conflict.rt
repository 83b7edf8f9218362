// Used ids: slatedb's ConflictChecker, whose "`HashSet` becomes a scan". The ids of all trees stand in one table.
ghost use Rattle.std.specs.Prelude.{◌≡◌, ◌+◌, ◌<◌, ◌≤◌, length};
ghost use Rattle.std.specs.List.{list_any};
ghost use Rattle.tree_pick.specs.Conflict.{used_in, keys_in, KeyAdded};

use rules::tables::SourceId;

// An id that is used of the tree of this prefix.
#[derive(Clone, Copy, PartialEq, Eq, Debug)]
pub struct Key {
    pub prefix: u32,
    pub id: SourceId,
}

// Whether a row is among these. One at a time, and not by std's `contains`, which tests several at once: on full tables that took
// up to twice the time (docs/DESIGN-PASS.md).
pub fn is_among<T: PartialEq>(rows: &[T], wanted: &T) -> bool
    ensures { result ≡ list_any (λ row. T.eq row wanted.now) rows.now }
{
    for i in 0..rows.len() {
        if rows[i] == *wanted {
            return true;
        }
    }
    false
}

// Whether an id of a tree is used: "no source and not the destination is used".
pub fn is_used(used: &[Key], prefix: u32, id: SourceId) -> bool
    ensures { result ≡ used_in used.now prefix id }
{
    is_among(used, &Key { prefix, id })
}

// A table of used ids: its first `count` rows are in use.
#[derive(Drop)]
pub struct UsedIds<'a> {
    pub keys: &'a mut [Key],
    pub count: usize,
}

impl UsedIds<'_> {
    pub fn in_use(&self) -> &[Key]
        requires { self.now.count ≤ length self.now.keys.now }
        ensures { result.now ≡ keys_in self.now }
    {
        &self.keys[..self.count]
    }

    // One key more.
    pub fn add(&mut self, prefix: u32, id: SourceId)
        requires { self.old.count < length self.old.keys.now }
        ensures { KeyAdded self.old (record { prefix = prefix; id = id }) self.new }
    {
        self.keys[self.count] = Key { prefix, id };
        self.count += 1;
    }
}
