// "A ULID is two u64, high word first, compared in that order."
ghost use Rattle.std.specs.Prelude.{◌≡◌, ◌+◌, ◌<◌, length};
ghost use Rattle.rules.specs.Lent.{ulid_at};
ghost use Rattle.rules.specs.declared.tables.Ulid.{Ulid};
ghost use Rattle.rules.specs.declared.tables.Source.{Source};
ghost use Rattle.rules.specs.Tables.{same_ulid, ulid_below, same_id, id_of};

use rules::tables::Ulid;

// The ULID whose words stand from number `at` on.
pub fn ulid(words: &[u64], at: usize) -> Ulid
    requires { at + 1 < length words.now }
    ensures { result ≡ ulid_at words.now at }
{
    Ulid {
        high: words[at],
        low: words[at + 1],
    }
}
