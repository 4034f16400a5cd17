// The entry of a key, where a target is of that key. (Document 01, "Locks".)
ghost use Rattle.std.specs.Prelude.{◌≡◌};
ghost use Rattle.rules.specs.Locks.{itself};
ghost use Rattle.index.specs.Searches.{book_found};
ghost use Rattle.states.specs.States.{book};

use entries::Entry;
use keys::Key;

// The target if it is of this key.
pub fn standing(found: Option<Entry>, key: Key) -> Option<Entry>
    ensures { book_found result ≡ itself book key.0 (book_found found) }
{
    found.filter(|e| e.key == key)
}
