// Entries as values, and what a first insert, a delete, a commit and a rollback make of them. (Document 01, "Keys and entries".)
#![tactic(auto)]

ghost use Rattle.std.specs.Prelude.{◌≡◌, ◌<◌};
ghost use Rattle.rules.specs.Entries.{committed, rolled_back, deleted, revived, inserted, ghost};
ghost use Rattle.entries.specs.EntryMeaning.{book_entry, book_value};
ghost use Rattle.entries.specs.Absent.{or_zero};

use keys::Key;

// The record as it stands in bytes: an absent one is 0.
pub fn record(value: Option<u32>) -> u32
    ensures { (result ≡ or_zero (book_value value)) × (result < 4294967296) }
{
    value.unwrap_or(0)
}

// An entry of the index: its record now and before, if it is present then. Owner 0 is nobody.
#[derive(Clone, Copy)]
pub struct Entry {
    pub key: Key,
    pub owner: u16,
    pub now: Option<u32>,
    pub before: Option<u32>,
}

impl Entry {
    // A first insert.
    pub fn inserted(owner: u16, key: Key, rec: u32) -> Entry
        ensures { book_entry result ≡ inserted owner key.0 rec }
    {
        Entry {
            key,
            owner,
            now: Some(rec),
            before: None,
        }
    }

    // Absent now, before as it was.
    pub fn deleted(self, owner: u16) -> Entry
        ensures { book_entry result ≡ deleted owner (book_entry self) }
    {
        Entry {
            owner,
            now: None,
            ..self
        }
    }

    // Present again, before as it was.
    pub fn revived(self, owner: u16, rec: u32) -> Entry
        ensures { book_entry result ≡ revived owner rec (book_entry self) }
    {
        Entry {
            owner,
            now: Some(rec),
            ..self
        }
    }

    // Commit copies now to before; the owner is 0.
    pub fn committed(self) -> Entry
        ensures { book_entry result ≡ committed (book_entry self) }
    {
        Entry {
            owner: 0,
            before: self.now,
            ..self
        }
    }

    // Rollback copies before to now; the owner is 0.
    pub fn rolled_back(self) -> Entry
        ensures { book_entry result ≡ rolled_back (book_entry self) }
    {
        Entry {
            owner: 0,
            now: self.before,
            ..self
        }
    }

    // Whether it is absent now.
    pub fn is_ghost(self) -> bool
        ensures { result ≡ ghost (book_entry self) }
    {
        self.now.is_none()
    }
}
