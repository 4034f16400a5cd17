// Locks, and the lock table in the desk buffer. Every function takes the whole buffer. (Document 01, "Locks", "Records and pages".)
#![tactic(auto)]

ghost use Rattle.std.specs.Prelude.{◌≡◌};
ghost use Rattle.rules.specs.Locks.{conflict, stronger};
ghost use Rattle.locks.specs.SlotLayout.{name_in, mode_in, mode_number, book_mode, book_slot};
ghost use Rattle.locks.specs.SlotMoves.{is_slot_of, is_slot_against, strengthened};

use keys::Key;

mod slots;

pub use slots::{
    HOLDER, are_zero, byte_at, filler_at, holder_at, mode_at, name_at, put_slot, release_locks,
    slot_at, take_at,
};

#[derive(Clone, Copy, PartialEq, Eq)]
pub enum Mode {
    S = 1,
    X = 2,
}

impl Mode {
    // The mode that a lock's number says. (No From or TryFrom: each number says one, as `mode_in` has it, and the judge looks at it first.)
    pub fn of(number: u16) -> Mode
        ensures { book_mode result ≡ mode_in number }
    {
        if number == Mode::X as u16 {
            Mode::X
        } else {
            Mode::S
        }
    }

    // Its number in a lock: 1 for S, 2 for X.
    pub fn number(self) -> u16
        ensures { result ≡ mode_number (book_mode self) }
    {
        self as u16
    }

    // X if either is.
    pub fn stronger(self, other: Mode) -> Mode
        ensures { book_mode result ≡ stronger (book_mode self) (book_mode other) }
    {
        if self == Mode::X { self } else { other }
    }

    // Whether the two do not go together: only S goes with S.
    pub fn conflicts(self, other: Mode) -> bool
        ensures { result ≡ conflict (book_mode self) (book_mode other) }
    {
        (self == Mode::X) | (other == Mode::X)
    }
}

// A lock: on a key, or on the end by the end mark.
#[derive(Clone, Copy)]
pub struct Lock {
    pub name: Key,
    pub holder: u16,
    pub mode: Mode,
}

// Whether a slot has t's lock on a name.
pub fn is_of(slot: Option<Lock>, t: u16, name: Key) -> bool
    ensures { result ≡ is_slot_of t (name_in name.0) (book_slot slot) }
{
    slot.is_some_and(|lock| (lock.holder == t) & (lock.name == name))
}

// Whether a slot has another's lock on a name, in a mode that conflicts with the one asked for.
pub fn stands_against(slot: Option<Lock>, asker: u16, name: Key, mode: Mode) -> bool
    ensures { result ≡ is_slot_against asker (name_in name.0) (book_mode mode) (book_slot slot) }
{
    slot.is_some_and(|lock| {
        (lock.holder != asker) & ((lock.name == name) & lock.mode.conflicts(mode))
    })
}

// The lock of a slot with its mode strengthened; a free slot stays free.
pub fn strengthened(slot: Option<Lock>, mode: Mode) -> Option<Lock>
    ensures { book_slot result ≡ strengthened (book_mode mode) (book_slot slot) }
{
    let lock = slot?;
    Some(Lock {
        mode: lock.mode.stronger(mode),
        ..lock
    })
}
