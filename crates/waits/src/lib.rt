// Who waits, and behind whom: a request's target, all who block it, the oldest request that isn't blocked, the lightest on a circle.
// (Document 01, "Locks" and "Working the queue".) Everything is worked out from the bytes of a whole picture, afresh each turn.
#![tactic(auto)]

ghost use Rattle.std.specs.Prelude.{◌≡◌, not, ◌&&◌, eqb};
ghost use Rattle.rules.specs.Locks.{clash};
ghost use Rattle.states.specs.States.{book};
ghost use Rattle.waits.specs.Choices.{book_want};

use entries::Entry;
use keys::Key;
use limits::TRANSACTIONS;
use locks::Mode;

mod blocked;
mod blockers;
mod lightest;
mod slots;
pub mod targets;

pub use blocked::oldest;
pub use lightest::lightest_on_circle;

// Whom each queued request waits behind, as a set at its transaction's number; place 0 is not used.
pub type Row = [u64; TRANSACTIONS + 1];

// What each queued request wants, noted at its place.
type Wants = [Want; TRANSACTIONS];

// What a request wants: who asks, its target's name, and the mode.
#[derive(Clone, Copy)]
pub struct Want {
    pub asker: u16,
    pub name: Key,
    pub mode: Mode,
}

impl Want {
    // Whether the other is another's, and wants the same, in a conflicting mode.
    fn clashes(self, other: Want) -> bool
        ensures { result ≡ (not (eqb self.asker other.asker) && clash book (book_want self) (book_want other)) }
    {
        (self.asker != other.asker) & ((self.name == other.name) & self.mode.conflicts(other.mode))
    }
}

// The request that runs next: its place in the queue, its target, the slot of its asker's own lock on the target's name, and the lowest free
// slot. Where there is no such slot, it is the number of slots: no Option, since `held_in` and `free_in` of the definitions say so.
#[derive(Clone, Copy)]
pub struct Next {
    pub place: usize,
    pub target: Option<Entry>,
    pub own: usize,
    pub free: usize,
}

// A request that is looked at: its target, and what it wants.
#[derive(Clone, Copy)]
struct Looked {
    target: Option<Entry>,
    want: Want,
}

// What a scan of the lock table has collected: who stands against the asker, as a set, the first slot with the asker's own lock on what it
// wants, and the first that is free. Where there is no such slot, it is the number of those seen.
#[derive(Clone, Copy)]
struct Collected {
    against: u64,
    own: usize,
    free: usize,
}

// The lightest request on a circle of those looked at: its place, and how many locks its transaction holds; where there is none, one more than
// there are.
#[derive(Clone, Copy)]
struct Yielding {
    place: Option<usize>,
    held: u64,
}
