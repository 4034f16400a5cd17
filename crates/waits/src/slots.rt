// One scan of the lock table tells a request all that it needs of the locks, a slot at a time. (Document 01, "Locks".)
ghost use Rattle.std.specs.Prelude.{◌≡◌, ◌<◌};
ghost use Rattle.limits.specs.Limits.{locks_most};
ghost use Rattle.locks.specs.SlotLayout.{book_slot};
ghost use Rattle.locks.specs.SlotMoves.{is_slot_of, is_slot_against};
ghost use Rattle.waits.specs.Choices.{book_want};
ghost use Rattle.waits.specs.Slots.{first_to};

use super::Want;
use locks::Lock;

// Whether a slot is another's lock on what is wanted, in a conflicting mode.
pub fn is_against(slot: Option<Lock>, w: Want) -> bool
    ensures { result ≡ is_slot_against w.asker (book_want w).name (book_want w).mode (book_slot slot) }
{
    locks::stands_against(slot, w.asker, w.name, w.mode)
}

// Whether a slot is the asker's own lock on what it wants.
pub fn is_own(slot: Option<Lock>, w: Want) -> bool
    ensures { result ≡ is_slot_of w.asker (book_want w).name (book_slot slot) }
{
    locks::is_of(slot, w.asker, w.name)
}

// The first slot to pass a test, of those before i and slot i: by the first of those before, and by whether slot i passes. Where none passes,
// it is their number.
pub fn first_to(first: usize, i: usize, passes: bool) -> usize
    requires { i < locks_most }
    ensures { result ≡ first_to first i passes }
{
    if (first == i) & !passes {
        return i + 1;
    }
    first
}
