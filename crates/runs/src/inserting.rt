// The run of an insert. (Document 01, "Working the queue" and "What the desk says".)
ghost use Rattle.std.specs.Prelude.{◌≡◌, true, cond, ◌&&◌};
ghost use Prim.Native.Nat.{compare};
ghost use Rattle.rules.specs.Kinds.{insert};
ghost use Rattle.rules.specs.Entries.{ghost, revived};
ghost use Rattle.rules.specs.Runs.{done, is_present, locks_short};
ghost use Rattle.trees.specs.Growth.{missing};
ghost use Rattle.entries.specs.EntryMeaning.{book_value, book_entry};
ghost use Rattle.answers.specs.AnswerMeaning.{book_says};
ghost use Rattle.queue.specs.QueueLayout.{queued_at};
ghost use Rattle.locks.specs.SlotMoves.{free_in};
ghost use Rattle.index.specs.Pictures.{key_of, entries_in, WholePages};
ghost use Rattle.states.specs.Whole.{Whole};
ghost use Rattle.waits.specs.Choices.{Known};
ghost use Rattle.runs.specs.RunsAt.{Clear, Ran};
ghost use Rattle.runs.specs.Exchanges.{Exchanged};

use super::locking::lock_and_leave;
use super::standing::standing;
use answers::{Answer, Says};
use entries::Entry;
use keys::Key;
use limits::{Desk, LOCKS, Pages};
use locks::Mode;
use waits::Next;

// Runs the insert that is next, which nobody blocks, where its key is missing. No lock stands on a missing key, so a new one is taken, in a
// free slot, and only where the pages have room for the entry. The request leaves the queue.
fn insert_missing(pages: &mut Pages, desk: &mut Desk, next: Next, key: Key, rec: u32) -> Answer
    requires whole { Whole pages.old desk.old }
    requires clear { Clear pages.old desk.old next.place }
    requires place_value { (queued_at desk.old next.place).asks ≡ insert key.0 rec }
    requires pages_value { missing compare key_of key.0 (entries_in pages.old) ≡ true }
    requires free_value { next.free ≡ free_in desk.old }
    ensures { Ran pages.old desk.old pages.new desk.new next.place result }
{
    let t = queue::in_place(desk, next.place);
    let says = if next.free >= LOCKS {
        queue::leave_queue(desk, next.place);
        Says::LocksShort
    } else if adding::add(pages, Entry::inserted(t, key, rec)) {
        lock_and_leave(desk, Next { own: LOCKS, ..next }, t, key, Mode::X);
        Says::Done
    } else {
        queue::leave_queue(desk, next.place);
        Says::PagesShort
    };
    Answer { asker: t, says }
}

// Makes t's own ghost of the key present again, if t has the lock; a present entry is told. Gives what is said.
fn insert_there(pages: &mut Pages, given: bool, t: u16, e: Entry, rec: u32) -> Says
    requires { WholePages pages.old }
    ensures exchanged { Exchanged pages.old pages.new (given && ghost (book_entry e)) (revived t rec (book_entry e)) }
    ensures says { book_says result ≡ cond given (cond (ghost (book_entry e)) done (is_present e.key.0 (book_value e.now))) locks_short }
{
    if !given {
        return Says::LocksShort;
    }
    if !e.is_ghost() {
        return Says::IsPresent(e.key, e.now);
    }
    settling::replace(pages, e.revived(t, rec));
    Says::Done
}

// Runs the insert that is next, which nobody blocks.
pub fn run_insert(pages: &mut Pages, desk: &mut Desk, next: Next, key: Key, rec: u32) -> Answer
    requires whole { Whole pages.old desk.old }
    requires clear { Clear pages.old desk.old next.place }
    requires known { Known pages.old desk.old next }
    requires place_value { (queued_at desk.old next.place).asks ≡ insert key.0 rec }
    ensures { Ran pages.old desk.old pages.new desk.new next.place result }
{
    let t = queue::in_place(desk, next.place);
    let Some(e) = standing(next.target, key) else {
        return insert_missing(pages, desk, next, key, rec);
    };
    let given = lock_and_leave(desk, next, t, key, Mode::S);
    Answer {
        asker: t,
        says: insert_there(pages, given, t, e, rec),
    }
}
