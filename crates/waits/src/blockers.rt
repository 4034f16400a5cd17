// All who block a request, as a set: who holds what it wants, a slot at a time, and who wants it ahead of it, a place at a time.
// (Document 01, "Locks".) What each request wants is noted.
ghost use Rattle.std.specs.Prelude.{◌≡◌, ◌+◌, ◌<◌};
ghost use Rattle.limits.specs.Limits.{locks_most};
ghost use Rattle.rules.specs.Locks.{earlier};
ghost use Rattle.queue.specs.QueueLayout.{queued, queued_at};
ghost use Rattle.locks.specs.SlotLayout.{book_slot};
ghost use Rattle.index.specs.Pictures.{entries_in};
ghost use Rattle.states.specs.States.{book};
ghost use Rattle.states.specs.Whole.{Whole};
ghost use Rattle.circles.specs.CircleSets.{SetOf};
ghost use Rattle.waits.specs.Choices.{book_want};
ghost use Rattle.waits.specs.Blocks.{ahead, WantAt, blockers_at, HolderKnown, holder_of, with_holder, with_rival};
ghost use Rattle.waits.specs.Notes.{Noted};
ghost use Rattle.waits.specs.Slots.{collected_with, Scanned};

use super::{Collected, Want, Wants, slots};
use limits::{Desk, LOCKS, Pages};
use locks::Lock;

// Who holds a slot; 0, nobody, where it is free.
pub fn holder_of(slot: Option<Lock>) -> usize
    ensures { result ≡ holder_of (book_slot slot) }
{
    slot.map_or(0, |lock| lock.holder as usize)
}

// The set with the holder of a slot, if its lock stands against what is wanted.
fn with_holder(set: u64, slot: Option<Lock>, w: Want) -> u64
    requires { HolderKnown (book_slot slot) }
    ensures { result ≡ with_holder set w.asker (book_want w) (book_slot slot) }
{
    if slots::is_against(slot, w) {
        return circles::with(set, holder_of(slot));
    }
    set
}

// What has been collected, with slot i.
fn collected_with(held: Collected, i: usize, slot: Option<Lock>, w: Want) -> Collected
    requires i_lt_locks_most { i < locks_most }
    requires holder_known { HolderKnown (book_slot slot) }
    ensures { result ≡ collected_with held i w.asker (book_want w) (book_slot slot) }
{
    Collected {
        against: with_holder(held.against, slot, w),
        own: slots::first_to(held.own, i, slots::is_own(slot, w)),
        free: slots::first_to(held.free, i, slot.is_none()),
    }
}

// Looks at slot i, where those before it have been looked at.
pub fn see(pages: &Pages, desk: &Desk, i: usize, w: Want, held: Collected) -> Collected
    requires whole { Whole pages.now desk.now }
    requires i_lt_locks_most { i < locks_most }
    requires scanned { Scanned desk.now w.asker (book_want w) i held }
    ensures { Scanned desk.now w.asker (book_want w) (i + 1) result }
{
    let slot = locks::slot_at(desk, i);
    collected_with(held, i, slot, w)
}

// The set with the one whose request stands at place i, if that is another's and wants the same, in a conflicting mode.
fn with_rival(set: u64, pages: &Pages, desk: &Desk, wants: &Wants, i: usize, w: Want) -> u64
    requires whole { Whole pages.now desk.now }
    requires i_bound { i < queued desk.now }
    requires noted { Noted pages.now desk.now wants.now (i + 1) }
    ensures { result ≡ with_rival set pages.now w.asker (book_want w) (queued_at desk.now i) }
{
    let other = wants[i];
    if other.clashes(w) {
        return circles::with(set, other.asker as usize);
    }
    set
}

// Who, ahead of place q, wants the same, in a conflicting mode.
fn rivals_of(pages: &Pages, desk: &Desk, wants: &Wants, q: usize, w: Want) -> u64
    requires whole { Whole pages.now desk.now }
    requires q_bound { q < queued desk.now }
    requires noted { Noted pages.now desk.now wants.now (q + 1) }
    ensures { SetOf result (earlier book (entries_in pages.now) (ahead desk.now q) w.asker (book_want w)) }
{
    let mut set = 0;
    for i in 0..q {
        set = with_rival(set, pages, desk, wants, i, w);
    }
    set
}

// All who block the request at place q, which wants this, where all slots have been looked at and the wants are noted.
pub fn blockers_of(
    pages: &Pages,
    desk: &Desk,
    wants: &Wants,
    q: usize,
    w: Want,
    held: Collected,
) -> u64
    requires whole { Whole pages.now desk.now }
    requires q_bound { q < queued desk.now }
    requires noted { Noted pages.now desk.now wants.now (q + 1) }
    requires want_at { WantAt pages.now desk.now q w }
    requires scanned { Scanned desk.now w.asker (book_want w) locks_most held }
    ensures { SetOf result (blockers_at pages.now desk.now q) }
{
    if held.own < LOCKS {
        return held.against;
    }
    held.against | rivals_of(pages, desk, wants, q, w)
}
