// The end of a transaction. (Document 01, "Keys and entries", "Locks".)
#![tactic(auto)]

ghost use Rattle.std.specs.Prelude.{◌≡◌, cond, false, ◌≤◌, ◌<◌, ltb};
ghost use Rattle.limits.specs.Limits.{transactions_most, locks_most};
ghost use Rattle.rules.specs.Desk.{ended};
ghost use Rattle.pages.specs.PageChanges.{end_of};
ghost use Rattle.queue.specs.QueueLayout.{queued};
ghost use Rattle.locks.specs.SlotLayout.{slot_at, book_slot};
ghost use Rattle.locks.specs.SlotMoves.{locks_released};
ghost use Rattle.queue.specs.QueueMoves.{waits_in, queue_left, mark_put};
ghost use Rattle.index.specs.Pictures.{index_of, WholePages};
ghost use Rattle.index.specs.Changes.{settled_in, Becomes};
ghost use Rattle.states.specs.States.{book, state_of};
ghost use Rattle.states.specs.Whole.{Whole, Says};
ghost use Rattle.ends.specs.Endings.{exclusive, settled_under};

use limits::{Desk, LOCKS, Pages};
use locks::{Lock, Mode};
use queue::transactions;

// Drops t's request from the queue, if it has one there.
fn drop_request(desk: &mut Desk, t: u16)
    requires desk_bound { queued desk.old ≤ transactions_most }
    requires t_le_transactions_most { t ≤ transactions_most }
    ensures { desk.new ≡ cond (ltb (waits_in desk.old t) (queued desk.old)) (queue_left desk.old (waits_in desk.old t)) desk.old }
{
    let q = queue::place_in_queue(desk, t);
    if q < queue::queued(desk) {
        queue::leave_queue(desk, q);
    }
}

// Releases t's locks, and marks that it runs no more.
fn stop(desk: &mut Desk, t: u16)
    requires t_le_transactions_most { t ≤ transactions_most }
    ensures { desk.new ≡ mark_put (locks_released t desk.old) t false }
{
    locks::release_locks(desk, t);
    transactions::put_running(desk, t, false);
}

// From how many X locks on settling every leaf is quicker than looking each entry up.
const MANY: usize = 9;

// The lock in slot i, if it is t's lock in X.
fn exclusive_at(desk: &Desk, i: usize, t: u16) -> Option<Lock>
    requires i_lt_locks_most { i < locks_most }
    ensures { book_slot result ≡ exclusive t (slot_at desk.now i) }
{
    locks::slot_at(desk, i).filter(|lock| (lock.holder == t) & lock.mode.conflicts(Mode::S))
}

// Whether t has many X locks. What an end does never depends on it, only how long it takes.
fn has_many(desk: &Desk, t: u16) -> bool {
    (0..LOCKS)
        .filter(|i| exclusive_at(desk, *i, t).is_some())
        .take(MANY)
        .count()
        == MANY
}

// Settles t's entry of the key in slot i, if that is t's lock in X.
fn settle_under(pages: &mut Pages, desk: &Desk, i: usize, t: u16, commits: bool)
    requires whole_pages { WholePages pages.old }
    requires i_lt_locks_most { i < locks_most }
    ensures { Becomes pages.new (settled_under commits t (exclusive t (slot_at desk.now i)) (index_of pages.old)) }
{
    if let Some(lock) = exclusive_at(desk, i, t) {
        settling::settle_key(pages, lock.name, t, commits);
    }
}

// Settles all entries of t. Each stands under an X lock of t, so few locks are looked up one by one.
fn settle_entries(pages: &mut Pages, desk: &Desk, t: u16, commits: bool)
    requires whole { Whole pages.old desk.now }
    requires le_t { 1 ≤ t }
    ensures { Becomes pages.new (settled_in commits t (index_of pages.old)) }
{
    if has_many(desk, t) {
        settling::settle(pages, t, commits);
        return;
    }
    for i in 0..LOCKS {
        settle_under(pages, desk, i, t, commits);
    }
}

// Ends t: its entries are settled, its request is dropped, its locks are released, and it runs no more.
pub fn end(pages: &mut Pages, desk: &mut Desk, t: u16, commits: bool)
    requires whole { Whole pages.old desk.old }
    requires le_t { 1 ≤ t }
    requires t_le_transactions_most { t ≤ transactions_most }
    ensures { Says pages.new desk.new (ended book (end_of commits) (state_of pages.old desk.old) t) }
{
    settle_entries(pages, desk, t, commits);
    drop_request(desk, t);
    stop(desk, t);
}
