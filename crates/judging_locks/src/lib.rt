// Locks against one another and against the entries. (Document 01, **Whole**: "owners running and holding X on their entry; locks only on
// entries or the end, .., compatible, one per holder and name".)
#![tactic(auto)]

ghost use Rattle.std.specs.Prelude.{◌≡◌, ◌<◌, ◌≤◌, ◌+◌, ◌-◌};
ghost use Rattle.limits.specs.Limits.{locks_most, pages_most, leaf_most};
ghost use Rattle.lists.specs.Lists.{tab, all, any, pairs};
ghost use Rattle.rows.specs.PageHead.{count_of};
ghost use Rattle.pages.specs.PageLayout.{entry_at, entries_of};
ghost use Rattle.index.specs.Pictures.{page_at};
ghost use Rattle.locks.specs.SlotLayout.{slot_at, slots_of, book_slot};
ghost use Rattle.judging_locks.specs.LockChecks.{slot_together, slot_has_x, slot_holds, entry_held, has_key, find_at, owners_at, slot_named, locks_ok, Fine};

use keys::Key;
use limits::{Desk, LOCKS, Pages};
use locks::{Lock, Mode, slot_at};

// Whether two slots go together: of two locks on one name the holders differ and the modes do not conflict.
fn go_together(a: Option<Lock>, b: Option<Lock>) -> bool
    ensures { result ≡ slot_together (book_slot a) (book_slot b) }
{
    let Some(k) = a else {
        return true;
    };
    let Some(l) = b else {
        return true;
    };
    (k.name != l.name) | ((k.holder != l.holder) & !k.mode.conflicts(l.mode))
}

// Whether slot i goes together with slot j.
pub fn stand_together(d: &Desk, i: usize, j: usize) -> bool
    requires i_lt_locks_most { i < locks_most }
    requires j_lt_locks_most { j < locks_most }
    ensures { result ≡ slot_together (slot_at d.now i) (slot_at d.now j) }
{
    go_together(slot_at(d, i), slot_at(d, j))
}

// Whether slot i goes together with every later one. Nothing is looked at where it is free.
fn stands_with_later(d: &Desk, i: usize) -> bool
    requires i_lt_locks_most { i < locks_most }
    ensures { result ≡ all (slot_together (slot_at d.now i)) (tab (locks_most - (i + 1)) (i + 1) (slot_at d.now)) }
{
    slot_at(d, i).is_none() || (i + 1..LOCKS).all(|j| stand_together(d, i, j))
}

// Whether all locks go together: "compatible, one per holder and name".
fn are_together(d: &Desk) -> bool
    ensures { result ≡ pairs slot_together (slots_of d.now) }
{
    (0..LOCKS).all(|i| stands_with_later(d, i))
}

// Whether a slot has an X lock.
fn has_x(a: Option<Lock>) -> bool
    ensures { result ≡ slot_has_x (book_slot a) }
{
    a.is_some_and(|l| l.mode == Mode::X)
}

// Whether slot i is t's X on a key.
pub fn is_x_of(d: &Desk, i: usize, t: u16, key: Key) -> bool
    requires i_lt_locks_most { i < locks_most }
    ensures { result ≡ slot_holds t key.0 (slot_at d.now i) }
{
    let s = slot_at(d, i);
    locks::is_of(s, t, key) & has_x(s)
}

// Whether t holds X on a key.
fn holds_x(d: &Desk, t: u16, key: Key) -> bool
    ensures { result ≡ any (slot_holds t key.0) (slots_of d.now) }
{
    (0..LOCKS).any(|i| is_x_of(d, i, t, key))
}

// Whether the entry at a place of page q has no owner, or one that holds X on it.
fn is_held(pages: &Pages, d: &Desk, q: usize, i: usize) -> bool
    requires q_lt_pages_most { q < pages_most }
    requires i_lt_leaf_most { i < leaf_most }
    ensures { result ≡ entry_held d.now (entry_at (page_at pages.now q) i) }
{
    let e = pages::leaf::entry_at(index::page(pages, q), i);
    (e.owner == 0) || holds_x(d, e.owner, e.key)
}

// The same of every entry of leaf q.
fn are_held(pages: &Pages, d: &Desk, q: usize) -> bool
    requires q_lt_pages_most { q < pages_most }
    requires q_bound { count_of (page_at pages.now q) ≤ leaf_most }
    ensures { result ≡ all (entry_held d.now) (entries_of (page_at pages.now q)) }
{
    let n = index::count_at(pages, q);
    (0..n).all(|i| is_held(pages, d, q, i))
}

// The same of every entry of the tree of a level from page q down.
fn owners_hold(pages: &Pages, d: &Desk, level: usize, q: usize) -> bool
    requires fine { Fine level pages.now q }
    ensures { result ≡ owners_at level pages.now d.now q }
{
    if level == 0 {
        return are_held(pages, d, q);
    }
    let n = index::count_at(pages, q);
    for i in 0..n {
        let child = index::child_page(pages, q, i);
        if !owners_hold(pages, d, level - 1, child) {
            return false;
        }
    }
    true
}

// Whether leaf q has an entry with a key.
fn has_entry(pages: &Pages, q: usize, key: Key) -> bool
    requires q_lt_pages_most { q < pages_most }
    requires q_bound { count_of (page_at pages.now q) ≤ leaf_most }
    ensures { result ≡ any (has_key key.0) (entries_of (page_at pages.now q)) }
{
    let n = index::count_at(pages, q);
    (0..n).any(|i| is_at(pages, q, i, key))
}

// Whether the entry at a place of leaf q has a key.
fn is_at(pages: &Pages, q: usize, i: usize, key: Key) -> bool
    requires q_lt_pages_most { q < pages_most }
    requires i_lt_leaf_most { i < leaf_most }
    ensures { result ≡ has_key key.0 (entry_at (page_at pages.now q) i) }
{
    pages::leaf::key_at(index::page(pages, q), i) == key
}

// Whether the tree of a level from page q down has an entry with a key.
fn has_key(pages: &Pages, level: usize, q: usize, key: Key) -> bool
    requires { Fine level pages.now q }
    ensures { result ≡ find_at level pages.now key.0 q }
{
    if level == 0 {
        return has_entry(pages, q, key);
    }
    let n = index::count_at(pages, q);
    for i in 0..n {
        let child = index::child_page(pages, q, i);
        if has_key(pages, level - 1, child, key) {
            return true;
        }
    }
    false
}

// Whether slot i is free, or its lock is on the end or on an entry.
fn is_named(pages: &Pages, d: &Desk, level: usize, root: usize, i: usize) -> bool
    requires fine { Fine level pages.now root }
    requires i_lt_locks_most { i < locks_most }
    ensures { result ≡ slot_named level pages.now root (slot_at d.now i) }
{
    let Some(l) = slot_at(d, i) else {
        return true;
    };
    l.name.is_end() || has_key(pages, level, root, l.name)
}

// The same of every slot: "locks only on entries or the end".
fn are_named(pages: &Pages, d: &Desk, level: usize, root: usize) -> bool
    requires fine { Fine level pages.now root }
    ensures { result ≡ all (slot_named level pages.now root) (slots_of d.now) }
{
    (0..LOCKS).all(|i| is_named(pages, d, level, root, i))
}

// Whether the locks are in order against one another and against the entries of the tree from its root down.
pub fn are_locks(pages: &Pages, d: &Desk, level: usize, root: usize) -> bool
    requires fine { Fine level pages.now root }
    ensures { result ≡ locks_ok level pages.now d.now root }
{
    if !are_together(d) {
        return false;
    }
    if !are_named(pages, d, level, root) {
        return false;
    }
    owners_hold(pages, d, level, root)
}
