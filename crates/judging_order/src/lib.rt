// The quick way through the locks: they are put in order of name and holder, and one walk over the entries passes along it. Nothing is
// promised of the order (`sorting`); so it is looked at first. Where it is none, the plain tests tell (`judging_locks`).
#![tactic(auto)]

ghost use Rattle.std.specs.Prelude.{◌≡◌, true, ℕ, ◌*◌, ◌<◌, ◌≤◌, ◌-◌, leb};
ghost use Rattle.limits.specs.Limits.{locks_most, pages_most, leaf_most, slot_size, slots_place};
ghost use Rattle.lists.specs.Lists.{tab, all, any};
ghost use Rattle.numbers.specs.Numbers.{zero_at};
ghost use Rattle.trees.specs.Trees.{flat};
ghost use Rattle.rows.specs.PageHead.{count_of};
ghost use Rattle.pages.specs.PageLayout.{entry_at, entries_of};
ghost use Rattle.index.specs.Pictures.{Item, page_at, tree_of};
ghost use Rattle.locks.specs.SlotLayout.{book_slot};
ghost use Rattle.judging_locks.specs.LockChecks.{slot_holds, locks_ok, Fine};
ghost use Rattle.judging_order.specs.LockOrders.{placed, comes_first, goes_up, clashes, begins, has_place, slot_on, stretch, past_entry, past, walked};

use keys::Key;
use limits::{Desk, LOCKS, Pages};
use locks::{Lock, slot_at};
use sorting::{Order, number_in};

// The slot at a place of the order.
fn slot_in(d: &Desk, order: &Order, a: usize) -> Option<Lock>
    requires a_lt_locks_most { a < locks_most }
    ensures { book_slot result ≡ placed d.now order.now a }
{
    slot_at(d, number_in(order, a))
}

// Whether one slot comes before another: its name is lower, or of one name its holder is and the modes go together.
fn comes_first(a: Option<Lock>, b: Option<Lock>) -> bool
    ensures { result ≡ comes_first (book_slot a) (book_slot b) }
{
    let Some(k) = a else {
        return false;
    };
    let Some(l) = b else {
        return false;
    };
    (k.name < l.name) | ((k.name == l.name) & (k.holder < l.holder) & !k.mode.conflicts(l.mode))
}

// The first place, from 1 on, whose slot does not come after the one before it; m or more where the first m places go up.
fn climb(d: &Desk, order: &Order, m: usize) -> usize
    requires m_le_locks_most { m ≤ locks_most }
    ensures { (1 ≤ result) × (leb m result ≡ all (goes_up d.now order.now) (tab (m - 1) 1 (λ a. a))) }
{
    let mut last = slot_in(d, order, 0);
    for a in 1..m {
        let next = slot_in(d, order, a);
        if !comes_first(last, next) {
            return a;
        }
        last = next;
    }
    m.max(1)
}

// Whether a place and the one before it have different slots that do not go together.
fn is_clash(d: &Desk, order: &Order, a: usize) -> bool
    requires le_a { 1 ≤ a }
    requires a_lt_locks_most { a < locks_most }
    ensures { result ≡ clashes d.now order.now a }
{
    let i = number_in(order, a - 1);
    let j = number_in(order, a);
    (i != j) & !judging_locks::stand_together(d, i, j)
}

// Whether the first of m places, if there is one, has a lock.
fn has_first(d: &Desk, order: &Order, m: usize) -> bool
    ensures { result ≡ begins d.now order.now m }
{
    (m == 0) | slot_in(d, order, 0).is_some()
}

// Whether slot i is free, or stands among the first m at the place that is noted for it.
fn has_place(d: &Desk, order: &Order, places: &Order, m: usize, i: usize) -> bool
    requires i_lt_locks_most { i < locks_most }
    ensures { result ≡ has_place d.now order.now places.now m i }
{
    let free = slot_at(d, i).is_none();
    let a = number_in(places, i);
    let j = number_in(order, a);
    free | ((a < m) & (j == i))
}

// The same of every slot: none in use is left out of the order.
fn have_places(d: &Desk, order: &Order, places: &Order, m: usize) -> bool
    ensures { result ≡ all (has_place d.now order.now places.now m) (tab locks_most 0 (λ i. i)) }
{
    (0..LOCKS).all(|i| has_place(d, order, places, m, i))
}

// Whether a slot has a lock on a name.
fn is_on(a: Option<Lock>, name: Key) -> bool
    ensures { result ≡ slot_on name.0 (book_slot a) }
{
    a.is_some_and(|l| l.name == name)
}

// Whether the lock at a place is on a name.
fn is_on_at(d: &Desk, order: &Order, a: usize, name: Key) -> bool
    requires a_lt_locks_most { a < locks_most }
    ensures { result ≡ slot_on name.0 (placed d.now order.now a) }
{
    is_on(slot_in(d, order, a), name)
}

// Passes the locks on a name from place k on: the first place, of m, with another. (By `for`: with `find` a whole judgement took longer by a
// twelfth.)
fn pass_name(d: &Desk, order: &Order, m: usize, k: usize, name: Key) -> usize
    requires m_le_locks_most { m ≤ locks_most }
    requires k_le_m { k ≤ m }
    ensures { result ≡ stretch (placed d.now order.now) m name.0 k }
{
    for j in k..m {
        if !is_on_at(d, order, j, name) {
            return j;
        }
    }
    m
}

// Whether the lock at a place is t's X on a key.
fn is_x_at(d: &Desk, order: &Order, a: usize, t: u16, key: Key) -> bool
    requires a_lt_locks_most { a < locks_most }
    ensures { result ≡ slot_holds t key.0 (placed d.now order.now a) }
{
    judging_locks::is_x_of(d, number_in(order, a), t, key)
}

// Whether one of the locks from place k to place j is t's X on a key.
fn holds_x_among(d: &Desk, order: &Order, k: usize, j: usize, t: u16, key: Key) -> bool
    requires j_le_locks_most { j ≤ locks_most }
    ensures { result ≡ any (slot_holds t key.0) (tab (j - k) k (placed d.now order.now)) }
{
    (k..j).any(|a| is_x_at(d, order, a, t, key))
}

// Passes the entry at a place of page q with the locks on it, from place k of the order on. Its owner, if it has one, is to hold X. Gives
// the place where the walk has come to, or nothing where it cannot go on.
fn pass_entry(
    pages: &Pages,
    d: &Desk,
    order: &Order,
    m: usize,
    q: usize,
    i: usize,
    k: usize,
) -> Option<usize>
    requires m_le_locks_most { m ≤ locks_most }
    requires q_lt_pages_most { q < pages_most }
    requires i_lt_leaf_most { i < leaf_most }
    requires k_le_m { k ≤ m }
    ensures { result ≡ past_entry (placed d.now order.now) m (entry_at (page_at pages.now q) i) k }
{
    let e = pages::leaf::entry_at(index::page(pages, q), i);
    let j = pass_name(d, order, m, k, e.key);
    let held = (e.owner == 0) || holds_x_among(d, order, k, j, e.owner, e.key);
    held.then_some(j)
}

// Passes the entries of leaf q, from place k of the order on. Gives the same.
fn pass_leaf(pages: &Pages, d: &Desk, order: &Order, m: usize, q: usize, k: usize) -> Option<usize>
    requires m_le_locks_most { m ≤ locks_most }
    requires q_lt_pages_most { q < pages_most }
    requires q_bound { count_of (page_at pages.now q) ≤ leaf_most }
    requires k_le_m { k ≤ m }
    ensures { result ≡ past (placed d.now order.now) m (entries_of (page_at pages.now q)) k }
{
    let n = index::count_at(pages, q);
    let mut at = k;
    for i in 0..n {
        at = pass_entry(pages, d, order, m, q, i, at)?;
    }
    Some(at)
}

// Passes the entries of the tree of a level from page q down, from place k of the order on. Gives the same.
fn pass_tree(
    pages: &Pages,
    d: &Desk,
    order: &Order,
    m: usize,
    level: usize,
    q: usize,
    k: usize,
) -> Option<usize>
    requires fine { Fine level pages.now q }
    requires m_le_locks_most { m ≤ locks_most }
    requires k_le_m { k ≤ m }
    ensures { result ≡ past (placed d.now order.now) m (flat ℕ Item level (tree_of level pages.now q)) k }
{
    if level == 0 {
        return pass_leaf(pages, d, order, m, q, k);
    }
    let n = index::count_at(pages, q);
    let mut at = k;
    for i in 0..n {
        let child = index::child_page(pages, q, i);
        at = pass_tree(pages, d, order, m, level - 1, child, at)?;
    }
    Some(at)
}

// Whether the walk over the tree passes every lock but those on the end.
fn pass_all(pages: &Pages, d: &Desk, order: &Order, m: usize, level: usize, root: usize) -> bool
    requires fine { Fine level pages.now root }
    requires m_le_locks_most { m ≤ locks_most }
    ensures { result ≡ walked level pages.now d.now order.now m root }
{
    let Some(j) = pass_tree(pages, d, order, m, level, root, 0) else {
        return false;
    };
    pass_name(d, order, m, j, Key::END) == m
}

// The same as `stand_in_order`, where the order does not go up at a place: its locks clash, or it is no order.
fn stand_apart(pages: &Pages, d: &Desk, order: &Order, a: usize, level: usize, root: usize) -> bool
    requires fine { Fine level pages.now root }
    requires le_a { 1 ≤ a }
    requires a_lt_locks_most { a < locks_most }
    ensures { result ≡ locks_ok level pages.now d.now root }
{
    !is_clash(d, order, a) && judging_locks::are_locks(pages, d, level, root)
}

// The same where some slot is in use.
fn stand_sorted(pages: &Pages, d: &Desk, level: usize, root: usize) -> bool
    requires fine { Fine level pages.now root }
    ensures { result ≡ locks_ok level pages.now d.now root }
{
    let mut order = [0u8; LOCKS];
    let mut places = [0u8; LOCKS];
    let m = sorting::put_in_order(d, &mut order, &mut places);
    let a = climb(d, &order, m);
    if a < m {
        return stand_apart(pages, d, &order, a, level, root);
    }
    if !(has_first(d, &order, m) & have_places(d, &order, &places, m)) {
        return judging_locks::are_locks(pages, d, level, root);
    }
    pass_all(pages, d, &order, m, level, root)
}

// The same where none is: only owners are left to look for.
fn stand_free(pages: &Pages, d: &Desk, level: usize, root: usize) -> bool
    requires fine { Fine level pages.now root }
    requires d_value { zero_at (slot_size * locks_most) slots_place d.now ≡ true }
    ensures { result ≡ locks_ok level pages.now d.now root }
{
    let order = [0u8; LOCKS];
    pass_all(pages, d, &order, 0, level, root)
}

// Whether the locks are in order against one another and against the entries of the tree from its root down.
pub fn stand_in_order(pages: &Pages, d: &Desk, level: usize, root: usize) -> bool
    requires fine { Fine level pages.now root }
    ensures { result ≡ locks_ok level pages.now d.now root }
{
    if locks::are_zero(d) {
        return stand_free(pages, d, level, root);
    }
    stand_sorted(pages, d, level, root)
}
