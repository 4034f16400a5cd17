// Circles of waits. (Document 01, "Working the queue".)
// A set of transactions is a word of `sets`, with number t - 1 for transaction t, so that sixty-four fit. A row has
// a set for each transaction, at the place of its number: whom its queued request waits behind. Place 0 is not used.
#![tactic(auto)]

ghost use Rattle.std.specs.Prelude.{◌≡◌, ◌≤◌, ◌<◌, length, replicate};
ghost use Rattle.circles.specs.CircleSets.{has};
ghost use Rattle.circles.specs.Search.{with_one, further_on, reached_on, circle_on};
ghost use Rattle.circles.specs.InTheWay.{NextIn};

use sets::word;

// Who is in the way: a transaction, by its number, or nobody. (Document 02, [4]. An enum of its own and no Option: document 01 names this form.)
#[derive(Clone, Copy)]
pub enum Blocker {
    By(u16),
    Nobody,
}

// Makes every set of a row empty: nobody waits behind anybody.
pub fn clear(row: &mut [u64])
    ensures { row.new ≡ replicate (length row.old) 0 }
{
    row.fill(0);
}

// The set with t in it.
pub fn with(m: u64, t: usize) -> u64
    requires le_t { 1 ≤ t }
    requires t_bound { t ≤ 64 }
    ensures { result ≡ with_one m t }
{
    word::with(m, t - 1)
}

// Whether t is in the set.
pub fn is_in(m: u64, t: usize) -> bool
    requires le_t { 1 ≤ t }
    requires t_bound { t ≤ 64 }
    ensures { result ≡ has m t }
{
    word::has(m, t - 1)
}

// The lowest of the set's transactions from one number on and below another.
pub fn next_in(m: u64, from: usize, to: usize) -> Blocker
    requires le_from { 1 ≤ from }
    requires to_bound { to ≤ 65 }
    ensures { NextIn m from to result }
{
    for t in from..to {
        if is_in(m, t) {
            return Blocker::By(t as u16);
        }
    }
    Blocker::Nobody
}

// One link further: those of the set, and whom one of them waits behind, lowest first.
pub fn further(row: &[u64], m: u64) -> u64
    requires { length row.now ≤ 65 }
    ensures { result ≡ further_on row.now m }
{
    let mut r = m;
    let mut from = 1;
    loop {
        let Blocker::By(t) = next_in(m, from, row.len()) else {
            return r;
        };
        let at = usize::from(t);
        r |= row[at];
        from = at + 1;
    }
}

// Whom a chain from the set reaches with at most so many links. The number of links left falls; a link that adds nobody is the last that
// could.
pub fn reached(row: &[u64], links: usize, m: u64) -> u64
    requires { length row.now ≤ 65 }
    ensures { result ≡ reached_on row.now links m }
{
    let mut set = m;
    for _ in (0..links).rev() {
        let next = further(row, set);
        if next == set {
            return set;
        }
        set = next;
    }
    set
}

// Whether t's request lies on a circle: its chain comes back to it.
pub fn on_circle(row: &[u64], t: usize) -> bool
    requires le_t { 1 ≤ t }
    requires t_in_bounds { t < length row.now }
    requires row_len_bound { length row.now ≤ 65 }
    ensures { result ≡ circle_on row.now t }
{
    is_in(reached(row, row.len() - 2, row[t]), t)
}
