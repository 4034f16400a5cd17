// The queue of waiting requests, the oldest first. (Document 01, "Working the queue".)
ghost use Rattle.std.specs.Prelude.{◌≡◌, ◌*◌, ◌-◌, ◌<◌, ◌≤◌};
ghost use Rattle.limits.specs.Limits.{transactions_most};
ghost use Rattle.numbers.specs.Numbers.{zero_at};
ghost use Rattle.requests.specs.RequestMeaning.{book_ask};
ghost use Rattle.queue.specs.QueueLayout.{queued, queue_place, in_place};
ghost use Rattle.queue.specs.QueueMoves.{waits_in, queue_joined, queue_left};

use crate::transactions;
use limits::{Desk, TRANSACTIONS};
use requests::Ask;

// Where the count of the queue stands.
const COUNT: usize = 4;

// Where its places start, two bytes each.
const PLACES: usize = limits::DESK_HEAD_SIZE;

// How many requests wait.
pub fn queued(d: &Desk) -> usize
    ensures { (result ≡ queued d.now) × (result < 65536) }
{
    numbers::number_at(d, COUNT)
}

// The transaction at a place of the queue.
pub fn in_place(d: &Desk, i: usize) -> u16
    requires i_lt_transactions_most { i < transactions_most }
    ensures { result ≡ in_place d.now i }
{
    numbers::read_u16(d, PLACES + 2 * i)
}

// Whether the places of the queue from n on are zero.
pub fn is_zero_from(d: &Desk, n: usize) -> bool
    requires n_le_transactions_most { n ≤ transactions_most }
    ensures { result ≡ zero_at (2 * transactions_most - 2 * n) (queue_place n) d.now }
{
    numbers::is_zero(d, PLACES + 2 * n, 2 * TRANSACTIONS - 2 * n)
}

// The place of t's request in the queue, or how many wait where t's does not (a number and no Option, as `waits_in` has it).
pub fn place_in_queue(d: &Desk, t: u16) -> usize
    requires d_bound { queued d.now ≤ transactions_most }
    ensures { result ≡ waits_in d.now t }
{
    let n = queued(d);
    (0..n).find(|&i| in_place(d, i) == t).unwrap_or(n)
}

// Puts t's request at the end of the queue.
pub fn join_queue(d: &mut Desk, t: u16, a: Ask)
    requires t_le_transactions_most { t ≤ transactions_most }
    requires d_bound { queued d.old < transactions_most }
    ensures { d.new ≡ queue_joined d.old t (book_ask a) }
{
    let n = queued(d);
    transactions::put_ask(d, t, a);
    numbers::write_u16(d, PLACES + 2 * n, t);
    numbers::write_u16(d, COUNT, (n + 1) as u16);
}

// Takes the request at place q out of the queue: those behind it move up, and its record says no more that it waits.
pub fn leave_queue(d: &mut Desk, q: usize)
    requires q_bound { q < queued d.old }
    requires d_bound { queued d.old ≤ transactions_most }
    requires q_bound_2 { in_place d.old q ≤ transactions_most }
    ensures { d.new ≡ queue_left d.old q }
{
    let n = queued(d);
    let t = in_place(d, q);
    transactions::clear_ask(d, t);
    rows::close_row(d, PLACES, 2, q, TRANSACTIONS);
    numbers::write_u16(d, COUNT, (n - 1) as u16);
}
