// The desk's own part of **Whole**: its layout, the queue and the records of the transactions, the slots of the lock table. (Document 01,
// "Records and pages": "queue without repeats, exactly the waiting ones, each legal by 12"; locks "held by running transactions".)
#![tactic(auto)]

ghost use Rattle.std.specs.Prelude.{◌≡◌, ◌<◌, ◌≤◌};
ghost use Rattle.limits.specs.Limits.{transactions_most, locks_most};
ghost use Rattle.lists.specs.Lists.{tab, all};
ghost use Rattle.queue.specs.QueueLayout.{queued, record_at};
ghost use Rattle.judging_desk.specs.DeskChecks.{head_ok, askers_in, form_ok, plain_ok, record_ok, slot_ok, desk_ok};

use keys::Key;
use limits::{Desk, LOCKS};
use locks::Mode;
use queue::{head, transactions};
use requests::Ask;
use sets::Set;

// How many numbers there are with nobody's, 0; and the first number that no transaction has.
const NUMBERS: usize = limits::TRANSACTIONS + 1;

const END: u16 = limits::LAST_TRANSACTION + 1;

// Whether the head is right: length, kind, a count that fits, zeros behind it and behind the queue.
fn has_head(d: &Desk) -> bool
    ensures { result ≡ head_ok d.now }
{
    let n = queue::queued(d);
    let length = head::length_of(d);
    let kind = head::kind_of(d);
    if !((length == limits::DESK_SIZE)
        & (kind == head::KIND)
        & (n <= limits::TRANSACTIONS)
        & head::has_zeros(d))
    {
        return false;
    }
    queue::is_zero_from(d, n)
}

// The transactions in the queue: "queue without repeats". Number 0, nobody's, is set down beforehand.
fn askers(d: &Desk) -> Option<Set>
    requires d_bound { queued d.now ≤ transactions_most }
    ensures { result ≡ askers_in d.now }
{
    let n = queue::queued(d);
    let mut m = Set::NONE.with(0);
    for i in 0..n {
        let t = usize::from(queue::in_place(d, i));
        m = judging_pages::mark(m, t, NUMBERS)?;
    }
    Some(m)
}

// Whether these are the fields of a waiting request, or of none. A field not in use is zero.
fn is_form(kind: u16, rec: u32, lo: Key, hi: Key) -> bool
    ensures { result ≡ form_ok kind rec lo.0 hi.0 }
{
    let no_lo = lo == Key::LOWEST;
    let no_hi = hi == Key::LOWEST;
    ((kind == 0) & (rec == 0) & no_lo & no_hi)
        | ((kind == Ask::READ) & (rec == 0))
        | ((kind == Ask::INSERT) & no_hi)
        | ((kind == Ask::DELETE) & (rec == 0) & no_hi)
}

// Whether the fields of a transaction's record are in order by themselves.
fn is_plain(d: &Desk, t: u16) -> bool
    requires t_le_transactions_most { t ≤ transactions_most }
    ensures { result ≡ plain_ok (record_at d.now t) }
{
    let running = transactions::running_at(d, t);
    let kind = transactions::kind_at(d, t);
    let rec = transactions::rec_at(d, t);
    let lo = transactions::lo_at(d, t);
    let hi = transactions::hi_at(d, t);
    let filler = transactions::filler_at(d, t);
    (running <= 1) & is_form(kind, rec, lo, hi) & (filler == 0)
}

// Whether a transaction's record is in order: one that is in the queue waits, runs, and its request is legal; any other does not wait.
fn is_record(d: &Desk, seen: Set, t: u16) -> bool
    requires t_le_transactions_most { t ≤ transactions_most }
    ensures { result ≡ record_ok d.now seen t }
{
    let listed = seen.has(usize::from(t));
    let waits = transactions::is_waiting(d, t);
    let ask = transactions::ask_at(d, t);
    let runs = transactions::is_running(d, t);
    let stands = listed & waits & runs & ask.is_legal();
    is_plain(d, t) & (stands | (!listed & !waits))
}

// Whether every transaction's record is in order.
fn are_records(d: &Desk, seen: Set) -> bool
    ensures { result ≡ all (record_ok d.now seen) (tab transactions_most 1 (λ t. t)) }
{
    (1..END).all(|t| is_record(d, seen, t))
}

// Whether slot i is free and zero, or a lock with a mode, held by one that runs.
fn is_slot(d: &Desk, i: usize) -> bool
    requires i_lt_locks_most { i < locks_most }
    ensures { result ≡ slot_ok d.now i }
{
    let name = locks::name_at(d, i);
    let holder = locks::holder_at(d, i);
    let mode = locks::mode_at(d, i);
    let filler = locks::filler_at(d, i);
    if holder == 0 {
        return (name == Key::LOWEST) & (mode == 0) & (filler == 0);
    }
    if holder > limits::LAST_TRANSACTION {
        return false;
    }
    transactions::is_running(d, holder)
        & ((mode == Mode::S as u16) | (mode == Mode::X as u16))
        & (filler == 0)
}

// Whether every slot is in order. Where none is in use, one wide look tells.
fn are_slots(d: &Desk) -> bool
    ensures { result ≡ all (slot_ok d.now) (tab locks_most 0 (λ i. i)) }
{
    locks::are_zero(d) || (0..LOCKS).all(|i| is_slot(d, i))
}

// Whether the desk is in order by itself, the locks not yet held against one another or against the entries.
pub fn is_desk(d: &Desk) -> bool
    ensures { result ≡ desk_ok d.now }
{
    if !has_head(d) {
        return false;
    }
    let Some(seen) = askers(d) else {
        return false;
    };
    are_records(d, seen) & are_slots(d)
}
