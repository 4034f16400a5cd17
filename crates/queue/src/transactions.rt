// The records of the transactions: who runs, who waits, and what for.
ghost use Rattle.std.specs.Prelude.{◌≡◌, [], ◌∷◌, ◌+◌, ◌≤◌};
ghost use Rattle.limits.specs.Limits.{transactions_most, key_size};
ghost use Rattle.numbers.specs.Numbers.{number_at};
ghost use Rattle.requests.specs.RequestMeaning.{book_ask};
ghost use Rattle.queue.specs.QueueLayout.{record_place, is_running, is_waiting, ask_at, ask_fields, put_ask};
ghost use Rattle.queue.specs.QueueMoves.{mark_number, mark_put};

use keys::Key;
use limits::{Desk, KEY_SIZE};
use requests::Ask;

// Where the records start, counted from a transaction 0 that there is not.
const RECORDS: usize = limits::RECORDS_PLACE - limits::RECORD_SIZE;

// How many bytes a record has.
const WIDTH: usize = limits::RECORD_SIZE;

// Where a transaction's record stands.
fn record_place(t: u16) -> usize
    ensures { result ≡ record_place t }
{
    RECORDS + WIDTH * (t as usize)
}

// The fields of a transaction's record, one by one, as they stand: whether it runs,
pub fn running_at(d: &Desk, t: u16) -> u16
    requires t_le_transactions_most { t ≤ transactions_most }
    ensures { result ≡ number_at 2 d.now (record_place t) }
{
    numbers::read_u16(d, record_place(t))
}

// the waiting kind,
pub fn kind_at(d: &Desk, t: u16) -> u16
    requires t_le_transactions_most { t ≤ transactions_most }
    ensures { result ≡ number_at 2 d.now (record_place t + 2) }
{
    numbers::read_u16(d, record_place(t) + 2)
}

// the record,
pub fn rec_at(d: &Desk, t: u16) -> u32
    requires t_le_transactions_most { t ≤ transactions_most }
    ensures { result ≡ number_at 4 d.now (record_place t + 2 + 2) }
{
    numbers::read_u32(d, record_place(t) + 2 + 2)
}

// lo,
pub fn lo_at(d: &Desk, t: u16) -> Key
    requires t_le_transactions_most { t ≤ transactions_most }
    ensures { result.0 ≡ number_at key_size d.now (record_place t + 2 + 2 + 4) }
{
    Key::read(d, record_place(t) + 2 + 2 + 4)
}

// hi,
pub fn hi_at(d: &Desk, t: u16) -> Key
    requires t_le_transactions_most { t ≤ transactions_most }
    ensures { result.0 ≡ number_at key_size d.now (record_place t + 2 + 2 + 4 + key_size) }
{
    Key::read(d, record_place(t) + 2 + 2 + 4 + KEY_SIZE)
}

// and the filler behind them.
pub fn filler_at(d: &Desk, t: u16) -> u64
    requires t_le_transactions_most { t ≤ transactions_most }
    ensures { result ≡ number_at 8 d.now (record_place t + 2 + 2 + 4 + key_size + key_size) }
{
    numbers::read_u64(d, record_place(t) + 2 + 2 + 4 + KEY_SIZE + KEY_SIZE)
}

// Whether t runs.
pub fn is_running(d: &Desk, t: u16) -> bool
    requires t_le_transactions_most { t ≤ transactions_most }
    ensures { result ≡ is_running d.now t }
{
    running_at(d, t) == 1
}

// The number that says whether a transaction runs.
fn mark(b: bool) -> u16
    ensures { result ≡ mark_number b }
{
    if b { 1 } else { 0 }
}

// Sets down that t runs, or no longer.
pub fn put_running(d: &mut Desk, t: u16, b: bool)
    requires t_le_transactions_most { t ≤ transactions_most }
    ensures { d.new ≡ mark_put d.old t b }
{
    numbers::write_u16(d, record_place(t), mark(b));
}

// Whether t has a request in the queue.
pub fn is_waiting(d: &Desk, t: u16) -> bool
    requires t_le_transactions_most { t ≤ transactions_most }
    ensures { result ≡ is_waiting d.now t }
{
    kind_at(d, t) != 0
}

// The request that t waits for; it means something only where t waits.
pub fn ask_at(d: &Desk, t: u16) -> Ask
    requires t_le_transactions_most { t ≤ transactions_most }
    ensures { book_ask result ≡ ask_at d.now t }
{
    let kind = kind_at(d, t);
    let lo = lo_at(d, t);
    if kind == Ask::READ {
        return Ask::Read(lo, hi_at(d, t));
    }
    if kind == Ask::INSERT {
        return Ask::Insert(lo, rec_at(d, t));
    }
    Ask::Delete(lo)
}

// Writes t's waiting request by its fields, and nothing else. A field not in use is zero.
fn put_request(d: &mut Desk, t: u16, kind: u16, rec: u32, lo: Key, hi: Key)
    requires t_le_transactions_most { t ≤ transactions_most }
    ensures { d.new ≡ put_ask d.old t (kind ∷ rec ∷ lo.0 ∷ hi.0 ∷ []) }
{
    let kind_at = record_place(t) + 2;
    let rec_at = kind_at + 2;
    let lo_at = rec_at + 4;
    numbers::write_u16(d, kind_at, kind);
    numbers::write_u32(d, rec_at, rec);
    lo.write(d, lo_at);
    hi.write(d, lo_at + KEY_SIZE);
}

// Writes the request that t waits for, and nothing else.
pub fn put_ask(d: &mut Desk, t: u16, a: Ask)
    requires t_le_transactions_most { t ≤ transactions_most }
    ensures { d.new ≡ put_ask d.old t (ask_fields (book_ask a)) }
{
    match a {
        Ask::Read(lo, hi) => put_request(d, t, Ask::READ, 0, lo, hi),
        Ask::Insert(k, r) => put_request(d, t, Ask::INSERT, r, k, Key::LOWEST),
        Ask::Delete(k) => put_request(d, t, Ask::DELETE, 0, k, Key::LOWEST),
    }
}

// Sets t's waiting request to zero: t waits no longer.
pub fn clear_ask(d: &mut Desk, t: u16)
    requires t_le_transactions_most { t ≤ transactions_most }
    ensures { d.new ≡ put_ask d.old t (0 ∷ 0 ∷ 0 ∷ 0 ∷ []) }
{
    put_request(d, t, 0, 0, Key::LOWEST, Key::LOWEST);
}
