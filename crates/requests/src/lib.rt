// Requests as values and as records: the call that a slice of bytes is, or number 12. (Document 01, "What the desk says", "Records and pages".)
#![tactic(auto)]

ghost use Rattle.std.specs.Prelude.{◌≡◌, ◌≤◌, length};
ghost use Rattle.limits.specs.Limits.{key_size, read_size, delete_size};
ghost use Rattle.numbers.specs.Numbers.{number_at};
ghost use Rattle.rules.specs.Kinds.{read, insert, delete};
ghost use Rattle.rules.specs.Desk.{is_transaction, legal_ask, legal_request, legal_call};
ghost use Rattle.rules.specs.Document.{document, endless};
ghost use Rattle.requests.specs.RequestMeaning.{book_ask, book_request, book_call, book_heard};
ghost use Rattle.requests.specs.RequestRecord.{misshapen, Shaped, filled, call_in, heard, first_place, second_place};

use keys::Key;
use limits::REQUEST_HEAD_SIZE;

// Whether a transaction has this number.
pub fn is_transaction(t: u16) -> bool
    ensures { result ≡ is_transaction (document endless) t }
{
    (1 <= t) & (t <= limits::LAST_TRANSACTION)
}

// What joins the queue.
#[derive(Clone, Copy)]
pub enum Ask {
    Read(Key, Key),
    Insert(Key, u32),
    Delete(Key),
}

impl Ask {
    // The kinds of their records. (Numbers and no enum of their own: a record's kind becomes a case of these two enums at once.)
    pub const READ: u16 = 4;

    pub const INSERT: u16 = 5;

    pub const DELETE: u16 = 6;

    // Whether its keys are keys, and lo is not above hi.
    pub fn is_legal(self) -> bool
        ensures { result ≡ legal_ask (document endless) (book_ask self) }
    {
        match self {
            Ask::Read(lo, hi) => lo.is_key() & hi.is_key() & (lo <= hi),
            Ask::Insert(key, _) => key.is_key(),
            Ask::Delete(key) => key.is_key(),
        }
    }
}

// What a transaction can ask for.
#[derive(Clone, Copy)]
pub enum Request {
    Begin,
    Commit,
    Rollback,
    Asks(Ask),
}

impl Request {
    // The kinds of their records; a request that joins the queue has its ask's.
    pub const BEGIN: u16 = 1;

    pub const COMMIT: u16 = 2;

    pub const ROLLBACK: u16 = 3;

    // Whether what joins the queue is legal; the others always are.
    pub fn is_legal(self) -> bool
        ensures { result ≡ legal_request (document endless) (book_request self) }
    {
        match self {
            Request::Begin => true,
            Request::Commit => true,
            Request::Rollback => true,
            Request::Asks(ask) => ask.is_legal(),
        }
    }
}

// A request with the transaction that makes it.
#[derive(Clone, Copy)]
pub struct Call {
    pub asker: u16,
    pub request: Request,
}

impl Call {
    // Number 12 as far as it is about values.
    pub fn is_legal(self) -> bool
        ensures { result ≡ legal_call (document endless) (book_call self) }
    {
        is_transaction(self.asker) & self.request.is_legal()
    }
}

// Where the fields of a request stand behind its head: the key, or lo; then hi, or the record; then the filler of an insert.
const FIRST: usize = REQUEST_HEAD_SIZE;

const SECOND: usize = FIRST + limits::KEY_SIZE;

const FILLER: usize = SECOND + 4;

// The length of a request record by its kind. Kind 0 is none.
const LENGTHS: [usize; 7] = [
    0,
    REQUEST_HEAD_SIZE,
    REQUEST_HEAD_SIZE,
    REQUEST_HEAD_SIZE,
    limits::READ_SIZE,
    limits::INSERT_SIZE,
    limits::DELETE_SIZE,
];

// Whether a slice is no record of a kind that there is: under 8 bytes, of a length unlike slice or kind, or of an unknown kind.
fn is_misshapen(s: &[u8]) -> bool
    ensures { result ≡ misshapen s.now }
{
    if s.len() < REQUEST_HEAD_SIZE {
        return true;
    }
    let kind = numbers::number_at(s, 2);
    if !((1 <= kind) & (kind <= 6)) {
        return true;
    }
    let length = numbers::number_at(s, 0);
    (length != s.len()) | (length != LENGTHS[kind])
}

// Whether a filler is not zero: the one that every record has, and that of an insert.
fn is_filled(s: &[u8]) -> bool
    requires { Shaped s.now }
    ensures { result ≡ filled s.now }
{
    let filler = numbers::read_u16(s, 6);
    let kind = numbers::read_u16(s, 2);
    if kind == Ask::INSERT {
        return (filler != 0) | (numbers::read_u32(s, FILLER) != 0);
    }
    filler != 0
}

// The bounds of a read.
fn read_in(s: &[u8]) -> Ask
    requires { read_size ≤ length s.now }
    ensures { book_ask result ≡ read (number_at key_size s.now first_place) (number_at key_size s.now second_place) }
{
    Ask::Read(Key::read(s, FIRST), Key::read(s, SECOND))
}

// The key and record of an insert.
fn insert_in(s: &[u8]) -> Ask
    requires { read_size ≤ length s.now }
    ensures { book_ask result ≡ insert (number_at key_size s.now first_place) (number_at 4 s.now second_place) }
{
    Ask::Insert(Key::read(s, FIRST), numbers::read_u32(s, SECOND))
}

// The key of a delete.
fn delete_in(s: &[u8]) -> Ask
    requires { delete_size ≤ length s.now }
    ensures { book_ask result ≡ delete (number_at key_size s.now first_place) }
{
    Ask::Delete(Key::read(s, FIRST))
}

// What a record asks.
fn request_in(s: &[u8]) -> Request
    requires { Shaped s.now }
    ensures { book_request result ≡ (call_in s.now).request }
{
    let kind = numbers::read_u16(s, 2);
    match kind {
        Request::BEGIN => Request::Begin,
        Request::COMMIT => Request::Commit,
        Request::ROLLBACK => Request::Rollback,
        Ask::READ => Request::Asks(read_in(s)),
        Ask::INSERT => Request::Asks(insert_in(s)),
        _ => Request::Asks(delete_in(s)),
    }
}

// What a record asks, with the transaction that asks it.
fn call_in(s: &[u8]) -> Call
    requires { Shaped s.now }
    ensures { book_call result ≡ call_in s.now }
{
    Call {
        asker: numbers::read_u16(s, 4),
        request: request_in(s),
    }
}

// The call that a slice is, read as a request record; none is number 12.
pub fn read_request(s: &[u8]) -> Option<Call>
    ensures { book_heard result ≡ heard s.now }
{
    if is_misshapen(s) {
        return None;
    }
    let call = call_in(s);
    if is_filled(s) | !call.is_legal() {
        return None;
    }
    Some(call)
}
