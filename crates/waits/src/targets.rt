// The target of a request, and the mode that it is wanted in. (Document 01, "Locks".)
ghost use Rattle.std.specs.Prelude.{◌≡◌, ◌<◌, ◌≤◌, leb};
ghost use Rattle.lists.specs.Lists.{first};
ghost use Rattle.rules.specs.Locks.{target, named, itself, mode_if, mode};
ghost use Rattle.requests.specs.RequestMeaning.{book_ask};
ghost use Rattle.queue.specs.QueueLayout.{queued};
ghost use Rattle.locks.specs.SlotLayout.{name_number, book_mode};
ghost use Rattle.index.specs.Pictures.{entries_in, WholePages};
ghost use Rattle.index.specs.Searches.{book_found};
ghost use Rattle.states.specs.States.{book};
ghost use Rattle.states.specs.Whole.{Whole};
ghost use Rattle.waits.specs.Blocks.{target_at, WantAt};

use super::Want;
use entries::Entry;
use index::Sought;
use keys::Key;
use limits::{Desk, Pages};
use locks::Mode;
use queue::transactions;
use requests::Ask;

// The entry that a request of t aims at, or nothing, which is the end.
pub fn target_of(pages: &Pages, t: u16, ask: Ask) -> Option<Entry>
    requires whole_pages { WholePages pages.now }
    requires le_t { 1 ≤ t }
    ensures { book_found result ≡ target book (entries_in pages.now) t (book_ask ask) }
{
    match ask {
        Ask::Read(lo, hi) => index::find(pages, Sought { lo, hi, asker: t }),
        Ask::Insert(key, _) | Ask::Delete(key) => at_or_above(pages, key),
    }
}

// The first entry at or above a key.
fn at_or_above(pages: &Pages, key: Key) -> Option<Entry>
    requires { WholePages pages.now }
    ensures { book_found result ≡ first (λ e. leb key.0 e.key) (entries_in pages.now) }
{
    index::find(
        pages,
        Sought {
            lo: key,
            hi: key,
            asker: 0,
        },
    )
}

// The name of a target: its key, or the end.
pub fn name_of(found: Option<Entry>) -> Key
    ensures { result.0 ≡ name_number (named book (book_found found)) }
{
    found.map_or(Key::END, |e| e.key)
}

// One mode if the target is of this key, otherwise another.
fn mode_if(found: Option<Entry>, key: Key, there: Mode, otherwise: Mode) -> Mode
    ensures { book_mode result ≡ mode_if book (book_mode there) (book_mode otherwise) (itself book key.0 (book_found found)) }
{
    match found {
        Some(e) if e.key == key => there,
        _ => otherwise,
    }
}

// The mode that a target is wanted in.
pub fn mode_of(ask: Ask, found: Option<Entry>) -> Mode
    ensures { book_mode result ≡ mode book (book_ask ask) (book_found found) }
{
    match ask {
        Ask::Read(..) => Mode::S,
        Ask::Insert(key, _) => mode_if(found, key, Mode::S, Mode::X),
        Ask::Delete(key) => mode_if(found, key, Mode::X, Mode::S),
    }
}

// The entry that the request at a place of the queue aims at, or nothing, which is the end.
pub fn target_at(pages: &Pages, desk: &Desk, q: usize) -> Option<Entry>
    requires whole { Whole pages.now desk.now }
    requires q_bound { q < queued desk.now }
    ensures { book_found result ≡ target_at pages.now desk.now q }
{
    let t = queue::in_place(desk, q);
    target_of(pages, t, transactions::ask_at(desk, t))
}

// What the request at a place of the queue wants, by its target.
pub fn want_at(pages: &Pages, desk: &Desk, q: usize, found: Option<Entry>) -> Want
    requires whole { Whole pages.now desk.now }
    requires q_bound { q < queued desk.now }
    requires found_value { book_found found ≡ target_at pages.now desk.now q }
    ensures { WantAt pages.now desk.now q result }
{
    let t = queue::in_place(desk, q);
    Want {
        asker: t,
        name: name_of(found),
        mode: mode_of(transactions::ask_at(desk, t), found),
    }
}
