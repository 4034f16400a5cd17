// One page: its 512 bytes are those that its entries or children write, and these are in order. (Document 01, **Whole**: "these layouts and
// entry rules"; "keys, and separators after a page's first, strictly ascending and in that page's range".)
ghost use Rattle.std.specs.Prelude.{◌≡◌, ◌<◌, ◌≤◌, length};
ghost use Rattle.limits.specs.Limits.{page_size, leaf_most, inner_most};
ghost use Rattle.judging_pages.specs.PageChecks.{head_ok, first_page_ok, in_range, between, next_ok, entry_ok, entry_fields_at, leaf_ok, fillers_ok, first_ok, child_fields_at, inner_ok};

use keys::Key;
use limits::{CHILD_SIZE, ENTRY_SIZE, HEAD_SIZE, KEY_SIZE, PAGE_SIZE};
use pages::{inner, leaf};
use rows::head::{self, Kind};

// Whether the head has the length of a page, this kind and this level, and its eight zeros.
fn has_head(p: &[u8], kind: usize, level: usize) -> bool
    requires { length p.now ≡ page_size }
    ensures { result ≡ head_ok kind level p.now }
{
    let length = numbers::number_at(p, 0);
    let zeros = numbers::read_u64(p, 8);
    (length == PAGE_SIZE) & (head::kind_of(p) == kind) & (head::level_of(p) == level) & (zeros == 0)
}

// Where page 0 has no more numbers, and how many bytes there are from there on.
const BEHIND: usize = HEAD_SIZE + 6;

const REST: usize = limits::BODY_SIZE - 6;

// Whether it is a first page: the head, and nothing behind root, used and height.
pub fn is_first_page(p: &[u8]) -> bool
    requires { length p.now ≡ page_size }
    ensures { result ≡ first_page_ok p.now }
{
    has_head(p, Kind::First as usize, 0)
        & (head::count_of(p) == 0)
        & numbers::is_zero(p, BEHIND, REST)
}

// Whether the entry at a place is one: what is absent is 0, and "Owner 0 means settled: present, with now and before equal".
fn is_entry(p: &[u8], i: usize) -> bool
    requires p_len { length p.now ≡ page_size }
    requires i_lt_leaf_most { i < leaf_most }
    ensures { result ≡ entry_ok (entry_fields_at p.now i) }
{
    let now_at = HEAD_SIZE + ENTRY_SIZE * i + KEY_SIZE;
    let before_at = now_at + 4;
    let owner_at = before_at + 4;
    let now = numbers::read_u32(p, now_at);
    let before = numbers::read_u32(p, before_at);
    let owner = numbers::read_u16(p, owner_at);
    let there = numbers::read_u16(p, owner_at + 2);
    (there < 4)
        & ((there % 2 == 1) | (now == 0))
        & ((there / 2 == 1) | (before == 0))
        & ((owner != 0) | ((there == 3) & (now == before)))
}

// Whether a key lies from low on and below high.
fn is_in(low: Key, high: Key, key: Key) -> bool
    ensures { result ≡ in_range low.0 high.0 key.0 }
{
    (low <= key) & (key < high)
}

// Whether a key lies above low and below high.
fn is_between(low: Key, high: Key, key: Key) -> bool
    ensures { result ≡ between low.0 high.0 key.0 }
{
    (low < key) & (key < high)
}

// Whether an entry's key may come next: the first lies from low on, each other one above the last, and all below high.
fn is_next(first: bool, low: Key, high: Key, key: Key) -> bool
    ensures { result ≡ next_ok first low.0 high.0 key.0 }
{
    if first {
        return is_in(low, high, key);
    }
    is_between(low, high, key)
}

// Whether it is a leaf with keys from low on and below high.
pub fn is_leaf(p: &[u8], low: Key, high: Key) -> bool
    requires { length p.now ≡ page_size }
    ensures { result ≡ leaf_ok low.0 high.0 p.now }
{
    let n = head::count_of(p);
    if !(has_head(p, Kind::Leaf as usize, 0) & (n <= limits::LEAF_MOST)) {
        return false;
    }
    let mut last = low;
    for i in 0..n {
        let key = leaf::key_at(p, i);
        if !(is_next(i == 0, last, high, key) & is_entry(p, i)) {
            return false;
        }
        last = key;
    }
    numbers::is_zero(
        p,
        HEAD_SIZE + ENTRY_SIZE * n,
        limits::BODY_SIZE - ENTRY_SIZE * n,
    )
}

// Whether a child's six zeros are.
fn is_child(p: &[u8], i: usize) -> bool
    requires p_len { length p.now ≡ page_size }
    requires i_lt_inner_most { i < inner_most }
    ensures { result ≡ fillers_ok (child_fields_at p.now i) }
{
    let filler_at = HEAD_SIZE + CHILD_SIZE * i + KEY_SIZE + 2;
    let filler = numbers::read_u16(p, filler_at);
    let rest = numbers::read_u32(p, filler_at + 2);
    (filler == 0) & (rest == 0)
}

// Whether the first child is one: "the first separator is 0".
fn is_first_child(p: &[u8]) -> bool
    requires { length p.now ≡ page_size }
    ensures { result ≡ first_ok (child_fields_at p.now 0) }
{
    (inner::low_at(p, 0) == Key::LOWEST) & is_child(p, 0)
}

// Whether it is an inner page of a level, with at least so many children, and separators above low and below high.
pub fn is_inner(p: &[u8], level: usize, least: usize, low: Key, high: Key) -> bool
    requires p_len { length p.now ≡ page_size }
    requires le_least { 1 ≤ least }
    ensures { result ≡ inner_ok level least low.0 high.0 p.now }
{
    let n = head::count_of(p);
    if !(has_head(p, Kind::Inner as usize, level)
        & ((least <= n) & (n <= limits::INNER_MOST))
        & is_first_child(p))
    {
        return false;
    }
    let mut above = low;
    for i in 1..n {
        let key = inner::low_at(p, i);
        if !(is_between(above, high, key) & is_child(p, i)) {
            return false;
        }
        above = key;
    }
    numbers::is_zero(
        p,
        HEAD_SIZE + CHILD_SIZE * n,
        limits::BODY_SIZE - CHILD_SIZE * n,
    )
}
