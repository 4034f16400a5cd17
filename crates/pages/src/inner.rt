// An inner page: its children, each with its separator.
ghost use Rattle.std.specs.Prelude.{◌≡◌, ◌≤◌, ◌<◌, ltb, length, drop};
ghost use Rattle.limits.specs.Limits.{key_size, page_size, head_size, child_size, inner_most, inner_stay};
ghost use Rattle.lists.specs.Lists.{insert_at};
ghost use Rattle.numbers.specs.Numbers.{number_at, put_number};
ghost use Rattle.rows.specs.PageHead.{count_of};
ghost use Rattle.pages.specs.PageLayout.{child_at, put_child};
ghost use Rattle.pages.specs.KeyPlaces.{ChildPlace};
ghost use Rattle.rows.specs.PageRows.{rows_of, Divided};
ghost use Rattle.pages.specs.PageChanges.{child_row, child_put, from_zero, first_low};

use super::Child;
use keys::Key;
use limits::{CHILD_SIZE, HEAD_SIZE, INNER_GO, INNER_STAY, KEY_SIZE};
use rows::head;

// The child at a place.
pub fn child_at(p: &[u8], i: usize) -> Child
    requires p_len { length p.now ≡ page_size }
    requires i_lt_inner_most { i < inner_most }
    ensures { result ≡ child_at p.now i }
{
    let at = HEAD_SIZE + CHILD_SIZE * i;
    Child {
        low: Key::read(p, at),
        page: numbers::read_u16(p, at + KEY_SIZE),
    }
}

// The separator of the child at a place.
pub fn low_at(p: &[u8], i: usize) -> Key
    requires p_len { length p.now ≡ page_size }
    requires i_lt_inner_most { i < inner_most }
    ensures { result.0 ≡ (child_at p.now i).low.0 }
{
    Key::read(p, HEAD_SIZE + CHILD_SIZE * i)
}

// The place of the child that a key belongs to: the last one whose separator is at most the key, or the first.
pub fn child_for(p: &[u8], key: Key) -> usize
    requires p_len { length p.now ≡ page_size }
    requires bound { 1 ≤ count_of p.now }
    requires p_bound { count_of p.now ≤ inner_most }
    ensures { ChildPlace p.now key.0 result }
{
    let n = head::count_of(p);
    for i in 0..n - 1 {
        if is_below(p, i + 1, key) {
            return i;
        }
    }
    n - 1
}

// Whether a key is below the separator at a place.
fn is_below(p: &[u8], i: usize, key: Key) -> bool
    requires p_len { length p.now ≡ page_size }
    requires i_lt_inner_most { i < inner_most }
    ensures { result ≡ ltb key.0 (child_at p.now i).low.0 }
{
    key.is_below(low_at(p, i))
}

// Writes a child at a place.
pub fn put_child(p: &mut [u8], i: usize, c: Child)
    requires p_len { length p.old ≡ page_size }
    requires i_lt_inner_most { i < inner_most }
    ensures { p.new ≡ put_child p.old i c }
{
    let low_at = HEAD_SIZE + CHILD_SIZE * i;
    let page_at = low_at + KEY_SIZE;
    let rest_at = page_at + 2;
    c.low.write(p, low_at);
    numbers::write_u16(p, page_at, c.page);
    numbers::write_u16(p, rest_at, 0);
    numbers::write_u32(p, rest_at + 2, 0);
}

// Puts a child in at a place. Those from there on move up by one.
pub fn insert_child(p: &mut [u8], i: usize, c: Child)
    requires p_len { length p.old ≡ page_size }
    requires p_bound { count_of p.old < inner_most }
    requires i_bound { i ≤ count_of p.old }
    ensures { p.new ≡ child_put p.old i c }
{
    let n = head::count_of(p);
    rows::open_row(p, HEAD_SIZE, CHILD_SIZE, i, n);
    put_child(p, i, c);
    head::put_count(p, n + 1);
}

// Puts a child in at a place of a full inner page. The lowest INNER_STAY stay, the others go to an inner page that has none yet; the first
// separator there becomes 0, and what it was is returned.
pub fn split_children(left: &mut [u8], right: &mut [u8], i: usize, c: Child) -> Key
    requires left_len { length left.old ≡ page_size }
    requires right_len { length right.old ≡ page_size }
    requires left_value { count_of left.old ≡ inner_most }
    requires right_value { count_of right.old ≡ 0 }
    requires i_le_inner_most { i ≤ inner_most }
    ensures divided { Divided child_size inner_stay from_zero (insert_at i (child_row c) (rows_of child_size left.old)) left.old right.old left.new right.new }
    ensures result_value { result.0 ≡ first_low (drop inner_stay (insert_at i (child_row c) (rows_of child_size left.old))) }
{
    if i < INNER_STAY {
        rows::part_rows(left, right, CHILD_SIZE, INNER_STAY - 1, INNER_GO);
        insert_child(left, i, c);
        return take_first_low(right);
    }
    rows::part_rows(left, right, CHILD_SIZE, INNER_STAY, INNER_GO - 1);
    insert_child(right, i - INNER_STAY, c);
    take_first_low(right)
}

// The first separator, which becomes 0.
fn take_first_low(p: &mut [u8]) -> Key
    requires { length p.old ≡ page_size }
    ensures result_value { result.0 ≡ number_at key_size p.old head_size }
    ensures p_after { p.new ≡ put_number key_size p.old head_size 0 }
{
    let low = Key::read(p, HEAD_SIZE);
    Key::LOWEST.write(p, HEAD_SIZE);
    low
}
