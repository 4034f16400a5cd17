// A leaf: its entries, by their keys.
ghost use Rattle.std.specs.Prelude.{◌≡◌, ◌≤◌, ◌<◌, length};
ghost use Rattle.limits.specs.Limits.{page_size, entry_size, leaf_most, leaf_stay};
ghost use Rattle.lists.specs.Lists.{insert_at};
ghost use Rattle.entries.specs.EntryMeaning.{book_entry, book_value};
ghost use Rattle.rows.specs.PageHead.{count_of};
ghost use Rattle.pages.specs.PageLayout.{if_bit, bit, EntryFits, entry_at, put_entry};
ghost use Rattle.rows.specs.PageRows.{rows_of, Divided, as_they_are};
ghost use Rattle.pages.specs.PageChanges.{entry_row, entry_put, entry_taken, end_of, leaf_settled};
ghost use Rattle.pages.specs.LeafSteps.{RowSettled, PackedAs};
ghost use Rattle.pages.specs.KeyPlaces.{EntryPlace};

use entries::Entry;
use keys::Key;
use limits::{ENTRY_SIZE, HEAD_SIZE, KEY_SIZE, LEAF_GO, LEAF_STAY};
use rows::head;

// The entry at a place.
pub fn entry_at(p: &[u8], i: usize) -> Entry
    requires p_len { length p.now ≡ page_size }
    requires i_lt_leaf_most { i < leaf_most }
    ensures { book_entry result ≡ entry_at p.now i }
{
    let key_at = HEAD_SIZE + ENTRY_SIZE * i;
    let now_at = key_at + KEY_SIZE;
    let before_at = now_at + 4;
    let owner_at = before_at + 4;
    let key = Key::read(p, key_at);
    let now = numbers::read_u32(p, now_at);
    let before = numbers::read_u32(p, before_at);
    let owner = numbers::read_u16(p, owner_at);
    let there = numbers::read_u16(p, owner_at + 2);
    Entry {
        key,
        owner,
        now: value_if(there, now),
        before: value_if(there / 2, before),
    }
}

// The key of the entry at a place.
pub fn key_at(p: &[u8], i: usize) -> Key
    requires p_len { length p.now ≡ page_size }
    requires i_lt_leaf_most { i < leaf_most }
    ensures { result.0 ≡ (entry_at p.now i).key }
{
    Key::read(p, HEAD_SIZE + ENTRY_SIZE * i)
}

// The place of the first entry at or above a key, or how many entries there are. The places left are halved, so that of a full leaf at most
// five keys are looked at. (A loop of its own: the library halves slices of values, and these are rows of bytes.)
pub fn first_at_or_above(p: &[u8], key: Key) -> usize
    requires p_len { length p.now ≡ page_size }
    requires p_bound { count_of p.now ≤ leaf_most }
    ensures { EntryPlace p.now key.0 result }
{
    let mut low: usize = 0;
    let mut high = head::count_of(p);
    while low < high {
        let middle = low + (high - low) / 2;
        let behind = middle + 1;
        if key <= key_at(p, middle) {
            high = middle;
        } else {
            low = behind;
        }
    }
    low
}

// Writes an entry at a place.
pub fn put_entry(p: &mut [u8], i: usize, e: Entry)
    requires p_len { length p.old ≡ page_size }
    requires i_lt_leaf_most { i < leaf_most }
    ensures p_after { p.new ≡ put_entry p.old i (book_entry e) }
    ensures entry_fits { EntryFits (book_entry e) }
{
    let key_at = HEAD_SIZE + ENTRY_SIZE * i;
    let now_at = key_at + KEY_SIZE;
    let before_at = now_at + 4;
    let owner_at = before_at + 4;
    let row = pack(e);
    e.key.write(p, key_at);
    numbers::write_u32(p, now_at, row.now);
    numbers::write_u32(p, before_at, row.before);
    numbers::write_u16(p, owner_at, e.owner);
    numbers::write_u16(p, owner_at + 2, row.there);
}

// Puts an entry in at a place. Those from there on move up by one.
pub fn insert_entry(p: &mut [u8], i: usize, e: Entry)
    requires p_len { length p.old ≡ page_size }
    requires p_bound { count_of p.old < leaf_most }
    requires i_bound { i ≤ count_of p.old }
    ensures p_after { p.new ≡ entry_put p.old i (book_entry e) }
    ensures entry_fits { EntryFits (book_entry e) }
{
    let n = head::count_of(p);
    rows::open_row(p, HEAD_SIZE, ENTRY_SIZE, i, n);
    put_entry(p, i, e);
    head::put_count(p, n + 1);
}

// Takes the entry at a place out. Those behind it move down by one, and the last one's bytes are zero.
pub fn take_entry(p: &mut [u8], i: usize)
    requires p_len { length p.old ≡ page_size }
    requires p_bound { count_of p.old ≤ leaf_most }
    requires i_bound { i < count_of p.old }
    ensures { p.new ≡ entry_taken p.old i }
{
    let n = head::count_of(p);
    rows::close_row(p, HEAD_SIZE, ENTRY_SIZE, i, n);
    head::put_count(p, n - 1);
}

// Puts an entry in at a place of a full leaf. The lowest LEAF_STAY stay, the others go to a leaf that has none yet.
pub fn split_leaf(left: &mut [u8], right: &mut [u8], i: usize, e: Entry)
    requires left_len { length left.old ≡ page_size }
    requires right_len { length right.old ≡ page_size }
    requires left_value { count_of left.old ≡ leaf_most }
    requires right_value { count_of right.old ≡ 0 }
    requires i_le_leaf_most { i ≤ leaf_most }
    ensures divided { Divided entry_size leaf_stay as_they_are (insert_at i (entry_row (book_entry e)) (rows_of entry_size left.old)) left.old right.old left.new right.new }
    ensures entry_fits { EntryFits (book_entry e) }
{
    if i < LEAF_STAY {
        rows::part_rows(left, right, ENTRY_SIZE, LEAF_STAY - 1, LEAF_GO);
        insert_entry(left, i, e);
        return;
    }
    rows::part_rows(left, right, ENTRY_SIZE, LEAF_STAY, LEAF_GO - 1);
    insert_entry(right, i - LEAF_STAY, e);
}

// What a transaction that has ended leaves in a leaf: its own entries as they are then, without those left absent, and the others as
// they are. The rows that are freed become zero.
pub fn settle_leaf(p: &mut [u8], owner: u16, commits: bool)
    requires p_len { length p.old ≡ page_size }
    requires p_bound { count_of p.old ≤ leaf_most }
    ensures { p.new ≡ leaf_settled commits owner p.old }
{
    let n = head::count_of(p);
    let mut j: usize = 0;
    for i in 0..n {
        j = settle_row(p, i, j, owner, commits);
    }
    rows::keep_rows(p, ENTRY_SIZE, j, n);
}

// Puts what is left of the entry at i to place j, and gives the place behind it.
fn settle_row(p: &mut [u8], i: usize, j: usize, owner: u16, commits: bool) -> usize
    requires p_len { length p.old ≡ page_size }
    requires i_lt_leaf_most { i < leaf_most }
    requires j_le_i { j ≤ i }
    ensures { RowSettled commits owner i j p.old p.new result }
{
    if owner_at(p, i) == owner {
        return settle_own(p, i, j, owner, commits);
    }
    rows::move_row(p, HEAD_SIZE, ENTRY_SIZE, i, j);
    j + 1
}

// The same, where the entry is the owner's.
fn settle_own(p: &mut [u8], i: usize, j: usize, owner: u16, commits: bool) -> usize
    requires p_len { length p.old ≡ page_size }
    requires i_lt_leaf_most { i < leaf_most }
    requires j_le_i { j ≤ i }
    requires i_value { (entry_at p.old i).owner ≡ owner }
    ensures { RowSettled commits owner i j p.old p.new result }
{
    let e = settled(entry_at(p, i), commits);
    if e.is_ghost() {
        return j;
    }
    put_entry(p, j, e);
    j + 1
}

// An entry as it is when its owner has ended. (`commits` is a bool and no closure all the way up, as `end_of` of the definitions takes it.)
pub fn settled(e: Entry, commits: bool) -> Entry
    ensures { book_entry result ≡ end_of commits (book_entry e) }
{
    if commits {
        return e.committed();
    }
    e.rolled_back()
}

// The owner of the entry at a place.
fn owner_at(p: &[u8], i: usize) -> u16
    requires p_len { length p.now ≡ page_size }
    requires i_lt_leaf_most { i < leaf_most }
    ensures { result ≡ (entry_at p.now i).owner }
{
    numbers::read_u16(p, HEAD_SIZE + ENTRY_SIZE * i + KEY_SIZE + 4 + 4)
}

// A record that is there if its bit, the lowest, is set.
fn value_if(there: u16, rec: u32) -> Option<u32>
    ensures { book_value result ≡ if_bit there rec }
{
    if there % 2 == 1 { Some(rec) } else { None }
}

// The records and the presence of an entry as its row has them.
#[derive(Clone, Copy)]
struct Packed {
    now: u32,
    before: u32,
    there: u16,
}

fn pack(e: Entry) -> Packed
    ensures { PackedAs (book_entry e) result.now result.before result.there }
{
    Packed {
        now: entries::record(e.now),
        before: entries::record(e.before),
        there: bit_of(e.now) + 2 * bit_of(e.before),
    }
}

// 1 where the record is present, 0 where it is absent.
fn bit_of(v: Option<u32>) -> u16
    ensures { (result ≡ bit (book_value v)) × (result < 2) }
{
    u16::from(v.is_some())
}

// What an entry's type says, as a fact for the promises: its numbers fit their places in a page. There is nothing to do.
pub fn fits_page(e: Entry)
    ensures { EntryFits (book_entry e) }
{
    entries::record(e.now);
    entries::record(e.before);
}
