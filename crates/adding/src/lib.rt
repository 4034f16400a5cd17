// An insert of a missing key: into the leaf, and the pages divided upward where they are full.
#![tactic(auto)]

ghost use Rattle.std.specs.Prelude.{◌≡◌, true, [], ◌∷◌, length, replicate};
ghost use Prim.Native.Nat.{◌+◌, ◌≤◌, ◌<◌, compare};
ghost use Rattle.limits.specs.Limits.{pages_most, page_size};
ghost use Rattle.rules.specs.Document.{end_mark};
ghost use Rattle.rows.specs.PageHead.{count_of, put_root};
ghost use Rattle.trees.specs.Growth.{missing};
ghost use Rattle.index.specs.Pictures.{key_of, page_at, put_page, inner_page, entries_in, WholePages};
ghost use Rattle.index.specs.Changes.{Added};
ghost use Rattle.entries.specs.EntryMeaning.{book_entry};
ghost use Rattle.index.specs.Descents.{InnerIn};
ghost use Rattle.adding.specs.Growing.{two_trees, needed_above, GrowIn, Tried, LeafOver, LeafParted, LeafFull, LeafSplit, InnerRoom, InnerFull, Widened, Rises, Risen, root_page, RootIn};

use entries::Entry;
use index::descent;
use keys::Key;
use limits::{PAGE_SIZE, Pages};
use pages::{Child, inner, leaf};
use rows::head::{self, Kind};

// What becomes of a tree that an entry is put into: how many pages are used then, and the new tree beside it if it was divided.
#[derive(Clone, Copy)]
pub struct Grown {
    pub used: usize,
    pub beside: Option<Child>,
}

// Puts in an entry whose key is missing, if the pages have room for it. Where they have none, nothing changes.
pub fn add(pages: &mut Pages, e: Entry) -> bool
    requires whole_pages { WholePages pages.old }
    requires key_lt_end_mark { e.key.0 < end_mark }
    requires pages_value { missing compare key_of e.key.0 (entries_in pages.old) ≡ true }
    ensures { Added pages.old pages.new (book_entry e) result }
{
    leaf::fits_page(e);
    let t = descent::top(pages);
    let Some(g) = grow(pages, t.level, t.root, t.used, 1, e) else {
        return false;
    };
    match g.beside {
        None => descent::put_top(pages, t.root, g.used, t.level + 1),
        Some(c) => add_root(pages, t.level, t.root, g.used, c),
    }
    true
}

// Makes a new root over the old one and the new tree beside it, in the next unused page, and writes page 0.
fn add_root(pages: &mut Pages, level: usize, root: usize, used: usize, c: Child)
    requires { RootIn pages.old level root used c }
    ensures { pages.new ≡ put_page (put_page pages.old used (root_page level root c)) 0 (put_root (page_at pages.old 0) used (used + 1) (level + 2)) }
{
    let b = PAGE_SIZE * used;
    fill_root(&mut pages[b..b + PAGE_SIZE], level + 1, root, c);
    descent::put_top(pages, used, used + 1, level + 2);
}

// Writes a new root's page over zeros.
fn fill_root(p: &mut [u8], level: usize, root: usize, c: Child)
    requires p_len { length p.old ≡ page_size }
    requires p_value { p.old ≡ replicate page_size 0 }
    requires root_lt_pages_most { root < pages_most }
    ensures { p.new ≡ inner_page level (record { low = record { 0 = 0 }; page = root } ∷ c ∷ []) }
{
    first_child(
        p,
        level,
        Child {
            low: Key::LOWEST,
            page: root as u16,
        },
    );
    inner::insert_child(p, 1, c);
}

// Writes an inner page with one child over zeros.
fn first_child(p: &mut [u8], level: usize, c: Child)
    requires p_len { length p.old ≡ page_size }
    requires p_value { p.old ≡ replicate page_size 0 }
    ensures { p.new ≡ inner_page level (c ∷ []) }
{
    clear_inner(p, level);
    inner::insert_child(p, 0, c);
}

// Writes the head of an inner page that has no child yet over zeros.
fn clear_inner(p: &mut [u8], level: usize)
    requires p_len { length p.old ≡ page_size }
    requires p_value { p.old ≡ replicate page_size 0 }
    ensures { p.new ≡ inner_page level [] }
{
    head::put_head(p, Kind::Inner as usize, 0, level);
}

// Puts an entry into the tree of this level at this page, if the pages have room; where they are short nothing changes. New pages take the next
// unused numbers, the leaf's first. If the tree's own page is divided, so many more pages are needed above it.
fn grow(
    pages: &mut Pages,
    level: usize,
    pg: usize,
    used: usize,
    above: usize,
    e: Entry,
) -> Option<Grown>
    requires grow_in { GrowIn pages.old level pg used (book_entry e) }
    requires level_bound { above + level ≤ 65535 }
    ensures { Tried level pages.old pages.new pg used above (book_entry e) result }
{
    if level == 0 {
        return grow_leaf(pages, pg, used, above, e);
    }
    let way = descent::way_to(pages, pg, e.key);
    let more = above_child(pages, pg, above);
    let g = grow(pages, level - 1, way.page, used, more, e)?;
    Some(grow_up(pages, level, pg, way.slot + 1, g))
}

// What becomes of an inner page's tree by what became of a child's: a new tree beside that one is put in as a child, at this place.
fn grow_up(pages: &mut Pages, level: usize, pg: usize, i: usize, g: Grown) -> Grown
    requires { Rises pages.old level pg i g }
    ensures { Risen pages.old pages.new level pg i g result }
{
    match g.beside {
        None => g,
        Some(c) => grow_inner(pages, level, pg, g.used, i, c),
    }
}

// How many pages are needed above a child that is divided: one more than above its inner page where that is full, otherwise none.
fn above_child(pages: &Pages, pg: usize, above: usize) -> usize
    requires inner_in { InnerIn pages.now pg }
    requires above_bound { above ≤ 65535 }
    ensures { (result ≡ needed_above (count_of (page_at pages.now pg)) above) × (result ≤ above + 1) }
{
    if limits::INNER_MOST <= index::count_at(pages, pg) {
        above + 1
    } else {
        0
    }
}

// Puts an entry into a leaf. A full one is divided, if the pages have room for that and for what is needed above.
fn grow_leaf(pages: &mut Pages, pg: usize, used: usize, above: usize, e: Entry) -> Option<Grown>
    requires grow_in { GrowIn pages.old 0 pg used (book_entry e) }
    requires above_bound { above ≤ 65535 }
    ensures { Tried 0 pages.old pages.new pg used above (book_entry e) result }
{
    let a = PAGE_SIZE * pg;
    let n = head::count_of(&pages[a..a + PAGE_SIZE]);
    let i = leaf::first_at_or_above(&pages[a..a + PAGE_SIZE], e.key);
    if n < limits::LEAF_MOST {
        leaf::insert_entry(&mut pages[a..a + PAGE_SIZE], i, e);
        return Some(Grown { used, beside: None });
    }
    divide_leaf(pages, pg, used, above, i, e)
}

// Puts an entry in at a place of a full leaf, if there are pages for the new leaf and for what is needed above.
fn divide_leaf(
    pages: &mut Pages,
    pg: usize,
    used: usize,
    above: usize,
    i: usize,
    e: Entry,
) -> Option<Grown>
    requires leaf_over { LeafOver pages.old pg used i (book_entry e) }
    requires used_le_pages_most { used ≤ pages_most }
    requires above_bound { above ≤ 65535 }
    ensures { LeafParted pages.old pages.new pg used above i (book_entry e) result }
{
    if limits::PAGES < used + above + 1 {
        return None;
    }
    Some(split_leaf(pages, pg, used, i, e))
}

// Puts an entry in at a place of a full leaf. The new page is built apart, since two parts of the buffer cannot be lent at once.
fn split_leaf(pages: &mut Pages, pg: usize, used: usize, i: usize, e: Entry) -> Grown
    requires { LeafFull pages.old pg used i (book_entry e) }
    ensures { LeafSplit pages.old pages.new pg used i (book_entry e) result }
{
    let a = PAGE_SIZE * pg;
    let b = PAGE_SIZE * used;
    let mut right = [0u8; PAGE_SIZE];
    head::put_head(&mut right, Kind::Leaf as usize, 0, 0);
    leaf::split_leaf(&mut pages[a..a + PAGE_SIZE], &mut right, i, e);
    let low = leaf::key_at(&right, 0);
    numbers::copy_bytes(&mut pages[b..b + PAGE_SIZE], 0, &right, 0, PAGE_SIZE);
    beside_new(used, low)
}

// What becomes of a tree that was divided: the new tree beside it is the next unused page, and this is its lowest key.
fn beside_new(used: usize, low: Key) -> Grown
    requires { used < pages_most }
    ensures { result ≡ two_trees (used + 1) (record { low = low; page = used }) }
{
    Grown {
        used: used + 1,
        beside: Some(Child {
            low,
            page: used as u16,
        }),
    }
}

// Puts a child in at a place of an inner page. A full one is divided.
fn grow_inner(pages: &mut Pages, level: usize, pg: usize, used: usize, i: usize, c: Child) -> Grown
    requires { InnerRoom pages.old level pg used i c }
    ensures { Widened pages.old pages.new level pg used i c result }
{
    let a = PAGE_SIZE * pg;
    if head::count_of(&pages[a..a + PAGE_SIZE]) < limits::INNER_MOST {
        inner::insert_child(&mut pages[a..a + PAGE_SIZE], i, c);
        return Grown { used, beside: None };
    }
    split_inner(pages, level, pg, used, i, c)
}

// Puts a child in at a place of a full inner page. The new page is built apart.
fn split_inner(pages: &mut Pages, level: usize, pg: usize, used: usize, i: usize, c: Child) -> Grown
    requires { InnerFull pages.old level pg used i c }
    ensures { Widened pages.old pages.new level pg used i c result }
{
    let a = PAGE_SIZE * pg;
    let b = PAGE_SIZE * used;
    let mut right = [0u8; PAGE_SIZE];
    head::put_head(&mut right, Kind::Inner as usize, 0, level);
    let low = inner::split_children(&mut pages[a..a + PAGE_SIZE], &mut right, i, c);
    numbers::copy_bytes(&mut pages[b..b + PAGE_SIZE], 0, &right, 0, PAGE_SIZE);
    beside_new(used, low)
}
