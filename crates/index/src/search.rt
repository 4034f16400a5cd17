// The search for an entry: down one level at a time, and into the next child where a leaf has nothing.
ghost use Rattle.std.specs.Prelude.{◌≡◌, true, ℕ, ◌≤◌, length};
ghost use Rattle.limits.specs.Limits.{pages_most, page_size, leaf_most};
ghost use Rattle.lists.specs.Lists.{first};
ghost use Rattle.entries.specs.EntryMeaning.{book_entry};
ghost use Rattle.rows.specs.PageHead.{count_of};
ghost use Rattle.pages.specs.PageLayout.{entries_of};
ghost use Rattle.pages.specs.KeyPlaces.{keys_ascend};
ghost use Rattle.trees.specs.Trees.{flat};
ghost use Rattle.index.specs.Pictures.{Item, tree_of, entries_in, WholePages};
ghost use Rattle.index.specs.Searches.{seeks, book_found};
ghost use Rattle.index.specs.Descents.{Subtree};

use super::{Sought, descent};
use entries::Entry;
use limits::Pages;
use pages::leaf;
use rows::head;

// The first entry of the index that is sought.
pub fn find(pages: &Pages, w: Sought) -> Option<Entry>
    requires { WholePages pages.now }
    ensures { book_found result ≡ first (seeks w) (entries_in pages.now) }
{
    let t = descent::top(pages);
    seek(pages, t.level, t.root, w)
}

// The first entry that is sought in the tree of this level at this page.
fn seek(pages: &Pages, level: usize, pg: usize, w: Sought) -> Option<Entry>
    requires { Subtree pages.now level pg pages_most }
    ensures { book_found result ≡ first (seeks w) (flat ℕ Item level (tree_of level pages.now pg)) }
{
    if level == 0 {
        return seek_leaf(pages, pg, w);
    }
    let s = descent::step_to(pages, pg, w.lo);
    let n = s.count;
    for i in s.slot..n {
        let f = seek(pages, level - 1, descent::child_page(pages, pg, i), w);
        if let Some(e) = f {
            return Some(e);
        }
    }
    None
}

// The first entry that is sought in a leaf of the buffer.
fn seek_leaf(pages: &Pages, pg: usize, w: Sought) -> Option<Entry>
    requires { Subtree pages.now 0 pg pages_most }
    ensures { book_found result ≡ first (seeks w) (flat ℕ Item 0 (tree_of 0 pages.now pg)) }
{
    find_in(descent::page(pages, pg), w)
}

// The first entry that is sought in a leaf.
fn find_in(p: &[u8], w: Sought) -> Option<Entry>
    requires p_len { length p.now ≡ page_size }
    requires p_bound { count_of p.now ≤ leaf_most }
    requires p_value { keys_ascend (entries_of p.now) ≡ true }
    ensures { book_found result ≡ first (seeks w) (entries_of p.now) }
{
    let n = head::count_of(p);
    for i in leaf::first_at_or_above(p, w.lo)..n {
        let e = leaf::entry_at(p, i);
        if is_sought(w, e) {
            return Some(e);
        }
    }
    None
}

// Whether an entry is sought.
fn is_sought(w: Sought, e: Entry) -> bool
    ensures { result ≡ seeks w (book_entry e) }
{
    (w.lo <= e.key) & (!(e.key <= w.hi) | !((w.asker != 0) & (e.owner == w.asker) & e.is_ghost()))
}
