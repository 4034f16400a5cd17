// What a transaction that has ended leaves of its entries in the index.
ghost use Rattle.std.specs.Prelude.{◌≡◌, ◌<◌};
ghost use Rattle.entries.specs.EntryMeaning.{book_entry};
ghost use Rattle.rows.specs.PageHead.{count_of};
ghost use Rattle.pages.specs.PageLayout.{entries_of};
ghost use Rattle.index.specs.Pictures.{page_at, put_page, index_of, leaf_page, WholePages};
ghost use Rattle.index.specs.Changes.{key_settled, settled_in, settled_at, Becomes};
ghost use Rattle.index.specs.Descents.{OwnLeaf, LeafAt, LeafIn, settled_page, left_in};

use entries::Entry;
use index::descent;
use keys::Key;
use limits::{PAGE_SIZE, Pages};
use pages::leaf;
use rows::head::{self, Kind};

// Settles the entries of a transaction that has committed or rolled back, in every leaf; those left absent are taken out.
pub fn settle(pages: &mut Pages, owner: u16, commits: bool)
    requires { WholePages pages.old }
    ensures { Becomes pages.new (settled_in commits owner (index_of pages.old)) }
{
    for q in 1..descent::top(pages).used {
        settle_page(pages, q, owner, commits);
    }
}

// Settles a page if it is a leaf.
fn settle_page(pages: &mut Pages, q: usize, owner: u16, commits: bool)
    requires { LeafIn pages.old q }
    ensures { pages.new ≡ put_page pages.old q (settled_page commits owner (page_at pages.old q)) }
{
    let a = PAGE_SIZE * q;
    if head::kind_of(&pages[a..a + PAGE_SIZE]) == Kind::Leaf as usize {
        leaf::settle_leaf(&mut pages[a..a + PAGE_SIZE], owner, commits);
    }
}

// Settles one entry, that of a key, if it is of the transaction that has ended; left absent it is taken out.
pub fn settle_key(pages: &mut Pages, key: Key, owner: u16, commits: bool)
    requires { WholePages pages.old }
    ensures { Becomes pages.new (settled_at commits owner key.0 (index_of pages.old)) }
{
    let t = descent::top(pages);
    let pg = descent::leaf_for(pages, t.level, t.root, key);
    settle_at(pages, pg, key, owner, commits);
}

// The same, in the leaf that the key belongs to.
fn settle_at(pages: &mut Pages, pg: usize, key: Key, owner: u16, commits: bool)
    requires { LeafAt pages.old pg }
    ensures { pages.new ≡ put_page pages.old pg (leaf_page (key_settled commits owner key.0 (entries_of (page_at pages.old pg)))) }
{
    let a = PAGE_SIZE * pg;
    settle_in(&mut pages[a..a + PAGE_SIZE], key, owner, commits);
}

// The same, in a leaf by itself. Where there is nothing to settle, nothing is written.
fn settle_in(p: &mut [u8], key: Key, owner: u16, commits: bool)
    requires { OwnLeaf p.old }
    ensures { p.new ≡ leaf_page (key_settled commits owner key.0 (entries_of p.old)) }
{
    let i = leaf::first_at_or_above(p, key);
    if i >= head::count_of(p) {
        return;
    }
    let e = leaf::entry_at(p, i);
    if e.key != key {
        return;
    }
    if e.owner != owner {
        return;
    }
    put_left(p, i, leaf::settled(e, commits));
}

// Puts an entry over the one at a place; an absent one is taken out there.
fn put_left(p: &mut [u8], i: usize, e: Entry)
    requires own_leaf { OwnLeaf p.old }
    requires i_bound { i < count_of p.old }
    ensures { p.new ≡ leaf_page (left_in i (book_entry e) (entries_of p.old)) }
{
    if e.is_ghost() {
        leaf::take_entry(p, i);
    } else {
        leaf::put_entry(p, i, e);
    }
}
