// An entry put in the place of the one with its key.
ghost use Rattle.std.specs.Prelude.{◌≡◌};
ghost use Rattle.entries.specs.EntryMeaning.{book_entry};
ghost use Rattle.pages.specs.PageLayout.{entries_of};
ghost use Rattle.index.specs.Pictures.{page_at, put_page, index_of, leaf_page, WholePages};
ghost use Rattle.index.specs.Changes.{replaced, Becomes};
ghost use Rattle.index.specs.Descents.{OwnLeaf, LeafAt, overwritten};

use entries::Entry;
use index::descent;
use limits::{PAGE_SIZE, Pages};
use pages::leaf;
use rows::head;

// Puts an entry in the place of the one with its key, where it stands; where there is none, nothing changes.
pub fn replace(pages: &mut Pages, e: Entry)
    requires { WholePages pages.old }
    ensures { Becomes pages.new (replaced (book_entry e) (index_of pages.old)) }
{
    leaf::fits_page(e);
    let t = descent::top(pages);
    let pg = descent::leaf_for(pages, t.level, t.root, e.key);
    replace_in(pages, pg, e);
}

// Puts an entry in the place of the one with its key in a leaf of the buffer.
fn replace_in(pages: &mut Pages, pg: usize, e: Entry)
    requires { LeafAt pages.old pg }
    ensures { pages.new ≡ put_page pages.old pg (leaf_page (overwritten (book_entry e) (entries_of (page_at pages.old pg)))) }
{
    let a = PAGE_SIZE * pg;
    put_over(&mut pages[a..a + PAGE_SIZE], e);
}

// Puts an entry over the first one at or above its key in a leaf, if that one has the key.
fn put_over(p: &mut [u8], e: Entry)
    requires { OwnLeaf p.old }
    ensures { p.new ≡ leaf_page (overwritten (book_entry e) (entries_of p.old)) }
{
    let i = leaf::first_at_or_above(p, e.key);
    if i < head::count_of(p) && leaf::key_at(p, i) == e.key {
        leaf::put_entry(p, i, e);
    }
}
