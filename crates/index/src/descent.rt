// The way down the tree: what page 0 says and is told, the children of an inner page, and the leaf that a key belongs to.
ghost use Rattle.std.specs.Prelude.{◌≡◌, ◌<◌};
ghost use Rattle.limits.specs.Limits.{pages_most, inner_most};
ghost use Rattle.rows.specs.PageHead.{count_of, root_of, used_of, height_of, put_root};
ghost use Rattle.pages.specs.PageLayout.{child_at};
ghost use Rattle.index.specs.Pictures.{page_at, put_page, WholePages};
ghost use Rattle.index.specs.Descents.{Subtree, InnerIn, Starts, Goes, TopOf, LeafFor};

use super::{Step, Top, Way};
use keys::Key;
use limits::{PAGE_SIZE, Page, Pages};
use pages::inner;
use rows::head;

// Page q of the buffer.
pub fn page(pages: &Pages, q: usize) -> &Page
    requires { q < pages_most }
    ensures { result.now ≡ page_at pages.now q }
{
    let a = PAGE_SIZE * q;
    pages[a..a + PAGE_SIZE].as_array().unwrap()
}

// Of page 0: the root's page.
pub fn root_of(pages: &Pages) -> usize
    ensures { (result ≡ root_of (page_at pages.now 0)) × (result < 65536) }
{
    head::root_of(page(pages, 0))
}

// Of page 0: how many pages are used.
pub fn used_of(pages: &Pages) -> usize
    ensures { (result ≡ used_of (page_at pages.now 0)) × (result < 65536) }
{
    head::used_of(page(pages, 0))
}

// Of page 0: the height of the tree.
pub fn height_of(pages: &Pages) -> usize
    ensures { (result ≡ height_of (page_at pages.now 0)) × (result < 65536) }
{
    head::height_of(page(pages, 0))
}

// Where the tree begins.
pub fn top(pages: &Pages) -> Top
    requires { WholePages pages.now }
    ensures { TopOf pages.now result }
{
    Top {
        root: root_of(pages),
        level: height_of(pages) - 1,
        used: used_of(pages),
    }
}

// Writes page 0: the root, the pages used and the height.
pub fn put_top(pages: &mut Pages, root: usize, used: usize, height: usize)
    ensures { pages.new ≡ put_page pages.old 0 (put_root (page_at pages.old 0) root used height) }
{
    head::put_root(&mut pages[0..PAGE_SIZE], root, used, height);
}

// How many entries or children page q has.
pub fn count_at(pages: &Pages, q: usize) -> usize
    requires q_lt_pages_most { q < pages_most }
    ensures { (result ≡ count_of (page_at pages.now q)) × (result < 65536) }
{
    head::count_of(page(pages, q))
}

// The separator of child i of page q.
pub fn low_at(pages: &Pages, q: usize, i: usize) -> Key
    requires q_lt_pages_most { q < pages_most }
    requires i_lt_inner_most { i < inner_most }
    ensures { result.0 ≡ (child_at (page_at pages.now q) i).low.0 }
{
    inner::low_at(page(pages, q), i)
}

// The page of child i of page q.
pub fn child_page(pages: &Pages, q: usize, i: usize) -> usize
    requires q_lt_pages_most { q < pages_most }
    requires i_lt_inner_most { i < inner_most }
    ensures { result ≡ (child_at (page_at pages.now q) i).page }
{
    usize::from(inner::child_at(page(pages, q), i).page)
}

// The place of the child that a key belongs to.
pub fn step_to(pages: &Pages, pg: usize, key: Key) -> Step
    requires { InnerIn pages.now pg }
    ensures { Starts pages.now pg key.0 result }
{
    Step {
        slot: inner::child_for(page(pages, pg), key),
        count: count_at(pages, pg),
    }
}

// The child that a key belongs to.
pub fn way_to(pages: &Pages, pg: usize, key: Key) -> Way
    requires { InnerIn pages.now pg }
    ensures { Goes pages.now pg key.0 result }
{
    let slot = step_to(pages, pg, key).slot;
    Way {
        slot,
        page: child_page(pages, pg, slot),
    }
}

// The page of the leaf that a key belongs to, in the tree of this level at this page. No other leaf of the tree has the key.
pub fn leaf_for(pages: &Pages, level: usize, pg: usize, key: Key) -> usize
    requires { Subtree pages.now level pg pages_most }
    ensures { LeafFor pages.now level pg key.0 result }
{
    if level == 0 {
        return pg;
    }
    let way = way_to(pages, pg, key);
    leaf_for(pages, level - 1, way.page, key)
}
