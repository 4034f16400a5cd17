// Judging the page buffer of a picture. (Document 01, "Records and pages", **Whole**.)
#![tactic(auto)]

pub mod page;

ghost use Rattle.std.specs.Prelude.{◌≡◌, ◌<◌, ◌≤◌};
ghost use Rattle.limits.specs.Limits.{pages_most, inner_most};
ghost use Rattle.rows.specs.PageHead.{used_of, height_of};
ghost use Rattle.index.specs.Pictures.{page_at};
ghost use Rattle.judging_pages.specs.Walks.{high_at, mark_at, page_ok, walk_at, seen_ok, front_ok, tree_in, pages_ok};

use keys::Key;
use limits::{PAGE_SIZE, PAGES_SIZE, Pages};
use rows::head;
use sets::Set;

// A page with the range of its keys: from low on, below high.
#[derive(Clone, Copy)]
pub struct Span {
    pub page: usize,
    pub low: Key,
    pub high: Key,
}

// Sets page q down as seen, if it is used and was not seen before: "each reached once". Gives the pages seen then.
pub fn mark(seen: Set, q: usize, used: usize) -> Option<Set>
    requires { used ≤ pages_most }
    ensures { result ≡ mark_at used seen q }
{
    if q >= used {
        return None;
    }
    if seen.has(q) {
        return None;
    }
    Some(seen.with(q))
}

// Whether the page is in order, by its level: "leaves all at level 0, an inner page one above its children".
fn is_page(pages: &Pages, level: usize, least: usize, t: Span) -> bool
    requires page_lt_pages_most { t.page < pages_most }
    requires le_least { 1 ≤ least }
    ensures { result ≡ page_ok level least pages.now t }
{
    let p = index::page(pages, t.page);
    if level == 0 {
        return page::is_leaf(p, t.low, t.high);
    }
    page::is_inner(p, level, least, t.low, t.high)
}

// Where the range of child i of page q ends: at the next separator, or where the page's own does.
fn high_at(pages: &Pages, q: usize, n: usize, i: usize, high: Key) -> Key
    requires q_lt_pages_most { q < pages_most }
    requires n_le_inner_most { n ≤ inner_most }
    requires i_lt_n { i < n }
    ensures { result.0 ≡ high_at (page_at pages.now q) n i high.0 }
{
    if i + 1 < n {
        return index::low_at(pages, q, i + 1);
    }
    high
}

// Walks the tree of a level from its page down, the level falling by one at each step, so that it ends whatever the bytes say. Gives the
// pages seen then, or nothing where some page is not in order or is seen twice.
fn walk(pages: &Pages, used: usize, level: usize, least: usize, t: Span, seen: Set) -> Option<Set>
    requires used_le_pages_most { used ≤ pages_most }
    requires le_least { 1 ≤ least }
    ensures { result ≡ walk_at level least pages.now used t seen }
{
    let q = t.page;
    let first = mark(seen, q, used)?;
    if !is_page(pages, level, least, t) {
        return None;
    }
    if level == 0 {
        return Some(first);
    }
    let n = index::count_at(pages, q);
    let mut low = t.low;
    let mut m = first;
    for i in 0..n {
        let next = high_at(pages, q, n, i, t.high);
        let child = Span {
            page: index::child_page(pages, q, i),
            low,
            high: next,
        };
        m = walk(pages, used, level - 1, limits::INNER_FEWEST, child, m)?;
        low = next;
    }
    Some(m)
}

// Whether every page below `used` is seen.
fn are_seen(seen: Set, used: usize) -> bool
    requires { used ≤ pages_most }
    ensures { result ≡ seen_ok used seen }
{
    (0..used).all(|q| seen.has(q))
}

// Whether page 0 is in order, with no more pages used than there are, and a height.
fn has_front(pages: &Pages) -> bool
    ensures { result ≡ front_ok pages.now }
{
    let p = index::page(pages, 0);
    page::is_first_page(p) & ((head::used_of(p) <= limits::PAGES) & (0 < head::height_of(p)))
}

// The walk from the root: "height the root's level plus 1, root with 2 to 30 children or a leaf".
fn walk_root(pages: &Pages) -> Option<Set>
    requires pages_bound { used_of (page_at pages.now 0) ≤ pages_most }
    requires nonzero { 0 < height_of (page_at pages.now 0) }
    ensures { result ≡ tree_in pages.now }
{
    let used = index::used_of(pages);
    let height = index::height_of(pages);
    let t = Span {
        page: index::root_of(pages),
        low: Key::LOWEST,
        high: Key::END,
    };
    walk(pages, used, height - 1, 2, t, Set::NONE.with(0))
}

// Whether the page buffer is whole, with every entry in order: page 0, the tree with each used page once, and nothing in the others.
pub fn are_pages(pages: &Pages) -> bool
    ensures { result ≡ pages_ok pages.now }
{
    if !has_front(pages) {
        return false;
    }
    let Some(seen) = walk_root(pages) else {
        return false;
    };
    let used = index::used_of(pages);
    are_seen(seen, used) & numbers::is_zero(pages, PAGE_SIZE * used, PAGES_SIZE - PAGE_SIZE * used)
}
