// A fresh page buffer.
ghost use Rattle.std.specs.Prelude.{◌≡◌, ◌<◌};
ghost use Rattle.limits.specs.Limits.{pages_most};
ghost use Rattle.rows.specs.PageHead.{put_head};
ghost use Rattle.trees.specs.Shapes.{bare};
ghost use Rattle.index.specs.Pictures.{page_at, put_page};
ghost use Rattle.index.specs.Changes.{Becomes};

use super::descent;
use limits::{PAGE_SIZE, Pages};
use rows::head::{self, Kind};

// Makes any buffer of the right length that of an empty index: page 1 is an empty leaf and the root.
pub fn fresh_pages(pages: &mut Pages)
    ensures { Becomes pages.new bare }
{
    numbers::zero_bytes(pages, 0, limits::PAGES_SIZE);
    put_blank(pages, 0, Kind::First as usize);
    put_blank(pages, 1, Kind::Leaf as usize);
    descent::put_top(pages, 1, 2, 1);
}

// Writes the head of a page that has nothing yet.
fn put_blank(pages: &mut Pages, q: usize, kind: usize)
    requires q_lt_pages_most { q < pages_most }
    ensures { pages.new ≡ put_page pages.old q (put_head (page_at pages.old q) kind 0 0) }
{
    let a = PAGE_SIZE * q;
    head::put_head(&mut pages[a..a + PAGE_SIZE], kind, 0, 0);
}
