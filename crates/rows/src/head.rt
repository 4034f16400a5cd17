// The head of a page, and the numbers that page 0 has behind its own.
ghost use Rattle.std.specs.Prelude.{◌≡◌, ◌+◌, ◌≤◌, ◌<◌, length};
ghost use Rattle.limits.specs.Limits.{page_size};
ghost use Rattle.numbers.specs.Numbers.{put_number};
ghost use Rattle.rows.specs.PageHead.{kind_of, count_of, level_of, put_head, root_of, used_of, height_of, put_root};

use limits::{HEAD_SIZE, PAGE_SIZE};

// What a page is. The number of its kind stands in its head.
#[derive(Clone, Copy)]
pub enum Kind {
    First = 1,
    Leaf = 2,
    Inner = 3,
}

// The number of the page's kind.
pub fn kind_of(p: &[u8]) -> usize
    requires { length p.now ≡ page_size }
    ensures { (result ≡ kind_of p.now) × (result < 65536) }
{
    numbers::number_at(p, 2)
}

// How many entries or children the page has.
pub fn count_of(p: &[u8]) -> usize
    requires { length p.now ≡ page_size }
    ensures { (result ≡ count_of p.now) × (result < 65536) }
{
    numbers::number_at(p, 4)
}

// The page's level: 0 for a leaf, one more than its children's for an inner page.
pub fn level_of(p: &[u8]) -> usize
    requires { length p.now ≡ page_size }
    ensures { (result ≡ level_of p.now) × (result < 65536) }
{
    numbers::number_at(p, 6)
}

// Writes the whole head.
pub fn put_head(p: &mut [u8], kind: usize, count: usize, level: usize)
    requires { length p.old ≡ page_size }
    ensures { p.new ≡ put_head p.old kind count level }
{
    put_number(p, 0, PAGE_SIZE);
    put_number(p, 2, kind);
    put_number(p, 4, count);
    put_number(p, 6, level);
    numbers::write_u64(p, 8, 0);
}

// Writes how many entries or children the page has.
pub fn put_count(p: &mut [u8], count: usize)
    requires { length p.old ≡ page_size }
    ensures { p.new ≡ put_number 2 p.old 4 count }
{
    put_number(p, 4, count);
}

// Of page 0: the root's page.
pub fn root_of(p: &[u8]) -> usize
    requires { length p.now ≡ page_size }
    ensures { (result ≡ root_of p.now) × (result < 65536) }
{
    numbers::number_at(p, HEAD_SIZE)
}

// Of page 0: how many pages are used.
pub fn used_of(p: &[u8]) -> usize
    requires { length p.now ≡ page_size }
    ensures { (result ≡ used_of p.now) × (result < 65536) }
{
    numbers::number_at(p, HEAD_SIZE + 2)
}

// Of page 0: the height of the tree.
pub fn height_of(p: &[u8]) -> usize
    requires { length p.now ≡ page_size }
    ensures { (result ≡ height_of p.now) × (result < 65536) }
{
    numbers::number_at(p, HEAD_SIZE + 4)
}

// Writes root, pages used and height in page 0.
pub fn put_root(p: &mut [u8], root: usize, used: usize, height: usize)
    requires { length p.old ≡ page_size }
    ensures { p.new ≡ put_root p.old root used height }
{
    put_number(p, HEAD_SIZE, root);
    put_number(p, HEAD_SIZE + 2, used);
    put_number(p, HEAD_SIZE + 4, height);
}

// Writes a number of two bytes, of which those that do not fit are left out.
fn put_number(p: &mut [u8], at: usize, v: usize)
    requires { at + 2 ≤ length p.old }
    ensures { p.new ≡ put_number 2 p.old at v }
{
    numbers::write_u16(p, at, (v % 65536) as u16);
}
