// The index in lent pages: a B-tree in 64 pages of 512 bytes, made fresh, gone down and searched. (Document 01, "Records and pages".)
#![tactic(auto)]

pub mod descent;
mod fresh;
mod search;

pub use descent::{child_page, count_at, height_of, low_at, page, root_of, used_of};
pub use fresh::fresh_pages;
use keys::Key;
pub use search::find;

// What a search looks for: the first entry at or above lo that is above hi or isn't the asker's own ghost.
#[derive(Clone, Copy)]
pub struct Sought {
    pub lo: Key,
    pub hi: Key,
    pub asker: u16,
}

// Page 0: the root's page, its level, and how many pages are used.
#[derive(Clone, Copy)]
pub struct Top {
    pub root: usize,
    pub level: usize,
    pub used: usize,
}

// A place among an inner page's children, and how many there are.
#[derive(Clone, Copy)]
pub struct Step {
    pub slot: usize,
    pub count: usize,
}

// The child that a key belongs to: its place and its page.
#[derive(Clone, Copy)]
pub struct Way {
    pub slot: usize,
    pub page: usize,
}
