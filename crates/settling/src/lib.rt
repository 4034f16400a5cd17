// Entries of the index changed where they stand: one put in the place of another, and those of a transaction that has ended.
// (Document 01, "Keys and entries".)
#![tactic(auto)]

mod replacing;
mod settling;

pub use replacing::replace;
pub use settling::{settle, settle_key};
