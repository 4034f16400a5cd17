// The queue and the records of the transactions in the desk buffer, with its head. Every function takes the whole buffer. A transaction is a
// number from 1 on, of the two bytes that it is written in. (Document 01, "Working the queue", "Records and pages".)
#![tactic(auto)]

pub mod head;
mod places;
pub mod transactions;

pub use places::{in_place, is_zero_from, join_queue, leave_queue, place_in_queue, queued};
