// The run of a request that nobody blocks, on a whole picture. (Document 01, "Working the queue" and "What the desk says".)
#![tactic(auto)]

mod deleting;
mod inserting;
mod locking;
mod reading;
mod running;
mod standing;

pub use deleting::run_delete;
pub use inserting::run_insert;
pub use reading::run_read;
pub use running::run_at;
