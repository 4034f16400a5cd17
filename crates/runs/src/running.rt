// The run of a request. (Document 01, "Working the queue".)
ghost use Rattle.states.specs.Whole.{Whole};
ghost use Rattle.waits.specs.Choices.{Known};
ghost use Rattle.runs.specs.RunsAt.{Clear, Ran};

use super::deleting::run_delete;
use super::inserting::run_insert;
use super::reading::run_read;
use answers::Answer;
use limits::{Desk, Pages};
use queue::transactions;
use requests::Ask;
use waits::Next;

// Runs the request that is next, which nobody blocks.
pub fn run_at(pages: &mut Pages, desk: &mut Desk, next: Next) -> Answer
    requires whole { Whole pages.old desk.old }
    requires clear { Clear pages.old desk.old next.place }
    requires known { Known pages.old desk.old next }
    ensures { Ran pages.old desk.old pages.new desk.new next.place result }
{
    let t = queue::in_place(desk, next.place);
    match transactions::ask_at(desk, t) {
        Ask::Read(lo, hi) => run_read(pages, desk, next, lo, hi),
        Ask::Insert(key, rec) => run_insert(pages, desk, next, key, rec),
        Ask::Delete(key) => run_delete(pages, desk, next, key),
    }
}
