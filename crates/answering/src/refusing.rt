// Numbers 13 to 15. (Document 01, "What the desk says".)
ghost use Rattle.std.specs.Prelude.{◌≡◌, ◌≤◌};
ghost use Rattle.limits.specs.Limits.{transactions_most};
ghost use Rattle.rules.specs.Runs.{runs_already, waits_already};
ghost use Rattle.rules.specs.Desk.{if_so, unless_runs, refusal};
ghost use Rattle.requests.specs.RequestMeaning.{book_request};
ghost use Rattle.states.specs.States.{book, state_of};
ghost use Rattle.states.specs.Whole.{Whole};
ghost use Rattle.answering.specs.Answering.{book_refusal};

use answers::Says;
use limits::{Desk, Pages};
use queue::transactions;
use requests::Request;

// 13 where the transaction runs.
fn unless_idle(runs: bool) -> Option<Says>
    ensures { book_refusal result ≡ if_so book runs runs_already }
{
    runs.then_some(Says::RunsAlready)
}

// 14 where it does not run, and otherwise 15 where it waits.
fn unless_free(runs: bool, waits: bool) -> Option<Says>
    ensures { book_refusal result ≡ unless_runs book runs (if_so book waits waits_already) }
{
    if !runs {
        return Some(Says::RunsNot);
    }
    waits.then_some(Says::WaitsAlready)
}

// What stands against t's request, whatever the pages hold.
pub fn refusal_of(pages: &Pages, desk: &Desk, t: u16, request: Request) -> Option<Says>
    requires whole { Whole pages.now desk.now }
    requires le_t { 1 ≤ t }
    requires t_le_transactions_most { t ≤ transactions_most }
    ensures { book_refusal result ≡ refusal book (state_of pages.now desk.now) t (book_request request) }
{
    let runs = transactions::is_running(desk, t);
    let waits = transactions::is_waiting(desk, t);
    match request {
        Request::Begin => unless_idle(runs),
        Request::Commit => unless_free(runs, waits),
        Request::Rollback => unless_free(runs, false),
        Request::Asks(_) => unless_free(runs, waits),
    }
}
