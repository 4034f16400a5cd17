// A request joins the queue. (Document 01, "Working the queue".)
ghost use Rattle.std.specs.Prelude.{◌≡◌, true, false, ◌≤◌};
ghost use Rattle.limits.specs.Limits.{transactions_most};
ghost use Rattle.rules.specs.Desk.{runs, waits_now, joined, legal_ask};
ghost use Rattle.requests.specs.RequestMeaning.{book_ask};
ghost use Rattle.states.specs.States.{book, state_of};
ghost use Rattle.states.specs.Fitting.{AskFits};
ghost use Rattle.states.specs.Whole.{Whole, Says};

use limits::{Desk, Pages};
use requests::Ask;

// The record that is asked for; what is learnt is that the request's numbers fit the fields that will hold them.
fn asked_record(ask: Ask) -> u32
    requires { legal_ask book (book_ask ask) ≡ true }
    ensures { AskFits (book_ask ask) }
{
    match ask {
        Ask::Read(_, _) => 0,
        Ask::Insert(_, rec) => entries::record(Some(rec)),
        Ask::Delete(_) => 0,
    }
}

// t's request joins the queue.
pub fn join(pages: &Pages, desk: &mut Desk, t: u16, ask: Ask)
    requires whole { Whole pages.now desk.old }
    requires le_t { 1 ≤ t }
    requires t_le_transactions_most { t ≤ transactions_most }
    requires t_value { runs book (state_of pages.now desk.old) t ≡ true }
    requires t_value_2 { waits_now book (state_of pages.now desk.old) t ≡ false }
    requires ask_value { legal_ask book (book_ask ask) ≡ true }
    ensures { Says pages.now desk.new (joined book (state_of pages.now desk.old) t (book_ask ask)) }
{
    let _rec = asked_record(ask);
    queue::join_queue(desk, t, ask);
}
