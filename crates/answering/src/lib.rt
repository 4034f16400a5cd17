// One request answered on a whole picture. (Document 01, "Working the queue" and "What the desk says".)
#![tactic(auto)]

mod joining;
mod refusing;

ghost use Rattle.std.specs.Prelude.{◌≡◌, true, false, ◌≤◌, length};
ghost use Rattle.limits.specs.Limits.{transactions_most, space_least};
ghost use Rattle.rules.specs.Queue.{blocker_of};
ghost use Rattle.rules.specs.Runs.{worked};
ghost use Rattle.rules.specs.Desk.{runs, waits_now, begun, ended, joined, after_done, waiting_last, legal_ask, legal_call};
ghost use Rattle.requests.specs.RequestMeaning.{book_ask, book_call};
ghost use Rattle.pages.specs.PageChanges.{end_of};
ghost use Rattle.states.specs.States.{book, state_of};
ghost use Rattle.states.specs.Whole.{Whole};
ghost use Rattle.circles.specs.InTheWay.{book_blocker};
ghost use Rattle.calls.specs.Promise.{Answered, lent};
ghost use Rattle.turns.specs.Working.{Rested, RoomLeft, Wrote, worked_of};
ghost use Rattle.answering.specs.Answering.{last_of};

use answers::{Answer, Says};
use circles::Blocker;
use limits::{Desk, Pages, TRANSACTIONS};
use queue::transactions;
use requests::{Ask, Call, Request};
use waits::Row;

// Says done to t, who is not in the queue, and then works the queue.
fn done_first(pages: &mut Pages, desk: &mut Desk, answers: &mut [u8], t: u16) -> usize
    requires whole { Whole pages.old desk.old }
    requires space_least_in_bounds { space_least ≤ length answers.old }
    requires le_t { 1 ≤ t }
    requires t_le_transactions_most { t ≤ transactions_most }
    requires t_value { waits_now book (state_of pages.old desk.old) t ≡ false }
    ensures { Wrote answers.old 0 (after_done book t (worked_of pages.old desk.old)) pages.new desk.new answers.new result }
{
    answers::put_answer(
        answers,
        0,
        Answer {
            asker: t,
            says: Says::Done,
        },
    );
    let mut row: Row = [0; TRANSACTIONS + 1];
    turns::work(pages, desk, answers, limits::ANSWER_SIZE, &mut row)
}

// t, which does not run, begins.
fn begin(pages: &mut Pages, desk: &mut Desk, answers: &mut [u8], t: u16) -> usize
    requires whole { Whole pages.old desk.old }
    requires space_least_in_bounds { space_least ≤ length answers.old }
    requires le_t { 1 ≤ t }
    requires t_le_transactions_most { t ≤ transactions_most }
    requires t_value { runs book (state_of pages.old desk.old) t ≡ false }
    ensures { Wrote answers.old 0 (after_done book t (worked book (begun book (state_of pages.old desk.old) t))) pages.new desk.new answers.new result }
{
    transactions::put_running(desk, t, true);
    done_first(pages, desk, answers, t)
}

// t ends, by commit or by rollback.
fn end(pages: &mut Pages, desk: &mut Desk, answers: &mut [u8], t: u16, commits: bool) -> usize
    requires whole { Whole pages.old desk.old }
    requires space_least_in_bounds { space_least ≤ length answers.old }
    requires le_t { 1 ≤ t }
    requires t_le_transactions_most { t ≤ transactions_most }
    ensures { Wrote answers.old 0 (after_done book t (worked book (ended book (end_of commits) (state_of pages.old desk.old) t))) pages.new desk.new answers.new result }
{
    ends::end(pages, desk, t, commits);
    done_first(pages, desk, answers, t)
}

// Who is in the way of t's request, on a desk at rest; the row has all who block each request.
fn blocker_of(pages: &Pages, desk: &Desk, row: &Row, t: u16) -> Blocker
    requires whole { Whole pages.now desk.now }
    requires le_t { 1 ≤ t }
    requires t_le_transactions_most { t ≤ transactions_most }
    requires rested { Rested pages.now desk.now row.now }
    ensures { book_blocker result ≡ blocker_of book (state_of pages.now desk.now) t }
{
    circles::next_in(row[usize::from(t)], 1, TRANSACTIONS + 1)
}

// Says to t that it waits, if it does, and who is in the way. It gives the place where the answers end then.
fn say_waiting(
    pages: &Pages,
    desk: &Desk,
    answers: &mut [u8],
    t: u16,
    end: usize,
    row: &Row,
) -> usize
    requires whole { Whole pages.now desk.now }
    requires le_t { 1 ≤ t }
    requires t_le_transactions_most { t ≤ transactions_most }
    requires room_left { RoomLeft desk.now answers.old end }
    requires rested { Rested pages.now desk.now row.now }
    ensures { Wrote answers.old end (last_of pages.now desk.now t) pages.now desk.now answers.new result }
{
    let Blocker::By(by) = blocker_of(pages, desk, row, t) else {
        return end;
    };
    answers::put_answer(
        answers,
        end,
        Answer {
            asker: t,
            says: Says::Waiting(by),
        },
    );
    end + limits::ANSWER_SIZE
}

// Works the queue; if t still waits then, that is said last.
fn work_for(pages: &mut Pages, desk: &mut Desk, answers: &mut [u8], t: u16) -> usize
    requires whole { Whole pages.old desk.old }
    requires le_t { 1 ≤ t }
    requires t_le_transactions_most { t ≤ transactions_most }
    requires space_least_in_bounds { space_least ≤ length answers.old }
    ensures { Wrote answers.old 0 (waiting_last book t (worked_of pages.old desk.old)) pages.new desk.new answers.new result }
{
    let mut row: Row = [0; TRANSACTIONS + 1];
    let end = turns::work(pages, desk, answers, 0, &mut row);
    say_waiting(pages, desk, answers, t, end, &row)
}

// t's request joins the queue, and the queue is worked.
fn queue_up(pages: &mut Pages, desk: &mut Desk, answers: &mut [u8], t: u16, ask: Ask) -> usize
    requires whole { Whole pages.old desk.old }
    requires space_least_in_bounds { space_least ≤ length answers.old }
    requires le_t { 1 ≤ t }
    requires t_le_transactions_most { t ≤ transactions_most }
    requires t_value { runs book (state_of pages.old desk.old) t ≡ true }
    requires t_value_2 { waits_now book (state_of pages.old desk.old) t ≡ false }
    requires ask_value { legal_ask book (book_ask ask) ≡ true }
    ensures { Wrote answers.old 0 (waiting_last book t (worked book (joined book (state_of pages.old desk.old) t (book_ask ask)))) pages.new desk.new answers.new result }
{
    joining::join(pages, desk, t, ask);
    work_for(pages, desk, answers, t)
}

// Answers one legal request on a whole picture, and gives how many bytes the answers take: refused with 13 to 15, or as the request asks.
pub fn answer(pages: &mut Pages, desk: &mut Desk, answers: &mut [u8], call: Call) -> usize
    requires whole { Whole pages.old desk.old }
    requires space_least_in_bounds { space_least ≤ length answers.old }
    requires call_value { legal_call book (book_call call) ≡ true }
    ensures { Answered (book_call call) (lent pages.old desk.old answers.old) (lent pages.new desk.new answers.new) result }
{
    let Call { asker: t, request } = call;
    if let Some(says) = refusing::refusal_of(pages, desk, t, request) {
        answers::put_answer(answers, 0, Answer { asker: t, says });
        return limits::ANSWER_SIZE;
    }
    match request {
        Request::Begin => begin(pages, desk, answers, t),
        Request::Commit => end(pages, desk, answers, t, true),
        Request::Rollback => end(pages, desk, answers, t, false),
        Request::Asks(ask) => queue_up(pages, desk, answers, t, ask),
    }
}
