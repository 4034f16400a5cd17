// The queue worked to rest, turn by turn. (Document 01, "Working the queue".)
#![tactic(auto)]

ghost use Rattle.std.specs.Prelude.{◌≡◌, ◌+◌, ◌*◌, ◌<◌, ◌≤◌, length};
ghost use Rattle.std.proofs.Math.Option.{none};
ghost use Rattle.limits.specs.Limits.{answer_size};
ghost use Rattle.rules.specs.Queue.{oldest};
ghost use Rattle.queue.specs.QueueLayout.{queued};
ghost use Rattle.states.specs.States.{book, state_of};
ghost use Rattle.states.specs.Whole.{Whole};
ghost use Rattle.waits.specs.Choices.{OldestIs};
ghost use Rattle.waits.specs.Blocks.{Rows, RowsIn};
ghost use Rattle.turns.specs.Working.{GaveWay, Rested, RoomLeft, Turns, Wrote, worked_of};

use answers::{Answer, Says};
use limits::{Desk, Pages};
use waits::{Next, Row};

// The request at place q of the queue gives way: it leaves, with answer 19.
fn give_way(pages: &Pages, desk: &mut Desk, q: usize) -> Answer
    requires whole { Whole pages.now desk.old }
    requires q_bound { q < queued desk.old }
    ensures { GaveWay pages.now desk.old desk.new q result }
{
    let t = queue::in_place(desk, q);
    queue::leave_queue(desk, q);
    Answer {
        asker: t,
        says: Says::Circle,
    }
}

// A turn where nobody can run, and the row has all who block each request: the lightest that lies on a circle gives way, which is the answer.
// Where none lies on a circle the desk is at rest, and there is none.
fn circle_turn(pages: &Pages, desk: &mut Desk, row: &Row) -> Option<Answer>
    requires whole { Whole pages.now desk.old }
    requires desk_value { oldest book (state_of pages.now desk.old) ≡ none }
    requires rows { Rows pages.now desk.old row.now }
    ensures { Turns pages.now desk.old pages.now desk.new row.now result }
{
    let q = waits::lightest_on_circle(pages, desk, row)?;
    Some(give_way(pages, desk, q))
}

// The oldest request that nobody blocks. The row gets all who block each that is looked at.
fn choose(pages: &Pages, desk: &Desk, row: &mut Row) -> Option<Next>
    requires whole { Whole pages.now desk.now }
    ensures chosen { OldestIs pages.now desk.now result }
    ensures rows { RowsIn pages.now desk.now row.new result }
{
    circles::clear(row);
    waits::oldest(pages, desk, row)
}

// One turn, and its answer: the oldest that nobody blocks runs; where each is blocked, a circle is looked for. At rest there is no answer, and
// the row has all who block each request.
fn turn(pages: &mut Pages, desk: &mut Desk, row: &mut Row) -> Option<Answer>
    requires whole { Whole pages.old desk.old }
    ensures { Turns pages.old desk.old pages.new desk.new row.new result }
{
    match choose(pages, desk, row) {
        Some(next) => Some(runs::run_at(pages, desk, next)),
        None => circle_turn(pages, desk, row),
    }
}

// Works the queue to rest. The answers are written one after the other from a place on; it gives the place where they end. The row has then all
// who block each request that is left, and there is room for an answer to each.
pub fn work(
    pages: &mut Pages,
    desk: &mut Desk,
    answers: &mut [u8],
    at: usize,
    row: &mut Row,
) -> usize
    requires whole { Whole pages.old desk.old }
    requires desk_in_bounds { at + answer_size * queued desk.old ≤ length answers.old }
    ensures wrote { Wrote answers.old at (worked_of pages.old desk.old) pages.new desk.new answers.new result }
    ensures rests { Rested pages.new desk.new row.new }
    ensures room { RoomLeft desk.new answers.new result }
{
    let mut end = at;
    while let Some(answer) = turn(pages, desk, row) {
        answers::put_answer(answers, end, answer);
        end += limits::ANSWER_SIZE;
    }
    end
}
