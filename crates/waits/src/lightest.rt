// Who gives way where everybody is blocked: of the requests that lie on a circle the one whose transaction holds the fewest locks; of equals the
// newest. (Document 01, "Working the queue"; document 02, [14].)
ghost use Rattle.std.specs.Prelude.{◌≡◌, ◌+◌, ◌<◌};
ghost use Rattle.limits.specs.Limits.{locks_most};
ghost use Rattle.circles.specs.Search.{circle_on};
ghost use Rattle.queue.specs.QueueLayout.{queued, in_place};
ghost use Rattle.states.specs.Whole.{Whole};
ghost use Rattle.waits.specs.Choices.{LightestAt};
ghost use Rattle.waits.specs.Blocks.{Rows};
ghost use Rattle.waits.specs.Weights.{CountedTo, BestTo, NobodyTo};

use super::{Row, Yielding, blockers};
use limits::{Desk, LOCKS, Pages, TRANSACTIONS};

// How many locks each transaction holds, at its number. Place 0 has how many slots are free.
type Counts = [u64; TRANSACTIONS + 1];

// Counts slot i for its holder, where those before it have been counted.
fn count_slot(pages: &Pages, desk: &Desk, counts: &mut Counts, i: usize)
    requires whole { Whole pages.now desk.now }
    requires i_lt_locks_most { i < locks_most }
    requires counted_to { CountedTo desk.now counts.old i }
    ensures { CountedTo desk.now counts.new (i + 1) }
{
    let t = blockers::holder_of(locks::slot_at(desk, i));
    counts[t] += 1;
}

// Counts the locks of each transaction in one pass over the table.
fn count_locks(pages: &Pages, desk: &Desk) -> Counts
    requires whole { Whole pages.now desk.now }
    ensures { CountedTo desk.now result locks_most }
{
    let mut counts = [0; TRANSACTIONS + 1];
    for i in 0..LOCKS {
        count_slot(pages, desk, &mut counts, i);
    }
    counts
}

// Whether the request at place q lies on a circle. The row has all who block each request.
fn lies_on_circle(pages: &Pages, desk: &Desk, row: &Row, q: usize) -> bool
    requires whole { Whole pages.now desk.now }
    requires q_bound { q < queued desk.now }
    requires rows { Rows pages.now desk.now row.now }
    ensures { result ≡ circle_on row.now (in_place desk.now q) }
{
    circles::on_circle(row, queue::in_place(desk, q) as usize)
}

// Looks at the request at place q, where those before it have been looked at: of equals the newer is kept, which is this.
fn look_at(
    pages: &Pages,
    desk: &Desk,
    row: &Row,
    counts: &Counts,
    q: usize,
    best: Yielding,
) -> Yielding
    requires whole { Whole pages.now desk.now }
    requires q_bound { q < queued desk.now }
    requires rows { Rows pages.now desk.now row.now }
    requires counted_to { CountedTo desk.now counts.now locks_most }
    requires best_to { BestTo pages.now desk.now q best }
    ensures { BestTo pages.now desk.now (q + 1) result }
{
    if !lies_on_circle(pages, desk, row, q) {
        return best;
    }
    let held = counts[queue::in_place(desk, q) as usize];
    if best.held < held {
        return best;
    }
    Yielding {
        place: Some(q),
        held,
    }
}

// The place of the request that gives way, where none before a place lies on a circle.
fn lightest_from(pages: &Pages, desk: &Desk, row: &Row, from: usize) -> Option<usize>
    requires whole { Whole pages.now desk.now }
    requires rows { Rows pages.now desk.now row.now }
    requires nobody_to { NobodyTo pages.now desk.now from }
    ensures { LightestAt pages.now desk.now result }
{
    let counts = count_locks(pages, desk);
    let mut best = Yielding {
        place: None,
        held: LOCKS as u64 + 1,
    };
    for q in from..queue::queued(desk) {
        best = look_at(pages, desk, row, &counts, q, best);
    }
    best.place
}

// The place of the request that gives way, if one lies on a circle; only then are locks counted. The row has all who block each request.
pub fn lightest_on_circle(pages: &Pages, desk: &Desk, row: &Row) -> Option<usize>
    requires whole { Whole pages.now desk.now }
    requires rows { Rows pages.now desk.now row.now }
    ensures { LightestAt pages.now desk.now result }
{
    let from = (0..queue::queued(desk)).find(|q| lies_on_circle(pages, desk, row, *q))?;
    lightest_from(pages, desk, row, from)
}
