// The oldest request that nobody blocks. (Document 01, "Locks" and "Working the queue".)
ghost use Rattle.std.specs.Prelude.{◌+◌, ◌<◌};
ghost use Rattle.limits.specs.Limits.{locks_most};
ghost use Rattle.queue.specs.QueueLayout.{queued};
ghost use Rattle.states.specs.Whole.{Whole};
ghost use Rattle.waits.specs.Choices.{book_want, OldestIs};
ghost use Rattle.waits.specs.Blocks.{RowTo, RowsIn, TurnAt};
ghost use Rattle.waits.specs.Notes.{Noted, LookedAt};
ghost use Rattle.waits.specs.Slots.{Scanned};

use super::{Collected, Looked, Next, Row, Want, Wants, blockers, targets};
use circles::Blocker;
use keys::Key;
use limits::{Desk, LOCKS, Pages, TRANSACTIONS};
use locks::Mode;

// The target of the request at place q, found by one search, and what it wants, which is noted.
fn look_at(pages: &Pages, desk: &Desk, wants: &mut Wants, q: usize) -> Looked
    requires whole { Whole pages.now desk.now }
    requires q_bound { q < queued desk.now }
    requires noted { Noted pages.now desk.now wants.old q }
    ensures { LookedAt pages.now desk.now wants.new q result }
{
    let target = targets::target_at(pages, desk, q);
    let want = targets::want_at(pages, desk, q, target);
    wants[q] = want;
    Looked { target, want }
}

// The turn of the request at place q, where all slots have been looked at: it runs if nobody is in its way. The row gets all who block it.
fn turn_at(
    pages: &Pages,
    desk: &Desk,
    wants: &Wants,
    row: &mut Row,
    q: usize,
    looked: Looked,
    held: Collected,
) -> Option<Next>
    requires whole { Whole pages.now desk.now }
    requires q_bound { q < queued desk.now }
    requires looked_at { LookedAt pages.now desk.now wants.now q looked }
    requires scanned { Scanned desk.now looked.want.asker (book_want looked.want) locks_most held }
    requires row_to { RowTo pages.now desk.now row.old q }
    ensures turn { TurnAt pages.now desk.now q result }
    ensures row { RowTo pages.now desk.now row.new (q + 1) }
{
    let set = blockers::blockers_of(pages, desk, wants, q, looked.want, held);
    row[looked.want.asker as usize] = set;
    let Blocker::Nobody = circles::next_in(set, 1, TRANSACTIONS + 1) else {
        return None;
    };
    Some(Next {
        place: q,
        target: looked.target,
        own: held.own,
        free: held.free,
    })
}

// The oldest request that nobody blocks. Of each request that is looked at, the row gets all who block it, at its asker's number; where nobody
// can run, these are all. What each wants is noted for those behind it.
pub fn oldest(pages: &Pages, desk: &Desk, row: &mut Row) -> Option<Next>
    requires whole { Whole pages.now desk.now }
    requires row_to { RowTo pages.now desk.now row.old 0 }
    ensures chosen { OldestIs pages.now desk.now result }
    ensures rows { RowsIn pages.now desk.now row.new result }
{
    let mut wants: Wants = [Want {
        asker: 0,
        name: Key::LOWEST,
        mode: Mode::S,
    }; TRANSACTIONS];
    let mut turn = None;
    'queue: for q in 0..queue::queued(desk) {
        let looked = look_at(pages, desk, &mut wants, q);
        let mut held = Collected {
            against: 0,
            own: 0,
            free: 0,
        };
        for i in 0..LOCKS {
            held = blockers::see(pages, desk, i, looked.want, held);
        }
        turn = turn_at(pages, desk, &wants, row, q, looked, held);
        let Some(_) = turn else {
            continue 'queue;
        };
        break 'queue;
    }
    turn
}
