// What a run does to the desk. (Document 01, "Working the queue".)
ghost use Rattle.std.specs.Prelude.{◌≡◌, ◌<◌, ◌≤◌};
ghost use Rattle.limits.specs.Limits.{transactions_most};
ghost use Rattle.queue.specs.QueueLayout.{queued, in_place};
ghost use Rattle.locks.specs.SlotLayout.{name_in, book_mode};
ghost use Rattle.locks.specs.SlotMoves.{held_in, free_in, lock_taken, lock_given};
ghost use Rattle.queue.specs.QueueMoves.{queue_left};

use keys::Key;
use limits::Desk;
use locks::Mode;
use waits::Next;

// Takes a lock for t, whose own slot for it and the lowest free one are in `next`, and the request at its place leaves the queue.
// Gives whether t has the lock.
pub fn lock_and_leave(desk: &mut Desk, next: Next, t: u16, name: Key, mode: Mode) -> bool
    requires place_bound { next.place < queued desk.old }
    requires desk_bound { queued desk.old ≤ transactions_most }
    requires place_bound_2 { in_place desk.old next.place ≤ transactions_most }
    requires own_value { next.own ≡ held_in desk.old t (name_in name.0) }
    requires free_value { next.free ≡ free_in desk.old }
    ensures left { desk.new ≡ queue_left (lock_taken desk.old t (name_in name.0) (book_mode mode)) next.place }
    ensures given { result ≡ lock_given desk.old t (name_in name.0) }
{
    let given = locks::take_at(desk, next.own, next.free, t, name, mode);
    queue::leave_queue(desk, next.place);
    given
}
