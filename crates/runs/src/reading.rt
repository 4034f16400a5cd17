// The run of a read. (Document 01, "What the desk says".)
ghost use Rattle.std.specs.Prelude.{◌≡◌, cond};
ghost use Rattle.rules.specs.Kinds.{read};
ghost use Rattle.rules.specs.Runs.{locks_short, read_says};
ghost use Rattle.answers.specs.AnswerMeaning.{book_says};
ghost use Rattle.queue.specs.QueueLayout.{queued_at};
ghost use Rattle.index.specs.Searches.{book_found};
ghost use Rattle.states.specs.States.{book};
ghost use Rattle.states.specs.Whole.{Whole};
ghost use Rattle.waits.specs.Choices.{Known};
ghost use Rattle.runs.specs.RunsAt.{Clear, Ran};

use super::locking::lock_and_leave;
use answers::{Answer, Says};
use entries::Entry;
use keys::Key;
use limits::{Desk, Pages};
use locks::Mode;
use waits::{Next, targets};

// What is said if the lock was given, and otherwise number 17.
pub fn unless_short(given: bool, says: Says) -> Says
    ensures { book_says result ≡ cond given (book_says says) locks_short }
{
    if given { says } else { Says::LocksShort }
}

// What a read says of its target.
fn read_says(found: Option<Entry>, hi: Key) -> Says
    ensures { book_says result ≡ read_says book hi.0 (book_found found) }
{
    match found {
        Some(e) if e.key <= hi => Says::Found(e.key, e.now),
        _ => Says::Nothing,
    }
}

// Runs the read that is next, which nobody blocks.
pub fn run_read(pages: &Pages, desk: &mut Desk, next: Next, lo: Key, hi: Key) -> Answer
    requires whole { Whole pages.now desk.old }
    requires clear { Clear pages.now desk.old next.place }
    requires known { Known pages.now desk.old next }
    requires place_value { (queued_at desk.old next.place).asks ≡ read lo.0 hi.0 }
    ensures { Ran pages.now desk.old pages.now desk.new next.place result }
{
    let t = queue::in_place(desk, next.place);
    let name = targets::name_of(next.target);
    let given = lock_and_leave(desk, next, t, name, Mode::S);
    let says = unless_short(given, read_says(next.target, hi));
    Answer { asker: t, says }
}
