// The run of a delete. (Document 01, "What the desk says".)
ghost use Rattle.std.specs.Prelude.{◌≡◌, cond, ◌&&◌};
ghost use Rattle.rules.specs.Kinds.{delete};
ghost use Rattle.rules.specs.Entries.{present, deleted};
ghost use Rattle.rules.specs.Runs.{done, nothing, locks_short};
ghost use Rattle.entries.specs.EntryMeaning.{book_entry};
ghost use Rattle.answers.specs.AnswerMeaning.{book_says};
ghost use Rattle.queue.specs.QueueLayout.{queued_at};
ghost use Rattle.index.specs.Pictures.{WholePages};
ghost use Rattle.states.specs.Whole.{Whole};
ghost use Rattle.waits.specs.Choices.{Known};
ghost use Rattle.runs.specs.RunsAt.{Clear, Ran};
ghost use Rattle.runs.specs.Exchanges.{Exchanged};

use super::locking::lock_and_leave;
use super::reading::unless_short;
use super::standing::standing;
use answers::{Answer, Says};
use entries::Entry;
use keys::Key;
use limits::{Desk, Pages};
use locks::Mode;
use waits::{Next, targets};

// Deletes the entry of the key for t, if it has the lock and the entry is not absent already. Gives what is said.
fn delete_there(pages: &mut Pages, given: bool, t: u16, e: Entry) -> Says
    requires { WholePages pages.old }
    ensures exchanged { Exchanged pages.old pages.new (given && present (book_entry e)) (deleted t (book_entry e)) }
    ensures says { book_says result ≡ cond given (cond (present (book_entry e)) done nothing) locks_short }
{
    if !given {
        return Says::LocksShort;
    }
    if e.now.is_none() {
        return Says::Nothing;
    }
    settling::replace(pages, e.deleted(t));
    Says::Done
}

// Runs the delete that is next, which nobody blocks.
pub fn run_delete(pages: &mut Pages, desk: &mut Desk, next: Next, key: Key) -> Answer
    requires whole { Whole pages.old desk.old }
    requires clear { Clear pages.old desk.old next.place }
    requires known { Known pages.old desk.old next }
    requires place_value { (queued_at desk.old next.place).asks ≡ delete key.0 }
    ensures { Ran pages.old desk.old pages.new desk.new next.place result }
{
    let t = queue::in_place(desk, next.place);
    let Some(e) = standing(next.target, key) else {
        let given = lock_and_leave(desk, next, t, targets::name_of(next.target), Mode::S);
        return Answer {
            asker: t,
            says: unless_short(given, Says::Nothing),
        };
    };
    let given = lock_and_leave(desk, next, t, key, Mode::X);
    Answer {
        asker: t,
        says: delete_there(pages, given, t, e),
    }
}
