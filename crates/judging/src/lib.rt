// Judging a picture: pages and desk. (Document 01, **Whole**.)
#![tactic(auto)]

ghost use Rattle.std.specs.Prelude.{◌≡◌};
ghost use Rattle.states.specs.Whole.{Judged};
ghost use Rattle.judging.specs.Verdict.{whole_ok};

use limits::{Desk, Pages};

// Whether the picture passes every test: the pages, the desk by itself, the locks.
fn passes(pages: &Pages, desk: &Desk) -> bool
    ensures { result ≡ whole_ok pages.now desk.now }
{
    if !judging_pages::are_pages(pages) {
        return false;
    }
    if !judging_desk::is_desk(desk) {
        return false;
    }
    let root = index::root_of(pages);
    let height = index::height_of(pages);
    judging_order::stand_in_order(pages, desk, height - 1, root)
}

// Whether the picture is whole: yes exactly when it is. For any bytes of the two lengths.
pub fn is_whole(pages: &Pages, desk: &Desk) -> bool
    ensures { Judged pages.now desk.now result }
{
    passes(pages, desk)
}
