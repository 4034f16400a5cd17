// A fresh desk. (Document 01, **Whole**.)
ghost use Rattle.std.specs.Prelude.{◌≡◌};
ghost use Rattle.states.specs.Fresh.{fresh_desk};

use limits::{DESK_SIZE, Desk};
use queue::head::KIND;

// Makes any buffer of the right length that of an empty desk: zeros behind its length and its kind.
pub fn fresh_desk(desk: &mut Desk)
    ensures { desk.new ≡ fresh_desk }
{
    desk.fill(0);
    numbers::write_u16(desk, 0, DESK_SIZE as u16);
    numbers::write_u16(desk, 2, KIND as u16);
}
