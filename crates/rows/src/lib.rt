// Rows of one width in lent bytes, and one page as its head and its rows. What a row holds is not known here.
// (Document 01, "Records and pages".)
#![tactic(auto)]

pub mod head;
mod moving;

ghost use Rattle.std.specs.Prelude.{◌≡◌, ◌+◌, ◌*◌, ◌≤◌, ◌<◌, length};
ghost use Rattle.limits.specs.Limits.{page_size, head_size, body_size};
ghost use Rattle.numbers.specs.Numbers.{put_number};
ghost use Rattle.rows.specs.RowMoves.{cut};
ghost use Rattle.rows.specs.RowSteps.{Parted};

use limits::HEAD_SIZE;
pub use moving::{close_row, copy_rows, cut_rows, move_row, open_row};

// The first rows of a page stay, and the others go to a page that has none: of rows of one width, `stay` and `go` of them.
pub fn part_rows(left: &mut [u8], right: &mut [u8], width: usize, stay: usize, go: usize)
    requires left_len { length left.old ≡ page_size }
    requires right_len { length right.old ≡ page_size }
    requires go_bound { width * (stay + go) ≤ body_size }
    requires stay_bound { stay < 65536 }
    requires go_bound_2 { go < 65536 }
    ensures { Parted width stay go left.old right.old left.new right.new }
{
    copy_rows(right, left, HEAD_SIZE, width, stay, go);
    head::put_count(right, go);
    keep_rows(left, width, stay, stay + go);
}

// Of n rows of one width the first `stay` are kept. The others become zero, and the page then has `stay` rows.
pub fn keep_rows(p: &mut [u8], width: usize, stay: usize, n: usize)
    requires p_len { length p.old ≡ page_size }
    requires stay_le_n { stay ≤ n }
    requires n_bound { width * n ≤ body_size }
    ensures { p.new ≡ put_number 2 (cut head_size width stay n p.old) 4 stay }
{
    cut_rows(p, HEAD_SIZE, width, stay, n);
    head::put_count(p, stay);
}
