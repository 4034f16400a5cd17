// Rows of one width in lent bytes, the first at `base`, each behind the one before: moved, taken out, cut off and copied.
// What a row holds is not known here.
ghost use Rattle.std.specs.Prelude.{◌≡◌, ◌+◌, ◌*◌, ◌≤◌, ◌<◌, length};
ghost use Rattle.rows.specs.RowMoves.{opened, closed, row_moved, cut, rows_copied};

// Moves those from i on of n rows up by one. What stands at place i stays as it is, to be written over.
#[tactic(auto, using(crate::proofs::RowWidths::rows_halves))]
pub fn open_row(s: &mut [u8], base: usize, width: usize, i: usize, n: usize)
    requires i_le_n { i ≤ n }
    requires n_in_bounds { base + width * (n + 1) ≤ length s.old }
    ensures { s.new ≡ opened base width i n s.old }
{
    let at = base + width * i;
    numbers::move_bytes(s, at, at + width, width * (n - i));
}

// Takes row i of n out: those behind it move down by one, and the last one's bytes become zero.
#[tactic(auto, using(crate::proofs::RowWidths::row_behind))]
pub fn close_row(s: &mut [u8], base: usize, width: usize, i: usize, n: usize)
    requires i_lt_n { i < n }
    requires n_in_bounds { base + width * n ≤ length s.old }
    ensures { s.new ≡ closed base width i n s.old }
{
    let last = n - 1;
    let at = base + width * i;
    numbers::move_bytes(s, at + width, at, width * (last - i));
    numbers::zero_bytes(s, base + width * last, width);
}

// Moves row i down to place j.
#[tactic(auto, using(crate::proofs::RowWidths::rows_halves, crate::proofs::RowWidths::row_stays))]
pub fn move_row(s: &mut [u8], base: usize, width: usize, i: usize, j: usize)
    requires j_le_i { j ≤ i }
    requires i_in_bounds { base + width * (i + 1) ≤ length s.old }
    ensures { s.new ≡ row_moved base width i j s.old }
{
    if i == j {
        return;
    }
    numbers::move_bytes(s, base + width * i, base + width * j, width);
}

// Sets those from `from` on of n rows to zero.
#[tactic(auto, using(crate::proofs::RowWidths::rows_halves))]
pub fn cut_rows(s: &mut [u8], base: usize, width: usize, from: usize, n: usize)
    requires from_le_n { from ≤ n }
    requires n_in_bounds { base + width * n ≤ length s.old }
    ensures { s.new ≡ cut base width from n s.old }
{
    numbers::zero_bytes(s, base + width * from, width * (n - from));
}

// Copies n rows of one slice, from place `start` on, to the first n places of another.
pub fn copy_rows(to: &mut [u8], from: &[u8], base: usize, width: usize, start: usize, n: usize)
    requires n_in_bounds { base + width * n ≤ length to.old }
    requires n_in_bounds_2 { base + width * (start + n) ≤ length from.now }
    ensures { to.new ≡ rows_copied base width start n from.now to.old }
{
    numbers::copy_bytes(to, base, from, base + width * start, width * n);
}
