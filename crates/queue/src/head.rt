// The head of the desk buffer; the count of the queue, which stands there too, is the queue's.
ghost use Rattle.std.specs.Prelude.{◌≡◌, ◌-◌};
ghost use Rattle.limits.specs.Limits.{desk_head_size};
ghost use Rattle.numbers.specs.Numbers.{number_at, zero_at};

use limits::Desk;

// The kind that a desk's head says.
pub const KIND: usize = 8;

// How many bytes there are behind the count of the queue.
const ZEROS: usize = limits::DESK_HEAD_SIZE - 6;

// The length that the desk says it has.
pub fn length_of(d: &Desk) -> usize
    ensures { result ≡ number_at 2 d.now 0 }
{
    numbers::number_at(d, 0)
}

// Its kind.
pub fn kind_of(d: &Desk) -> usize
    ensures { result ≡ number_at 2 d.now 2 }
{
    numbers::number_at(d, 2)
}

// Whether what is behind the count of the queue is zero.
pub fn has_zeros(d: &Desk) -> bool
    ensures { result ≡ zero_at (desk_head_size - 6) 6 d.now }
{
    numbers::is_zero(d, 6, ZEROS)
}
