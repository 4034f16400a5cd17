// Numbers in lent bytes: little-endian numbers read and written at a place, and bytes copied, moved, set to zero and
// tested. Every place is counted in bytes from the start of the slice; the caller sees to it that it is in range.
// Each width has its function: a trait over the widths would need an impl with these two bodies for each, and be no shorter.
#![tactic(auto)]

ghost use Rattle.std.specs.Prelude.{◌≡◌, ◌+◌, ◌≤◌, ◌<◌, length};
ghost use Rattle.numbers.specs.Numbers.{number_at, put_number, copied, moved, zeroed, zero_at};

// The byte at a place.
pub fn read_u8(s: &[u8], at: usize) -> u8
    requires { at + 1 ≤ length s.now }
    ensures { result ≡ number_at 1 s.now at }
{
    s[at]
}

// The number of two bytes at a place.
pub fn read_u16(s: &[u8], at: usize) -> u16
    requires { at + 2 ≤ length s.now }
    ensures { result ≡ number_at 2 s.now at }
{
    u16::from_le_bytes([s[at], s[at + 1]])
}

// The number of four bytes at a place.
pub fn read_u32(s: &[u8], at: usize) -> u32
    requires { at + 4 ≤ length s.now }
    ensures { result ≡ number_at 4 s.now at }
{
    let mut bytes = [0; 4];
    bytes.copy_from_slice(&s[at..at + 4]);
    u32::from_le_bytes(bytes)
}

// The number of eight bytes at a place.
pub fn read_u64(s: &[u8], at: usize) -> u64
    requires { at + 8 ≤ length s.now }
    ensures { result ≡ number_at 8 s.now at }
{
    let mut bytes = [0; 8];
    bytes.copy_from_slice(&s[at..at + 8]);
    u64::from_le_bytes(bytes)
}

// The number of two bytes at a place, as a count or an index.
pub fn number_at(s: &[u8], at: usize) -> usize
    requires { at + 2 ≤ length s.now }
    ensures { (result ≡ number_at 2 s.now at) × (result < 65536) }
{
    usize::from(read_u16(s, at))
}

// Writes a byte at a place, and nothing else.
pub fn write_u8(s: &mut [u8], at: usize, v: u8)
    requires { at + 1 ≤ length s.old }
    ensures { s.new ≡ put_number 1 s.old at v }
{
    s[at] = v;
}

// Writes a number of two bytes at a place, and nothing else.
pub fn write_u16(s: &mut [u8], at: usize, v: u16)
    requires { at + 2 ≤ length s.old }
    ensures { s.new ≡ put_number 2 s.old at v }
{
    s[at..at + 2].copy_from_slice(&v.to_le_bytes());
}

// Writes a number of four bytes at a place, and nothing else.
pub fn write_u32(s: &mut [u8], at: usize, v: u32)
    requires { at + 4 ≤ length s.old }
    ensures { s.new ≡ put_number 4 s.old at v }
{
    s[at..at + 4].copy_from_slice(&v.to_le_bytes());
}

// Writes a number of eight bytes at a place, and nothing else.
pub fn write_u64(s: &mut [u8], at: usize, v: u64)
    requires { at + 8 ≤ length s.old }
    ensures { s.new ≡ put_number 8 s.old at v }
{
    s[at..at + 8].copy_from_slice(&v.to_le_bytes());
}

// Copies n bytes of one slice, from `start` on, into another, from `at` on.
pub fn copy_bytes(to: &mut [u8], at: usize, from: &[u8], start: usize, n: usize)
    requires n_in_bounds { at + n ≤ length to.old }
    requires n_in_bounds_2 { start + n ≤ length from.now }
    ensures { to.new ≡ copied n from.now start at to.old }
{
    to[at..at + n].copy_from_slice(&from[start..start + n]);
}

// Moves n bytes within a slice to another place, as if all were read before one is written.
pub fn move_bytes(s: &mut [u8], from: usize, to: usize, n: usize)
    requires from_in_bounds { from + n ≤ length s.old }
    requires to_in_bounds { to + n ≤ length s.old }
    ensures { s.new ≡ moved n from to s.old }
{
    s.copy_within(from..from + n, to);
}

// Sets n bytes from a place on to zero.
pub fn zero_bytes(s: &mut [u8], at: usize, n: usize)
    requires { at + n ≤ length s.old }
    ensures { s.new ≡ zeroed n at s.old }
{
    s[at..at + n].fill(0);
}

// Whether n bytes from a place on are all zero. Every byte is looked at, with no early end: wide steps are cheaper.
pub fn is_zero(s: &[u8], at: usize, n: usize) -> bool
    requires { at + n ≤ length s.now }
    ensures { result ≡ zero_at n at s.now }
{
    s[at..at + n].iter().fold(true, |ok, b| ok & (*b == 0))
}
