// The lock table: its slots read and written, a lock taken, and those of a transaction released. (Document 01, "Locks".)
ghost use Rattle.std.specs.Prelude.{◌≡◌, [], ◌∷◌, ◌+◌, ◌*◌, ◌<◌, get_or};
ghost use Rattle.limits.specs.Limits.{locks_most, key_size, slot_size};
ghost use Rattle.numbers.specs.Numbers.{number_at, put_fields, zero_at};
ghost use Rattle.locks.specs.SlotLayout.{lock_widths, lock_place, name_in, slot_at, put_slot, book_mode, book_slot};
ghost use Rattle.locks.specs.SlotMoves.{taken_at, given_at, row_released, locks_released};

use crate::{Lock, Mode, strengthened};
use keys::Key;
use limits::{Desk, LOCKS};

// Where the slots start.
const SLOTS: usize = limits::SLOTS_PLACE;

// How many bytes a slot has.
const WIDTH: usize = limits::SLOT_SIZE;

// Where the holder stands in a slot: the bytes before it are the name's.
pub const HOLDER: usize = limits::KEY_SIZE;

// Where slot i starts.
fn slot_place(i: usize) -> usize
    requires { i < locks_most }
    ensures { result ≡ lock_place i }
{
    SLOTS + WIDTH * i
}

// The fields of slot i, one by one, as they stand, whether it is held or free: the name,
pub fn name_at(d: &Desk, i: usize) -> Key
    requires i_lt_locks_most { i < locks_most }
    ensures { result.0 ≡ number_at key_size d.now (lock_place i) }
{
    Key::read(d, slot_place(i))
}

// the holder,
pub fn holder_at(d: &Desk, i: usize) -> u16
    requires i_lt_locks_most { i < locks_most }
    ensures { result ≡ number_at 2 d.now (lock_place i + key_size) }
{
    numbers::read_u16(d, slot_place(i) + HOLDER)
}

// the mode,
pub fn mode_at(d: &Desk, i: usize) -> u16
    requires i_lt_locks_most { i < locks_most }
    ensures { result ≡ number_at 2 d.now (lock_place i + key_size + 2) }
{
    numbers::read_u16(d, slot_place(i) + HOLDER + 2)
}

// and the filler behind them.
pub fn filler_at(d: &Desk, i: usize) -> u32
    requires i_lt_locks_most { i < locks_most }
    ensures { result ≡ number_at 4 d.now (lock_place i + key_size + 2 + 2) }
{
    numbers::read_u32(d, slot_place(i) + HOLDER + 2 + 2)
}

// A byte of slot i.
pub fn byte_at(d: &Desk, i: usize, b: usize) -> u8
    requires i_lt_locks_most { i < locks_most }
    requires b_lt_slot_size { b < slot_size }
    ensures { result ≡ get_or d.now (lock_place i + b) 0 }
{
    d[slot_place(i) + b]
}

// Whether every byte of the slots is zero: all are free. One wide look tells.
pub fn are_zero(d: &Desk) -> bool
    ensures { result ≡ zero_at (slot_size * locks_most) (lock_place 0) d.now }
{
    numbers::is_zero(d, SLOTS, WIDTH * LOCKS)
}

// What slot i holds.
pub fn slot_at(d: &Desk, i: usize) -> Option<Lock>
    requires i_lt_locks_most { i < locks_most }
    ensures { book_slot result ≡ slot_at d.now i }
{
    let holder = holder_at(d, i);
    if holder == 0 {
        return None;
    }
    Some(Lock {
        name: name_at(d, i),
        holder,
        mode: Mode::of(mode_at(d, i)),
    })
}

// Writes slot i by its numbers, and nothing else.
fn put_row(d: &mut Desk, i: usize, name: Key, holder: u16, mode: u16)
    requires i_lt_locks_most { i < locks_most }
    ensures { d.new ≡ put_fields lock_widths d.old (lock_place i) (name.0 ∷ holder ∷ mode ∷ 0 ∷ []) }
{
    let p = slot_place(i);
    let q = p + HOLDER;
    let r = q + 2;
    name.write(d, p);
    numbers::write_u16(d, q, holder);
    numbers::write_u16(d, r, mode);
    numbers::write_u32(d, r + 2, 0);
}

// Writes slot i, and nothing else; a free slot is zero.
pub fn put_slot(d: &mut Desk, i: usize, s: Option<Lock>)
    requires i_lt_locks_most { i < locks_most }
    ensures { d.new ≡ put_slot d.old i (book_slot s) }
{
    match s {
        None => put_row(d, i, Key::LOWEST, 0, 0), // a field not in use is zero
        Some(lock) => put_row(d, i, lock.name, lock.holder, lock.mode.number()),
    }
}

// Takes a lock for t: strengthens the one in slot `own`, or puts a new one into slot `free`. Where there is no such slot, each is the number
// of slots (a number and no Option, as `taken_at` and `given_at` take it). False, and nothing changed, where there is neither.
pub fn take_at(d: &mut Desk, own: usize, free: usize, t: u16, name: Key, mode: Mode) -> bool
    ensures taken { d.new ≡ taken_at d.old own free t (name_in name.0) (book_mode mode) }
    ensures given { result ≡ given_at own free }
{
    if own < LOCKS {
        put_slot(d, own, strengthened(slot_at(d, own), mode));
        return true;
    }
    if free < LOCKS {
        put_slot(
            d,
            free,
            Some(Lock {
                name,
                holder: t,
                mode,
            }),
        );
        return true;
    }
    false
}

// Sets slot i to zero if t is its holder.
fn release_row(d: &mut Desk, i: usize, t: u16)
    requires i_lt_locks_most { i < locks_most }
    ensures { d.new ≡ row_released t i d.old }
{
    if holder_at(d, i) == t {
        numbers::zero_bytes(d, slot_place(i), WIDTH);
    }
}

// Releases all locks of t: their slots are zero, the others keep their bytes.
pub fn release_locks(d: &mut Desk, t: u16)
    ensures { d.new ≡ locks_released t d.old }
{
    for i in 0..LOCKS {
        release_row(d, i, t);
    }
}
