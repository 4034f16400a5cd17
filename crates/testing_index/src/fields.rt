// An entry as the four numbers that pass through a door. A record that is absent passes as a number above every record.
ghost use Rattle.std.specs.Prelude.{◌≡◌, eqb, length};

use entries::Entry;
use keys::Key;

// How many bytes the four numbers take, 8 each.
pub const FIELDS_SIZE: usize = 32;

// A number as a record, or absent where it is above every record.
pub fn value_of(v: u64) -> Option<u32> {
    u32::try_from(v).ok()
}

// A record as a number; an absent one is above every record.
fn number_of(v: Option<u32>) -> u64 {
    v.map_or(u64::MAX, u64::from)
}

// The entry that four numbers say.
pub fn entry_of(key: Key, owner: u16, now: u64, before: u64) -> Entry
    ensures { result.key ≡ key }
{
    Entry {
        key,
        owner,
        now: value_of(now),
        before: value_of(before),
    }
}

// Writes key, owner, now and before, 8 bytes each, into so many bytes; nothing is written, and false is the answer, where there are more or
// fewer.
pub fn put_fields(out: &mut [u8], e: Entry) -> bool
    ensures { result ≡ eqb (length out.old) 32 }
{
    let Some(out) = out.as_mut_array::<FIELDS_SIZE>() else {
        return false;
    };
    e.key.write(out, 0);
    numbers::write_u64(out, 8, u64::from(e.owner));
    numbers::write_u64(out, 16, number_of(e.now));
    numbers::write_u64(out, 24, number_of(e.before));
    true
}
