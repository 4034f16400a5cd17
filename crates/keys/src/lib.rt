// Keys: their marks, their order, and how they stand in bytes. (Document 01, "Keys and entries".)
#![tactic(auto)]

ghost use Rattle.std.specs.Prelude.{◌≡◌, ◌+◌, ◌≤◌, eqb, ltb, length};
ghost use Rattle.limits.specs.Limits.{key_size};
ghost use Rattle.numbers.specs.Numbers.{number_at, put_number};
ghost use Rattle.rules.specs.Document.{end_mark};

// A key: its upper half is the pupil, its lower half the delivery. The marks belong to it; the end is never a key, but names a lock.
#[derive(Clone, Copy, PartialEq, Eq, PartialOrd, Ord)]
pub struct Key(pub u64);

impl Key {
    // The marks: keys lie from the lowest to the highest, and the end comes next. `is_key` and `is_end` tie them to the rule book's.
    pub const LOWEST: Key = Key(0);

    pub const HIGHEST: Key = Key(18446744073709551614);

    pub const END: Key = Key(18446744073709551615);

    // Whether it is a key, and not the end.
    pub fn is_key(self) -> bool
        ensures { result ≡ ltb self.0 end_mark }
    {
        (Self::LOWEST <= self) & (self <= Self::HIGHEST)
    }

    // Whether it is the end, and no key.
    pub fn is_end(self) -> bool
        ensures { result ≡ eqb self.0 end_mark }
    {
        self == Self::END
    }

    // Whether it is below another: keys are in the order of their numbers.
    pub fn is_below(self, other: Key) -> bool
        ensures { result ≡ ltb self.0 other.0 }
    {
        self < other
    }

    // The key that stands at a place.
    pub fn read(s: &[u8], at: usize) -> Key
        requires { at + key_size ≤ length s.now }
        ensures { result.0 ≡ number_at key_size s.now at }
    {
        Key(numbers::read_u64(s, at))
    }

    // Writes it at a place, and nothing else.
    pub fn write(self, s: &mut [u8], at: usize)
        requires { at + key_size ≤ length s.old }
        ensures { s.new ≡ put_number key_size s.old at self.0 }
    {
        numbers::write_u64(s, at, self.0);
    }
}
