// Sets of numbers below 128, by value: those below 64 in one word, the others in a second.
#![tactic(auto)]

pub mod word;

ghost use Rattle.std.specs.Prelude.{◌≡◌, ◌<◌};
ghost use Rattle.sets.specs.Sets.{has, with_one};

#[derive(Clone, Copy)]
pub struct Set {
    pub low: u64,
    pub high: u64,
}

impl Set {
    // The set with nothing in it.
    pub const NONE: Set = Set { low: 0, high: 0 };

    // Whether n is in the set.
    pub fn has(self, n: usize) -> bool
        requires { n < 128 }
        ensures { result ≡ has self n }
    {
        if n < 64 {
            return word::has(self.low, n);
        }
        word::has(self.high, n - 64)
    }

    // The set with n in it.
    pub fn with(self, n: usize) -> Set
        requires { n < 128 }
        ensures { result ≡ with_one self n }
    {
        if n < 64 {
            return Set {
                low: word::with(self.low, n),
                high: self.high,
            };
        }
        Set {
            low: self.low,
            high: word::with(self.high, n - 64),
        }
    }
}
