// Sets of numbers below 64 as one word, a bit for each: the number is the bit.
ghost use Rattle.std.specs.Prelude.{◌≡◌, ◌<◌};
ghost use Rattle.sets.specs.Sets.{word_has, word_with};

// Whether n is in the word.
pub fn has(m: u64, n: usize) -> bool
    requires { n < 64 }
    ensures { result ≡ word_has m n }
{
    (m >> n) % 2 == 1
}

// The word with n in it.
pub fn with(m: u64, n: usize) -> u64
    requires { n < 64 }
    ensures { result ≡ word_with m n }
{
    m | (1 << n)
}
