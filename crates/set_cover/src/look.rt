//! Looking at rows.
ghost use Rattle.std.specs.Prelude.{◌≡◌, ◌↔◌, ℕ, ◌*◌, ◌+◌, ◌<◌, ◌^◌, IsTrue, length, MatchOption};
ghost use Rattle.set_cover.specs.Bits.{Has, Meet};

/// Whether the row has the bit.
pub fn has(words: &[u64], bit: usize) -> bool
    requires { bit < 64 * length words.now }
    ensures { IsTrue result ↔ Has words.now bit }
{
    (words[bit / 64] >> (bit % 64)) & 1 == 1
}

/// The least bit of a row.
pub fn first(words: &[u64]) -> Option<usize>
    requires { length words.now < 2 ^ 32 }
    ensures { MatchOption result ((bit : ℕ) → ¬ Has words.now bit) (λ bit. Has words.now bit) }
{
    for (index, word) in words.iter().enumerate() {
        if *word != 0 {
            return Some(64 * index + word.trailing_zeros() as usize);
        }
    }
    None
}

/// Whether some bit is in both.
pub(crate) fn share_bits(one: &[u64], two: &[u64]) -> bool
    requires { length one.now ≡ length two.now }
    ensures { IsTrue result ↔ Meet one.now two.now }
{
    for index in 0..one.len() {
        if one[index] & two[index] != 0 {
            return true;
        }
    }
    false
}
