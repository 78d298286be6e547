//! Going from bit to bit of a row.
ghost use Rattle.std.specs.Prelude.{◌<◌, ◌+◌, ◌*◌, ◌^◌, length, MatchOption};
ghost use Rattle.set_cover.specs.Bits.{HasNoneFrom, IsNext};

/// The least bit of the row that is at least `from`. To go over all bits: `next(row, 0)`, then each time from the bit
/// that was found and one.
pub fn next(words: &[u64], from: usize) -> Option<usize>
    requires { length words.now < 2 ^ 32 }
    ensures { MatchOption result (HasNoneFrom words.now from) (IsNext words.now from) }
{
    let index = from / 64;
    if index >= words.len() {
        return None;
    }
    let rest = words[index] >> (from % 64);
    if rest != 0 {
        return Some(from + rest.trailing_zeros() as usize);
    }
    first_after(words, index)
}

/// The least bit in the words after this one.
fn first_after(words: &[u64], word: usize) -> Option<usize>
    requires small { length words.now < 2 ^ 32 }
    requires inside { word < length words.now }
    ensures { let from = 64 * (word + 1) in MatchOption result (HasNoneFrom words.now from) (IsNext words.now from) }
{
    for index in word + 1..words.len() {
        if words[index] != 0 {
            return Some(64 * index + words[index].trailing_zeros() as usize);
        }
    }
    None
}
