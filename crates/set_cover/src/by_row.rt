//! Words looked at, and changed, by a row of bits. Only those words are touched where the row keeps some.
ghost use Rattle.std.specs.Prelude.{◌≡◌, ◌↔◌, ◌<◌, ◌≤◌, length, IsTrue};
ghost use Rattle.set_cover.specs.Bits.{IsApart, IsWithApart, IsWithin, IsWithout, Meet};

use crate::bit_row::BitRow;
use crate::change::{add_words_apart, clear_words};
use crate::counting::shared_count;
use crate::look::share_bits;

/// Clears each bit that the row has.
pub fn clear(words: &mut [u64], row: &BitRow)
    requires { length row.now ≡ length words.old }
    ensures { IsWithout words.old row.now words.new }
{
    let (before, kept) = row.kept();
    clear_words(&mut words[before..before + kept.len()], kept);
}

/// Adds what the row has and the other hasn't, as long as none of it is there already; false where some is.
pub fn add_apart(words: &mut [u64], row: &BitRow, other: &[u64]) -> bool
    requires row { length row.now ≡ length words.old }
    requires other { length words.old ≤ length other.now }
    ensures apart { IsTrue result ↔ IsApart words.old row.now other.now }
    ensures grown { IsTrue result → IsWithApart words.old row.now other.now words.new }
{
    let (before, kept) = row.kept();
    let end = before + kept.len();
    add_words_apart(&mut words[before..end], kept, &other[before..end])
}

/// Whether some bit is in both.
pub fn meet(row: &BitRow, words: &[u64]) -> bool
    requires { length row.now ≡ length words.now }
    ensures { IsTrue result ↔ Meet row.now words.now }
{
    let (before, kept) = row.kept();
    share_bits(kept, &words[before..before + kept.len()])
}

/// How many bits are in both, and `u32::MAX` where there are more.
pub fn common_count(row: &BitRow, words: &[u64]) -> u32
    requires { length row.now ≡ length words.now }
    ensures { (0 < result) ↔ Meet row.now words.now }
{
    let (before, kept) = row.kept();
    shared_count(kept, &words[before..before + kept.len()])
}

/// Whether what both the row and the part have is in the other row too.
pub fn is_within(row: &BitRow, part: &[u64], other: &BitRow) -> bool
    requires part { length part.now ≡ length row.now }
    requires other { length other.now ≡ length row.now }
    ensures { IsTrue result ↔ IsWithin row.now part.now other.now }
{
    let (before, kept) = row.kept();
    for index in 0..kept.len() {
        let both = kept[index] & part[before + index];
        if both & !other.word(before + index) != 0 {
            return false;
        }
    }
    true
}
