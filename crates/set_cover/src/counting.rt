//! Counting the bits of rows, a word at a time.
ghost use Rattle.std.specs.Prelude.{◌≡◌, ◌↔◌, ◌<◌, ◌^◌, length};
ghost use Rattle.set_cover.specs.Bits.{Has, Meet};
ghost use Rattle.set_cover.specs.Counts.{IsCount};

/// How many bits the row has.
pub fn count(words: &[u64]) -> usize
    requires { length words.now < 2 ^ 32 }
    ensures { IsCount (Has words.now) result }
{
    let mut total = 0;
    for word in words {
        total += word.count_ones() as usize;
    }
    total
}

/// How many bits are in both, and `u32::MAX` where there are more.
pub(crate) fn shared_count(one: &[u64], two: &[u64]) -> u32
    requires { length one.now ≡ length two.now }
    ensures { (0 < result) ↔ Meet one.now two.now }
{
    let mut count: u32 = 0;
    for index in 0..one.len() {
        count = count.saturating_add((one[index] & two[index]).count_ones());
    }
    count
}
