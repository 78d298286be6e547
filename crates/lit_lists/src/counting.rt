//! How often each number stands in a list, and the sums of counts: `AreCounts` and `AreSumsOf` of specs/Filling.antt.
ghost use Rattle.std.specs.Prelude.{◌≡◌, ◌<◌, ◌^◌, length, replicate, sum, All, IfOk};
ghost use Rattle.lit_lists.specs.Filling.{AreCounts, AreSumsOf};

use std::alloc::{AllocError, Global};

/// Counts each number of the list.
fn count_all(counts: &mut [usize], numbers: &[u32])
    requires inside { All (λ number. number < length counts.old) numbers.now }
    requires none { counts.old ≡ replicate (length counts.old) 0 }
    ensures { AreCounts (length counts.old) numbers.now counts.new }
{
    for number in numbers {
        counts[*number as usize] += 1;
    }
}

/// How often each number stands in the list; all are below the count.
pub fn counts_of(alloc: Global, numbers: &[u32], count: u32) -> Result<Vec<usize>, AllocError>
    requires inside { All (λ number. number < count) numbers.now }
    ensures { IfOk result (λ v. AreCounts count numbers.now v.items) }
{
    let mut counts = vec![in alloc; 0; count as usize]?;
    count_all(counts.as_mut_slice(), numbers);
    Ok(counts)
}

/// The sums of the counts: of none, of the first, of the first two, and so on.
pub fn sums_of(alloc: Global, counts: &[usize]) -> Result<Vec<usize>, AllocError>
    requires fits { sum counts.now < 2 ^ 64 }
    ensures { IfOk result (λ v. AreSumsOf counts.now v.items) }
{
    let mut sums = Vec::with_capacity(alloc, counts.len() + 1)?;
    let mut total = 0;
    sums.push(total)?;
    for count in counts {
        total += *count;
        sums.push(total)?;
    }
    Ok(sums)
}
