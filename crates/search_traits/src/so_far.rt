//! What the turns of a search came to.

use instance_regions::Cover;

/// A cover of the region, a size that no cover is below, and how many turns were granted until then.
#[derive(Drop)]
pub struct SoFar {
    pub cover: Cover,
    pub floor: u64,
    pub granted: u64,
}
