//! A search that is shared out by pieces, as each worker is handed it.

use instance_regions::Region;
use std::alloc::{AllocError, Global};
use std::sync::Arc;

/// The allocator, the region, and who closes pieces of it.
pub struct SharedSearch<'a, C> {
    pub alloc: Global,
    pub region: &'a Arc<Region>,
    pub closer: &'a C,
}

impl<'a, C> Clone for SharedSearch<'a, C> {
    fn clone(&self) -> Result<SharedSearch<'a, C>, AllocError> {
        Ok(*self)
    }
}

impl<'a, C> Copy for SharedSearch<'a, C> {}
