//! Numberings of cells and places, a type for each, so that a number of one isn't taken for one of another. Lists have
//! plain numbers: whoever takes one out of a list says there which numbering it is of.

use number_lists::small;

/// A cell or a place by its index in the region.
#[derive(Clone, Copy)]
pub struct InRegion {
    number: u32,
}

impl InRegion {
    /// None of the region's.
    pub const NONE: InRegion = InRegion { number: u32::MAX };

    /// The one with this number, as lists, trees and proposals have it.
    pub fn of(number: u32) -> InRegion {
        InRegion { number }
    }

    /// The one with this index.
    pub fn at(index: usize) -> InRegion {
        InRegion::of(small(index))
    }

    /// The number, as lists, trees and proposals have it.
    pub fn number(self) -> u32 {
        self.number
    }

    /// The number, to look up by.
    pub fn index(self) -> usize {
        self.number as usize
    }
}

/// A cell or a place by its number in the reduced instance.
#[derive(Clone, Copy)]
pub struct InInstance {
    number: u32,
}

impl InInstance {
    /// None of the instance's.
    pub const NONE: InInstance = InInstance { number: u32::MAX };

    /// The one with this number, as lists have it.
    pub fn of(number: u32) -> InInstance {
        InInstance { number }
    }

    /// The one with this index.
    pub fn at(index: usize) -> InInstance {
        InInstance::of(small(index))
    }

    /// The number, as lists have it.
    pub fn number(self) -> u32 {
        self.number
    }

    /// The number, to look up by.
    pub fn index(self) -> usize {
        self.number as usize
    }
}
