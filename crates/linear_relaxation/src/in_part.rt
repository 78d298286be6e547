//! The numbering of a part of an instance, whose relaxation is solved.

use number_lists::small;

/// A cell or a place by its number in the part. Lanes number places that they have beside the part's behind these.
#[derive(Clone, Copy)]
pub struct InPart {
    number: u32,
}

impl InPart {
    /// None of the part's.
    pub const NONE: InPart = InPart { number: u32::MAX };

    /// The one with this number, as lists have it.
    pub fn of(number: u32) -> InPart {
        InPart { number }
    }

    /// The one with this index.
    pub fn at(index: usize) -> InPart {
        InPart::of(small(index))
    }

    /// The number, as lists have it.
    pub fn number(self) -> u32 {
        self.number
    }

    /// The number, to look up by.
    pub fn index(self) -> usize {
        self.number as usize
    }
}
