//! Regions of a set cover instance, the parts that no place lights together, and their covers.
#![tactic(auto)]

mod columns;
mod copying;
mod cover;
mod entire;
mod grouping;
mod joining;
mod region;
mod restricting;
mod splitting;

pub use cover::Cover;
pub use entire::entire_of;
pub use region::Region;
pub use splitting::parts_of;
