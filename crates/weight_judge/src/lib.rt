//! A judge of weighted leaves over lists of places, exact both ways: whether no place lights more of a group than its
//! capacity or cells of two groups, and how many places the groups need. It knows no cave and no instance.
#![tactic(auto)]

mod claims;
mod judge;
pub mod laws;
mod needed;
mod place_lists;
mod rooms;

pub use claims::{Claim, claims_of};
pub use judge::keep_capacities;
pub use needed::places_for_all;
pub use place_lists::PlaceLists;
pub use rooms::Rooms;
