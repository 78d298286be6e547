//! An instance of set cover as rows of bits: the cells are the elements, the places the candidates, and the row of a
//! place has a bit for each cell that a torch there lights. Each region of a cave is such; the cave's whole problem is
//! an instance as lists.
//! A row is a set of small numbers, 64 in a word; no crate above speaks of shifts. A `BitRow` keeps only the words from
//! that of its first bit to that of its last: a place lights only what is near, so it keeps little of a large region.
#![tactic(auto)]

mod bit_row;
mod buckets;
mod by_row;
mod change;
mod counting;
mod instance;
mod look;
mod numbering;
mod search;
mod sparse;
mod walk;

pub use bit_row::BitRow;
pub use buckets::Buckets;
pub use by_row::{add_apart, clear, common_count, is_within, meet};
pub use change::{add, add_each, clear_words, empty};
pub use counting::count;
pub use instance::Instance;
pub use look::{first, has};
pub use numbering::number;
pub use search::find;
pub use sparse::Sparse;
pub use walk::next;
