//! Lists of numbers and rows of bits, and which cells and places of a set cover instance are outdone by others. All of
//! it serves what proposes, and nothing is promised of it but that it ends and stays in bounds.
#![tactic(auto)]

mod bits;
mod coverage;
mod dominance;
mod lists;
mod thin_rows;

pub use bits::{
    Bits, bit_count, bits_of, clear_all, clear_bit, common_count, drop_all, is_clear, is_set,
    join_into, keep_all, set_bit, words_from,
};
pub use coverage::Coverage;
pub use dominance::{
    Dominance, first_dominating, from_both_ends, is_dominated, kept_cells, meet_lists, undominated,
    undominated_of_all,
};
pub use lists::{NumberLists, count_numbers, indices_of, small};
pub use thin_rows::{ThinRow, ThinRows};
