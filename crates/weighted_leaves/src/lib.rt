//! Weighted leaves: weights of cells by the linear relaxation of what a node leaves of the reduced instance, part by
//! part, rounded to whole numbers; and where they fall short, a cell to branch on or a place to pick. All of it
//! proposes, and nothing is promised of it but that it ends and stays in bounds: judges accept or refuse.
#![tactic(auto)]

mod branch_on;
mod branching;
mod effort;
mod found_kids;
mod grouping;
mod joining;
mod kernel;
mod kernel_groups;
mod kid_bounds;
mod kid_lanes;
mod kid_leaf;
mod kid_start;
mod lane_runs;
mod leaf;
mod node_bits;
mod parts;
mod picking;
mod raising;
mod solving;
mod sought;
mod starting;
mod tree_sizes;

pub use branch_on::BranchOn;
pub use leaf::{KernelMemory, WeightedLeaves};
pub use sought::Sought;
