//! Rows of what a node leaves of the reduced instance.

use crate::reduced_instance::ReducedInstance;
use number_lists::{clear_all, is_set, set_bit};
use pack_bound::Node;

impl ReducedInstance {
    /// Writes the row of the cells of the instance that are unlit at the node.
    pub fn write_unlit(&self, node: &Node, row: &mut [u64]) {
        clear_all(row);
        for (number, cell) in self.cells().iter().enumerate() {
            if is_set(node.unlit(), cell.index()) {
                set_bit(row, number);
            }
        }
    }

    /// Writes the row of the places of the instance that aren't barred at the node.
    pub fn write_open(&self, node: &Node, row: &mut [u64]) {
        clear_all(row);
        for (number, place) in self.places().iter().enumerate() {
            if !is_set(node.barred(), place.index()) {
                set_bit(row, number);
            }
        }
    }
}
