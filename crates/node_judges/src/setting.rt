//! What a node is judged in: specs/Settings.antt.
use crate::tally::Tally;
use lit_lists::Lists;

/// What a node of a region's tree is judged in: which place lights what, the region, and what stands above the node:
/// the cells left out, the places chosen and those barred.
#[derive(Drop)]
pub struct Setting<'a> {
    pub lists: &'a Lists,
    pub region: &'a Tally,
    pub omitted: &'a Tally,
    pub chosen: &'a Tally,
    pub barred: &'a Tally,
}
