//! What is sought at a node.

/// How deep the node stands below the first one, how many places the leaf has to show beside the chosen ones, whether a
/// place may be picked where it doesn't, whether the search goes on where a longer one was shared out, and whether the
/// instance is a hall, where places are never picked.
#[derive(Clone, Copy)]
pub struct Sought {
    pub depth: usize,
    pub enough: u64,
    pub may_pick: bool,
    pub is_part: bool,
    pub is_in_hall: bool,
}
