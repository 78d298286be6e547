//! How many places a leaf tells to be needed. A judge has to see that it shows them.

use proof_rules::Group;
use proof_tree::Proof;

/// How many places a leaf of a whole region tells to be needed; none of any other tree.
pub(crate) fn told_by(leaf: &Proof) -> u64 {
    match leaf {
        Proof::Leaf(cells) => cells.as_slice().len() as u64,
        Proof::Weighted(groups) => {
            let mut total: u64 = 0;
            for group in groups.as_slice() {
                total = total.saturating_add(told_by_group(group));
            }
            total
        }
        _ => 0,
    }
}

/// What the cells of a group weigh together, in capacities, rounded up.
fn told_by_group(group: &Group) -> u64 {
    let mut weight: u64 = 0;
    for share in group.shares.as_slice() {
        weight = weight.saturating_add(u64::from(share.weight));
    }
    if group.capacity == 0 {
        return 0;
    }
    weight.div_ceil(u64::from(group.capacity))
}
