//! The tree of a node, or a shorter one that closes it as well.
ghost use Rattle.std.specs.Prelude.{IfOk};
ghost use Rattle.pack_bound.specs.Nodes.{Closes, IsStateOf};
ghost use Rattle.proof_tree.specs.Shape.{tree_of};

use crate::steps::is_closed_by;
use instance_regions::Region;
use pack_bound::Node;
use proof_tree::Proof;
use search_traits::Strategy;
use std::alloc::{AllocError, Global};

/// The tree, or what the strategy makes of it, where that closes the node as well.
pub fn shortened<S: Strategy>(
    alloc: Global,
    region: &Region,
    node: &Node,
    strategy: &S,
    tree: Proof,
    floor: u64,
) -> Result<Proof, AllocError>
    requires node { IsStateOf region.now node.now }
    requires closes { Closes region.now node.now floor (tree_of tree) }
    ensures { IfOk result (λ proof. Closes region.now node.now floor (tree_of proof)) }
{
    let less = strategy.shortened(alloc, region, node, &tree)?;
    if is_closed_by(alloc, region, node, &less, floor)? {
        return Ok(less);
    }
    Ok(tree)
}
