//! The tree of a core in which no piece waits or is held.
ghost use Rattle.std.specs.Prelude.{◌≡◌, IsTrue};
ghost use Rattle.event_core.specs.Finished.{assembled, is_done, are_done, IsWhole};
ghost use Rattle.event_core.specs.NodeShape.{shape_of, shapes_of};
ghost use Rattle.proof_tree.specs.Shape.{tree_of};

use crate::joining::joined;
use crate::node::PieceNode;
use proof_tree::Proof;

/// Whether no piece waits or is held.
#[cycle(done)]
pub(crate) fn is_done(node: &PieceNode) -> bool
    ensures { result ≡ is_done (shape_of node.now) }
{
    match node {
        PieceNode::Waiting => false,
        PieceNode::Held(_) => false,
        PieceNode::Closed { .. } => true,
        PieceNode::Opened { kids, .. } => are_done(kids.as_slice()),
    }
}

#[cycle(done)]
fn are_done(nodes: &[PieceNode]) -> bool
    ensures { result ≡ are_done (shapes_of nodes.now) }
{
    for node in nodes {
        if !is_done(node) {
            return false;
        }
    }
    true
}

/// The tree of a node that is done. It takes no memory.
pub(crate) fn assemble(node: PieceNode) -> Proof
    requires done { IsTrue (is_done (shape_of node)) }
    requires whole { IsWhole (shape_of node) }
    ensures { tree_of result ≡ assembled (shape_of node) }
{
    match node {
        PieceNode::Closed { floor: _, proof } => proof,
        PieceNode::Opened {
            bars,
            on,
            places: _,
            kids,
            mut trees,
            boxes,
        } => {
            let mut index = 0usize;
            for kid in kids.into_items() {
                if index < trees.len() {
                    trees[index] = assemble(kid);
                    index += 1;
                }
            }
            joined(bars.into_vec(), on, trees, boxes)
        }
        PieceNode::Waiting => unreachable!(),
        PieceNode::Held(_) => unreachable!(),
    }
}
