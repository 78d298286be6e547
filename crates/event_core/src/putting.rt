//! Putting a new node at a name.
ghost use Rattle.std.specs.Prelude.{◌≡◌};
ghost use Rattle.event_core.specs.NodeShape.{shape_of};
ghost use Rattle.event_core.specs.Shape.{put_in};

use crate::node::{PieceNode, Siblings};
use std::mem;

/// The node with the new one at this name, where there is a piece of this name.
pub(crate) fn put(node: PieceNode, name: &[u32], new: PieceNode) -> PieceNode
    ensures { shape_of result ≡ put_in (shape_of node) name.now (shape_of new) }
{
    let Some((first, rest)) = name.split_first() else {
        return new;
    };
    match node {
        PieceNode::Opened {
            bars,
            on,
            places,
            kids,
            trees,
            boxes,
        } => {
            let number = *first as usize;
            let mut nodes = kids.into_items();
            if number >= nodes.len() {
                return PieceNode::Opened {
                    bars,
                    on,
                    places,
                    kids: Siblings::of(nodes),
                    trees,
                    boxes,
                };
            }
            let kid = mem::replace(&mut nodes[number], PieceNode::Waiting);
            nodes[number] = put(kid, rest, new);
            PieceNode::Opened {
                bars,
                on,
                places,
                kids: Siblings::of(nodes),
                trees,
                boxes,
            }
        }
        other => other,
    }
}
