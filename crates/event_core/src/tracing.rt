//! Finding a piece by its name.
ghost use Rattle.std.specs.Prelude.{IfOk};
ghost use Rattle.event_core.specs.NodeShape.{shape_of};
ghost use Rattle.event_core.specs.Shape.{status_of};
ghost use Rattle.event_core.specs.Tracing.{IsTraced, StandsAs};

use crate::node::PieceNode;
use crate::steps::{kid_count, with_barred, with_bars, with_chosen};
use cave_base::Cell;
use std::alloc::AllocError;

/// What became of a piece, as far as an event asks.
#[derive(Clone, Copy)]
pub(crate) enum Standing {
    Waiting,
    Held(u32),
    /// It is opened or closed.
    Past,
}

/// A piece that a name leads to.
#[derive(Drop)]
pub(crate) struct Traced {
    pub(crate) chosen: Vec<Cell>,
    pub(crate) barred: Vec<Cell>,
    pub(crate) standing: Standing,
}

fn standing_of(node: &PieceNode) -> Standing
    ensures { StandsAs result (status_of (shape_of node.now)) }
{
    match node {
        PieceNode::Waiting => Standing::Waiting,
        PieceNode::Held(worker) => Standing::Held(*worker),
        PieceNode::Closed { .. } => Standing::Past,
        PieceNode::Opened { .. } => Standing::Past,
    }
}

/// The piece of this name below a node in which these places are chosen and barred.
pub(crate) fn trace(
    node: &PieceNode,
    name: &[u32],
    chosen: Vec<Cell>,
    barred: Vec<Cell>,
) -> Result<Option<Traced>, AllocError>
    ensures { IfOk result (IsTraced chosen.items barred.items (shape_of node.now) name.now) }
{
    let Some((first, rest)) = name.split_first() else {
        return Ok(Some(Traced {
            chosen,
            barred,
            standing: standing_of(node),
        }));
    };
    match node {
        PieceNode::Opened {
            bars,
            on,
            places,
            kids,
            ..
        } => {
            let number = *first as usize;
            let places = places.as_slice();
            let nodes = kids.as_slice();
            if number >= kid_count(*on, places) || number >= nodes.len() {
                return Ok(None);
            }
            let low = with_bars(barred, bars.as_slice())?;
            let chosen = with_chosen(chosen, *on, places, number)?;
            let barred = with_barred(low, *on, places, number)?;
            let traced = trace(&nodes[number], rest, chosen, barred)?;
            Ok(traced)
        }
        _ => Ok(None),
    }
}
