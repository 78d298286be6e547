//! Opening a piece.
ghost use Rattle.std.specs.Prelude.{◌≡◌, ◌+◌, IfOk, MatchOption, length};
ghost use Rattle.event_core.specs.Finished.{all_at_rest, boxes_on, newly};
ghost use Rattle.event_core.specs.NodeShape.{shape_of};
ghost use Rattle.event_core.specs.Opening.{IsOpening};
ghost use Rattle.proof_tree.specs.Opened.{MayBeOpened};

use crate::node::{PieceNode, Siblings};
use crate::steps::kid_count;
use cave_base::{Cell, Sequence};
use pack_bound::places_for;
use proof_tree::{Bar, Below, Branching, Piece, Proof};
use std::alloc::{AllocError, Global};

/// The piece opened on this, below these bars: its kids wait, and there is room for their trees. None exactly where it
/// may not be opened so.
pub(crate) fn opened(
    alloc: Global,
    piece: &Piece,
    bars: &[Bar],
    on: Branching,
) -> Result<Option<PieceNode>, AllocError>
    ensures { IfOk result (λ found. MatchOption found (¬ MayBeOpened piece.now bars.now on)
        (λ node. MayBeOpened piece.now bars.now on
        × IsOpening piece.now (record { bars = bars.now; on = on }) node)) }
{
    let Some(places) = places_for(alloc, piece, bars, on)? else {
        return Ok(None);
    };
    let node = newly_opened(alloc, bars, on, places)?;
    Ok(Some(node))
}

/// A piece that was opened on this, below these bars, with these places of its kids.
fn newly_opened(
    alloc: Global,
    bars: &[Bar],
    on: Branching,
    places: Vec<Cell>,
) -> Result<PieceNode, AllocError>
    ensures { IfOk result (λ node. shape_of node ≡ newly (record { bars = bars.now; on = on }) places.items) }
{
    let count = kid_count(on, &places);
    let kids = waiting(alloc, count)?;
    let trees = trees_for(alloc, count)?;
    let boxes = boxes_for(alloc, bars, on)?;
    let bars = Vec::from_slice(alloc, bars)?;
    Ok(PieceNode::Opened {
        bars: Sequence::from_vec(bars),
        on,
        places: Sequence::from_vec(places),
        kids,
        trees,
        boxes,
    })
}

/// `count` waiting nodes.
fn waiting(alloc: Global, count: usize) -> Result<Siblings, AllocError>
    ensures { IfOk result (λ nodes. nodes ≡ all_at_rest count) }
{
    let mut nodes = Vec::with_capacity(alloc, count)?;
    for index in 0..count {
        nodes.push(PieceNode::Waiting)?;
    }
    Ok(Siblings::of(nodes))
}

/// A leaf without cells, which takes no memory of its own.
fn empty_leaf(alloc: Global) -> Proof {
    Proof::Leaf(Sequence::from_vec(Vec::new(alloc)))
}

/// `count` empty leaves, where trees are to stand.
fn trees_for(alloc: Global, count: usize) -> Result<Vec<Proof>, AllocError>
    ensures { IfOk result (λ trees. length trees.items ≡ count) }
{
    let mut trees = Vec::with_capacity(alloc, count)?;
    for index in 0..count {
        trees.push(empty_leaf(alloc))?;
    }
    Ok(trees)
}

/// Memory for the trees that are to stand below others: one below each bar, and both of a pick.
fn boxes_for(alloc: Global, bars: &[Bar], on: Branching) -> Result<Vec<Below>, AllocError>
    ensures { IfOk result (λ boxes. length boxes.items ≡ length bars.now + boxes_on on) }
{
    let mut boxes = Vec::new(alloc);
    for bar in bars {
        boxes.push(Below::of(alloc, empty_leaf(alloc))?)?;
    }
    if let Branching::Place(_) = on {
        boxes.push(Below::of(alloc, empty_leaf(alloc))?)?;
        boxes.push(Below::of(alloc, empty_leaf(alloc))?)?;
    }
    Ok(boxes)
}
