//! Pieces, and what they leave of their regions.
ghost use Rattle.std.specs.Prelude.{IfOk};
ghost use Rattle.pack_bound.specs.Pieces.{IsNodeOf, IsScattered, SomeWhereUnlit};

use crate::node::Node;
use crate::numbering::{indices_of, numbers_of_cells};
use crate::packing::packed;
use cave_base::Cell;
use cave_model::OutOfMemory;
use instance_regions::Region;
use proof_tree::Piece;
use std::alloc::Global;

/// What a piece leaves of its region, by indices.
pub fn node_of(alloc: Global, piece: &Piece) -> Result<Node, OutOfMemory>
    ensures { IfOk result (λ node. IsNodeOf piece.now node) }
{
    let region: &Region = piece.region().as_ref();
    let chosen = indices_of(alloc, region, piece.chosen())?;
    let barred = indices_of(alloc, region, piece.barred())?;
    let node = Node::of(alloc, region, chosen, &barred)?;
    Ok(node)
}

/// Cells of the piece that may stand together in a leaf: unlit by its chosen places, and no place that isn't barred
/// lights two of them. There are some where a cell is unlit.
pub fn scattered(alloc: Global, piece: &Piece) -> Result<Vec<Cell>, OutOfMemory>
    ensures scattered { IfOk result (λ cells. IsScattered piece.now cells.items) }
    ensures some { IfOk result (λ cells. SomeWhereUnlit piece.now cells.items) }
{
    let node = node_of(alloc, piece)?;
    let region: &Region = piece.region().as_ref();
    let cells = packed(alloc, region, &node)?;
    let numbers = numbers_of_cells(region, cells);
    Ok(numbers)
}
