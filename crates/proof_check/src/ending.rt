//! What is decided once the text of a certificate has ended: specs/Ending.antt.
ghost use Rattle.std.specs.Prelude.{◌≡◌, IfOk};
ghost use Rattle.proof_check.specs.Ending.{Ends, node_reason};

use crate::ends::{first_misplaced, first_unlit};
use crate::judge::Judge;
use crate::nodes::NodeJudge;
use crate::parts::bad_cell;
use crate::reason::Reason;
use cave_model::World;
use std::alloc::{AllocError, Global};

/// The first reason against the certificate that the judge has heard, which is of this world's box and rule.
pub fn reason_of(alloc: Global, world: &World, judge: &Judge) -> Result<Option<Reason>, AllocError>
    ensures { IfOk result (Ends world.now judge.now) }
{
    let count = world.cell_count();
    if let Some(cell) = first_misplaced(&judge.lists, &judge.torches, count) {
        return Ok(Some(Reason::IllegalPlace { cell }));
    }
    if let Some(cell) = first_unlit(&judge.lists, &judge.torches, count) {
        return Ok(Some(Reason::LeftDark { cell }));
    }
    if let Some(cell) = bad_cell(alloc, world, &judge.lists, &judge.regions)? {
        return Ok(Some(Reason::BadRegions { cell }));
    }
    Ok(reason_of_nodes(&judge.nodes))
}

/// The first bad node, or else the first weak leaf.
fn reason_of_nodes(nodes: &NodeJudge) -> Option<Reason>
    ensures { result ≡ node_reason nodes.now.bad nodes.now.weak }
{
    if let Some(line) = nodes.bad {
        return Some(Reason::BadNode { line });
    }
    if let Some(line) = nodes.weak {
        return Some(Reason::TooWeak { line });
    }
    None
}
