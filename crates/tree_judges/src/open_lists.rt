//! For each claim of a weighted leaf the places that light its cell and aren't barred, by the columns of the cells.
ghost use Rattle.std.specs.Prelude.{IfOk};
ghost use Rattle.pack_bound.specs.Judged.{AreMarked};
ghost use Rattle.pack_bound.specs.Nodes.{IsStateOf};
ghost use Rattle.tree_judges.specs.Weighted.{claimed, AreOpenLists};

use instance_regions::Region;
use pack_bound::{Node, open_places};
use std::alloc::{AllocError, Global};
use weight_judge::{Claim, PlaceLists};

/// For each claim the places that light its cell and aren't barred. The row has the cells of the claims.
pub(crate) fn open_lists(
    alloc: Global,
    region: &Region,
    node: &Node,
    claims: &[Claim],
    _marks: &[u64], // for the proof
) -> Result<PlaceLists, AllocError>
    requires state { IsStateOf region.now node.now }
    requires marked { AreMarked node.now.unlit (claimed claims.now) _marks.now }
    ensures { IfOk result (AreOpenLists region.now node.now claims.now) }
{
    let mut lists = PlaceLists::new(alloc);
    for claim in claims {
        lists.push(open_places(alloc, region, node, claim.cell)?)?;
    }
    Ok(lists)
}
