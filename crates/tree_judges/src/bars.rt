//! Which of the places that are proposed may be left out.
ghost use Rattle.std.specs.Prelude.{IfOk};
ghost use Rattle.pack_bound.specs.Nodes.{IsStateOf};
ghost use Rattle.tree_judges.specs.Bars.{TakesBars, TakesMost};

use instance_regions::Region;
use pack_bound::{Node, is_bar};
use proof_tree::Bar;
use std::alloc::{AllocError, Global};

/// Leaves out the places that are proposed, in their order, until one may not be left out.
pub fn take_bars(
    alloc: Global,
    region: &Region,
    node: &mut Node,
    proposed: &[Bar],
) -> Result<Vec<Bar>, AllocError>
    requires { IsStateOf region.now node.old }
    ensures takes { IfOk result (λ bars. TakesBars region.now node.old bars.items node.new) }
    ensures most { IfOk result (λ bars. TakesMost region.now proposed.now bars.items node.new) }
{
    let mut bars = Vec::new(alloc);
    for bar in proposed {
        if !is_bar(region, node, bar.place, bar.by) {
            return Ok(bars);
        }
        node.bar(bar.place);
        bars.push(*bar)?;
    }
    Ok(bars)
}
