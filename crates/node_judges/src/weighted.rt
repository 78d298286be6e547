//! Whether groups may stand in a weighted leaf.
ghost use Rattle.std.specs.Prelude.{◌≡◌, ◌↔◌, [], length, IsTrue, IfOk};
ghost use Rattle.node_judges.specs.Settings.{AreClear, IsOfBox, left_in};
ghost use Rattle.node_judges.specs.Tests.{AreMatched};
ghost use Rattle.node_judges.specs.Weighed as weighed;

use crate::loads::keep_open;
use crate::setting::Setting;
use crate::tally::Tally;
use crate::testing::{is_left, mark_lit};
use proof_rules::Group;
use std::alloc::{AllocError, Global};
use weight_judge::{Claim, Rooms, claims_of};

/// Whether each group has a capacity.
fn have_capacities(groups: &[Group]) -> bool
    ensures { IsTrue result ↔ weighed.HaveCapacities groups.now }
{
    for group in groups {
        if group.capacity == 0 {
            return false;
        }
    }
    true
}

/// Whether the claims are of free cells, each once; marks the cells, and before them those that chosen places light.
fn are_free_once(setting: &Setting, seen: &mut Tally, claims: &[Claim]) -> Result<bool, AllocError>
    requires none { seen.old.items ≡ [] }
    requires wide { length setting.now.region.now.counts ≡ length seen.old.counts }
    requires matched { AreMatched setting.now.lists.now (length seen.old.counts) }
    ensures once { IfOk result (weighed.DecidesFreeOnce setting.now.lists.now (left_in setting.now)
        setting.now.chosen.now.items (weighed.cells_claimed claims.now) (length seen.old.counts)) }
    ensures whole { length seen.new.counts ≡ length seen.old.counts }
{
    mark_lit(setting.lists, setting.chosen, seen)?;
    for claim in claims {
        if seen.has(claim.cell) {
            return Ok(false);
        }
        if !is_left(setting, claim.cell) {
            return Ok(false);
        }
        seen.push(claim.cell)?;
    }
    Ok(true)
}

/// Whether groups may stand in a weighted leaf. The tally of the cells seen is empty and no place has a room, and so it
/// is again.
pub fn is_weighted(
    alloc: Global,
    setting: &Setting,
    seen: &mut Tally,
    rooms: &mut Rooms,
    groups: &[Group],
) -> Result<bool, AllocError>
    requires setting { IsOfBox setting.now (length seen.old.counts) }
    requires clear { AreClear (length seen.old.counts) seen.old rooms.old }
    ensures weighted { IfOk result (weighed.DecidesWeighted setting.now.lists.now (left_in setting.now)
        setting.now.chosen.now.items setting.now.barred.now.items (length seen.old.counts) groups.now) }
    ensures clear { IfOk result (λ _. AreClear (length seen.old.counts) seen.new rooms.new) }
    ensures whole { length seen.new.counts ≡ length seen.old.counts }
{
    if !have_capacities(groups) {
        return Ok(false);
    }
    let claims = claims_of(alloc, groups)?;
    let free = are_free_once(setting, seen, &claims)?;
    seen.cut(0);
    if !free {
        return Ok(false);
    }
    Ok(keep_open(rooms, setting.lists, setting.barred, &claims))
}
