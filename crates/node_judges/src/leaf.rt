//! Leaves: free cells of which no place that isn't barred lights two, as `Good` of proof_rules has them:
//! specs/Tests.antt.
ghost use Rattle.std.specs.Prelude.{◌≡◌, [], length, IfOk};
ghost use Rattle.node_judges.specs.Settings.{left_in};
ghost use Rattle.node_judges.specs.Tests.{AreInside, DecidesApart};

use crate::setting::Setting;
use crate::tally::Tally;
use crate::testing::{is_free, mark, meet_open};
use cave_base::Cell;
use std::alloc::AllocError;

/// Whether the cells are free, and no place that isn't barred lights two of them; marks the places seen.
fn are_apart(setting: &Setting, seen: &mut Tally, these: &[Cell]) -> Result<bool, AllocError>
    requires none { seen.old.items ≡ [] }
    requires inside { AreInside setting.now.lists.now (length seen.old.counts) }
    ensures apart { IfOk result (DecidesApart setting.now.lists.now (left_in setting.now)
        setting.now.chosen.now.items setting.now.barred.now.items these.now) }
    ensures whole { length seen.new.counts ≡ length seen.old.counts }
{
    for cell in these {
        let places = setting.lists.lit_by(*cell);
        if !is_free(setting, *cell) {
            return Ok(false);
        }
        if meet_open(places, setting.barred, seen) {
            return Ok(false);
        }
        mark(places, seen)?;
    }
    Ok(true)
}

/// Whether distinct cells may stand in a leaf. The tally of the places seen is empty, and is so again.
pub fn is_leaf(setting: &Setting, seen: &mut Tally, these: &[Cell]) -> Result<bool, AllocError>
    requires none { seen.old.items ≡ [] }
    requires inside { AreInside setting.now.lists.now (length seen.old.counts) }
    ensures apart { IfOk result (DecidesApart setting.now.lists.now (left_in setting.now)
        setting.now.chosen.now.items setting.now.barred.now.items these.now) }
    ensures none { IfOk result (λ _. seen.new.items ≡ []) }
    ensures whole { length seen.new.counts ≡ length seen.old.counts }
{
    let apart = are_apart(setting, seen, these)?;
    seen.cut(0);
    Ok(apart)
}
