//! A step from one stage to the next by a line: `Takes` of specs/Steps.antt.
ghost use Rattle.std.specs.Prelude.{◌≡◌, ◌≤◌, ◌<◌, ◌+◌, ◌^◌, IfOk, IfSome};
ghost use Rattle.cave_base.specs.Box.{most_cells};
ghost use Rattle.certificate_lines.specs.Decides.{Decides, IsLineOf};
ghost use Rattle.certificate_lines.specs.Kinds as kinds;
ghost use Rattle.certificate_lines.specs.Sound.{IsSoundStage, pending_of};
ghost use Rattle.certificate_lines.specs.Steps.{Takes};

use crate::kind::LineKind;
use crate::line::read_line;
use crate::meaning::{
    after_box, after_dark, after_end, after_headroom, after_need, after_region, after_regions,
    after_start, after_torches,
};
use crate::node::{
    Trees, after_bar, after_branch, after_group, after_leaf, after_omit, after_pick, after_weighted,
};
use crate::stage::Stage;
use std::alloc::AllocError;

/// What stage the line leads to, if it fits; its numbers go into the buffer.
pub fn next_stage(
    stage: Stage,
    kind: LineKind,
    text: &[u8],
    numbers: &mut Vec<u32>,
) -> Result<Option<Stage>, AllocError>
    requires sound { IsSoundStage stage }
    requires room { pending_of stage + most_cells < 2 ^ 128 }
    requires kind { kind ≡ kinds.kind_at stage text.now }
    ensures decides { IfOk result (λ r. Decides r (Takes stage text.now)) }
    ensures said { IfOk result (λ r. IfSome r (λ _. IsLineOf text.now (kinds.word_of kind) numbers.new.items)) }
{
    if !read_line(text, kind.word(), numbers)? {
        return Ok(None);
    }
    Ok(after(stage, kind, numbers))
}

/// What stage the numbers of such a line lead to.
fn after(stage: Stage, kind: LineKind, numbers: &[u32]) -> Option<Stage>
    requires sound { IsSoundStage stage }
    requires room { pending_of stage + most_cells < 2 ^ 128 }
    ensures { Decides result (kinds.MeansAt stage kind numbers.now) }
{
    match stage {
        Stage::Start => after_start(numbers),
        Stage::Box { version } => after_box(version, numbers),
        Stage::Headroom { version, count } => after_headroom(version, count, numbers),
        Stage::Need { version, count } => after_need(version, count, numbers),
        Stage::Regions { version, count } => after_regions(version, count, numbers),
        Stage::Region {
            version,
            count,
            to_come,
        } => match kind {
            LineKind::End => after_end(to_come, numbers),
            _ => after_region(version, count, to_come, numbers),
        },
        Stage::Dark {
            version,
            count,
            to_come,
            cells,
            torches,
        } => after_dark(version, count, to_come, cells, torches, numbers),
        Stage::Torches {
            version,
            count,
            to_come,
            torches,
        } => after_torches(version, count, to_come, torches, numbers),
        Stage::Node {
            version,
            count,
            to_come,
            pending,
        } => {
            let trees = Trees::new(version, count, to_come, pending);
            after_node_line(trees, kind, numbers)
        }
        Stage::Group {
            version,
            count,
            to_come,
            pending,
            left,
            from,
        } => {
            let trees = Trees::new(version, count, to_come, pending);
            after_group(trees, left, from, numbers)
        }
        Stage::Done => None,
    }
}

/// What stage the numbers of a node's line lead to.
fn after_node_line(trees: Trees, kind: LineKind, numbers: &[u32]) -> Option<Stage>
    requires few { trees.count ≤ most_cells }
    requires room { trees.pending + most_cells < 2 ^ 128 }
    ensures { Decides result (kinds.MeansAt
        (kinds.node_stage trees.version trees.count trees.to_come trees.pending) kind numbers.now) }
{
    match kind {
        LineKind::Branch => after_branch(trees, numbers),
        LineKind::Bar => after_bar(trees, numbers),
        LineKind::Weighted => after_weighted(trees, numbers),
        LineKind::Omit => after_omit(trees, numbers),
        LineKind::Pick => after_pick(trees, numbers),
        _ => after_leaf(trees, numbers),
    }
}
