//! The lines of a weighted leaf: one of its own, and one a group.
ghost use Rattle.std.specs.Prelude.{◌≡◌, ◌∷◌, [], IfOk, length, flat_map};
ghost use Rattle.certificate_text.specs.Lines.{group_text, groups_text, tree_text};
ghost use Rattle.certificate_text.specs.Sending.{IsSent};
ghost use Rattle.proof_rules.specs.Tree.{weighted};

use crate::fault::WriteFault;
use crate::sink::Sink;
use proof_rules::Group;
use std::alloc::{AllocError, Global};
use std::io::Write;

/// The numbers of a group's line: its capacity, how many cells it has, and each cell with its weight.
fn group_numbers(alloc: Global, group: &Group) -> Result<Vec<u64>, AllocError>
    ensures { IfOk result (λ v. v.items ≡ group.now.capacity ∷ length group.now.shares
        ∷ flat_map (λ share. share.cell ∷ share.weight ∷ []) group.now.shares) }
{
    let shares = group.shares.as_slice();
    let mut numbers = vec![in alloc; group.capacity as u64, shares.len() as u64]?;
    for share in shares {
        numbers.push(share.cell as u64)?;
        numbers.push(share.weight as u64)?;
    }
    Ok(numbers)
}

/// Puts the line of a group behind what is on its way.
fn put_group<W: Write>(sink: &mut Sink<'_, W>, group: &Group) -> Result<(), WriteFault>
    ensures { IsSent W.contents result sink.old sink.new (group_text group.now) }
{
    let numbers = group_numbers(sink.alloc, group)?;
    sink.put_line("G", &numbers)
}

/// Puts the lines of groups behind what is on its way, one after another.
fn put_groups<W: Write>(sink: &mut Sink<'_, W>, groups: &[Group]) -> Result<(), WriteFault>
    ensures { IsSent W.contents result sink.old sink.new (groups_text groups.now) }
{
    for group in groups {
        put_group(sink, group)?;
    }
    Ok(())
}

/// Puts the lines of a weighted leaf behind what is on its way.
pub fn put_weighted<W: Write>(sink: &mut Sink<'_, W>, groups: &[Group]) -> Result<(), WriteFault>
    ensures { IsSent W.contents result sink.old sink.new (tree_text (weighted groups.now)) }
{
    sink.put_line("W", &[groups.len() as u64])?;
    put_groups(sink, groups)
}
