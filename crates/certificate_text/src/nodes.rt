//! The lines of a tree: those of a node before its kids', and the kids in order.
ghost use Rattle.std.specs.Prelude.{◌≡◌, ◌∷◌, IfOk, length};
ghost use Rattle.cave_model.specs.Plan.{AreDistinct};
ghost use Rattle.certificate_text.specs.Lines.{HasDistinctCells, HaveDistinctCells, forest_text, tree_text};
ghost use Rattle.certificate_text.specs.Sending.{IsSent};
ghost use Rattle.proof_tree.specs.Order.{in_order};
ghost use Rattle.proof_tree.specs.Shape.{forest_of, tree_of};

use crate::fault::WriteFault;
use crate::groups::put_weighted;
use crate::sink::Sink;
use cave_base::Cell;
use proof_tree::Proof;
use std::alloc::{AllocError, Global};
use std::io::Write;

/// The cells in order.
pub fn ordered(alloc: Global, cells: &[Cell]) -> Result<Vec<Cell>, AllocError>
    requires { AreDistinct cells.now }
    ensures { IfOk result (λ v. v.items ≡ in_order cells.now) }
{
    let mut ordered = Vec::from_slice(alloc, cells)?;
    ordered.sort_unstable();
    Ok(ordered)
}

/// The numbers in words of 64 bits.
pub fn widened(alloc: Global, cells: &[Cell]) -> Result<Vec<u64>, AllocError>
    ensures { IfOk result (λ v. v.items ≡ cells.now) }
{
    let mut numbers = Vec::with_capacity(alloc, cells.len())?;
    for cell in cells {
        numbers.push(*cell as u64)?;
    }
    Ok(numbers)
}

/// The number of the cells, and the cells.
fn counted(alloc: Global, cells: &[Cell]) -> Result<Vec<u64>, AllocError>
    ensures { IfOk result (λ v. v.items ≡ length cells.now ∷ cells.now) }
{
    let mut numbers = vec![in alloc; cells.len() as u64]?;
    let wide = widened(alloc, cells)?;
    numbers.extend_from_slice(&wide)?;
    Ok(numbers)
}

/// The number of the cells, and the cells in order.
fn counted_in_order(alloc: Global, cells: &[Cell]) -> Result<Vec<u64>, AllocError>
    requires { AreDistinct cells.now }
    ensures { IfOk result (λ v. v.items ≡ length (in_order cells.now) ∷ in_order cells.now) }
{
    let ordered = ordered(alloc, cells)?;
    counted(alloc, &ordered)
}

/// Puts the lines of a tree behind what is on its way.
#[cycle(put_tree)]
pub fn put_tree<W: Write>(sink: &mut Sink<'_, W>, proof: &Proof) -> Result<(), WriteFault>
    requires { HasDistinctCells (tree_of proof.now) }
    ensures { IsSent W.contents result sink.old sink.new (tree_text (tree_of proof.now)) }
{
    match proof {
        Proof::Leaf(cells) => {
            let numbers = counted_in_order(sink.alloc, cells.as_slice())?;
            sink.put_line("L", &numbers)
        }
        Proof::Weighted(groups) => put_weighted(sink, groups.as_slice()),
        Proof::Branch { cell, kids } => {
            let trees = kids.trees();
            sink.put_line("B", &[*cell as u64, trees.len() as u64])?;
            put_trees(sink, trees)
        }
        Proof::Bar { place, by, kid } => {
            sink.put_line("E", &[*place as u64, *by as u64])?;
            put_tree(sink, kid.tree())
        }
        Proof::Omit { cells, kid } => {
            let numbers = counted(sink.alloc, cells.as_slice())?;
            sink.put_line("D", &numbers)?;
            put_tree(sink, kid.tree())
        }
        Proof::Pick {
            place,
            with,
            without,
        } => {
            sink.put_line("P", &[*place as u64])?;
            put_tree(sink, with.tree())?;
            put_tree(sink, without.tree())
        }
    }
}

/// Puts the lines of trees behind what is on its way, one tree after another.
#[cycle(put_tree)]
fn put_trees<W: Write>(sink: &mut Sink<'_, W>, trees: &[Proof]) -> Result<(), WriteFault>
    requires { HaveDistinctCells (forest_of trees.now) }
    ensures { IsSent W.contents result sink.old sink.new (forest_text (forest_of trees.now)) }
{
    for tree in trees {
        put_tree(sink, tree)?;
    }
    Ok(())
}
