//! The lines of a region: its size, its dark cells, its torches, and its tree.
ghost use Rattle.std.specs.Prelude.{codes};
ghost use Rattle.cave_model.specs.Plan.{AreDistinct};
ghost use Rattle.certificate_text.specs.Lines.{HasDistinctCells};
ghost use Rattle.certificate_text.specs.Sections.{IsWritable, cells_text, proved_text, region_text, section_text};
ghost use Rattle.certificate_text.specs.Sending.{IsSent};
ghost use Rattle.proof_tree.specs.Order.{in_order};
ghost use Rattle.proof_tree.specs.Shape.{tree_of};

use crate::fault::WriteFault;
use crate::nodes::{ordered, put_tree, widened};
use crate::sink::Sink;
use cave_base::Cell;
use instance_regions::{Cover, Region};
use proof_tree::Proof;
use std::io::Write;

/// Puts a line of cells behind what is on its way.
fn put_cells<W: Write>(sink: &mut Sink<'_, W>, word: &str, cells: &[Cell]) -> Result<(), WriteFault>
    ensures { IsSent W.contents result sink.old sink.new (cells_text word.now cells.now) }
{
    let numbers = widened(sink.alloc, cells)?;
    sink.put_line(word, &numbers)
}

/// Puts a line of torches, in order, behind what is on its way.
fn put_torches<W: Write>(sink: &mut Sink<'_, W>, torches: &[Cell]) -> Result<(), WriteFault>
    requires { AreDistinct torches.now }
    ensures { IsSent W.contents result sink.old sink.new (cells_text (codes "T") (in_order torches.now)) }
{
    let torches = ordered(sink.alloc, torches)?;
    put_cells(sink, "T", &torches)
}

/// Puts the lines of torches and a tree behind what is on its way.
fn put_proved<W: Write>(
    sink: &mut Sink<'_, W>,
    torches: &[Cell],
    proof: &Proof,
) -> Result<(), WriteFault>
    requires torches { AreDistinct torches.now }
    requires leaves { HasDistinctCells (tree_of proof.now) }
    ensures { IsSent W.contents result sink.old sink.new (proved_text torches.now (tree_of proof.now)) }
{
    put_torches(sink, torches)?;
    put_tree(sink, proof)
}

/// Puts all lines of a region behind what is on its way.
fn put_region<W: Write>(
    sink: &mut Sink<'_, W>,
    cells: &[Cell],
    torches: &[Cell],
    proof: &Proof,
) -> Result<(), WriteFault>
    requires torches { AreDistinct torches.now }
    requires leaves { HasDistinctCells (tree_of proof.now) }
    ensures { IsSent W.contents result sink.old sink.new (region_text cells.now torches.now (tree_of proof.now)) }
{
    sink.put_line("region", &[cells.len() as u64, torches.len() as u64])?;
    put_cells(sink, "D", cells)?;
    put_proved(sink, torches, proof)
}

/// Puts all lines of a planned region behind what is on its way.
pub fn put_section<W: Write>(
    sink: &mut Sink<'_, W>,
    region: &Region,
    cover: &Cover,
    proof: &Proof,
) -> Result<(), WriteFault>
    requires { IsWritable (record { region = region.now; torches = cover.now.places; tree = tree_of proof.now }) }
    ensures { IsSent W.contents result sink.old sink.new
        (section_text (record { region = region.now; torches = cover.now.places; tree = tree_of proof.now })) }
{
    put_region(sink, region.cells(), cover.places(), proof)
}
