//! A cave from bytes: `IsCaveOfBytes` of specs/Bytes.antt, and where there is none `IsFaultOfBytes`.
ghost use Rattle.std.specs.Prelude.{◌≡◌, ◌≢◌, IfOk, IfErr, option_copied};
ghost use Rattle.block_rows.specs.Rows.{Table};
ghost use Rattle.block_rows.specs.declared.fault.RowsFault.{RowsFault};
ghost use Rattle.cave_base.specs.Answer.{IsAnswer, IsRefusal};
ghost use Rattle.cave_model.specs.Cave.{Cave};
ghost use Rattle.cave_model.specs.RuleOf.{rule_of};
ghost use Rattle.cave_reading.specs.Bytes.{IsCaveOfBytes, IsFaultOfBytes, IsFaultOfParts};
ghost use Rattle.cave_reading.specs.Bytes.{IsTableFault, IsTableFor};
ghost use Rattle.cave_reading.specs.declared.cave_fault.CaveFault.{CaveFault};
ghost use Rattle.scan_core.specs.Scan.{Scans, Structure};

use crate::building::build;
use crate::cave_fault::CaveFault;
use block_rows::{Rows, RowsFault};
use cave_model::{Rule, World};
use scan_core::{Scan, read_scan};
use std::alloc::Global;

/// The rows of the user's table, where there is one, before the shipped ones.
fn rows_for(alloc: Global, table: Option<&[u8]>) -> Result<Rows, RowsFault>
    ensures found { IfOk result (IsTableFor (option_copied table.entry)) }
    ensures only { (rows : Table) → IsTableFor (option_copied table.entry) rows
        → IsAnswer RowsFault.OutOfMemory result (λ x. x ≡ rows) }
    ensures fault { IfErr result (λ e. e ≢ RowsFault.OutOfMemory → IsTableFault (option_copied table.entry) e) }
    ensures refused { (e : RowsFault) → IsTableFault (option_copied table.entry) e
        → IsRefusal RowsFault.OutOfMemory result e }
{
    match table {
        Some(text) => Rows::with_table(alloc, text),
        None => Rows::shipped(alloc),
    }
}

/// The structure that the bytes tell, and the rows of the user's table, where there is one, before the shipped ones. A
/// fault of the structure goes before one of the table. No block is unknown here.
pub fn read_parts(
    alloc: Global,
    structure: &[u8],
    table: Option<&[u8]>,
) -> Result<(Scan, Rows), CaveFault>
    // What is answered is that structure and these rows.
    ensures found { IfOk result (λ parts. Scans structure.now parts.0
        × IsTableFor (option_copied table.entry) parts.1) }
    // Such a structure and such rows are answered.
    ensures only { (scan : Structure) → (rows : Table) → Scans structure.now scan
        → IsTableFor (option_copied table.entry) rows
        → IsAnswer CaveFault.OutOfMemory result (λ parts. (parts.0 ≡ scan) × (parts.1 ≡ rows)) }
    // A fault is the first of the two.
    ensures fault { IfErr result (λ e. e ≢ CaveFault.OutOfMemory
        → IsFaultOfParts structure.now (option_copied table.entry) e) }
    // Such a fault is answered.
    ensures refused { (e : CaveFault) → IsFaultOfParts structure.now (option_copied table.entry) e
        → IsRefusal CaveFault.OutOfMemory result e }
{
    let scan = read_scan(alloc, structure)?;
    let rows = rows_for(alloc, table)?;
    Ok((scan, rows))
}

/// The cave that the bytes of a structure tell by the rows of the user's table, where there is one, before the shipped
/// ones. A fault of the structure goes before one of the table, and that before an unknown block.
pub fn read_cave(
    alloc: Global,
    structure: &[u8],
    table: Option<&[u8]>,
    rule: Rule,
) -> Result<World, CaveFault>
    // What is answered is that cave.
    ensures found { IfOk result (IsCaveOfBytes structure.now (option_copied table.entry) (rule_of rule)) }
    // Such a cave is answered.
    ensures only { (cave : Cave) → IsCaveOfBytes structure.now (option_copied table.entry) (rule_of rule) cave
        → IsAnswer CaveFault.OutOfMemory result (λ x. x ≡ cave) }
    // A fault is the first of the bytes.
    ensures fault { IfErr result (λ e. e ≢ CaveFault.OutOfMemory
        → IsFaultOfBytes structure.now (option_copied table.entry) e) }
    // Such a fault is answered.
    ensures refused { (e : CaveFault) → IsFaultOfBytes structure.now (option_copied table.entry) e
        → IsRefusal CaveFault.OutOfMemory result e }
{
    let (scan, rows) = read_parts(alloc, structure, table)?;
    let world = build(alloc, &scan, &rows, rule)?;
    Ok(world)
}
