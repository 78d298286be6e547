//! The run of `rows`, from the bytes read to the bytes written: `IsRunOfRows` of specs/RunOfRows.antt.
ghost use Rattle.std.specs.Prelude.{◌≡◌, ◌≢◌, IfOk, IfErr, option_copied, string_bytes};
ghost use Rattle.cave_base.specs.Answer.{IsRefusal};
ghost use Rattle.cave_runs.specs.RowsRuns.{IsFaultOfRows, IsRowsTextOf};
ghost use Rattle.cave_runs.specs.RunOfRows.{IsRunOfRows};
ghost use Rattle.cave_runs.specs.Streams.{stream};
ghost use Rattle.cave_runs.specs.declared.fault.RunFault.{RunFault};

use crate::fault::{Input, RunFault};
use crate::limits::STRUCTURE_LIMIT;
use crate::reading::read_all;
use crate::rows_text::rows_text;
use crate::writing::put_all;
use cave_reading::read_parts;
use std::alloc::Global;
use std::io::{Read, Write};

/// The text of the rows that serve the block states of the structure that the bytes tell. A fault of the structure goes
/// before one of the table.
fn text_of(alloc: Global, bytes: &[u8], table: Option<&[u8]>) -> Result<String, RunFault>
    ensures done { IfOk result (λ s. IsRowsTextOf bytes.now (option_copied table.entry) (string_bytes s)) }
    ensures fault { IfErr result (λ e. e ≢ RunFault.OutOfMemory
        → IsFaultOfRows bytes.now (option_copied table.entry) e) }
    ensures refused { (e : RunFault) → IsFaultOfRows bytes.now (option_copied table.entry) e
        → IsRefusal RunFault.OutOfMemory result e }
{
    let (scan, rows) = read_parts(alloc, bytes, table)?;
    let text = rows_text(alloc, &rows, scan.palette())?;
    Ok(text)
}

/// Reads a structure to the end of the reader, and writes a line for each block state of its palette: the row that
/// serves the state, or `-` where none does, and the state's name. All is read before it is judged, and the whole text
/// is made before its first byte is written. The rows are those of the user's table, where there is one, before the
/// shipped ones.
pub fn run_rows<R, W>(
    alloc: Global,
    reader: &mut R,
    table: Option<&[u8]>,
    writer: &mut W,
) -> Result<(), RunFault>
where
    R: Read,
    W: Write,
    ensures { IsRunOfRows (stream (R.remaining reader.old) (R.remaining reader.new)) (option_copied table.entry) result
        (stream (W.contents writer.old) (W.contents writer.new)) }
{
    let bytes = read_all(alloc, reader, STRUCTURE_LIMIT, Input::StructureInput)?;
    let text = text_of(alloc, &bytes, table)?;
    put_all(writer, text.as_bytes())
}
