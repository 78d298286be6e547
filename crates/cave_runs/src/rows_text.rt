//! The text of the rows that serve block states: specs/RowsText.antt.
ghost use Rattle.std.specs.Prelude.{◌≡◌, IfOk, option_copied, string_bytes};
ghost use Rattle.cave_runs.specs.RowsText as texts;

use block_rows::{Row, Rows};
use cave_base::Class;
use cave_reading::ShownName;
use scan_core::BlockState;
use std::alloc::{AllocError, Global};

/// The word of a column behind a space, where the column is yes.
fn column(alloc: Global, is_yes: bool, word: &str) -> Result<String, AllocError>
    ensures { IfOk result (λ s. string_bytes s ≡ texts.column_text is_yes word.now) }
{
    if is_yes {
        return format!(in alloc; " {word}");
    }
    Ok(String::new(alloc))
}

/// The opacity and the emission, and the columns that are yes.
fn class_text(alloc: Global, class: Class) -> Result<String, AllocError>
    ensures { IfOk result (λ s. string_bytes s ≡ texts.class_text class) }
{
    let free = column(alloc, class.free, "free")?;
    let stand = column(alloc, class.stand, "stand")?;
    let put = column(alloc, class.put, "put")?;
    let top = column(alloc, class.top, "top")?;
    let side = column(alloc, class.side, "side")?;
    let opacity = class.opacity;
    let emission = class.emission;
    format!(in alloc; "{opacity} {emission}{free}{stand}{put}{top}{side}")
}

/// A row, or a hyphen where none fits.
fn row_text(alloc: Global, row: Option<&Row>) -> Result<String, AllocError>
    ensures { IfOk result (λ s. string_bytes s ≡ texts.row_text (option_copied row.entry)) }
{
    match row {
        Some(row) => class_text(alloc, row.class),
        None => format!(in alloc; "-"),
    }
}

/// The line of a block state: its row, and its name.
fn state_line(alloc: Global, rows: &Rows, state: &BlockState) -> Result<String, AllocError>
    ensures { IfOk result (λ s. string_bytes s ≡ texts.state_line rows.now state.now) }
{
    let row = row_text(alloc, rows.row_of(state))?;
    let name = ShownName::new(state.name.as_slice());
    format!(in alloc; "{row}\t{name}\n")
}

/// The text of the rows that serve these block states, a line for each.
pub fn rows_text(alloc: Global, rows: &Rows, palette: &[BlockState]) -> Result<String, AllocError>
    ensures { IfOk result (λ s. string_bytes s ≡ texts.rows_text rows.now palette.now) }
{
    let mut out = String::new(alloc);
    for state in palette {
        let line = state_line(alloc, rows, state)?;
        out.push_str(line.as_str())?;
    }
    Ok(out)
}
