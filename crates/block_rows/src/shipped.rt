//! The shipped rows, made from the lines of table.rt: `shipped_rows` of specs/Shipped.antt, by specs/Lines.antt.
ghost use Rattle.std.specs.Prelude.{◌≡◌, ◌++◌, IfOk, OnOk, flat_map, map};
ghost use Rattle.block_rows.specs.Lines.{line_of, rows_in};
ghost use Rattle.block_rows.specs.Shipped.{shipped_rows};

use crate::row::Row;
use crate::table::{LINES, Line, PREFIX};
use cave_base::Sequence;
use std::alloc::{AllocError, Global};

/// The bytes of a text.
pub(crate) fn bytes_of(alloc: Global, text: &str) -> Result<Sequence<u8>, AllocError>
    ensures { IfOk result (λ bytes. bytes ≡ text.now) }
{
    Ok(Sequence::from_vec(Vec::from_slice(alloc, text.as_bytes())?))
}

/// The name with the prefix before it.
fn whole_name(alloc: Global, name: &str) -> Result<Sequence<u8>, AllocError>
    ensures { IfOk result (λ bytes. bytes ≡ PREFIX.now ++ name.now) }
{
    let mut bytes = Vec::from_slice(alloc, PREFIX.as_bytes())?;
    bytes.extend_from_slice(name.as_bytes())?;
    Ok(Sequence::from_vec(bytes))
}

/// The properties that a line asks for.
fn conditions(
    alloc: Global,
    when: &[(&str, &str)],
) -> Result<Sequence<(Sequence<u8>, Sequence<u8>)>, AllocError>
    ensures { IfOk result (λ asked. asked ≡ map (λ pair. (pair.0.now, pair.1.now)) when.now) }
{
    let mut asked = Vec::new(alloc);
    for (property, value) in when {
        asked.push((bytes_of(alloc, property)?, bytes_of(alloc, value)?))?;
    }
    Ok(Sequence::from_vec(asked))
}

/// Adds the rows of a line of the table.
fn push_line(alloc: Global, rows: &mut Vec<Row>, line: &Line) -> Result<(), AllocError>
    ensures { OnOk result (rows.new.items ≡ rows.old.items ++ rows_in (line_of line.now)) }
{
    for name in line.names {
        let row = Row {
            name: whole_name(alloc, name)?,
            when: conditions(alloc, line.when)?,
            class: line.class,
        };
        rows.push(row)?;
    }
    Ok(())
}

/// The rows of all lines, in their order.
fn rows_of_lines(alloc: Global, lines: &[Line]) -> Result<Vec<Row>, AllocError>
    ensures { IfOk result (λ rows. rows.items ≡ flat_map rows_in (map line_of lines.now)) }
{
    let mut rows = Vec::new(alloc);
    for line in lines {
        push_line(alloc, &mut rows, line)?;
    }
    Ok(rows)
}

/// The rows of the shipped table.
pub(crate) fn shipped_table(alloc: Global) -> Result<Vec<Row>, AllocError>
    ensures { IfOk result (λ rows. rows.items ≡ shipped_rows) }
{
    rows_of_lines(alloc, LINES)
}
