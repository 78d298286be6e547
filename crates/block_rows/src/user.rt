//! The rows of a user's table.
ghost use Rattle.std.specs.Prelude.{◌≡◌, ◌≢◌, IfOk, IfErr, unwrap_or, []};
ghost use Rattle.block_rows.specs.Columns.{row_in, texts_of, when_in};
ghost use Rattle.block_rows.specs.UserTable.{IsDocument, IsDocumentFault, TellsRows, rows_of};
ghost use Rattle.toml.specs.Data.{Members};
ghost use Rattle.toml.specs.View.{items_view, table_view};

use crate::columns::{class, member, name};
use crate::fault::RowsFault;
use crate::judging::{self, elements};
use crate::row::Row;
use crate::shipped::bytes_of;
use cave_base::Sequence;
use std::alloc::{AllocError, Global};
use toml::{Table, Value};

/// The document that the text is.
pub(crate) fn document(alloc: Global, text: &[u8]) -> Result<Table, RowsFault>
    ensures read { IfOk result (λ table. IsDocument text.now (table_view table)) }
    ensures refused { IfErr result (λ e. e ≢ RowsFault.OutOfMemory
        → (e ≡ RowsFault.Toml) × ((document : Members) → ¬ IsDocument text.now document)) }
{
    match toml::table_from_slice(alloc, text) {
        Ok(table) => Ok(table),
        Err(error) if error.is_memory() => Err(RowsFault::OutOfMemory),
        Err(_) => Err(RowsFault::Toml),
    }
}

/// Each text of the table beside its property.
fn texts(alloc: Global, asked: &Table) -> Result<Sequence<(Sequence<u8>, Sequence<u8>)>, AllocError>
    ensures { IfOk result (λ texts. texts ≡ unwrap_or (texts_of (table_view asked.now)) []) }
{
    let mut texts = Vec::new(alloc);
    for (property, value) in asked.iter() {
        match value.as_str() {
            Some(text) => texts.push((
                bytes_of(alloc, property.as_str())?,
                bytes_of(alloc, text)?,
            ))?,
            None => return Ok(Sequence::from_vec(Vec::new(alloc))),
        }
    }
    Ok(Sequence::from_vec(texts))
}

/// What the row asks for.
fn conditions(
    alloc: Global,
    row: &Table,
) -> Result<Sequence<(Sequence<u8>, Sequence<u8>)>, AllocError>
    ensures { IfOk result (λ asked. asked ≡ unwrap_or (when_in (table_view row.now)) []) }
{
    if let Some(value) = member(row, "when") {
        if let Some(asked) = value.as_table() {
            return texts(alloc, asked);
        }
    }
    Ok(Sequence::from_vec(Vec::new(alloc)))
}

/// The row that a table tells.
fn user_row(alloc: Global, row: &Table) -> Result<Row, AllocError>
    ensures { IfOk result (λ told. told ≡ row_in (table_view row.now)) }
{
    Ok(Row {
        name: bytes_of(alloc, name(row).unwrap_or(""))?,
        when: conditions(alloc, row)?,
        class: class(row),
    })
}

/// The rows of the elements that are tables.
pub(crate) fn user_rows(alloc: Global, elements: &[Value]) -> Result<Vec<Row>, AllocError>
    ensures { IfOk result (λ rows. rows.items ≡ rows_of (items_view elements.now)) }
{
    let mut rows = Vec::new(alloc);
    for element in elements {
        if let Some(row) = element.as_table() {
            rows.push(user_row(alloc, row)?)?;
        }
    }
    Ok(rows)
}

/// The rows of a document, or its first fault.
pub(crate) fn document_rows(alloc: Global, document: &Table) -> Result<Vec<Row>, RowsFault>
    ensures found { IfOk result (λ rows. TellsRows (table_view document.now) rows.items) }
    ensures fault { IfErr result (λ e. e ≢ RowsFault.OutOfMemory
        → IsDocumentFault (table_view document.now) e) }
{
    if let Some(fault) = judging::document_fault(document) {
        return Err(fault);
    }
    match elements(document) {
        Some(elements) => Ok(user_rows(alloc, elements)?),
        None => Ok(Vec::new(alloc)),
    }
}
