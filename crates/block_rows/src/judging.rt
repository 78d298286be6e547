//! What is wrong with a user's table: the first fault in its order. None of this takes memory.
ghost use Rattle.std.specs.Prelude.{◌≡◌, option_map};
ghost use Rattle.block_rows.specs.Columns.{has_only};
ghost use Rattle.block_rows.specs.Judging as found;
ghost use Rattle.block_rows.specs.UserTable as judging;
ghost use Rattle.cave_base.specs.Class.{gives_way_as_air};
ghost use Rattle.toml.specs.View.{items_view, table_view, view};

use crate::columns::{class, emission, flag, has_conditions, has_only, member, name, opacity};
use crate::fault::{RowFault, RowsFault};
use cave_base::Class;
use toml::{Table, Value};

/// The columns that a row may have.
const COLUMNS: &[&str] = &[
    "name", "when", "opacity", "emission", "free", "stand", "put", "top", "side",
];

/// Each truth value of the row is one.
fn has_flags(row: &Table) -> bool
    ensures { result ≡ judging.has_flags (table_view row.now) }
{
    flag(row, "free").is_some()
        && flag(row, "stand").is_some()
        && flag(row, "put").is_some()
        && flag(row, "top").is_some()
        && flag(row, "side").is_some()
}

/// What gives way to a torch is as air.
fn gives_way_as_air(class: &Class) -> bool
    ensures { result ≡ gives_way_as_air class.now }
{
    !class.put
        || (class.opacity == 0
            && class.emission == 0
            && class.free
            && !class.stand
            && !class.top
            && !class.side)
}

/// The row has only its own columns.
fn has_known_columns(row: &Table) -> bool
    ensures { result ≡ has_only judging.row_columns (table_view row.now) }
{
    has_only(row, COLUMNS)
}

/// The first fault of a row.
fn row_fault(row: &Table) -> Option<RowFault>
    ensures { result ≡ judging.row_fault (table_view row.now) }
{
    if !has_known_columns(row) {
        return Some(RowFault::UnknownKey);
    }
    if name(row).is_none() {
        return Some(RowFault::BadName);
    }
    if !has_conditions(row) {
        return Some(RowFault::BadWhen);
    }
    if opacity(row).is_none() || emission(row).is_none() {
        return Some(RowFault::BadNumber);
    }
    if !has_flags(row) {
        return Some(RowFault::BadFlag);
    }
    if !gives_way_as_air(&class(row)) {
        return Some(RowFault::PutNotPlain);
    }
    None
}

/// The first fault of an element of the array.
fn element_fault(element: &Value) -> Option<RowFault>
    ensures { result ≡ judging.element_fault (view element.now) }
{
    match element.as_table() {
        Some(row) => row_fault(row),
        None => Some(RowFault::Shape),
    }
}

/// The first fault of the elements.
fn rows_fault(elements: &[Value]) -> Option<RowsFault>
    ensures { result ≡ found.rows_fault 0 (items_view elements.now) }
{
    for (index, element) in elements.iter().enumerate() {
        if let Some(fault) = element_fault(element) {
            return Some(RowsFault::BadRow { index, fault });
        }
    }
    None
}

/// The elements of the array under `row`, none of them where it is absent.
pub(crate) fn elements(document: &Table) -> Option<&[Value]>
    ensures { option_map (λ elements. items_view elements.now) result
        ≡ judging.elements_in (table_view document.now) }
{
    match member(document, "row") {
        Some(value) => match value.as_array() {
            Some(elements) => Some(elements.as_slice()),
            None => None,
        },
        None => Some(&[]),
    }
}

/// The first fault of a document: its shape is judged before any row.
pub(crate) fn document_fault(document: &Table) -> Option<RowsFault>
    ensures { result ≡ found.document_fault (table_view document.now) }
{
    let wrong_shape = RowsFault::BadRow {
        index: 0,
        fault: RowFault::Shape,
    };
    if !has_only(document, &["row"]) {
        return Some(wrong_shape);
    }
    match elements(document) {
        Some(elements) => rows_fault(elements),
        None => Some(wrong_shape),
    }
}
