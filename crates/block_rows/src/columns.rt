//! The columns of a row of the user's table. None of these takes memory.
ghost use Rattle.std.specs.List.{list_any};
ghost use Rattle.std.specs.Prelude.{◌≡◌, map, is_some, option_map, option_copied, bytes_eq};
ghost use Rattle.block_rows.specs.Columns as columns;
ghost use Rattle.toml.specs.Data.{get_member};
ghost use Rattle.toml.specs.View.{table_view, view};

use cave_base::Class;
use toml::{Table, Value};

/// The value under a key.
pub(crate) fn member<'a>(table: &'a Table, key: &str) -> Option<&'a Value>
    ensures { option_map (λ value. view value.now) result ≡ get_member key.now (table_view table.now) }
{
    table.get(key)
}

fn is_one_of(key: &str, keys: &[&str]) -> bool
    ensures { result ≡ list_any (λ known. bytes_eq key.now known.now) keys.now }
{
    keys.iter().any(|known| key == *known)
}

/// Each key of the table is one of these.
pub(crate) fn has_only(table: &Table, keys: &[&str]) -> bool
    ensures { result ≡ columns.has_only (map (λ known. known.now) keys.now) (table_view table.now) }
{
    for (key, _value) in table.iter() {
        if !is_one_of(key.as_str(), keys) {
            return false;
        }
    }
    true
}

/// A level of light: 0 to 15.
fn level(value: &Value) -> Option<u8>
    ensures { result ≡ columns.level_of (view value.now) }
{
    match value.as_integer() {
        Some(number) if 0 <= number && number <= 15 => Some(number as u8),
        _ => None,
    }
}

/// The name of the row's block.
pub(crate) fn name(table: &Table) -> Option<&str>
    ensures { option_copied result ≡ columns.name_in (table_view table.now) }
{
    match member(table, "name") {
        Some(value) => value.as_str(),
        None => None,
    }
}

/// The opacity.
pub(crate) fn opacity(table: &Table) -> Option<u8>
    ensures { result ≡ columns.opacity_in (table_view table.now) }
{
    match member(table, "opacity") {
        Some(value) => level(value),
        None => None,
    }
}

/// The emission, 0 where it is absent.
pub(crate) fn emission(table: &Table) -> Option<u8>
    ensures { result ≡ columns.emission_in (table_view table.now) }
{
    match member(table, "emission") {
        Some(value) => level(value),
        None => Some(0),
    }
}

/// A truth value, false where it is absent.
pub(crate) fn flag(table: &Table, column: &str) -> Option<bool>
    ensures { result ≡ columns.flag_in column.now (table_view table.now) }
{
    match member(table, column) {
        Some(value) => value.as_bool(),
        None => Some(false),
    }
}

/// The class that the columns tell.
pub(crate) fn class(table: &Table) -> Class
    ensures { result ≡ columns.class_in (table_view table.now) }
{
    Class {
        opacity: opacity(table).unwrap_or(0),
        emission: emission(table).unwrap_or(0),
        free: flag(table, "free").unwrap_or(false),
        stand: flag(table, "stand").unwrap_or(false),
        put: flag(table, "put").unwrap_or(false),
        top: flag(table, "top").unwrap_or(false),
        side: flag(table, "side").unwrap_or(false),
    }
}

/// Each value of the table is a text.
fn are_texts(asked: &Table) -> bool
    ensures { result ≡ is_some (columns.texts_of (table_view asked.now)) }
{
    for (property, value) in asked.iter() {
        if value.as_str().is_none() {
            return false;
        }
    }
    true
}

/// What the row asks for is a table of texts, or absent.
pub(crate) fn has_conditions(table: &Table) -> bool
    ensures { result ≡ is_some (columns.when_in (table_view table.now)) }
{
    match member(table, "when") {
        Some(value) => match value.as_table() {
            Some(asked) => are_texts(asked),
            None => false,
        },
        None => true,
    }
}
