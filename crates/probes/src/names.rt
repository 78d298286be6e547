//! The list of the game's blocks in tools/dev/blocks-1.18.txt, each tried against the table: a line has a name, and the
//! properties that change the block's light, ground, room or faces, each with its values.
use crate::facts;
use block_rows::Rows;
use std::alloc::{AllocError, Global};
use std::fs;
use std::test::Fail;

/// How many names and values were tried, and how many of them have no row.
#[derive(Drop)]
struct Tried {
    names: u32,
    values: u32,
    missing: u32,
}

/// Some row serves the block of that name with these properties.
fn is_served(
    alloc: Global,
    rows: &Rows,
    name: &str,
    props: &[(&str, &str)],
) -> Result<bool, AllocError> {
    Ok(rows.row_of(&facts::state(alloc, name, props)?).is_some())
}

/// Tries each value of a property, as `half=bottom|top`.
fn try_property(
    rt: &HostRuntime,
    rows: &Rows,
    name: &str,
    word: &str,
    tried: &mut Tried,
) -> Result<(), Fail> {
    let Some((property, values)) = word.split_once('=') else {
        return Ok(());
    };
    for value in values.split('|') {
        tried.values = tried.values.wrapping_add(1);
        if !is_served(rt.alloc(), rows, name, &[(property, value)])? {
            tried.missing = tried.missing.wrapping_add(1);
            println!(rt; "no row: {name}, {property} {value}")?;
        }
    }
    Ok(())
}

/// Tries the block of one line, first without a property.
fn try_line(rt: &HostRuntime, rows: &Rows, line: &str, tried: &mut Tried) -> Result<(), Fail> {
    let mut words = line.split(' ');
    let Some(name) = words.next() else {
        return Ok(());
    };
    tried.names = tried.names.wrapping_add(1);
    if !is_served(rt.alloc(), rows, name, &[])? {
        tried.missing = tried.missing.wrapping_add(1);
        println!(rt; "no row: {name}")?;
    }
    for word in words {
        try_property(rt, rows, name, word, tried)?;
    }
    Ok(())
}

/// Prints each name and value of the file's list that no row serves, and how many there are.
pub fn run(rt: &HostRuntime, rows: &Rows, path: &str) -> Result<(), Fail> {
    let text = fs::read_to_string(rt, path)?;
    let mut tried = Tried {
        names: 0,
        values: 0,
        missing: 0,
    };
    for line in text.lines() {
        if !line.is_empty() && !line.starts_with('#') {
            try_line(rt, rows, line, &mut tried)?;
        }
    }
    let Tried {
        names,
        values,
        missing,
    } = tried;
    println!(rt; "{names} names and {values} values, {missing} without a row")?;
    Ok(())
}
