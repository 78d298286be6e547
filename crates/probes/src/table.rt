//! Reads a table of blocks whole, looks up the states of which the game's facts are known and each name of the game's
//! list, and looks for a free row that is dark.
use crate::{facts, names};
use block_rows::Rows;
use std::fs;
use std::test::Fail;
use toml::Value;

/// The row is free with an opacity above 13.
fn is_free_and_dark(row: &Value) -> bool {
    let Some(row) = row.as_table() else {
        return false;
    };
    let free = row.get("free").and_then(|it| it.as_bool()).unwrap_or(false);
    let opacity = row
        .get("opacity")
        .and_then(|it| it.as_integer())
        .unwrap_or(99);
    free && opacity > 13
}

/// Prints each fact that these rows don't give, and how many there are.
fn look_up(rt: &HostRuntime, rows: &Rows) -> Result<(), Fail> {
    let mut wrong = 0u32;
    for fact in facts::FACTS {
        if !facts::holds(rt.alloc(), rows, fact)? {
            let name = fact.split(' ').next().unwrap_or("");
            println!(rt; "wrong: minecraft:{name}")?;
            wrong = wrong.wrapping_add(1);
        }
    }
    println!(rt; "{} states looked up, {wrong} wrong", facts::FACTS.len())?;
    Ok(())
}

/// Prints how many rows the text has, and how many of them are free and dark.
fn count(rt: &HostRuntime, text: &[u8]) -> Result<(), Fail> {
    let document = toml::table_from_slice(rt.alloc(), text)?;
    let mut dark = 0u32;
    if let Some(rows) = document.get("row").and_then(|it| it.as_array()) {
        println!(rt; "{} rows", rows.len())?;
        for row in rows.iter() {
            if is_free_and_dark(row) {
                dark = dark.wrapping_add(1);
            }
        }
    }
    println!(rt; "{dark} rows are free with an opacity above 13")?;
    Ok(())
}

/// Prints what was found in the table of the file, the names by the list in the other.
pub fn run(rt: &HostRuntime, path: &str, list: &str) -> Result<(), Fail> {
    let text = fs::read(rt, path)?;
    let rows = Rows::with_table(rt.alloc(), &text)?;
    println!(rt; "read whole")?;
    look_up(rt, &rows)?;
    names::run(rt, &rows, list)?;
    count(rt, &text)
}
