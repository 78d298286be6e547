//! The cave of a structure.

use block_rows::Rows;
use cave_files::Structure;
use cave_model::{Rule, World};
use cave_reading::build;
use scan_core::read_scan;
use std::alloc::Global;
use std::test::Fail;

/// The cave of a structure by a user's table and under a rule; by the shipped rows alone where the table is empty.
pub fn world_by(
    alloc: Global,
    structure: &Structure<'_>,
    table: &[u8],
    rule: Rule,
) -> Result<World, Fail> {
    let scan = read_scan(alloc, &structure.bytes(alloc)?)?;
    let rows = Rows::with_table(alloc, table)?;
    Ok(build(alloc, &scan, &rows, rule)?)
}
