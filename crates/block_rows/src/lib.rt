//! The table of block rows: which class a block state has, by the first row that fits.
//!
//! The shipped rows are this project's own (the table stands in `table.rt`). A row has a name, properties that it
//! asks for, and a class. Rows are sound: a block that gives way to a torch is as air.
#![tactic(auto)]

mod columns;
mod fault;
mod judging;
pub mod laws;
mod look_up;
mod row;
mod rows;
mod shipped;
mod table;
mod user;

pub use fault::{RowFault, RowsFault};
pub use row::Row;
pub use rows::Rows;
