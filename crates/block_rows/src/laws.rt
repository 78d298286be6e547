//! Laws over the definitions alone.
ghost use Rattle.std.specs.Prelude.{◌≡◌, ◌⊎◌, ℕ, List, None};
ghost use Rattle.block_rows.specs.Columns.{row_in};
ghost use Rattle.block_rows.specs.Rows.{Table};
ghost use Rattle.block_rows.specs.Shipped.{AreDistinctRows, shipped_rows};
ghost use Rattle.block_rows.specs.UserTable.{IsRowsFaultOf, IsTableOf, IsWholeRow, row_fault};
ghost use Rattle.block_rows.specs.declared.fault.RowsFault.{RowsFault};
ghost use Rattle.toml.specs.Data.{Members};

/// Two shipped rows of one name differ in the properties that they ask for.
pub fn shipped_names_are_distinct()
    ensures { AreDistinctRows shipped_rows }
{}

/// In a row without a fault each column tells what the row has: nothing is guessed where a value is told wrongly.
pub fn faultless_rows_are_whole()
    ensures { (ms : Members) → row_fault ms ≡ None → IsWholeRow ms (row_in ms) }
{}

/// All texts tell a table or have a fault.
pub fn table_or_fault()
    ensures { (text : List ℕ)
        → ((table : Table) × IsTableOf text table) ⊎ ((fault : RowsFault) × IsRowsFaultOf text fault) }
{}

/// A text that tells a table has no fault.
pub fn table_has_no_fault()
    ensures { (text : List ℕ) (table : Table) (fault : RowsFault)
        → IsTableOf text table → IsRowsFaultOf text fault → ⊥ }
{}

/// A text tells one table at most.
pub fn one_table()
    ensures { (text : List ℕ) → (a b : Table) → IsTableOf text a → IsTableOf text b → a ≡ b }
{}

/// A text has one fault at most.
pub fn one_table_fault()
    ensures { (text : List ℕ) → (a b : RowsFault) → IsRowsFaultOf text a → IsRowsFaultOf text b → a ≡ b }
{}
