//! The table of rows, the user's before the shipped ones: `Table` and `row_for` of specs/Rows.antt. What the
//! user's text tells is in specs/UserTable.antt.
ghost use Rattle.std.specs.Prelude.{◌≡◌, ◌≢◌, [], IfErr, IfOk, IfSome, option_copied};
ghost use Rattle.block_rows.specs.Rows.{Table, row_for};
ghost use Rattle.block_rows.specs.Shipped.{shipped_rows};
ghost use Rattle.block_rows.specs.UserTable.{IsRowsFaultOf, IsTableOf};
ghost use Rattle.block_rows.specs.declared.fault.RowsFault.{RowsFault};
ghost use Rattle.cave_base.specs.Answer.{IsAnswer, IsRefusal};
ghost use Rattle.cave_base.specs.Class.{IsSoundClass};

use crate::fault::RowsFault;
use crate::look_up::{first_by_name, first_wildcard};
use crate::row::Row;
use crate::shipped::shipped_table;
use crate::user::{document, document_rows};
use scan_core::BlockState;
use std::alloc::Global;
use std::marker::Model;

/// A table of rows: the user's, which go first, and the shipped ones. Every row is sound: opacity and emission are
/// at most 15, and a block that gives way to a torch is as air (this project's own).
#[derive(Debug, Drop)]
pub struct Rows {
    user: Vec<Row>,
    shipped: Vec<Row>,
}

impl Model for Rows {
    ghost use Rattle.block_rows.specs.Rows.{Table, IsSoundTable};

    ghost Value = { Table };

    ghost view = { λ r. record { user = r.user.items; shipped = r.shipped.items } };

    ghost invariant = { λ r. IsSoundTable (record { user = r.user.items; shipped = r.shipped.items }) };
}

impl Rows {
    /// The shipped rows alone.
    pub fn shipped(alloc: Global) -> Result<Rows, RowsFault>
        ensures rows { IfOk result (λ rows. rows ≡ record { user = []; shipped = shipped_rows }) }
        ensures memory { IfErr result (λ e. e ≡ RowsFault.OutOfMemory) }
    {
        let shipped = shipped_table(alloc)?;
        Ok(Rows {
            user: Vec::new(alloc),
            shipped,
        })
    }

    /// The rows of the user's table before the shipped ones. The table is a TOML text with an array of tables under
    /// `row`, each with a `name`, an `opacity`, and optionally `when`, `emission`, `free`, `stand`, `put`, `top` and
    /// `side` (this project's own). The first fault is told: the text's, then the top's, then the rows' in order.
    pub fn with_table(alloc: Global, text: &[u8]) -> Result<Rows, RowsFault>
        // What is made is the table of the text.
        ensures found { IfOk result (IsTableOf text.now) }
        // Such a table is made.
        ensures only { (table : Table) → IsTableOf text.now table
            → IsAnswer RowsFault.OutOfMemory result (λ rows. rows ≡ table) }
        // A fault is the first one.
        ensures fault { IfErr result (λ e. e ≢ RowsFault.OutOfMemory → IsRowsFaultOf text.now e) }
        // Such a fault is answered.
        ensures refused { (e : RowsFault) → IsRowsFaultOf text.now e → IsRefusal RowsFault.OutOfMemory result e }
    {
        let document = document(alloc, text)?;
        let user = document_rows(alloc, &document)?;
        let shipped = shipped_table(alloc)?;
        Ok(Rows { user, shipped })
    }

    /// The row of a block state: the first that fits by its name, the user's before the shipped; else the first of
    /// the user's named `*` whose conditions hold.
    ///
    /// It takes no memory, and time in proportion to the number of rows: each row's name is compared first, and
    /// what it asks for only where the names are equal.
    pub fn row_of(&self, state: &BlockState) -> Option<&Row>
        ensures row { option_copied result ≡ row_for self.now state.now }
        ensures sound { IfSome result (λ row. IsSoundClass row.now.class) }
    {
        if let Some(row) = first_by_name(&self.user, state) {
            return Some(row);
        }
        if let Some(row) = first_by_name(&self.shipped, state) {
            return Some(row);
        }
        first_wildcard(&self.user, state)
    }
}
