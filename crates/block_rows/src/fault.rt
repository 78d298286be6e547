//! Why a text is no table of rows: `IsRowsFaultOf` of specs/UserTable.antt; its words are in specs/Texts.antt.
ghost use Rattle.std.specs.Prelude.{◌≡◌};
ghost use Rattle.block_rows.specs.declared.fault.RowsFault.TheVariants.{OutOfMemory};

use std::alloc::{AllocError, AllocFailed};
use std::error::Error;
use std::fmt;

/// What is wrong with a row of the user's table: the first kind in this order.
#[derive(Clone, Copy, Debug, PartialEq, Eq)]
pub enum RowFault {
    /// The top holds another key than `row`, or `row` is no array (both told at index 0), or this element is no table.
    Shape,
    UnknownKey,
    BadName,
    BadWhen,
    /// Opacity or emission is no integer from 0 to 15, or opacity is absent.
    BadNumber,
    BadFlag,
    /// A row with `put` that isn't as air.
    PutNotPlain,
}

impl fmt::Display for RowFault {
    ghost use Rattle.std.specs.Prelude.{Some};
    ghost use Rattle.block_rows.specs.Texts.{row_fault_text};

    ghost output = { λ fault. Some (row_fault_text fault) };

    fn fmt<W: fmt::Write>(&self, f: &mut fmt::Formatter<W>) -> fmt::Result {
        match self {
            RowFault::Shape => write!(f, "shape"),
            RowFault::UnknownKey => write!(f, "key"),
            RowFault::BadName => write!(f, "name"),
            RowFault::BadWhen => write!(f, "when"),
            RowFault::BadNumber => write!(f, "number"),
            RowFault::BadFlag => write!(f, "flag"),
            RowFault::PutNotPlain => write!(f, "put"),
        }
    }
}

/// Why a text is no table of rows.
#[derive(Clone, Copy, Debug, PartialEq, Eq)]
pub enum RowsFault {
    /// The text isn't TOML, or isn't UTF-8.
    Toml,
    /// The row with this index, from 0, is refused.
    BadRow { index: usize, fault: RowFault },
    OutOfMemory,
}

impl fmt::Display for RowsFault {
    ghost use Rattle.std.specs.Prelude.{Some};
    ghost use Rattle.block_rows.specs.Texts.{fault_text};

    ghost output = { λ fault. Some (fault_text fault) };

    fn fmt<W: fmt::Write>(&self, f: &mut fmt::Formatter<W>) -> fmt::Result {
        match self {
            RowsFault::Toml => write!(f, "table: not TOML"),
            RowsFault::BadRow { index, fault } => write!(f, "table: row {index}: {fault}"),
            RowsFault::OutOfMemory => write!(f, "out of memory"),
        }
    }
}

impl Error for RowsFault {}

impl From<AllocError> for RowsFault {
    ghost from_gives = { λ _ e. e ≡ OutOfMemory };

    fn from(_e: AllocError) -> RowsFault {
        RowsFault::OutOfMemory
    }
}

impl<T: Drop> From<AllocFailed<T>> for RowsFault {
    ghost from_gives = { λ _ e. e ≡ OutOfMemory };

    fn from(_e: AllocFailed<T>) -> RowsFault {
        RowsFault::OutOfMemory
    }
}
