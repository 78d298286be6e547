//! Why bytes are no structure: `IsFaultOf` of specs/Faults.antt; its words are in specs/Texts.antt.
ghost use Rattle.std.specs.Prelude.{◌≡◌};
ghost use Rattle.scan_core.specs.Mapping.{of_nbt};
ghost use Rattle.scan_core.specs.declared.fault.ScanFault.TheVariants.{OutOfMemory};

use nbt_core::NbtFault;
use std::alloc::{AllocError, AllocFailed};
use std::error::Error;
use std::fmt;

/// The part of a structure that a fault is about. An index is that of an entry of the palette or the
/// blocks, from 0.
#[derive(Clone, Copy, Debug, PartialEq, Eq)]
pub enum Field {
    SizeField,
    PaletteField,
    NameField(usize),
    BlocksField,
    PosField(usize),
    StateField(usize),
}

/// Why bytes are no structure: the first fault in the order of its parts.
#[derive(Clone, Copy, Debug, PartialEq, Eq)]
pub enum ScanFault {
    /// The bytes are no NBT root.
    Nbt(NbtFault),
    /// There is no such field.
    Missing(Field),
    /// The field is of another type.
    WrongType(Field),
    /// A side is negative.
    BadSize,
    /// A side is above 128, or the box has more than 262,144 cells.
    TooLarge,
    /// The entry of the blocks with this index lies outside the box.
    BadPosition { index: usize },
    /// The entry of the blocks with this index names no state of the palette.
    BadState { index: usize },
    /// The structure has a list of palettes.
    Palettes,
    OutOfMemory,
}

impl fmt::Display for Field {
    ghost use Rattle.std.specs.Prelude.{Some};
    ghost use Rattle.scan_core.specs.Texts.{field_text};

    ghost output = { λ field. Some (field_text field) };

    fn fmt<W: fmt::Write>(&self, f: &mut fmt::Formatter<W>) -> fmt::Result {
        match self {
            Field::SizeField => write!(f, "size"),
            Field::PaletteField => write!(f, "palette"),
            Field::NameField(index) => write!(f, "palette[{index}].Name"),
            Field::BlocksField => write!(f, "blocks"),
            Field::PosField(index) => write!(f, "blocks[{index}].pos"),
            Field::StateField(index) => write!(f, "blocks[{index}].state"),
        }
    }
}

impl fmt::Display for ScanFault {
    ghost use Rattle.std.specs.Prelude.{Some};
    ghost use Rattle.scan_core.specs.Texts.{fault_text};

    ghost output = { λ fault. Some (fault_text fault) };

    fn fmt<W: fmt::Write>(&self, f: &mut fmt::Formatter<W>) -> fmt::Result {
        match self {
            ScanFault::Nbt(fault) => write!(f, "{fault}"),
            ScanFault::Missing(field) => write!(f, "structure: missing {field}"),
            ScanFault::WrongType(field) => write!(f, "structure: wrong type of {field}"),
            ScanFault::BadSize => write!(f, "structure: negative size"),
            ScanFault::TooLarge => write!(f, "structure: too large"),
            ScanFault::BadPosition { index } => {
                write!(f, "structure: block {index} outside the box")
            }
            ScanFault::BadState { index } => write!(
                f,
                "structure: block {index} has no such state"
            ),
            ScanFault::Palettes => write!(f, "structure: palettes"),
            ScanFault::OutOfMemory => write!(f, "out of memory"),
        }
    }
}

impl Error for ScanFault {}

impl From<NbtFault> for ScanFault {
    ghost from_gives = { λ fault e. e ≡ of_nbt fault };

    fn from(fault: NbtFault) -> ScanFault {
        match fault {
            NbtFault::OutOfMemory => ScanFault::OutOfMemory,
            _ => ScanFault::Nbt(fault),
        }
    }
}

impl From<AllocError> for ScanFault {
    ghost from_gives = { λ _ e. e ≡ OutOfMemory };

    fn from(_e: AllocError) -> ScanFault {
        ScanFault::OutOfMemory
    }
}

impl<T: Drop> From<AllocFailed<T>> for ScanFault {
    ghost from_gives = { λ _ e. e ≡ OutOfMemory };

    fn from(_e: AllocFailed<T>) -> ScanFault {
        ScanFault::OutOfMemory
    }
}
