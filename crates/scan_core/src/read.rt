//! A structure from its bytes: `Scans` of specs/Scan.antt, and where there is none `IsFaultOf` of specs/Faults.antt.
ghost use Rattle.std.specs.Prelude.{◌≡◌, ◌≢◌, IfOk, IfErr, codes};
ghost use Rattle.cave_base.specs.Answer.{IsAnswer, IsRefusal};
ghost use Rattle.nbt_core.specs.Spelling.{Root};
ghost use Rattle.nbt_core.specs.Value.{Nbt};
ghost use Rattle.nbt_views.specs.Fields.{four_fields};
ghost use Rattle.scan_core.specs.Answer.{TellsInRoom};
ghost use Rattle.scan_core.specs.Faults.{IsFaultOf, fault_of};
ghost use Rattle.scan_core.specs.Scan.{IsScanOf, Scans, Structure};
ghost use Rattle.scan_core.specs.declared.fault.ScanFault.{ScanFault};

use crate::block::cells_of;
use crate::fault::ScanFault;
use crate::palette::palette_of;
use crate::scan::Scan;
use crate::size::size_of;
use nbt_views::{View, root_fields};
use std::alloc::Global;

/// Reads the bytes of a structure file: an NBT root with a size, a palette and blocks. What else stands
/// in it isn't judged (Minecraft Wiki, "Structure file"; limits and the order of faults are this
/// project's own).
pub fn read_scan(alloc: Global, bytes: &[u8]) -> Result<Scan, ScanFault>
    // What is read is what the root at the front of the bytes tells.
    ensures found { IfOk result (λ s. Scans bytes.now s) }
    // Such a structure is read.
    ensures only { (s : Structure) → Scans bytes.now s → IsAnswer ScanFault.OutOfMemory result (λ x. x ≡ s) }
    // A fault is the first one.
    ensures fault { IfErr result (λ e. e ≢ ScanFault.OutOfMemory → IsFaultOf bytes.now e) }
    // Such a fault is answered.
    ensures refused { (e : ScanFault) → IsFaultOf bytes.now e → IsRefusal ScanFault.OutOfMemory result e }
    // Memory is wanted for bytes alone that begin with a root.
    ensures memory { IfErr result (λ e. e ≡ ScanFault.OutOfMemory → (root : Nbt) × Root bytes.now root) }
{
    let (size, palettes, palette, blocks) = root_fields(
        bytes,
        b"size",
        b"palettes",
        b"palette",
        b"blocks",
    )?;
    scan_of(alloc, size, palettes, palette, blocks)
}

/// What the fields of these names of a root tell.
fn scan_of(
    alloc: Global,
    size: Option<View<'_>>,
    palettes: Option<View<'_>>,
    palette: Option<View<'_>>,
    blocks: Option<View<'_>>,
) -> Result<Scan, ScanFault>
    requires { (told : Nbt) × ((size, palettes, palette, blocks)
        ≡ four_fields (codes "size") (codes "palettes") (codes "palette") (codes "blocks") told) }
    ensures { (told : Nbt) → (size.entry, palettes.entry, palette.entry, blocks.entry)
        ≡ four_fields (codes "size") (codes "palettes") (codes "palette") (codes "blocks") told
        → TellsInRoom result (λ s. IsScanOf told s) (fault_of told) }
{
    let size = size_of(size)?;
    if palettes.is_some() {
        return Err(ScanFault::Palettes);
    }
    let palette = palette_of(alloc, palette)?;
    let cells = cells_of(alloc, blocks, size, palette.len())?;
    Ok(Scan::new(size, palette, cells))
}
