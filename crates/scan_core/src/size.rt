//! The sides of a structure's box: `IsSizeOf` of specs/Told.antt, and where there are none `size_fault` of
//! specs/Faults.antt.
ghost use Rattle.cave_base.specs.Box as grid;
ghost use Rattle.scan_core.specs.Answer.{TellsOrFaults};
ghost use Rattle.scan_core.specs.Faults.{size_fault};
ghost use Rattle.scan_core.specs.Told.{IsSizeOf};

use crate::fault::{Field, ScanFault};
use crate::value::{natural, triple};
use cave_base::is_small;
use nbt_views::View;

/// The sides of the box that the root's size tells.
pub fn size_of(found: Option<View<'_>>) -> Result<[u32; 3], ScanFault>
    ensures { let told = found.entry in
        TellsOrFaults result (λ size. IsSizeOf told (grid.point size)) (size_fault told) }
{
    let Some(value) = found else {
        return Err(ScanFault::Missing(Field::SizeField));
    };
    let Some(sides) = triple(&value) else {
        return Err(ScanFault::WrongType(Field::SizeField));
    };
    let Some(size) = natural(sides) else {
        return Err(ScanFault::BadSize);
    };
    if is_small(size) {
        Ok(size)
    } else {
        Err(ScanFault::TooLarge)
    }
}
