//! Laws over the definitions alone.
ghost use Rattle.std.specs.Prelude.{◌≡◌, ◌↔◌, None};
ghost use Rattle.nbt_core.specs.Value.{Nbt};
ghost use Rattle.scan_core.specs.Faults.{fault_of};
ghost use Rattle.scan_core.specs.Scan.{IsScanOf, IsWholeScan, Structure};

/// A root has no fault exactly where it tells a structure.
pub fn structure_or_fault()
    ensures { (root : Nbt) → (fault_of root ≡ None) ↔ ((scan : Structure) × IsScanOf root scan) }
{}

/// A root tells one structure at most.
pub fn one_structure()
    ensures { (root : Nbt) → (a b : Structure) → IsScanOf root a → IsScanOf root b → a ≡ b }
{}

/// What a root tells has a cell for each place of the box, known states, and each property once.
pub fn structures_are_whole()
    ensures { (root : Nbt) → (scan : Structure) → IsScanOf root scan → IsWholeScan scan }
{}
