//! Laws over the definitions alone.
ghost use Rattle.std.specs.Prelude.{◌≡◌, ◌⊎◌, ◌++◌, ℕ, List};
ghost use Rattle.nbt_core.specs.Breaking.{FaultOf};
ghost use Rattle.nbt_core.specs.Spelling.{SpellsRoot, Root};
ghost use Rattle.nbt_core.specs.Value.{Nbt};
ghost use Rattle.nbt_core.specs.declared.fault.NbtFault.{NbtFault};

/// No root begins another: the front that is a root, and its value, are unique.
pub fn one_root()
    ensures { (t u : Nbt) → (front rest other others : List ℕ) → SpellsRoot t front → SpellsRoot u other
        → front ++ rest ≡ other ++ others → (front ≡ other) × (t ≡ u) }
{}

/// All bytes begin with a root or have a fault.
pub fn root_or_fault()
    ensures { (bytes : List ℕ) → ((t : Nbt) × Root bytes t) ⊎ ((fault : NbtFault) × FaultOf bytes fault) }
{}

/// Bytes that begin with a root have no fault.
pub fn root_has_no_fault()
    ensures { (bytes : List ℕ) (t : Nbt) (fault : NbtFault) → Root bytes t → FaultOf bytes fault → ⊥ }
{}

/// Bytes have one fault at most.
pub fn one_fault()
    ensures { (bytes : List ℕ) → (a b : NbtFault) → FaultOf bytes a → FaultOf bytes b → a ≡ b }
{}
