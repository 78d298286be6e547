//! The root as a tag: `Root` of specs/Spelling.antt, and where there is none `FaultOf` of specs/Breaking.antt.
ghost use Rattle.std.specs.Prelude.{◌≡◌, ◌≢◌, [], ◌∷◌, take, IfOk, IfErr};
ghost use Rattle.cave_base.specs.Answer.{IsAnswer, IsRefusal};
ghost use Rattle.nbt_core.specs.Breaking.{FaultOf};
ghost use Rattle.nbt_core.specs.Reading.{GivesWhole};
ghost use Rattle.nbt_core.specs.Spelling.{Root};
ghost use Rattle.nbt_core.specs.TreeReading.{root_at};
ghost use Rattle.nbt_core.specs.Value.{Nbt};
ghost use Rattle.nbt_core.specs.View.{nbt};
ghost use Rattle.nbt_core.specs.declared.fault.NbtFault.{NbtFault};

use crate::fault::NbtFault;
use crate::reader::Reader;
use crate::tag::Tag;
use std::alloc::Global;

/// The root of a whole input, as reading from left to right gives it.
#[tactic(auto, unfolding(crate::specs::TreeReading::root_at))]
fn root(alloc: Global, bytes: &[u8]) -> Result<Tag, NbtFault>
    ensures read { GivesWhole nbt result (root_at bytes.now) }
    ensures memory { IfErr result (λ e. e ≡ NbtFault.OutOfMemory → take 1 bytes.now ≡ 10 ∷ []) }
{
    match bytes {
        [] => Err(NbtFault::Truncated { at: 0 }),
        [0x1f, 0x8b, ..] => Err(NbtFault::Compressed),
        [10, rest @ ..] => Reader::new(rest, bytes.len()).named(alloc),
        [_, ..] => Err(NbtFault::NotCompound),
    }
}

/// The value of the root that the bytes begin with. The root may have any name, and bytes after it are ignored. Lists
/// and compounds nest at most 512 deep, the root being the first; both rules and the limit are this project's own.
/// Places in faults are offsets from 0.
pub fn read_root(alloc: Global, bytes: &[u8]) -> Result<Tag, NbtFault>
    ensures found { IfOk result (λ t. Root bytes.now (nbt t)) }
    ensures only { (t : Nbt) → Root bytes.now t → IsAnswer NbtFault.OutOfMemory result (λ x. nbt x ≡ t) }
    ensures fault { IfErr result (λ e. e ≢ NbtFault.OutOfMemory → FaultOf bytes.now e) }
    ensures refused { (e : NbtFault) → FaultOf bytes.now e → IsRefusal NbtFault.OutOfMemory result e }
    // Memory is wanted for bytes alone that begin with the id of a compound.
    ensures memory { IfErr result (λ e. e ≡ NbtFault.OutOfMemory → take 1 bytes.now ≡ 10 ∷ []) }
{
    root(alloc, bytes)
}
