//! Fields of the root, read where they lie: `Root` of nbt_core's specs/Spelling.antt, and where there is none `FaultOf`
//! of its specs/Breaking.antt.
ghost use Rattle.std.specs.Prelude.{◌≡◌, ◌≢◌, ◌≤◌, length, IfOk, IfErr, MatchResult};
ghost use Rattle.nbt_core.specs.Breaking.{FaultOf};
ghost use Rattle.nbt_core.specs.Reading.{Gives, GivesWhole, mapped};
ghost use Rattle.nbt_core.specs.Spelling.{Root};
ghost use Rattle.nbt_core.specs.TreeReading.{named_at, root_at, value_at};
ghost use Rattle.nbt_core.specs.Value.{Nbt};
ghost use Rattle.nbt_core.specs.declared.fault.NbtFault.{NbtFault};
ghost use Rattle.nbt_core.specs.declared.kind.Kind.TheVariants.{Compound};
ghost use Rattle.nbt_views.specs.Fields.{changed, four_fields};

use crate::fields::{FourFields, four_fields};
use nbt_core::{DEEPEST, NbtFault, Reader};

/// The values of the last entries of these four names of the root that the bytes begin with, in those bytes. All of the
/// root is judged as by `nbt_core::read_root`, in the walk that finds them, and no memory is taken.
pub fn root_fields<'a>(
    bytes: &'a [u8],
    a: &[u8],
    b: &[u8],
    c: &[u8],
    d: &[u8],
) -> Result<FourFields<'a>, NbtFault>
    ensures found { IfOk result (λ found. (t : Nbt) × Root bytes.now t
        × (found ≡ four_fields a.now b.now c.now d.now t)) }
    ensures only { (t : Nbt) → Root bytes.now t
        → MatchResult result (λ found. found ≡ four_fields a.now b.now c.now d.now t) (λ _. ⊥) }
    ensures fault { IfErr result (λ e. FaultOf bytes.now e) }
    ensures refused { (e : NbtFault) → FaultOf bytes.now e → MatchResult result (λ _. ⊥) (λ f. f ≡ e) }
    ensures no_memory { IfErr result (λ e. e ≢ NbtFault.OutOfMemory) }
{
    judged(bytes, a, b, c, d)
}

/// The fields of the root of a whole input, as reading from left to right gives it.
#[tactic(auto, unfolding(nbt_core::specs::TreeReading::root_at))]
fn judged<'a>(
    bytes: &'a [u8],
    a: &[u8],
    b: &[u8],
    c: &[u8],
    d: &[u8],
) -> Result<FourFields<'a>, NbtFault>
    ensures read { GivesWhole (λ found. found) result
        (changed (four_fields a.now b.now c.now d.now) (root_at bytes.now)) }
    ensures no_memory { IfErr result (λ e. e ≢ NbtFault.OutOfMemory) }
{
    match bytes {
        [] => Err(NbtFault::Truncated { at: 0 }),
        [0x1f, 0x8b, ..] => Err(NbtFault::Compressed),
        [10, rest @ ..] => named(Reader::new(rest, bytes.len()), a, b, c, d),
        [_, ..] => Err(NbtFault::NotCompound),
    }
}

/// The fields of the root, after its id.
#[tactic(auto, unfolding(nbt_core::specs::TreeReading::named_at))]
fn named<'a>(
    mut reader: Reader<'a>,
    a: &[u8],
    b: &[u8],
    c: &[u8],
    d: &[u8],
) -> Result<FourFields<'a>, NbtFault>
    ensures read { GivesWhole (λ found. found) result (changed (four_fields a.now b.now c.now d.now)
        (named_at reader.entry.end reader.entry.rest.now)) }
    ensures no_memory { IfErr result (λ e. e ≢ NbtFault.OutOfMemory) }
{
    reader.text()?;
    fields_of_root(&mut reader, a, b, c, d)
}

/// Passes over the payload of the root, and gives the fields of these four names.
fn fields_of_root<'a>(
    reader: &mut Reader<'a>,
    a: &[u8],
    b: &[u8],
    c: &[u8],
    d: &[u8],
) -> Result<FourFields<'a>, NbtFault>
    ensures read { Gives (λ found. found) result reader.new.rest.now
        (mapped (four_fields a.now b.now c.now d.now)
        (value_at reader.old.end 512 Compound reader.old.rest.now)) }
    ensures no_memory { IfErr result (λ e. e ≢ NbtFault.OutOfMemory) }
{
    let room = reader.one_deeper(DEEPEST)?;
    four_fields(reader, room, a, b, c, d)
}
