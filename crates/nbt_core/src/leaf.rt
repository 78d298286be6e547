//! Reading the payloads that hold no others into tags: specs/LeafReading.antt.
ghost use Rattle.std.specs.Int.{w8, w32, w64};
ghost use Rattle.std.specs.Prelude.{◌≡◌, ◌≤◌, ◌*◌, length, IfOk};
ghost use Rattle.nbt_core.specs.LeafReading.{numbers_in, leaf_at};
ghost use Rattle.nbt_core.specs.Reading.{Gives, mapped};
ghost use Rattle.nbt_core.specs.Value.{leaf};
ghost use Rattle.nbt_core.specs.View.{nbt};

use crate::fault::NbtFault;
use crate::kind::LeafKind;
use crate::reader::Reader;
use crate::tag::Tag;
use byteorder::{BigEndian, ByteOrder};
use cave_base::Sequence;
use std::alloc::{AllocError, Global};

/// The numbers of a run of one byte each.
fn bytes(alloc: Global, count: usize, run: &[u8]) -> Result<Vec<i8>, AllocError>
    requires { length run.now ≡ 1 * count }
    ensures { IfOk result (λ ns. ns.items ≡ numbers_in w8 1 count run.now) }
{
    let mut numbers = Vec::with_capacity(alloc, count)?;
    for byte in run {
        numbers.push(byte.cast_signed())?;
    }
    Ok(numbers)
}

/// The numbers of a run of four bytes each.
fn ints(alloc: Global, count: usize, run: &[u8]) -> Result<Vec<i32>, AllocError>
    requires { length run.now ≡ 4 * count }
    ensures { IfOk result (λ ns. ns.items ≡ numbers_in w32 4 count run.now) }
{
    let mut numbers = vec![in alloc; 0; count]?;
    BigEndian::read_i32_into(run, &mut numbers);
    Ok(numbers)
}

/// The numbers of a run of eight bytes each.
fn longs(alloc: Global, count: usize, run: &[u8]) -> Result<Vec<i64>, AllocError>
    requires { length run.now ≡ 8 * count }
    ensures { IfOk result (λ ns. ns.items ≡ numbers_in w64 8 count run.now) }
{
    let mut numbers = vec![in alloc; 0; count]?;
    BigEndian::read_i64_into(run, &mut numbers);
    Ok(numbers)
}

impl Reader<'_> {
    /// A payload that holds no other.
    #[tactic(auto, unfolding(crate::specs::LeafReading::leaf_at, crate::specs::LeafReading::array_at))]
    pub(crate) fn leaf(&mut self, alloc: Global, kind: LeafKind) -> Result<Tag, NbtFault>
        ensures read { Gives nbt result self.new.rest.now (mapped leaf (leaf_at self.old.end kind self.old.rest.now)) }
        ensures end { self.new.end ≡ self.old.end }
        ensures shrinks { length self.new.rest.now ≤ length self.old.rest.now }
    {
        match kind {
            LeafKind::Byte => Ok(Tag::Byte(self.byte()?)),
            LeafKind::Short => Ok(Tag::Short(self.short()?)),
            LeafKind::Int => Ok(Tag::Int(self.int()?)),
            LeafKind::Long => Ok(Tag::Long(self.long()?)),
            LeafKind::Float => Ok(Tag::Float(self.array()?)),
            LeafKind::Double => Ok(Tag::Double(self.array()?)),
            LeafKind::ByteArray => {
                let (count, run) = self.counted(1)?;
                Ok(Tag::Bytes(Sequence::from_vec(bytes(alloc, count, run)?)))
            }
            LeafKind::Text => Ok(Tag::Text(Sequence::from_vec(Vec::from_slice(
                alloc,
                self.text()?,
            )?))),
            LeafKind::IntArray => {
                let (count, run) = self.counted(4)?;
                Ok(Tag::Ints(Sequence::from_vec(ints(alloc, count, run)?)))
            }
            LeafKind::LongArray => {
                let (count, run) = self.counted(8)?;
                Ok(Tag::Longs(Sequence::from_vec(longs(alloc, count, run)?)))
            }
        }
    }
}
