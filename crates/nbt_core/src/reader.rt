//! What is left of an input, and reading the pieces that payloads are made of: specs/Reading.antt.
ghost use Rattle.std.specs.Int.{w8, w16, w64};
ghost use Rattle.std.specs.Prelude.{◌≡◌, ◌≢◌, ◌≤◌, ◌<◌, ◌*◌, ◌-◌, length, IfOk, IfErr};
ghost use Rattle.nbt_core.specs.LeafReading.{counted_at};
ghost use Rattle.nbt_core.specs.Reading.{Gives, run_at, signed_at, int_at, text_at, kind_at, count_at};
ghost use Rattle.nbt_core.specs.declared.fault.NbtFault.{NbtFault};

use crate::fault::NbtFault;
use crate::kind::{Kind, kind_named};
use byteorder::{BigEndian, ByteOrder};

/// The bytes that are left of an input of `end` bytes.
#[derive(Debug, Drop)]
pub struct Reader<'a> {
    pub rest: &'a [u8],
    pub end: usize,
    ghost within: { length rest.now ≤ end },
}

impl<'a> Reader<'a> {
    /// The bytes `rest`, which end at the offset `end`.
    #[inline(always)]
    pub fn new(rest: &'a [u8], end: usize) -> Reader<'a>
        requires { length rest.now ≤ end }
        ensures rest { result.rest.now ≡ rest.now }
        ensures end { result.end ≡ end }
    {
        Reader { rest, end }
    }

    /// The next `n` bytes.
    #[inline(always)]
    #[tactic(auto, unfolding(crate::specs::Reading::run_at))]
    pub(crate) fn run(&mut self, n: usize) -> Result<&'a [u8], NbtFault>
        ensures read { Gives (λ run. run.now) result self.new.rest.now (run_at self.old.end n self.old.rest.now) }
        ensures end { self.new.end ≡ self.old.end }
        ensures shrinks { length self.new.rest.now ≤ length self.old.rest.now }
        ensures length { IfOk result (λ run. length run.now ≡ n) }
        ensures no_memory { IfErr result (λ e. e ≢ NbtFault.OutOfMemory) }
    {
        if self.rest.len() < n {
            return Err(NbtFault::Truncated { at: self.end });
        }
        let (run, rest) = self.rest.split_at(n);
        self.rest = rest;
        Ok(run)
    }

    /// The next `N` bytes, as an array.
    #[tactic(auto, unfolding(crate::specs::Reading::run_at))]
    pub(crate) fn array<const N: usize>(&mut self) -> Result<[u8; N], NbtFault>
        ensures read { Gives (λ run. run) result self.new.rest.now (run_at self.old.end N self.old.rest.now) }
        ensures end { self.new.end ≡ self.old.end }
        ensures shrinks { length self.new.rest.now ≤ length self.old.rest.now }
    {
        let mut bytes = [0; N];
        bytes.copy_from_slice(self.run(N)?);
        Ok(bytes)
    }

    /// The next byte, as a signed number.
    #[tactic(auto, unfolding(crate::specs::Reading::signed_at))]
    pub(crate) fn byte(&mut self) -> Result<i8, NbtFault>
        ensures read { Gives (λ n. n) result self.new.rest.now (signed_at self.old.end w8 1 self.old.rest.now) }
        ensures end { self.new.end ≡ self.old.end }
        ensures shrinks { length self.new.rest.now ≤ length self.old.rest.now }
    {
        Ok(self.run(1)?[0].cast_signed())
    }

    /// The next two bytes, big-endian, as a signed number.
    #[tactic(auto, unfolding(crate::specs::Reading::signed_at))]
    pub(crate) fn short(&mut self) -> Result<i16, NbtFault>
        ensures read { Gives (λ n. n) result self.new.rest.now (signed_at self.old.end w16 2 self.old.rest.now) }
        ensures end { self.new.end ≡ self.old.end }
        ensures shrinks { length self.new.rest.now ≤ length self.old.rest.now }
    {
        Ok(BigEndian::read_i16(self.run(2)?))
    }

    /// The next four bytes, big-endian, as a signed number.
    #[inline(always)]
    #[tactic(auto, unfolding(crate::specs::Reading::signed_at))]
    pub fn int(&mut self) -> Result<i32, NbtFault>
        ensures read { Gives (λ n. n) result self.new.rest.now (int_at self.old.end self.old.rest.now) }
        ensures end { self.new.end ≡ self.old.end }
        ensures shrinks { length self.new.rest.now ≤ length self.old.rest.now }
        ensures no_memory { IfErr result (λ e. e ≢ NbtFault.OutOfMemory) }
    {
        Ok(BigEndian::read_i32(self.run(4)?))
    }

    /// The next eight bytes, big-endian, as a signed number.
    #[tactic(auto, unfolding(crate::specs::Reading::signed_at))]
    pub(crate) fn long(&mut self) -> Result<i64, NbtFault>
        ensures read { Gives (λ n. n) result self.new.rest.now (signed_at self.old.end w64 8 self.old.rest.now) }
        ensures end { self.new.end ≡ self.old.end }
        ensures shrinks { length self.new.rest.now ≤ length self.old.rest.now }
    {
        Ok(BigEndian::read_i64(self.run(8)?))
    }

    /// The count of a list: one below 0 counts nothing.
    #[inline(always)]
    #[tactic(auto, unfolding(crate::specs::Reading::count_at))]
    pub fn count(&mut self) -> Result<u32, NbtFault>
        ensures read { Gives (λ n. n) result self.new.rest.now (count_at self.old.end self.old.rest.now) }
        ensures end { self.new.end ≡ self.old.end }
        ensures shrinks { length self.new.rest.now ≤ length self.old.rest.now }
        ensures no_memory { IfErr result (λ e. e ≢ NbtFault.OutOfMemory) }
    {
        let count = self.int()?;
        Ok(if count > 0 { count as u32 } else { 0 })
    }

    /// The count of an array, and the bytes of that number of numbers, each of `size` bytes.
    #[inline(always)]
    #[tactic(auto, unfolding(crate::specs::LeafReading::counted_at))]
    pub(crate) fn counted(&mut self, size: usize) -> Result<(usize, &'a [u8]), NbtFault>
        requires { size ≤ 8 }
        ensures read { Gives (λ r. (r.0, r.1.now)) result self.new.rest.now
            (counted_at self.old.end size self.old.rest.now) }
        ensures end { self.new.end ≡ self.old.end }
        ensures shrinks { length self.new.rest.now ≤ length self.old.rest.now }
        ensures length { IfOk result (λ r. length r.1.now ≡ size * r.0) }
        ensures no_memory { IfErr result (λ e. e ≢ NbtFault.OutOfMemory) }
    {
        let at = self.place();
        let count = self.int()?;
        if count < 0 {
            return Err(NbtFault::BadLength { at });
        }
        let count = count as usize;
        Ok((count, self.run(size * count)?))
    }

    /// A length of two bytes, and that number of bytes.
    #[inline(always)]
    #[tactic(auto, unfolding(crate::specs::Reading::text_at))]
    pub fn text(&mut self) -> Result<&'a [u8], NbtFault>
        ensures read { Gives (λ text. text.now) result self.new.rest.now (text_at self.old.end self.old.rest.now) }
        ensures end { self.new.end ≡ self.old.end }
        ensures shrinks { length self.new.rest.now ≤ length self.old.rest.now }
        ensures no_memory { IfErr result (λ e. e ≢ NbtFault.OutOfMemory) }
    {
        let size = BigEndian::read_u16(self.run(2)?);
        self.run(size as usize)
    }

    /// The kind that the next id names, or `None` for End.
    #[inline(always)]
    #[tactic(auto, unfolding(crate::specs::Reading::kind_at))]
    pub fn kind(&mut self) -> Result<Option<Kind>, NbtFault>
        ensures read { Gives (λ kind. kind) result self.new.rest.now (kind_at self.old.end self.old.rest.now) }
        ensures end { self.new.end ≡ self.old.end }
        ensures shrinks { length self.new.rest.now ≤ length self.old.rest.now }
        ensures takes_one { IfOk result (λ _. length self.new.rest.now < length self.old.rest.now) }
        ensures no_memory { IfErr result (λ e. e ≢ NbtFault.OutOfMemory) }
    {
        let [id, rest @ ..] = self.rest else {
            return Err(NbtFault::Truncated { at: self.end });
        };
        let Some(kind) = kind_named(*id) else {
            return Err(NbtFault::BadTag {
                at: self.place(),
                id: *id,
            });
        };
        self.rest = rest;
        Ok(kind)
    }

    /// The offset of the next byte.
    #[inline(always)]
    pub(crate) fn place(&self) -> usize
        ensures { result ≡ self.now.end - length self.now.rest.now }
    {
        self.end - self.rest.len()
    }
}
