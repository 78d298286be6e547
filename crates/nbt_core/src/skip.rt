//! Passing over a payload, which is judged and not kept: `Skips` of specs/Skipping.antt.
ghost use Rattle.std.specs.Prelude.{◌≡◌, ◌≢◌, ◌≤◌, ◌-◌, length, IfErr};
ghost use Rattle.nbt_core.specs.LeafReading.{counted_at, leaf_at};
ghost use Rattle.nbt_core.specs.Reading.{run_at, text_at};
ghost use Rattle.nbt_core.specs.Skipping.{Skips};
ghost use Rattle.nbt_core.specs.TreeReading.{items_at, members_at, list_at, value_at};
ghost use Rattle.nbt_core.specs.declared.fault.NbtFault.{NbtFault};

use crate::fault::NbtFault;
use crate::kind::{Kind, LeafKind};
use crate::reader::Reader;

impl Reader<'_> {
    /// Passes over a payload, in which `room` containers may nest, and judges it. No memory is taken.
    #[inline(always)]
    #[cycle(skip)]
    pub fn skip(&mut self, kind: Kind, room: u16) -> Result<(), NbtFault>
        ensures read { Skips result self.new.rest.now (value_at self.old.end room kind self.old.rest.now) }
        ensures end { self.new.end ≡ self.old.end }
        ensures shrinks { length self.new.rest.now ≤ length self.old.rest.now }
        ensures no_memory { IfErr result (λ e. e ≢ NbtFault.OutOfMemory) }
    {
        match kind {
            Kind::Leaf(kind) => self.skip_leaf(kind),
            Kind::List => {
                let room = self.one_deeper(room)?;
                self.skip_list(room)
            }
            Kind::Compound => {
                let room = self.one_deeper(room)?;
                match self.past_plain(room) {
                    // nearly every compound of a structure is a block
                    Some(rest) => {
                        self.rest = rest;
                        Ok(())
                    }
                    None => self.skip_entries(room),
                }
            }
        }
    }

    /// Passes over a payload that holds no other.
    #[inline(always)]
    fn skip_leaf(&mut self, kind: LeafKind) -> Result<(), NbtFault>
        ensures read { Skips result self.new.rest.now (leaf_at self.old.end kind self.old.rest.now) }
        ensures end { self.new.end ≡ self.old.end }
        ensures shrinks { length self.new.rest.now ≤ length self.old.rest.now }
        ensures no_memory { IfErr result (λ e. e ≢ NbtFault.OutOfMemory) }
    {
        match kind {
            LeafKind::Byte => self.skip_run(1),
            LeafKind::Short => self.skip_run(2),
            LeafKind::Int => self.skip_run(4),
            LeafKind::Long => self.skip_run(8),
            LeafKind::Float => self.skip_run(4),
            LeafKind::Double => self.skip_run(8),
            LeafKind::ByteArray => self.skip_array(1),
            LeafKind::Text => self.skip_text(),
            LeafKind::IntArray => self.skip_array(4),
            LeafKind::LongArray => self.skip_array(8),
        }
    }

    /// Passes over the next `n` bytes.
    #[inline(always)]
    pub(crate) fn skip_run(&mut self, n: usize) -> Result<(), NbtFault>
        ensures read { Skips result self.new.rest.now (run_at self.old.end n self.old.rest.now) }
        ensures end { self.new.end ≡ self.old.end }
        ensures shrinks { length self.new.rest.now ≤ length self.old.rest.now }
        ensures no_memory { IfErr result (λ e. e ≢ NbtFault.OutOfMemory) }
    {
        self.run(n)?;
        Ok(())
    }

    /// Passes over a length of two bytes, and that number of bytes.
    #[inline(always)]
    fn skip_text(&mut self) -> Result<(), NbtFault>
        ensures read { Skips result self.new.rest.now (text_at self.old.end self.old.rest.now) }
        ensures end { self.new.end ≡ self.old.end }
        ensures shrinks { length self.new.rest.now ≤ length self.old.rest.now }
        ensures no_memory { IfErr result (λ e. e ≢ NbtFault.OutOfMemory) }
    {
        self.text()?;
        Ok(())
    }

    /// Passes over the count of an array, and that number of numbers of `size` bytes.
    #[inline(always)]
    fn skip_array(&mut self, size: usize) -> Result<(), NbtFault>
        requires { size ≤ 8 }
        ensures read { Skips result self.new.rest.now (counted_at self.old.end size self.old.rest.now) }
        ensures end { self.new.end ≡ self.old.end }
        ensures shrinks { length self.new.rest.now ≤ length self.old.rest.now }
        ensures no_memory { IfErr result (λ e. e ≢ NbtFault.OutOfMemory) }
    {
        self.counted(size)?;
        Ok(())
    }

    /// Passes over the id of the items, their count, and the items.
    #[inline(always)]
    #[cycle(skip)]
    fn skip_list(&mut self, room: u16) -> Result<(), NbtFault>
        ensures read { Skips result self.new.rest.now
            (list_at self.old.end (value_at self.old.end room) self.old.rest.now) }
        ensures end { self.new.end ≡ self.old.end }
        ensures shrinks { length self.new.rest.now ≤ length self.old.rest.now }
        ensures no_memory { IfErr result (λ e. e ≢ NbtFault.OutOfMemory) }
    {
        let kind = self.kind()?;
        let at = self.place();
        let count = self.count()?;
        match kind {
            Some(kind) => self.skip_items(kind, count, room),
            None if count == 0 => Ok(()),
            None => Err(NbtFault::BadLength { at }),
        }
    }

    /// Passes over `count` payloads of this kind.
    #[inline(always)]
    #[cycle(skip)]
    fn skip_items(&mut self, kind: Kind, count: u32, room: u16) -> Result<(), NbtFault>
        ensures read { Skips result self.new.rest.now
            (items_at (value_at self.old.end room kind) count self.old.rest.now) }
        ensures end { self.new.end ≡ self.old.end }
        ensures shrinks { length self.new.rest.now ≤ length self.old.rest.now }
        ensures no_memory { IfErr result (λ e. e ≢ NbtFault.OutOfMemory) }
    {
        match kind.fixed_size() {
            Some(size) => self.skip_run(size * count as usize),
            None => self.skip_each(kind, count, room),
        }
    }

    /// Passes over `count` payloads of this kind, one after another.
    #[cycle(skip)]
    fn skip_each(&mut self, kind: Kind, count: u32, room: u16) -> Result<(), NbtFault>
        ensures read { Skips result self.new.rest.now
            (items_at (value_at self.old.end room kind) count self.old.rest.now) }
        ensures end { self.new.end ≡ self.old.end }
        ensures shrinks { length self.new.rest.now ≤ length self.old.rest.now }
        ensures no_memory { IfErr result (λ e. e ≢ NbtFault.OutOfMemory) }
    {
        for _ in 0..count {
            self.skip(kind, room)?;
        }
        Ok(())
    }

    /// Passes over named payloads up to an End.
    #[cycle(skip)]
    fn skip_entries(&mut self, room: u16) -> Result<(), NbtFault>
        ensures read { Skips result self.new.rest.now
            (members_at self.old.end (value_at self.old.end room) (length self.old.rest.now) self.old.rest.now) }
        ensures end { self.new.end ≡ self.old.end }
        ensures shrinks { length self.new.rest.now ≤ length self.old.rest.now }
        ensures no_memory { IfErr result (λ e. e ≢ NbtFault.OutOfMemory) }
    {
        while let Some(kind) = self.kind()? {
            self.text()?;
            self.skip(kind, room)?;
        }
        Ok(())
    }
}
