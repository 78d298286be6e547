//! Reading a payload into a tag, with all the lists and compounds in it: specs/TreeReading.antt.
ghost use Rattle.std.specs.Prelude.{◌≡◌, ◌≤◌, ◌+◌, ◌-◌, [], ◌∷◌, ◌++◌, length, IfOk, IfErr, OnOk};
ghost use Rattle.nbt_core.specs.Reading.{Gives, GivesWhole};
ghost use Rattle.nbt_core.specs.TreeReading.{items_at, members_at, list_at, value_at, named_at};
ghost use Rattle.nbt_core.specs.Value.{items_of, members_of};
ghost use Rattle.nbt_core.specs.View.{nbt, nbts, entries_of};

use crate::fault::NbtFault;
use crate::kind::Kind;
use crate::reader::Reader;
use crate::tag::{Entries, Tag, Tags};
use cave_base::Sequence;
use std::alloc::{AllocError, Global};

/// How deep lists and compounds nest at most, the root being the first. This limit is the project's own.
pub const DEEPEST: u16 = 512;

/// Adds an entry. Where it is the first, room is made for two: as many has a block of a structure, and a file has more
/// blocks than anything else.
fn push_entry(
    entries: &mut Vec<(Sequence<u8>, Tag)>,
    entry: (Sequence<u8>, Tag),
) -> Result<(), AllocError>
    ensures added { OnOk result (entries.new.items ≡ entries.old.items ++ entry ∷ []) }
{
    if entries.is_empty() {
        entries.reserve_exact(2)?;
    }
    entries.push(entry)?;
    Ok(())
}

impl Reader<'_> {
    /// The name and the payload of the root.
    #[tactic(auto, unfolding(crate::specs::TreeReading::named_at))]
    pub(crate) fn named(mut self, alloc: Global) -> Result<Tag, NbtFault>
        ensures { GivesWhole nbt result (named_at self.entry.end self.entry.rest.now) }
    {
        self.text()?;
        self.payload(alloc, Kind::Compound, DEEPEST)
    }

    /// A payload, in which `room` containers may nest.
    #[cycle(payload)]
    fn payload(&mut self, alloc: Global, kind: Kind, room: u16) -> Result<Tag, NbtFault>
        ensures read { Gives nbt result self.new.rest.now (value_at self.old.end room kind self.old.rest.now) }
        ensures end { self.new.end ≡ self.old.end }
        ensures shrinks { length self.new.rest.now ≤ length self.old.rest.now }
    {
        match kind {
            Kind::Leaf(kind) => self.leaf(alloc, kind),
            Kind::List => {
                let room = self.one_deeper(room)?;
                self.list(alloc, room)
            }
            Kind::Compound => {
                let room = self.one_deeper(room)?;
                let entries = self.entries(alloc, room)?;
                Ok(Tag::Compound(Entries::from_vec(entries)))
            }
        }
    }

    /// The room that is left inside a container that begins here.
    #[inline(always)]
    pub fn one_deeper(&self, room: u16) -> Result<u16, NbtFault>
        ensures ok { IfOk result (λ less. room ≡ less + 1) }
        ensures too_deep { IfErr result (λ e. (room ≡ 0)
            × (e ≡ NbtFault.TooDeep (self.now.end - length self.now.rest.now))) }
    {
        if room == 0 {
            return Err(NbtFault::TooDeep { at: self.place() });
        }
        Ok(room - 1)
    }

    /// The id of the items, their count, and the items.
    #[cycle(payload)]
    fn list(&mut self, alloc: Global, room: u16) -> Result<Tag, NbtFault>
        ensures read { Gives nbt result self.new.rest.now
            (list_at self.old.end (value_at self.old.end room) self.old.rest.now) }
        ensures end { self.new.end ≡ self.old.end }
        ensures shrinks { length self.new.rest.now ≤ length self.old.rest.now }
    {
        let kind = self.kind()?;
        let at = self.place();
        let count = self.count()?;
        match kind {
            Some(kind) => {
                let items = self.items(alloc, kind, count, room)?;
                Ok(Tag::List(Tags::from_vec(items)))
            }
            None if count == 0 => Ok(Tag::List(Tags::from_vec(Vec::new(alloc)))),
            None => Err(NbtFault::BadLength { at }),
        }
    }

    /// `count` payloads of this kind.
    #[cycle(payload)]
    fn items(
        &mut self,
        alloc: Global,
        kind: Kind,
        count: u32,
        room: u16,
    ) -> Result<Vec<Tag>, NbtFault>
        ensures read { Gives (λ v. items_of (nbts v.items)) result self.new.rest.now
            (items_at (value_at self.old.end room kind) count self.old.rest.now) }
        ensures end { self.new.end ≡ self.old.end }
        ensures shrinks { length self.new.rest.now ≤ length self.old.rest.now }
    {
        let mut items = Vec::new(alloc);
        for _ in 0..count {
            let tag = self.payload(alloc, kind, room)?;
            items.push(tag)?;
        }
        Ok(items)
    }

    /// Named payloads up to an End.
    #[cycle(payload)]
    fn entries(&mut self, alloc: Global, room: u16) -> Result<Vec<(Sequence<u8>, Tag)>, NbtFault>
        ensures read { Gives (λ v. members_of (entries_of v.items)) result self.new.rest.now
            (members_at self.old.end (value_at self.old.end room) (length self.old.rest.now) self.old.rest.now) }
        ensures end { self.new.end ≡ self.old.end }
        ensures shrinks { length self.new.rest.now ≤ length self.old.rest.now }
    {
        let mut entries = Vec::new(alloc);
        while let Some(kind) = self.kind()? {
            let name = Sequence::from_vec(Vec::from_slice(alloc, self.text()?)?);
            let tag = self.payload(alloc, kind, room)?;
            push_entry(&mut entries, (name, tag))?;
        }
        Ok(entries)
    }
}
