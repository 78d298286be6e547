//! Plain entries, an Int or a list of Ints, as a structure's blocks have them: `IsPassed` and `AreInts` of
//! specs/Skipping.antt. The code here is short and inlined whole, so that it is several times faster than the
//! general way. `None` and `false` say only that the general way has to be taken.
ghost use Rattle.std.specs.Prelude.{◌≡◌, ◌≤◌, length, IfSome, IsTrue};
ghost use Rattle.nbt_core.specs.Skipping.{AreInts, IsPassed, IsRead};
ghost use Rattle.nbt_core.specs.TreeReading.{members_at, value_at};
ghost use Rattle.nbt_core.specs.declared.kind.Kind.{Kind};
ghost use Rattle.nbt_core.specs.declared.kind.LeafKind.{LeafKind};

use crate::kind::{Kind, LeafKind};
use crate::reader::Reader;

impl<'a> Reader<'a> {
    /// Passes over the head of a list of Ints, and gives their count. `None` says only that the general way has to be
    /// taken.
    #[inline(always)]
    pub fn ints(&mut self, room: u16) -> Option<u32>
        ensures read { IfSome result (λ count. AreInts self.old.end room count self.old.rest.now self.new.rest.now) }
        ensures end { self.new.end ≡ self.old.end }
        ensures shrinks { length self.new.rest.now ≤ length self.old.rest.now }
    {
        let Ok(_) = self.one_deeper(room) else {
            return None;
        };
        let Ok(kind) = self.kind() else {
            return None;
        };
        let Some(kind) = kind else {
            return None;
        };
        if !kind.is_same(Kind::Leaf(LeafKind::Int)) {
            return None;
        }
        let Ok(count) = self.count() else {
            return None;
        };
        Some(count)
    }

    /// The bytes after entries up to an End, where all of them are plain.
    #[inline(always)]
    pub(crate) fn past_plain(&self, room: u16) -> Option<&'a [u8]>
        ensures read { IfSome result (λ rest. IsRead (members_at self.now.end (value_at self.now.end room)
            (length self.now.rest.now) self.now.rest.now) rest.now) }
        ensures shrinks { IfSome result (λ rest. length rest.now ≤ length self.now.rest.now) }
    {
        let mut reader = Reader::new(self.rest, self.end);
        while let Some(kind) = reader.kind().ok()? {
            if !reader.pass_plain(kind, room) {
                return None;
            }
        }
        Some(reader.rest)
    }

    /// Passes over the name and the payload of an entry of this kind, and says whether it was plain.
    #[inline(always)]
    fn pass_plain(&mut self, kind: Kind, room: u16) -> bool
        ensures read { IsTrue result → IsPassed self.old.end (value_at self.old.end room kind)
            self.old.rest.now self.new.rest.now }
        ensures end { self.new.end ≡ self.old.end }
        ensures shrinks { length self.new.rest.now ≤ length self.old.rest.now }
    {
        match kind {
            Kind::Leaf(LeafKind::Int) => self.pass_int(room),
            Kind::List => self.pass_ints(room),
            _ => false,
        }
    }

    /// Passes over a name and an Int, and says whether they are there.
    #[inline(always)]
    fn pass_int(&mut self, room: u16) -> bool
        ensures read { IsTrue result → IsPassed self.old.end (value_at self.old.end room (Kind.Leaf LeafKind.Int))
            self.old.rest.now self.new.rest.now }
        ensures end { self.new.end ≡ self.old.end }
        ensures shrinks { length self.new.rest.now ≤ length self.old.rest.now }
    {
        let Ok(_) = self.text() else {
            return false;
        };
        let Ok(()) = self.skip_run(4) else {
            return false;
        };
        true
    }

    /// Passes over a name and a list of Ints, and says whether they are there.
    #[inline(always)]
    fn pass_ints(&mut self, room: u16) -> bool
        ensures read { IsTrue result → IsPassed self.old.end (value_at self.old.end room Kind.List)
            self.old.rest.now self.new.rest.now }
        ensures end { self.new.end ≡ self.old.end }
        ensures shrinks { length self.new.rest.now ≤ length self.old.rest.now }
    {
        let Ok(_) = self.text() else {
            return false;
        };
        let Some(count) = self.ints(room) else {
            return false;
        };
        let Ok(()) = self.skip_run(4 * count as usize) else {
            return false;
        };
        true
    }
}
