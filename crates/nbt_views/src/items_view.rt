//! The items of a list that are still to come, read where they lie: `item_values` of specs/Borrowed.antt.
use crate::fields::{TwoFields, fields_of};
use crate::named_entries::{int_named, triple_named};
use crate::view::View;
use nbt_core::{Kind, LeafKind, Reader};
use std::marker::Model;

/// Items of a list that are still to come, in the bytes that spell them. Contracts see the list of their values.
#[derive(Debug, Drop)]
pub struct ItemsView<'a> {
    rest: &'a [u8],
    end: usize,
    room: u16,
    kind: Kind,
    count: u32,
}

impl<'a> Model for ItemsView<'a> {
    ghost use Rattle.std.specs.Prelude.{List};
    ghost use Rattle.nbt_core.specs.Value.{Nbt};
    ghost use Rattle.nbt_core.specs.Code.{coded_nbts};

    ghost Value = { List Nbt };

    ghost coded = { coded_nbts };

    ghost use Rattle.nbt_views.specs.Borrowed.{item_values, ArePayloads};

    ghost view = { λ v. item_values v.end v.room v.kind v.count v.rest.now };

    ghost invariant = { λ v. ArePayloads v.end v.room v.kind v.count v.rest.now };
}

impl<'a> ItemsView<'a> {
    ghost use Rattle.std.specs.Prelude.{◌≡◌, ◌∷◌, length, IfSome};
    ghost use Rattle.nbt_views.specs.Parts.{are_compounds, numbers, IsFrontOf, IsIntOfFront};
    ghost use Rattle.nbt_views.specs.Fields.{AreFieldsOfFront};
    ghost use Rattle.nbt_views.specs.Borrowed.{item_values, ArePayloads};

    /// `count` payloads of this kind at the front of `rest`, bytes that end at the offset `end`; in each `room`
    /// containers may nest.
    pub(crate) fn new(
        rest: &'a [u8],
        end: usize,
        room: u16,
        kind: Kind,
        count: u32,
    ) -> ItemsView<'a>
        requires { ArePayloads end room kind count rest.now }
        ensures { result ≡ item_values end room kind count rest.now }
    {
        ItemsView {
            rest,
            end,
            room,
            kind,
            count,
        }
    }

    /// How many items are still to come.
    pub fn len(&self) -> u32
        ensures { result ≡ length self.now }
    {
        self.count
    }

    /// Whether all items are compounds.
    pub fn are_compounds(&self) -> bool
        ensures { result ≡ are_compounds self.now }
    {
        if self.count == 0 {
            return true;
        }
        self.kind.is_same(Kind::Compound)
    }

    /// The next item.
    pub fn next(&mut self) -> Option<View<'a>>
        ensures { IsFrontOf self.old result self.new }
    {
        if self.count == 0 {
            return None;
        }
        let payload = self.rest;
        let mut reader = Reader::new(payload, self.end);
        let Ok(()) = reader.skip(self.kind, self.room) else {
            return None;
        };
        self.rest = reader.rest;
        self.count -= 1;
        Some(View::new(payload, self.end, self.room, self.kind))
    }

    /// The number of the next item, where it is an Int: else the items stay as they are.
    pub fn next_int(&mut self) -> Option<i32>
        ensures { IsIntOfFront self.old result self.new }
    {
        if self.count == 0 {
            return None;
        }
        if !self.kind.is_same(Kind::Leaf(LeafKind::Int)) {
            return None;
        }
        let mut reader = Reader::new(self.rest, self.end);
        let Ok(number) = reader.int() else {
            return None;
        };
        self.rest = reader.rest;
        self.count -= 1;
        Some(number)
    }

    /// The values of the last entries of these two names in the next item, which is passed over in the same walk.
    pub fn next_fields(&mut self, a: &[u8], b: &[u8]) -> Option<TwoFields<'a>>
        ensures { AreFieldsOfFront a.now b.now self.old result self.new }
    {
        if self.count == 0 {
            return None;
        }
        let mut reader = Reader::new(self.rest, self.end);
        let Ok(found) = fields_of(&mut reader, self.kind, self.room, a, b) else {
            return None;
        };
        self.rest = reader.rest;
        self.count -= 1;
        Some(found)
    }

    /// The numbers of the next item and the items after it, where the item has two entries alone: a list of three Ints
    /// under the name `a`, then an Int under the name `b`. `None` says only that `next_fields` has to be asked.
    #[inline(always)]
    pub fn split_numbers(&self, a: &[u8], b: &[u8]) -> Option<([i32; 3], i32, ItemsView<'a>)>
        ensures { IfSome result (λ r. self.now ≡ numbers a.now b.now r.0 r.1 ∷ r.2) }
    {
        if self.count == 0 {
            return None;
        }
        if !self.kind.is_same(Kind::Compound) {
            return None;
        }
        let mut reader = Reader::new(self.rest, self.end);
        let Ok(room) = reader.one_deeper(self.room) else {
            return None;
        };
        let Some(triple) = triple_named(&mut reader, room, a) else {
            return None;
        };
        let Some(number) = int_named(&mut reader, room, b) else {
            return None;
        };
        let Ok(None) = reader.kind() else {
            return None;
        };
        let count = self.count - 1;
        let others = ItemsView::new(reader.rest, self.end, self.room, self.kind, count);
        Some((triple, number, others))
    }
}
