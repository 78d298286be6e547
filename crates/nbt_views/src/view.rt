//! A value, read where it lies: `payload_value` of specs/Borrowed.antt, and its parts by specs/Parts.antt.
use crate::entries_view::EntriesView;
use crate::items_view::ItemsView;
use nbt_core::{Kind, LeafKind, Reader};
use std::marker::Model;

/// A value in the bytes that spell it. It takes no memory: its parts are read where they are asked for. Contracts
/// see the value.
#[derive(Debug, Drop)]
pub struct View<'a> {
    rest: &'a [u8],
    end: usize,
    room: u16,
    kind: Kind,
}

impl<'a> Model for View<'a> {
    ghost use Rattle.nbt_core.specs.Value.{Nbt};
    ghost use Rattle.nbt_core.specs.Code.{coded_nbt};

    ghost Value = { Nbt };

    ghost coded = { coded_nbt };

    ghost use Rattle.nbt_views.specs.Borrowed.{payload_value, IsPayload};

    ghost view = { λ v. payload_value v.end v.room v.kind v.rest.now };

    ghost invariant = { λ v. IsPayload v.end v.room v.kind v.rest.now };
}

impl<'a> View<'a> {
    ghost use Rattle.std.specs.Prelude.{◌≡◌};
    ghost use Rattle.std.specs.Option.{option_map};
    ghost use Rattle.nbt_core.specs.Value.{field};
    ghost use Rattle.nbt_views.specs.Parts.{int_of, text_of, items_in, entries_in};
    ghost use Rattle.nbt_views.specs.Borrowed.{payload_value, IsPayload};

    /// The payload of this kind at the front of `rest`, bytes that end at the offset `end`, in which `room`
    /// containers may nest.
    pub(crate) fn new(rest: &'a [u8], end: usize, room: u16, kind: Kind) -> View<'a>
        requires { IsPayload end room kind rest.now }
        ensures { result ≡ payload_value end room kind rest.now }
    {
        View {
            rest,
            end,
            room,
            kind,
        }
    }

    /// Another view of the value.
    pub(crate) fn again(&self) -> View<'a>
        ensures { result ≡ self.now }
    {
        View {
            rest: self.rest,
            end: self.end,
            room: self.room,
            kind: self.kind,
        }
    }

    /// The number of an Int.
    pub fn int(&self) -> Option<i32>
        ensures { result ≡ int_of self.now }
    {
        if !self.kind.is_same(Kind::Leaf(LeafKind::Int)) {
            return None;
        }
        Reader::new(self.rest, self.end).int().ok()
    }

    /// The bytes of a String.
    pub fn text(&self) -> Option<&'a [u8]>
        ensures { option_map (λ t. t.now) result ≡ text_of self.now }
    {
        if !self.kind.is_same(Kind::Leaf(LeafKind::Text)) {
            return None;
        }
        Reader::new(self.rest, self.end).text().ok()
    }

    /// The items of a list.
    pub fn items(&self) -> Option<ItemsView<'a>>
        ensures { result ≡ items_in self.now }
    {
        if !self.kind.is_same(Kind::List) {
            return None;
        }
        let mut reader = Reader::new(self.rest, self.end);
        let Ok(room) = reader.one_deeper(self.room) else {
            return None;
        };
        let Ok(kind) = reader.kind() else {
            return None;
        };
        let Ok(count) = reader.count() else {
            return None;
        };
        match kind {
            Some(kind) => Some(ItemsView::new(reader.rest, self.end, room, kind, count)),
            // a list of End has no items
            None => Some(ItemsView::new(reader.rest, self.end, room, Kind::Compound, 0)),
        }
    }

    /// The entries of a compound, in the order of the bytes.
    pub fn entries(&self) -> Option<EntriesView<'a>>
        ensures { result ≡ entries_in self.now }
    {
        if !self.kind.is_same(Kind::Compound) {
            return None;
        }
        let reader = Reader::new(self.rest, self.end);
        let Ok(room) = reader.one_deeper(self.room) else {
            return None;
        };
        Some(EntriesView::new(self.rest, self.end, room))
    }

    /// The value of the last entry of this name, where the value is a compound that has one.
    pub fn field(&self, name: &[u8]) -> Option<View<'a>>
        ensures { result ≡ field name.now self.now }
    {
        let Some(mut entries) = self.entries() else {
            return None;
        };
        let mut found = None;
        while let Some((key, value)) = entries.next() {
            if key == name {
                found = Some(value);
            }
        }
        found
    }
}
