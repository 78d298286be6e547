//! The entries of a compound that are still to come, read where they lie: `entry_values` of specs/Borrowed.antt.
use crate::view::View;
use nbt_core::Reader;
use std::marker::Model;

/// Entries of a compound that are still to come, in the bytes that spell them. Contracts see names with values.
#[derive(Debug, Drop)]
pub struct EntriesView<'a> {
    rest: &'a [u8],
    end: usize,
    room: u16,
}

impl<'a> Model for EntriesView<'a> {
    ghost use Rattle.std.specs.Prelude.{List, ℕ};
    ghost use Rattle.nbt_core.specs.Value.{Nbt};
    ghost use Rattle.nbt_core.specs.Code.{coded_entries};

    ghost Value = { List (List ℕ × Nbt) };

    ghost coded = { coded_entries };

    ghost use Rattle.nbt_views.specs.Borrowed.{entry_values, AreNamed};

    ghost view = { λ v. entry_values v.end v.room v.rest.now };

    ghost invariant = { λ v. AreNamed v.end v.room v.rest.now };
}

impl<'a> EntriesView<'a> {
    ghost use Rattle.std.specs.Prelude.{◌≡◌};
    ghost use Rattle.std.specs.Option.{option_map};
    ghost use Rattle.nbt_views.specs.Parts.{IsFrontOf};
    ghost use Rattle.nbt_views.specs.Borrowed.{entry_values, AreNamed};

    /// Named payloads up to an End at the front of `rest`, bytes that end at the offset `end`, in each of which
    /// `room` containers may nest.
    pub(crate) fn new(rest: &'a [u8], end: usize, room: u16) -> EntriesView<'a>
        requires { AreNamed end room rest.now }
        ensures { result ≡ entry_values end room rest.now }
    {
        EntriesView { rest, end, room }
    }

    /// The name and the value of the next entry.
    pub fn next(&mut self) -> Option<(&'a [u8], View<'a>)>
        ensures { IsFrontOf self.old (option_map (λ m. (m.0.now, m.1)) result) self.new }
    {
        let mut reader = Reader::new(self.rest, self.end);
        let Ok(kind) = reader.kind() else {
            return None;
        };
        let Some(kind) = kind else {
            return None;
        };
        let Ok(name) = reader.text() else {
            return None;
        };
        let payload = reader.rest;
        let Ok(()) = reader.skip(kind, self.room) else {
            return None;
        };
        self.rest = reader.rest;
        Some((name, View::new(payload, self.end, self.room, kind)))
    }
}
