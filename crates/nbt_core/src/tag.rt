//! A value with memory of its own: `Nbt` of specs/Value.antt, by `nbt` of specs/View.antt.
use cave_base::Sequence;
use std::marker::Model;

/// A value of an NBT text (Minecraft Wiki, "NBT format"). Numbers are signed. Float and Double are
/// kept as their bytes, the highest first. Texts and names are bytes, compared as such.
#[cycle(tag)]
#[derive(Debug, Drop)]
pub enum Tag {
    Byte(i8),
    Short(i16),
    Int(i32),
    Long(i64),
    Float([u8; 4]),
    Double([u8; 8]),
    /// A Byte_Array.
    Bytes(Sequence<i8>),
    /// A String. Its bytes need not be UTF-8.
    Text(Sequence<u8>),
    List(Tags),
    /// Names with values. A name may stand twice.
    Compound(Entries),
    /// An Int_Array.
    Ints(Sequence<i32>),
    /// A Long_Array.
    Longs(Sequence<i64>),
}

impl Tag {
    ghost use Rattle.std.specs.Prelude.{◌≡◌};
    ghost use Rattle.std.specs.Option.{option_map};
    ghost use Rattle.nbt_core.specs.Value.{field};
    ghost use Rattle.nbt_core.specs.View.{nbt};

    /// The value of the last entry of this name, where the tag is a compound that has one. That the
    /// last one counts is this project's own.
    pub fn field(&self, name: &[u8]) -> Option<&Tag>
        ensures { option_map (λ t. nbt t.now) result ≡ field name.now (nbt self.now) }
    {
        let Tag::Compound(entries) = self else {
            return None;
        };
        let mut found = None;
        for (key, tag) in entries.as_slice() {
            if key.as_slice() == name {
                found = Some(tag);
            }
        }
        found
    }
}

/// The items of a list, seen by contracts as the list of their values.
#[cycle(tag)]
#[derive(Debug, Drop)]
pub struct Tags {
    tags: Vec<Tag>,
}

impl Model for Tags {
    ghost use Rattle.std.specs.Prelude.{List};
    ghost use Rattle.nbt_core.specs.Value.{Nbt};
    ghost use Rattle.nbt_core.specs.Code.{coded_nbts};

    ghost Value = { List Nbt };

    ghost coded = { coded_nbts };

    ghost use Rattle.nbt_core.specs.View.{nbts};

    ghost view = { λ a. nbts a.tags.items };

    ghost use Rattle.nbt_core.specs.Weight.{weight_of_list};

    ghost size = { weight_of_list };

    ghost use Rattle.std.proofs.Common.{arith};
    ghost use Rattle.nbt_core.specs.Falls.{tags_fall};

    ghost size_decreases = { λ a h. Prim.omega (arith, tags_fall a.tags.items) };
}

impl Tags {
    ghost use Rattle.std.specs.Prelude.{◌≡◌};
    ghost use Rattle.nbt_core.specs.View.{nbts};

    /// The tags of the vector.
    pub fn from_vec(tags: Vec<Tag>) -> Tags
        ensures { result ≡ nbts tags.items }
    {
        Tags { tags }
    }

    /// Its tags.
    pub fn as_slice(&self) -> &[Tag]
        ensures { nbts result.now ≡ self.now }
    {
        &self.tags
    }
}

/// The entries of a compound, in the order of the bytes, seen by contracts as names with their values.
#[cycle(tag)]
#[derive(Debug, Drop)]
pub struct Entries {
    entries: Vec<(Sequence<u8>, Tag)>,
}

impl Model for Entries {
    ghost use Rattle.std.specs.Prelude.{List, ℕ};
    ghost use Rattle.nbt_core.specs.Value.{Nbt};
    ghost use Rattle.nbt_core.specs.Code.{coded_entries};

    ghost Value = { List (List ℕ × Nbt) };

    ghost coded = { coded_entries };

    ghost use Rattle.nbt_core.specs.View.{entries_of};

    ghost view = { λ a. entries_of a.entries.items };

    ghost use Rattle.nbt_core.specs.Weight.{weight_of_entries};

    ghost size = { weight_of_entries };

    ghost use Rattle.std.proofs.Common.{arith};
    ghost use Rattle.nbt_core.specs.Falls.{entries_fall};

    ghost size_decreases = { λ a h. Prim.omega (arith, entries_fall a.entries.items) };
}

impl Entries {
    ghost use Rattle.std.specs.Prelude.{◌≡◌};
    ghost use Rattle.nbt_core.specs.View.{entries_of};

    /// The entries of the vector.
    pub fn from_vec(entries: Vec<(Sequence<u8>, Tag)>) -> Entries
        ensures { result ≡ entries_of entries.items }
    {
        Entries { entries }
    }

    /// Its entries.
    pub fn as_slice(&self) -> &[(Sequence<u8>, Tag)]
        ensures { entries_of result.now ≡ self.now }
    {
        &self.entries
    }
}
