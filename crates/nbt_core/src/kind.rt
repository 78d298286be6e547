//! The kinds of payloads, with their ids and fixed sizes: specs/Ids.antt.
ghost use Rattle.std.specs.Prelude.{◌≡◌, ◌↔◌, ◌≤◌, IfSome, IsTrue};
ghost use Rattle.nbt_core.specs.Ids.{fixed_size, kind_named};

/// What a payload holds.
#[derive(Clone, Copy, Debug, PartialEq, Eq)]
pub enum Kind {
    Leaf(LeafKind),
    List,
    Compound,
}

impl Kind {
    /// Whether both are one kind.
    #[inline(always)]
    pub fn is_same(self, other: Kind) -> bool
        ensures { IsTrue result ↔ (self ≡ other) }
    {
        self == other
    }

    /// How many bytes each payload of this kind takes, where all take as many.
    #[inline(always)]
    pub(crate) fn fixed_size(self) -> Option<usize>
        ensures size { result ≡ fixed_size self }
        ensures small { IfSome result (λ size. size ≤ 8) }
    {
        let Kind::Leaf(kind) = self else {
            return None;
        };
        match kind {
            LeafKind::Byte => Some(1),
            LeafKind::Short => Some(2),
            LeafKind::Int | LeafKind::Float => Some(4),
            LeafKind::Long | LeafKind::Double => Some(8),
            _ => None,
        }
    }
}

/// The kinds whose values hold no other values.
#[derive(Clone, Copy, Debug, PartialEq, Eq)]
pub enum LeafKind {
    Byte,
    Short,
    Int,
    Long,
    Float,
    Double,
    ByteArray,
    Text,
    IntArray,
    LongArray,
}

/// What the id names: a kind, or End as `Some(None)`, or nothing as `None`.
#[inline(always)]
#[tactic(auto, unfolding(crate::specs::Ids::kind_named))]
pub fn kind_named(id: u8) -> Option<Option<Kind>>
    ensures { result ≡ kind_named id }
{
    let kind = match id {
        0 => return Some(None),
        1 => Kind::Leaf(LeafKind::Byte),
        2 => Kind::Leaf(LeafKind::Short),
        3 => Kind::Leaf(LeafKind::Int),
        4 => Kind::Leaf(LeafKind::Long),
        5 => Kind::Leaf(LeafKind::Float),
        6 => Kind::Leaf(LeafKind::Double),
        7 => Kind::Leaf(LeafKind::ByteArray),
        8 => Kind::Leaf(LeafKind::Text),
        9 => Kind::List,
        10 => Kind::Compound,
        11 => Kind::Leaf(LeafKind::IntArray),
        12 => Kind::Leaf(LeafKind::LongArray),
        _ => return None,
    };
    Some(Some(kind))
}
