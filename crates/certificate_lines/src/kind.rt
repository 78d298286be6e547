//! The kinds of lines, and which of them may come at a stage: `word_of` and `kind_at` of specs/Kinds.antt.
ghost use Rattle.std.specs.Prelude.{◌≡◌, slice_index_or};
ghost use Rattle.certificate_lines.specs.Kinds as kinds;

use crate::stage::Stage;

/// What kind of line it is.
#[derive(Clone, Copy, Debug, PartialEq, Eq)]
pub enum LineKind {
    Version,
    Size,
    Headroom,
    Need,
    Regions,
    Region,
    Dark,
    Torches,
    Leaf,
    Branch,
    Bar,
    Weighted,
    Group,
    Omit,
    Pick,
    End,
}

impl LineKind {
    /// The word with which such a line begins.
    pub fn word(self) -> &'static [u8]
        ensures { result.now ≡ kinds.word_of self }
    {
        match self {
            LineKind::Version => b"torchproof",
            LineKind::Size => b"box",
            LineKind::Headroom => b"headroom",
            LineKind::Need => b"need",
            LineKind::Regions => b"regions",
            LineKind::Region => b"region",
            LineKind::Dark => b"D",
            LineKind::Torches => b"T",
            LineKind::Leaf => b"L",
            LineKind::Branch => b"B",
            LineKind::Bar => b"E",
            LineKind::Weighted => b"W",
            LineKind::Group => b"G",
            LineKind::Omit => b"D",
            LineKind::Pick => b"P",
            LineKind::End => b"end",
        }
    }
}

/// The one kind of line that may come at the stage and begin as the text does.
pub fn kind_at(stage: Stage, text: &[u8]) -> LineKind
    ensures { result ≡ kinds.kind_at stage text.now }
{
    match stage {
        Stage::Start => LineKind::Version,
        Stage::Box { .. } => LineKind::Size,
        Stage::Headroom { .. } => LineKind::Headroom,
        Stage::Need { .. } => LineKind::Need,
        Stage::Regions { .. } => LineKind::Regions,
        Stage::Region { to_come, .. } => region_kind(to_come),
        Stage::Dark { .. } => LineKind::Dark,
        Stage::Torches { .. } => LineKind::Torches,
        Stage::Node { .. } => node_kind(first_byte(text)),
        Stage::Group { .. } => LineKind::Group,
        Stage::Done => LineKind::End,
    }
}

fn region_kind(to_come: u32) -> LineKind
    ensures { result ≡ kinds.region_kind to_come }
{
    if to_come == 0 {
        LineKind::End
    } else {
        LineKind::Region
    }
}

fn node_kind(head: u8) -> LineKind
    ensures { result ≡ kinds.node_kind head }
{
    if head == b'B' {
        LineKind::Branch
    } else if head == b'E' {
        LineKind::Bar
    } else if head == b'W' {
        LineKind::Weighted
    } else if head == b'D' {
        LineKind::Omit
    } else if head == b'P' {
        LineKind::Pick
    } else {
        LineKind::Leaf
    }
}

/// The first byte, or 0 where there is none.
fn first_byte(text: &[u8]) -> u8
    ensures { result ≡ slice_index_or text.now 0 0 }
{
    if text.is_empty() { 0 } else { text[0] }
}
