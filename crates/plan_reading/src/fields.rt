//! The parts of a plan's line, read from the front of a text: specs/Fields.antt.
ghost use Rattle.std.specs.Prelude.{◌≡◌, ◌++◌, MatchOption};
ghost use Rattle.certificate_lines.specs.Decides.{HasNoFront};
ghost use Rattle.plan_reading.specs.Fields.{BeginsWithHang, BeginsWithNumber, HasNoHang, HasNoNumber, IsNoDigit};

use cave_model::Hang;
use certificate_lines::number;

/// What comes after the word that a text begins with.
pub(crate) fn after<'a>(text: &'a [u8], word: &[u8]) -> Option<&'a [u8]>
    ensures { MatchOption result (HasNoFront text.now word.now) (λ rest. text.now ≡ word.now ++ rest.now) }
{
    text.strip_prefix(word)
}

/// The number that a text begins with, and what comes after this byte, which follows it.
pub(crate) fn number_before(text: &[u8], end: u8) -> Option<(u32, &[u8])>
    requires { IsNoDigit end }
    ensures { MatchOption result (HasNoNumber text.now end)
        (λ r. BeginsWithNumber text.now end r.0 r.1.now) }
{
    let Some((number, after)) = number(text) else {
        return None;
    };
    match after {
        [byte, rest @ ..] if *byte == end => Some((number, rest)),
        _ => None,
    }
}

/// The hang whose word a text begins with, and what comes after its line.
pub(crate) fn hang_before(text: &[u8]) -> Option<(Hang, &[u8])>
    ensures { MatchOption result (HasNoHang text.now) (λ r. BeginsWithHang text.now r.0 r.1.now) }
{
    if let Some(rest) = after(text, b"floor\n") {
        return Some((Hang::Floor, rest));
    }
    if let Some(rest) = after(text, b"north\n") {
        return Some((Hang::North, rest));
    }
    if let Some(rest) = after(text, b"east\n") {
        return Some((Hang::East, rest));
    }
    if let Some(rest) = after(text, b"south\n") {
        return Some((Hang::South, rest));
    }
    if let Some(rest) = after(text, b"west\n") {
        return Some((Hang::West, rest));
    }
    None
}
