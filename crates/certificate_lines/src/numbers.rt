//! The numbers of a line, each after a space: `AreNumbers` of specs/Numbers.antt.
ghost use Rattle.std.specs.Prelude.{◌≡◌, ◌+◌, ◌<◌, ◌∷◌, MatchOption, IfOk, MatchBool};
ghost use Rattle.certificate_lines.specs.Numbers.{AreNoNumbers};
ghost use Rattle.certificate_lines.specs.Numbers.{HasNoSpace, IsCut, BeginsWith, BeginsWithNone, AreNumbers};

use std::alloc::AllocError;

/// No certificate names a greater number.
const LIMIT: u64 = 4_294_967_295;

/// No line of one has more numbers.
const MOST_NUMBERS: usize = 524_290;

/// The digit that a text begins with, and what comes after it.
fn digit(text: &[u8]) -> Option<(u64, &[u8])>
    ensures { MatchOption result (IsCut text.now)
        (λ r. (text.now ≡ (48 + r.0) ∷ r.1.now) × (r.0 < 10)) }
{
    let [byte, rest @ ..] = text else {
        return None;
    };
    if *byte < b'0' || *byte > b'9' {
        return None;
    }
    Some((u64::from(*byte - b'0'), rest))
}

/// The number that a text begins with, and what comes after it: at most 4,294,967,295, without leading zeros.
pub fn number(text: &[u8]) -> Option<(u32, &[u8])>
    ensures { MatchOption result (BeginsWithNone text.now)
        (λ r. BeginsWith text.now r.0 r.1.now) }
{
    let Some((first, tail)) = digit(text) else {
        return None;
    };
    if first == 0 {
        return Some((0, tail));
    }
    let mut number = first;
    let mut rest = tail;
    while let Some((next, tail)) = digit(rest) {
        number = number * 10 + next;
        if number > LIMIT {
            return None;
        }
        rest = tail;
    }
    Some((number as u32, rest))
}

/// Reads the numbers of a text, each after a space, into the buffer; stops where there are more than a line may have.
pub fn read_numbers(text: &[u8], numbers: &mut Vec<u32>) -> Result<bool, AllocError>
    ensures { IfOk result (λ fits. MatchBool fits (AreNumbers text.now numbers.new.items) (AreNoNumbers text.now)) }
{
    numbers.clear();
    let mut rest = text;
    while !rest.is_empty() {
        if numbers.len() >= MOST_NUMBERS {
            return Ok(false);
        }
        let Some(tail) = after_space(rest) else {
            return Ok(false);
        };
        let Some((number, after)) = number(tail) else {
            return Ok(false);
        };
        numbers.push(number)?;
        rest = after;
    }
    Ok(true)
}

/// What comes after the space that a text begins with.
fn after_space(text: &[u8]) -> Option<&[u8]>
    ensures { MatchOption result (HasNoSpace text.now) (λ rest. text.now ≡ 32 ∷ rest.now) }
{
    match text {
        [b' ', rest @ ..] => Some(rest),
        _ => None,
    }
}
