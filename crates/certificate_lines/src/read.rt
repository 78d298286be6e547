//! Bytes read as a certificate, or up to the first line that doesn't fit: `IsTextOf` and `IsFirstMisfit` of
//! specs/Text.antt in proof_rules.
ghost use Rattle.std.specs.Prelude.{◌≡◌, ℕ, Some, None, IfOk, MatchOption};
ghost use Rattle.proof_rules.specs.Certificate.{Certificate};
ghost use Rattle.proof_rules.specs.Text.{IsTextOf, IsFirstMisfit};

use crate::cut::cut_line;
use crate::lines::{Lines, is_done};
use std::alloc::{AllocError, Global};

/// The number of the first line that doesn't fit, or `None` where the bytes are a certificate.
pub fn first_misfit(alloc: Global, bytes: &[u8]) -> Result<Option<u64>, AllocError>
    ensures answers { IfOk result (λ r. MatchOption r
        ((certificate : Certificate) × IsTextOf bytes.now certificate)
        (λ line. IsFirstMisfit bytes.now line)) }
    ensures whole { (certificate : Certificate) → IsTextOf bytes.now certificate
        → IfOk result (λ r. r ≡ None) }
    ensures first { (line : ℕ) → IsFirstMisfit bytes.now line → IfOk result (λ r. r ≡ Some line) }
{
    walk(alloc, bytes)
}

/// Takes line by line.
fn walk(alloc: Global, bytes: &[u8]) -> Result<Option<u64>, AllocError>
    ensures { IfOk result (λ r. MatchOption r
        ((certificate : Certificate) × IsTextOf bytes.now certificate)
        (λ line. IsFirstMisfit bytes.now line)) }
{
    let mut lines = Lines::new(alloc);
    let mut rest = bytes;
    while let Some((text, after)) = cut_line(rest) {
        if lines.take(text)?.is_none() {
            return Ok(Some(lines.taken + 1));
        }
        rest = after;
    }
    if !rest.is_empty() {
        return Ok(Some(lines.taken + 1));
    }
    if !is_done(lines.stage) {
        return Ok(Some(lines.taken + 1));
    }
    Ok(None)
}
