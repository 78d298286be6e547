//! The text of a certificate, given in pieces: `Holds` and `Tells` of specs/Held.antt.
ghost use Rattle.std.specs.Prelude.{◌≡◌, ◌<◌, ◌+◌, ◌^◌, [], length, IfOk, MatchBool, MatchOption, IsTrue, ◌↔◌, None};
ghost use Rattle.certificate_lines.specs.Held.{EndsPiece, HasRoom, Holds, HeldText, TakesLine, Tells};
ghost use Rattle.certificate_lines.specs.Keeping.{IsOverlong, IsKeptOn};

use crate::cut::cut_line;
use crate::kind::LineKind;
use crate::lines::{Lines, is_done};
use std::alloc::{AllocError, Global};
use std::marker::Model;

/// No line of a certificate has more bytes.
const LONGEST_LINE: usize = 5_767_200;

/// The text of a certificate, given in pieces of any size.
#[derive(Drop)]
pub struct Pieces {
    lines: Lines,
    /// The beginning of a line that hasn't ended.
    last: Vec<u8>,
    /// The first line that doesn't fit.
    misfit: Option<u64>,
}

impl Model for Pieces {
    ghost use Rattle.certificate_lines.specs.Held as held;

    ghost Value = { held.HeldText };

    ghost view = { λ p. record {
      stage = p.lines.stage;
      taken = p.lines.taken;
      last = p.last.items;
      misfit = p.misfit;
      numbers = p.lines.numbers.items;
    } };
}

impl Pieces {
    /// No text yet.
    pub fn new(alloc: Global) -> Pieces
        ensures { Holds [] [] result }
    {
        Pieces {
            lines: Lines::new(alloc),
            last: Vec::new(alloc),
            misfit: None,
        }
    }

    /// How many lines were taken.
    pub fn taken(&self) -> u64
        ensures { result ≡ self.now.taken }
    {
        self.lines.taken
    }

    /// The numbers of the line that was taken last.
    pub fn numbers(&self) -> &[u32]
        ensures { result.now ≡ self.now.numbers }
    {
        &self.lines.numbers
    }

    /// The number of the first line that doesn't fit, or `None` where all the bytes are a certificate.
    pub fn finish(&self) -> Option<u64>
        requires { HasRoom self.now 1 }
        ensures { Tells self.now result }
    {
        if !is_none(self.misfit) {
            return self.misfit;
        }
        if !self.last.is_empty() {
            return Some(self.lines.taken + 1);
        }
        if !is_done(self.lines.stage) {
            return Some(self.lines.taken + 1);
        }
        None
    }

    /// Takes the next line that ends in the piece: its kind, and what comes after it. Where none does, the beginning of
    /// one is kept.
    pub fn line<'a>(&mut self, piece: &'a [u8]) -> Result<Option<(LineKind, &'a [u8])>, AllocError>
        requires { HasRoom self.old (length piece.now) }
        ensures { IfOk result (λ r. MatchOption r (EndsPiece piece.now self.old self.new)
            (λ l. TakesLine piece.now l.1.now l.0 self.old self.new)) }
    {
        if !is_none(self.misfit) {
            return Ok(None);
        }
        let Some((text, after)) = cut_line(piece) else {
            self.keep(piece)?;
            return Ok(None);
        };
        if !self.keep(text)? {
            return Ok(None);
        }
        let Some(kind) = self.lines.take(&self.last)? else {
            self.misfit = Some(self.lines.taken + 1);
            return Ok(None);
        };
        self.last.clear();
        Ok(Some((kind, after)))
    }

    /// Keeps more of the line that hasn't ended, unless it is then longer than any that fits.
    fn keep(&mut self, text: &[u8]) -> Result<bool, AllocError>
        requires room { self.old.taken + length text.now < 2 ^ 64 }
        ensures { IfOk result (λ kept. MatchBool kept (IsKeptOn text.now self.old self.new)
            (IsOverlong text.now self.old self.new)) }
    {
        if LONGEST_LINE.saturating_sub(self.last.len()) < text.len() {
            self.misfit = Some(self.lines.taken + 1);
            return Ok(false);
        }
        self.last.extend_from_slice(text)?;
        Ok(true)
    }
}

fn is_none(misfit: Option<u64>) -> bool
    ensures { IsTrue result ↔ misfit ≡ None }
{
    misfit.is_none()
}
