//! A text on its way to a writer, through a buffer of some kilobytes.
ghost use Rattle.std.specs.Io.KnownBytes.{Appends};
ghost use Rattle.std.specs.Prelude.{◌≡◌, ◌++◌, ◌∷◌, [], OnOk, OnErr, string_bytes};
ghost use Rattle.certificate_text.specs.Sending.{IsSameSink, IsSent};
ghost use Rattle.certificate_text.specs.Writing.{AppendsFront};
ghost use Rattle.proof_rules.specs.Text.{line};

use crate::fault::WriteFault;
use crate::line::line_text;
use crate::writing::put_all;
use std::alloc::Global;
use std::io::Write;

/// From this number of bytes on the buffer is written.
const FULL: usize = 8192;

/// A writer, and the buffer before it with what is on its way.
#[derive(Drop)]
pub struct Sink<'a, W> {
    pub alloc: Global,
    pub writer: &'a mut W,
    pub buffer: &'a mut String,
}

impl<W: Write> Sink<'_, W> {
    /// Writes what the buffer holds, and empties it.
    pub fn flush(&mut self) -> Result<(), WriteFault>
        ensures same { IsSameSink self.old self.new }
        ensures done { OnOk result (Appends (W.contents self.old.writer.now) (W.contents self.new.writer.now)
            (string_bytes self.old.buffer.now)) }
        ensures empty { OnOk result (string_bytes self.new.buffer.now ≡ []) }
        ensures begun { OnErr result (AppendsFront (W.contents self.old.writer.now) (W.contents self.new.writer.now)
            (string_bytes self.old.buffer.now)) }
    {
        put_all(self.writer, self.buffer.as_bytes())?;
        self.buffer.clear();
        Ok(())
    }

    /// Puts a text behind what is on its way.
    pub fn put_text(&mut self, text: &str) -> Result<(), WriteFault>
        ensures { IsSent W.contents result self.old self.new text.now }
    {
        if self.buffer.len() >= FULL {
            self.flush()?;
        }
        self.buffer.push_str(text)?;
        Ok(())
    }

    /// Puts a line behind what is on its way: a word, and numbers, each after a space.
    pub fn put_line(&mut self, word: &str, numbers: &[u64]) -> Result<(), WriteFault>
        ensures { IsSent W.contents result self.old self.new (line word.now numbers.now ++ 10 ∷ []) }
    {
        let text = line_text(self.alloc, word, numbers)?;
        self.put_text(text.as_str())
    }
}
