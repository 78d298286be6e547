//! What a run tells and writes.

use std::alloc::{AllocError, Global};
use std::cell::Cell;
use std::io::{Error, ErrorKind, Result as Done, Write};

/// The lines that were told; what was written to standard output, and to the file that was made, if one was.
#[derive(Drop)]
pub struct Record {
    alloc: Global,
    told: Cell<Vec<String>>,
    out: Cell<Vec<u8>>,
    made: Cell<Vec<u8>>,
    is_made: Cell<bool>,
}

impl Record {
    /// Nothing was told, written or made.
    pub fn new(alloc: Global) -> Record {
        Record {
            alloc,
            told: Cell::new(Vec::new(alloc)),
            out: Cell::new(Vec::new(alloc)),
            made: Cell::new(Vec::new(alloc)),
            is_made: Cell::new(false),
        }
    }

    /// A line is told: a word that says how, and its text.
    pub fn tell(&self, how: &str, text: &str) {
        let mut told = self.told.replace(Vec::new(self.alloc));
        let _ = add_line(self.alloc, &mut told, how, text);
        self.told.set(told);
    }

    /// Standard output, which takes at most `step` bytes a call.
    pub fn output(&self, step: usize) -> Kept<'_> {
        Kept {
            alloc: self.alloc,
            bytes: &self.out,
            step,
        }
    }

    /// A file is made, or emptied. It takes at most `step` bytes a call.
    pub fn make(&self, step: usize) -> Kept<'_> {
        self.is_made.set(true);
        self.made.set(Vec::new(self.alloc));
        Kept {
            alloc: self.alloc,
            bytes: &self.made,
            step,
        }
    }

    /// The lines that were told.
    pub fn told(&self) -> Vec<String> {
        self.told.replace(Vec::new(self.alloc))
    }

    /// What was written to standard output.
    pub fn out(&self) -> Vec<u8> {
        self.out.replace(Vec::new(self.alloc))
    }

    /// What was written to the file that was made, none where none was.
    pub fn made(&self) -> Option<Vec<u8>> {
        if !self.is_made.get() {
            return None;
        }
        Some(self.made.replace(Vec::new(self.alloc)))
    }
}

fn add_line(
    alloc: Global,
    told: &mut Vec<String>,
    how: &str,
    text: &str,
) -> Result<(), AllocError> {
    let line = if text.is_empty() {
        String::from_str(alloc, how)?
    } else {
        format!(in alloc; "{how} {text}")?
    };
    told.push(line)?;
    Ok(())
}

/// A stream or a file that is written, and keeps what it takes.
#[derive(Drop)]
pub struct Kept<'a> {
    alloc: Global,
    bytes: &'a Cell<Vec<u8>>,
    step: usize,
}

impl Write for Kept<'_> {
    fn write(&mut self, buf: &[u8]) -> Done<usize> {
        let count = buf.len().min(self.step);
        let mut bytes = self.bytes.replace(Vec::new(self.alloc));
        let kept = bytes.extend_from_slice(&buf[..count]);
        self.bytes.set(bytes);
        match kept {
            Ok(()) => Ok(count),
            Err(_) => Err(Error::from(ErrorKind::OutOfMemory)),
        }
    }

    fn flush(&mut self) -> Done<()> {
        Ok(())
    }
}
