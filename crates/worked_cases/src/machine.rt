//! A machine whose files lie in memory. A path `locked` can't be made, and `output` is where standard output goes.

use crate::record::{Kept, Record};
use crate::shelf::Files;
use clap::Error;
use std::alloc::Global;
use std::io::{self, Read};
use torch_plan::{RunFault, System};

/// A file that gives at most `step` bytes a call, and of whose bytes nothing is known to contracts, as of those of a
/// host.
#[derive(Drop)]
pub struct MemoryFile<'a> {
    rest: &'a [u8],
    step: usize,
}

impl Read for MemoryFile<'_> {
    fn read(&mut self, buffer: &mut [u8]) -> io::Result<usize> {
        let count = self.rest.len().min(buffer.len()).min(self.step);
        let (taken, rest) = self.rest.split_at(count);
        buffer[..count].copy_from_slice(taken);
        self.rest = rest;
        Ok(count)
    }
}

/// A text without its last line's end.
fn without_end(text: &str) -> &str {
    text.strip_suffix('\n').unwrap_or(text)
}

/// The files by their names, the name of the one that standard input is, none where it has no bytes, and how many bytes
/// are read or written at a time.
#[derive(Drop)]
pub struct Machine<'a> {
    pub alloc: Global,
    pub files: Files<'a>,
    pub input: &'a str,
    pub step: usize,
    pub record: &'a Record,
}

impl<'a> System for Machine<'a> {
    ghost use Rattle.std.specs.Prelude.{None, false};

    ghost sources = { λ _. record {
      files = λ _. None;
      missing = λ _. false;
      input = None;
      made = λ _. None;
      same = λ _ _. None;
      over = λ _. None;
    } };

    type File = MemoryFile<'a>;

    type Standard = MemoryFile<'a>;

    type Kept = Kept<'a>;

    fn open(&self, path: &str) -> Option<MemoryFile<'a>> {
        match self.files.get(path) {
            Some(rest) => Some(MemoryFile {
                rest,
                step: self.step,
            }),
            None => None,
        }
    }

    fn standard(&self) -> MemoryFile<'a> {
        MemoryFile {
            rest: self.files.get(self.input).unwrap_or(b""),
            step: self.step,
        }
    }

    fn create(&self, path: &str) -> Option<Kept<'a>> {
        if path == "locked" {
            return None;
        }
        Some(self.record.make(self.step))
    }

    fn is_same(&self, path: &str, other: &str) -> bool {
        path == other || (other == "-" && path == self.input)
    }

    fn is_output(&self, path: &str) -> bool {
        path == "output"
    }

    fn print_help(&self, error: &Error) -> bool {
        let how = if error.use_stderr() { "usage" } else { "help" };
        match format!(in self.alloc; "{error}") {
            Ok(text) => self.record.tell(how, without_end(text.as_str())),
            Err(_) => self.record.tell(how, "no memory"),
        }
        true
    }

    fn print_mistake(&self, mistake: &str) {
        self.record.tell("objection", mistake);
    }

    fn print_fault(&self, fault: &RunFault) {
        match format!(in self.alloc; "{fault}") {
            Ok(line) => self.record.tell("fault", line.as_str()),
            Err(_) => self.record.tell("fault", "no memory"),
        }
    }

    fn watch(&self, is_asked: bool) {
        if is_asked {
            self.record.tell("watched", "");
        }
    }
}
