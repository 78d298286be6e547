//! The files and streams of the machine that a program runs on. Of their bytes nothing is known to contracts.

use crate::progress::Progress;
use cave_runs::RunFault;
use clap::Error;
use run_system::System;
use std::fs::{self, File, Metadata};
use std::io::{self, IsTerminal};
use std::os::unix::fs::{FileTypeExt, MetadataExt};

/// The null device, as the kernel numbers it: it keeps nothing of what is written to it.
const NULL: u64 = 0x103;

/// The terminal that a program was started at, whatever other name it has (`/dev/tty`).
const TERMINAL: u64 = 0x500;

/// The program's own standard input, as a file.
const INPUT: &str = "/proc/self/fd/0";

/// And its standard output.
const OUTPUT: &str = "/proc/self/fd/1";

/// The files and streams of the machine that the program runs on.
#[derive(Drop)]
pub struct Host<'r> {
    rt: &'r HostRuntime,
    progress: &'r Progress<'r>,
}

impl<'r> Host<'r> {
    /// The machine, with whoever is told of a run.
    pub fn new(rt: &'r HostRuntime, progress: &'r Progress<'r>) -> Host<'r> {
        Host { rt, progress }
    }

    /// What the system knows a file by, whatever its name and its kind: its device, and its number there. None for what
    /// isn't there, and for the null device.
    fn identity(&self, path: &str) -> Option<(u64, u64)> {
        match fs::metadata(self.rt, path) {
            Ok(data) if !is_device(&data, NULL) => Some((data.dev(), data.ino())),
            _ => None,
        }
    }

    /// Whether both are there, and one file.
    fn are_one(&self, path: &str, other: &str) -> bool {
        match (self.identity(path), self.identity(other)) {
            (Some(one), Some(other)) => one == other,
            _ => false,
        }
    }

    /// Whether the path leads to the terminal that the program was started at, by the name that fits any.
    fn is_terminal(&self, path: &str) -> bool {
        match fs::metadata(self.rt, path) {
            Ok(data) => is_device(&data, TERMINAL),
            Err(_) => false,
        }
    }
}

/// Whether this is the device of that number, which gives and takes characters.
fn is_device(data: &Metadata, number: u64) -> bool {
    data.file_type().is_char_device() && data.rdev() == number
}

impl System for Host<'_> {
    ghost use Rattle.std.specs.Prelude.{None, false};

    ghost sources = { λ _. record {
      files = λ _. None;
      missing = λ _. false;
      input = None;
      made = λ _. None;
      same = λ _ _. None;
      over = λ _. None;
    } };

    type File = File;

    type Standard = io::StdinLock<'static>;

    type Kept = File;

    fn open(&self, path: &str) -> Option<File> {
        File::open(self.rt, path).ok()
    }

    fn standard(&self) -> io::StdinLock<'static> {
        self.rt.reader()
    }

    fn create(&self, path: &str) -> Option<File> {
        File::create(self.rt, path).ok()
    }

    fn is_same(&self, path: &str, other: &str) -> bool {
        // As a table `-` is a file of that name.
        self.are_one(path, other) || (other == "-" && self.are_one(path, INPUT))
    }

    fn is_output(&self, path: &str) -> bool {
        self.are_one(path, OUTPUT) || (self.rt.stdout().is_terminal() && self.is_terminal(path))
    }

    fn print_help(&self, error: &Error) -> bool {
        error.print(self.rt).is_ok()
    }

    fn print_mistake(&self, mistake: &str) {
        let _ = eprintln!(self.rt; "error: {mistake}");
    }

    fn print_fault(&self, fault: &RunFault) {
        let _ = eprintln!(self.rt; "torchplan: {fault}");
    }

    fn watch(&self, is_asked: bool) {
        self.progress
            .begin(is_asked || self.rt.stderr().is_terminal());
    }
}
