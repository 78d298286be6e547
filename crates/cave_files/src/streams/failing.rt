//! Readers and writers that give or take little a call, and fail at some calls.

use std::alloc::Global;
use std::io::{Error, ErrorKind, Read, Result as Done, Write};

/// The calls that fail, from one number to another, and what they say then.
#[derive(Clone, Copy)]
struct Failing {
    first: usize,
    last: usize,
    kind: ErrorKind,
}

impl Failing {
    /// Counts a call, which may fail.
    fn count(self, calls: &mut usize) -> Done<()> {
        let call = *calls;
        *calls = call.wrapping_add(1);
        if self.first <= call && call <= self.last {
            return Err(Error::from(self.kind));
        }
        Ok(())
    }
}

/// The call with this number fails, and each that comes after.
const fn from_call(first: usize) -> Failing {
    Failing {
        first,
        last: usize::MAX,
        kind: ErrorKind::Other,
    }
}

/// The call with this number fails alone.
const fn at_call(number: usize, kind: ErrorKind) -> Failing {
    Failing {
        first: number,
        last: number,
        kind,
    }
}

/// Gives one byte a call, and counts the calls.
#[derive(Drop)]
pub struct FailingReader<'a> {
    rest: &'a [u8],
    pub calls: usize,
    failing: Failing,
}

impl Read for FailingReader<'_> {
    fn read(&mut self, buf: &mut [u8]) -> Done<usize> {
        self.failing.count(&mut self.calls)?;
        let count = self.rest.len().min(buf.len()).min(1);
        let (taken, rest) = self.rest.split_at(count);
        buf[..count].copy_from_slice(taken);
        self.rest = rest;
        Ok(count)
    }
}

const fn reader_with(rest: &[u8], failing: Failing) -> FailingReader<'_> {
    FailingReader {
        rest,
        calls: 0,
        failing,
    }
}

/// A reader of these bytes that fails from this call on.
pub const fn reader_of(rest: &[u8], fails_at: usize) -> FailingReader<'_> {
    reader_with(rest, from_call(fails_at))
}

/// A reader of these bytes that fails at this call alone, as one that was interrupted.
pub const fn once_failing_reader_of(rest: &[u8], fails_at: usize) -> FailingReader<'_> {
    reader_with(rest, at_call(fails_at, ErrorKind::Interrupted))
}

/// Takes `chunk` bytes a call, and counts the calls.
#[derive(Drop)]
pub struct FailingWriter {
    pub taken: Vec<u8>,
    pub calls: usize,
    chunk: usize,
    failing: Failing,
}

impl Write for FailingWriter {
    fn write(&mut self, buf: &[u8]) -> Done<usize> {
        self.failing.count(&mut self.calls)?;
        let count = self.chunk.min(buf.len());
        if self.taken.extend_from_slice(&buf[..count]).is_err() {
            return Err(Error::from(ErrorKind::OutOfMemory));
        }
        Ok(count)
    }

    fn flush(&mut self) -> Done<()> {
        Ok(())
    }
}

fn writer_with(alloc: Global, chunk: usize, failing: Failing) -> FailingWriter {
    FailingWriter {
        taken: Vec::new(alloc),
        calls: 0,
        chunk,
        failing,
    }
}

/// A writer that takes one byte a call and fails once it has `fails_at` bytes.
pub fn writer_of(alloc: Global, fails_at: usize) -> FailingWriter {
    writer_with(alloc, 1, from_call(fails_at))
}

/// A writer that takes no byte, and doesn't say that it failed.
pub fn idle_writer(alloc: Global) -> FailingWriter {
    writer_with(alloc, 0, from_call(usize::MAX))
}

/// A writer that takes one byte a call and fails at this call alone.
pub fn once_failing_writer(alloc: Global, fails_at: usize) -> FailingWriter {
    writer_with(alloc, 1, at_call(fails_at, ErrorKind::Other))
}
