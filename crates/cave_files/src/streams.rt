//! Readers and writers that give or take little at once, that fail, or that don't end.

mod failing;

pub use failing::{
    FailingReader, FailingWriter, idle_writer, once_failing_reader_of, once_failing_writer,
    reader_of, writer_of,
};
use std::io::{Error, ErrorKind, Read, Result as Done, Write};

/// Gives the same byte, one a call, for ever.
#[derive(Drop)]
pub struct Endless {
    pub byte: u8,
}

impl Read for Endless {
    fn read(&mut self, buf: &mut [u8]) -> Done<usize> {
        match buf.first_mut() {
            Some(first) => {
                *first = self.byte;
                Ok(1)
            }
            None => Ok(0),
        }
    }
}

/// Gives zeros, as many a call as are asked for, until none are left, and counts them.
#[derive(Drop)]
pub struct Zeros {
    left: usize,
    pub given: usize,
}

impl Read for Zeros {
    fn read(&mut self, buf: &mut [u8]) -> Done<usize> {
        let count = self.left.min(buf.len());
        for byte in &mut buf[..count] {
            *byte = 0;
        }
        self.left = self.left.wrapping_sub(count);
        self.given = self.given.wrapping_add(count);
        Ok(count)
    }
}

/// `left` zeros.
pub const fn zeros_of(left: usize) -> Zeros {
    Zeros { left, given: 0 }
}

/// Takes up to 64 bytes, and no memory, and fails where more come.
#[derive(Drop)]
pub struct ShortWriter {
    taken: [u8; 64],
    count: usize,
}

impl ShortWriter {
    /// It has taken nothing yet.
    pub fn new() -> ShortWriter {
        ShortWriter {
            taken: [0; 64],
            count: 0,
        }
    }

    /// What it has taken.
    pub fn taken(&self) -> &[u8] {
        self.taken.get(..self.count).unwrap_or(&[])
    }
}

impl Write for ShortWriter {
    fn write(&mut self, buf: &[u8]) -> Done<usize> {
        for byte in buf {
            match self.taken.get_mut(self.count) {
                Some(place) => *place = *byte,
                None => return Err(Error::from(ErrorKind::Other)),
            }
            self.count = self.count.wrapping_add(1);
        }
        Ok(buf.len())
    }

    fn flush(&mut self) -> Done<()> {
        Ok(())
    }
}
