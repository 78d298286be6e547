//! A writer that keeps nothing.
use std::io::{self, Write};

/// A writer that takes all and keeps nothing: where nobody asked for a certificate.
#[derive(Debug, Drop)]
pub struct Unkept;

impl Write for Unkept {
    fn write(&mut self, buf: &[u8]) -> io::Result<usize> {
        Ok(buf.len())
    }

    fn flush(&mut self) -> io::Result<()> {
        Ok(())
    }
}
