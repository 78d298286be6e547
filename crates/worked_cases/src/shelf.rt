//! Files in memory.

use std::alloc::{AllocError, Global};

/// A file and its name.
#[derive(Drop)]
struct Named {
    name: String,
    bytes: Vec<u8>,
}

/// Files by their names. Of two with one name the later counts.
#[derive(Drop)]
pub struct Shelf {
    files: Vec<Named>,
}

impl Shelf {
    /// No file.
    pub fn new(alloc: Global) -> Shelf {
        Shelf {
            files: Vec::new(alloc),
        }
    }

    /// Puts a file there.
    pub fn put(&mut self, alloc: Global, name: &str, bytes: Vec<u8>) -> Result<(), AllocError> {
        let name = String::from_str(alloc, name)?;
        self.files.push(Named { name, bytes })?;
        Ok(())
    }

    /// The bytes of the file of this name.
    pub fn get(&self, name: &str) -> Option<&[u8]> {
        for file in self.files.iter().rev() {
            if file.name.as_str() == name {
                return Some(file.bytes.as_slice());
            }
        }
        None
    }
}

/// The files of a run: what an earlier run wrote, those of its case, and those of all. Of two with one name the first
/// counts.
#[derive(Clone, Copy)]
pub struct Files<'a> {
    pub written: &'a Shelf,
    pub own: &'a Shelf,
    pub common: &'a Shelf,
}

impl<'a> Files<'a> {
    /// The bytes of the file of this name.
    pub fn get(&self, name: &str) -> Option<&'a [u8]> {
        for shelf in [self.written, self.own, self.common] {
            if let Some(bytes) = shelf.get(name) {
                return Some(bytes);
            }
        }
        None
    }
}
