//! What a program is started with: the words of its command line, and its descriptors.

use crate::host::Host;
use cave_runs::RunFault;
use run_system::{System, status_of};
use std::fs::File;
use std::{env, io};

/// The words of the command line. One that is no text is a mistake in usage.
pub fn words_of(rt: &HostRuntime, host: &Host<'_>) -> Result<Vec<String>, u8> {
    let words = match env::args(rt) {
        Ok(words) => words,
        Err(error) if error.kind() == io::ErrorKind::OutOfMemory => return Err(out_of_memory(host)),
        Err(_) => {
            host.print_mistake("a word of the command line isn't UTF-8");
            return Err(2);
        }
    };
    words.collect(rt.alloc()).map_err(|_| out_of_memory(host))
}

fn out_of_memory(host: &Host<'_>) -> u8 {
    host.print_fault(&RunFault::OutOfMemory);
    status_of(&RunFault::OutOfMemory)
}

/// A descriptor that nothing else is opened at.
fn spare(rt: &HostRuntime) -> Option<File> {
    File::open(rt, "/dev/null").ok()
}

/// Three descriptors that are kept from now on. Where a standard stream isn't open, a file would take its number, and
/// what is meant for the stream.
pub fn spare_descriptors(rt: &HostRuntime) -> [Option<File>; 3] {
    [spare(rt), spare(rt), spare(rt)]
}
