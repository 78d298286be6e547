//! A command line over files in memory, from its words to the bytes that it writes: specs/Memory.antt.
ghost use Rattle.std.specs.Prelude.{◌≡◌, List, [], map, option_copied, option_map, string_bytes};
ghost use Rattle.run_system.specs.Status.{IsRefused};
ghost use Rattle.torch_plan.specs.Memory.{AnswersInMemory, bytes_at};

use crate::answering::answer;
use crate::resources::Resources;
use cave_runs::{RunFault, Watcher};
use clap::Error;
use run_system::System;
use std::alloc::Global;
use std::sync::Wait;
use std::thread::Threads;

/// A file and its name.
#[derive(Clone, Copy)]
pub struct NamedFile<'a> {
    pub name: &'a str,
    pub bytes: &'a [u8],
}

/// Files in memory, and standard input. What is printed for its user is dropped.
#[derive(Drop)]
struct Memory<'a> {
    alloc: Global,
    files: &'a [NamedFile<'a>],
    input: &'a [u8],
}

/// How a command line ended: its exit status, the bytes of its output, and those of the file that was made for a proof,
/// where one was.
#[derive(Drop)]
pub struct Ended {
    pub status: u8,
    pub output: Vec<u8>,
    pub proof: Option<Vec<u8>>,
}

/// The bytes of the file of this name.
fn bytes_of<'a>(files: &[NamedFile<'a>], name: &str) -> Option<&'a [u8]>
    ensures { option_copied result ≡ bytes_at files.now name.now }
{
    let Some((first, rest)) = files.split_first() else {
        return None;
    };
    if first.name == name {
        return Some(first.bytes);
    }
    bytes_of(rest, name)
}

impl<'a> System for Memory<'a> {
    ghost use Rattle.torch_plan.specs.Memory.{sources_of};

    ghost sources = { λ memory. sources_of memory.files.now memory.input.now };

    type File = &'a [u8];

    type Standard = &'a [u8];

    type Kept = Vec<u8>;

    fn open(&self, path: &str) -> Option<&'a [u8]> {
        bytes_of(self.files, path)
    }

    fn standard(&self) -> &'a [u8] {
        self.input
    }

    fn create(&self, _path: &str) -> Option<Vec<u8>> {
        Some(Vec::new(self.alloc))
    }

    fn is_same(&self, path: &str, other: &str) -> bool {
        path == other
    }

    fn is_output(&self, _path: &str) -> bool {
        false
    }

    fn print_help(&self, _error: &Error) -> bool {
        true
    }

    fn print_mistake(&self, _mistake: &str) {}

    fn print_fault(&self, _fault: &RunFault) {}

    fn watch(&self, _is_asked: bool) {}
}

/// `answer` over files in memory and these bytes of standard input. Two names are two files.
pub fn answer_in_memory<X: Threads + Wait + Sync, O: Watcher>(
    resources: &Resources<'_, X, O>,
    files: &[NamedFile<'_>],
    input: &[u8],
    words: &[String],
) -> Ended
    // What the words ask for was done over the bytes of the files that they name, or they were explained.
    ensures does { AnswersInMemory files.now input.now (map (λ word. string_bytes word) words.now)
        result.status result.output.items (option_map (λ v. v.items) result.proof) }
    // A refused input, a mistake in usage, and refused memory or threads leave the output empty.
    ensures silent { IsRefused result.status → result.output.items ≡ [] }
{
    let alloc = resources.alloc;
    let memory = Memory {
        alloc,
        files,
        input,
    };
    let mut output = Vec::new(alloc);
    let (status, proof) = answer(resources, &memory, words, &mut output);
    Ended {
        status,
        output,
        proof,
    }
}
