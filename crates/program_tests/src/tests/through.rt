//! A file planned by many workers, where words ask for them.
use super::gates::Meeting;
use super::terraces::TERRACES;
use std::alloc::{AllocError, Global};
use std::process::Abort;
use std::sync::Wait;
use std::test::Fail;
use std::thread::Threads;
use torch_plan::{NamedFile, Resources, answer_in_memory};

/// The words of a command line, parted by spaces.
pub(crate) fn words_of(alloc: Global, line: &str) -> Result<Vec<String>, AllocError> {
    let mut words = Vec::new(alloc);
    for word in line.split(' ') {
        words.push(String::from_str(alloc, word)?)?;
    }
    Ok(words)
}

/// Two workers, each of whom is held until the other has a piece, plan the terraces as these words ask.
fn both_plan<R: Abort + Threads + Wait + Sync>(
    rt: &R,
    alloc: Global,
    line: &str,
) -> Result<(), Fail> {
    let bytes = TERRACES.bytes(alloc)?;
    let files = [NamedFile {
        name: "terraces",
        bytes: &bytes,
    }];
    let words = words_of(alloc, line)?;
    let gate = Meeting::of([true, true]);
    let resources = Resources {
        threads: rt,
        alloc,
        observer: &gate,
    };
    let ended = answer_in_memory(&resources, &files, b"", &words);
    assert_eq!(rt; ended.status, 0);
    assert!(rt; ended.output.starts_with(b"torches 15\n"));
    assert!(rt; gate.has_both());
    assert!(rt; !gate.gave_up());
    assert!(rt; gate.most() <= 2);
    Ok(())
}

#[test]
fn both_workers_are_at_work_at_once_where_words_ask_for_two(rt: HostRuntime) -> Result<(), Fail> {
    both_plan(
        &rt,
        rt.alloc(),
        "torchplan plan terraces --rule 1.17 --workers 2",
    )
}

#[test]
fn they_are_with_a_limit_of_turns_too(rt: HostRuntime) -> Result<(), Fail> {
    both_plan(
        &rt,
        rt.alloc(),
        "torchplan plan terraces --rule 1.17 --workers 2 --turns 100000",
    )
}
