//! Readers and writers that fail once by `levels`, and plans from readers that fail.

use cave_files::caves::PILLAR;
use cave_files::streams::{once_failing_reader_of, once_failing_writer, reader_of};
use std::alloc::Global;
use std::io::{Read, Write};
use std::test::Fail;
use torch_plan::{Rule, RunFault, Unobserved, read_plan, run_levels};

/// A plan of the pillar.
const PLAN: &[u8] = b"torches 1\ndark 1\nT 0 1 0 floor\nlayer 1\nT\n";

/// The levels text of the pillar with its torch.
const TEXT: &[u8] = b"levels 1 3 1\n0\ne\nd\n";

/// Prints the levels of what the reader has, with the plan's torch, by the shipped rows.
fn shown<R: Read, W: Write>(alloc: Global, reader: &mut R, writer: &mut W) -> Result<(), RunFault> {
    let rule = Rule::new(2, 1);
    run_levels(alloc, reader, None, rule, Some(PLAN), &Unobserved, writer)
}

#[test]
fn levels_are_those_with_the_torch_of_the_plan(rt: HostRuntime) -> Result<(), Fail> {
    let alloc = rt.alloc();
    let bytes = PILLAR.bytes(alloc)?;
    let mut written = Vec::new(alloc);
    shown(alloc, &mut bytes.as_slice(), &mut written)?;
    assert_eq!(rt; written.as_slice(), TEXT);
    Ok(())
}

#[test]
fn a_plan_may_come_byte_by_byte_and_a_read_of_it_that_fails_is_told(
    rt: HostRuntime,
) -> Result<(), Fail> {
    let alloc = rt.alloc();
    for fails_at in 0..=PLAN.len() {
        let mut reader = reader_of(PLAN, fails_at);
        let ended = read_plan(alloc, &mut reader);
        assert!(rt; matches!(&ended, Err(RunFault::ReadFailed)));
    }
    let mut reader = reader_of(PLAN, usize::MAX);
    let plan = read_plan(alloc, &mut reader)?;
    assert_eq!(rt; plan.as_slice(), PLAN);
    Ok(())
}

#[test]
fn a_stream_of_levels_that_failed_is_not_tried_again(rt: HostRuntime) -> Result<(), Fail> {
    let alloc = rt.alloc();
    let bytes = PILLAR.bytes(alloc)?;
    for fails_at in 0..=bytes.len() {
        let mut reader = once_failing_reader_of(&bytes, fails_at);
        let mut written = Vec::new(alloc);
        let ended = shown(alloc, &mut reader, &mut written);
        assert!(rt; matches!(&ended, Err(RunFault::ReadFailed)));
        assert!(rt; written.is_empty());
    }
    for fails_at in 0..TEXT.len() {
        let mut writer = once_failing_writer(alloc, fails_at);
        let ended = shown(alloc, &mut bytes.as_slice(), &mut writer);
        assert!(rt; matches!(&ended, Err(RunFault::WriteFailed)));
        assert_eq!(rt; writer.taken.as_slice(), &TEXT[..fails_at]);
    }
    Ok(())
}
