//! Readers and writers that fail once by `dark`, and tables from readers that fail.

use cave_files::caves::{FELT_TABLE, PILLAR};
use cave_files::streams::{once_failing_reader_of, once_failing_writer, reader_of};
use std::alloc::Global;
use std::io::{Read, Write};
use std::test::Fail;
use torch_plan::{Rule, RunFault, Unobserved, read_table, run_dark};

/// The dark text of the pillar.
pub(crate) const TEXT: &[u8] = b"dark 1\n0 1 0\n";

/// Prints the dark cells of what the reader has, by the shipped rows.
pub(crate) fn shown<R: Read, W: Write>(
    alloc: Global,
    reader: &mut R,
    writer: &mut W,
) -> Result<(), RunFault> {
    run_dark(alloc, reader, None, Rule::new(2, 1), &Unobserved, writer)
}

#[test]
fn a_table_may_come_byte_by_byte_and_a_read_of_it_that_fails_is_told(
    rt: HostRuntime,
) -> Result<(), Fail> {
    let alloc = rt.alloc();
    for fails_at in 0..=FELT_TABLE.len() {
        let mut reader = reader_of(FELT_TABLE, fails_at);
        let ended = read_table(alloc, &mut reader);
        assert!(rt; matches!(&ended, Err(RunFault::ReadFailed)));
    }
    let mut reader = reader_of(FELT_TABLE, usize::MAX);
    let table = read_table(alloc, &mut reader)?;
    assert_eq!(rt; table.as_slice(), FELT_TABLE);
    Ok(())
}

#[test]
fn a_read_that_failed_is_not_tried_again(rt: HostRuntime) -> Result<(), Fail> {
    let alloc = rt.alloc();
    let bytes = PILLAR.bytes(alloc)?;
    for fails_at in 0..=bytes.len() {
        let mut reader = once_failing_reader_of(&bytes, fails_at);
        let mut written = Vec::new(alloc);
        let ended = shown(alloc, &mut reader, &mut written);
        assert!(rt; matches!(&ended, Err(RunFault::ReadFailed)));
        assert!(rt; reader.calls == fails_at.wrapping_add(1));
        assert!(rt; written.is_empty());
        let mut reader = once_failing_reader_of(&bytes, fails_at);
        assert!(rt; matches!(read_table(alloc, &mut reader), Err(RunFault::ReadFailed)));
        assert!(rt; reader.calls == fails_at.wrapping_add(1));
    }
    Ok(())
}

#[test]
fn a_write_that_failed_is_not_tried_again(rt: HostRuntime) -> Result<(), Fail> {
    let alloc = rt.alloc();
    let bytes = PILLAR.bytes(alloc)?;
    for fails_at in 0..TEXT.len() {
        let mut writer = once_failing_writer(alloc, fails_at);
        let ended = shown(alloc, &mut bytes.as_slice(), &mut writer);
        assert!(rt; matches!(&ended, Err(RunFault::WriteFailed)));
        assert!(rt; writer.calls == fails_at.wrapping_add(1));
        assert_eq!(rt; writer.taken.as_slice(), &TEXT[..fails_at]);
    }
    Ok(())
}
