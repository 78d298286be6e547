//! Inputs at their limits and past them, and readers without end.

use super::dark_streams::shown;
use super::plan_streams::run_over;
use super::planning::freely;
use cave_files::caves::PILLAR;
use cave_files::streams::{Endless, zeros_of};
use nbt_core::NbtFault;
use proof_check::{CheckFault, check_from};
use scan_core::ScanFault;
use std::test::Fail;
use torch_plan::{Input, Rule, RunFault, read_table, run_check};

/// The bytes that a structure file may have.
const STRUCTURE_LIMIT: usize = 67_108_864;

/// The bytes that a table may have.
pub(crate) const TABLE_LIMIT: usize = 1_048_576;

/// The bytes that are read at a time.
const BUFFER: usize = 8_192;

#[test]
fn a_structure_of_the_limit_is_judged_and_one_byte_more_is_too_long_to_each_command(
    rt: HostRuntime,
) -> Result<(), Fail> {
    let alloc = rt.alloc();
    let rule = Rule::new(2, 1);
    let mut text = Vec::new(alloc);
    let mut proof = Vec::new(alloc);
    let mut reader = zeros_of(STRUCTURE_LIMIT);
    let ended = shown(alloc, &mut reader, &mut text);
    assert!(rt;
        matches!(
            &ended,
            Err(RunFault::Scan(ScanFault::Nbt(NbtFault::NotCompound)))
        )
    );
    let mut reader = zeros_of(STRUCTURE_LIMIT + 1);
    let ended = shown(alloc, &mut reader, &mut text);
    assert!(rt; matches!(&ended, Err(RunFault::TooLong(Input::StructureInput))));
    let mut reader = zeros_of(STRUCTURE_LIMIT + 1);
    let opts = freely(&rt);
    let ended = run_over(&rt, alloc, &mut reader, &opts, &mut text, &mut proof);
    assert!(rt; matches!(&ended, Err(RunFault::TooLong(Input::StructureInput))));
    let ended = run_check(
        alloc,
        &mut zeros_of(STRUCTURE_LIMIT + 1),
        None,
        rule,
        &mut zeros_of(usize::MAX),
        &mut text,
    );
    assert!(rt; matches!(&ended, Err(RunFault::TooLong(Input::StructureInput))));
    assert!(rt; text.is_empty());
    assert!(rt; proof.is_empty());
    Ok(())
}

#[test]
fn a_reader_without_end_is_left_one_buffer_past_the_limit(rt: HostRuntime) -> Result<(), Fail> {
    let alloc = rt.alloc();
    let mut reader = zeros_of(usize::MAX);
    let mut written = Vec::new(alloc);
    let ended = shown(alloc, &mut reader, &mut written);
    assert!(rt; matches!(&ended, Err(RunFault::TooLong(Input::StructureInput))));
    assert!(rt; STRUCTURE_LIMIT < reader.given);
    assert!(rt; reader.given <= STRUCTURE_LIMIT + BUFFER);
    assert!(rt; written.is_empty());
    let mut reader = zeros_of(usize::MAX);
    let ended = read_table(alloc, &mut reader);
    assert!(rt; matches!(&ended, Err(RunFault::TooLong(Input::TableInput))));
    assert!(rt; TABLE_LIMIT < reader.given);
    assert!(rt; reader.given <= TABLE_LIMIT + BUFFER);
    Ok(())
}

#[test]
fn a_certificate_without_end_is_given_up(rt: HostRuntime) -> Result<(), Fail> {
    let alloc = rt.alloc();
    let structure = PILLAR.bytes(alloc)?;
    for byte in [b'\n', b't'] {
        let mut reader = Endless { byte };
        let rule = Rule::new(2, 1);
        let ended = check_from(alloc, &structure, None, rule, &mut reader, u64::MAX);
        assert!(rt; matches!(&ended, Err(CheckFault::ReadFailed)));
    }
    Ok(())
}
