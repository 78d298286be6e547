//! Writers that fail or take nothing, by `plan`.

use super::planning::{alone, freely, lines_with};
use cave_files::caves::{PILLAR, RING};
use cave_files::streams::{idle_writer, writer_of};
use std::alloc::Global;
use std::io::{Read, Write};
use std::sync::Wait;
use std::test::Fail;
use std::thread::Threads;
use torch_plan::{Outcome, PlanOpts, Resources, Rule, RunFault, Unobserved, run_plan};

/// Plans what the reader has, by the shipped rows.
pub(crate) fn run_over<X, R, W, V>(
    rt: &X,
    alloc: Global,
    reader: &mut R,
    opts: &PlanOpts,
    writer: &mut W,
    proof: &mut V,
) -> Result<Outcome, RunFault>
where
    X: Threads + Wait + Sync,
    R: Read,
    W: Write,
    V: Write,
{
    let resources = Resources {
        threads: rt,
        alloc,
        observer: &Unobserved,
    };
    run_plan(&resources, reader, None, opts, writer, proof)
}

#[test]
fn writers_of_a_plan_that_take_nothing_have_failed(rt: HostRuntime) -> Result<(), Fail> {
    let alloc = rt.alloc();
    let bytes = PILLAR.bytes(alloc)?;
    let opts = freely(&rt);
    let mut reader = bytes.as_slice();
    let mut writer = idle_writer(alloc);
    let mut proof = Vec::new(alloc);
    let ended = run_over(&rt, alloc, &mut reader, &opts, &mut writer, &mut proof);
    assert!(rt; matches!(&ended, Err(RunFault::WriteFailed)));
    assert!(rt; writer.taken.is_empty());
    assert!(rt; proof.ends_with(b"\nend\n"));
    let mut reader = bytes.as_slice();
    let mut writer = Vec::new(alloc);
    let mut proof = idle_writer(alloc);
    let ended = run_over(&rt, alloc, &mut reader, &opts, &mut writer, &mut proof);
    assert!(rt; matches!(&ended, Err(RunFault::WriteFailed)));
    assert!(rt; writer.is_empty());
    assert!(rt; proof.taken.is_empty());
    Ok(())
}

#[test]
fn one_turn_stops_the_ring_and_a_failed_write_of_that_leaves_a_beginning_and_no_certificate(
    rt: HostRuntime,
) -> Result<(), Fail> {
    let alloc = rt.alloc();
    let bytes = RING.bytes(alloc)?;
    let opts = alone(&rt, Rule::new(2, 1), Some(1));
    let mut reader = bytes.as_slice();
    let mut whole = Vec::new(alloc);
    let mut proof = Vec::new(alloc);
    let ended = run_over(&rt, alloc, &mut reader, &opts, &mut whole, &mut proof);
    assert!(rt; matches!(&ended, Ok(Outcome::Stopped { .. })));
    assert!(rt; proof.is_empty());
    assert!(rt; lines_with(&whole, b'T') >= 2);
    let first = whole.split(|byte| *byte == b'\n').next();
    let Some(line) = first else {
        return Err(Fail::from("no line"));
    };
    assert!(rt; line.ends_with(b" at-least 1") || line.ends_with(b" at-least 2"));
    for fails_at in 0..40usize {
        let mut reader = bytes.as_slice();
        let mut writer = writer_of(alloc, fails_at);
        let mut proof = Vec::new(alloc);
        let ended = run_over(&rt, alloc, &mut reader, &opts, &mut writer, &mut proof);
        assert!(rt; matches!(&ended, Err(RunFault::WriteFailed)));
        assert_eq!(rt; writer.taken.len(), fails_at);
        assert!(rt; whole.starts_with(&writer.taken));
        assert!(rt; proof.is_empty());
    }
    Ok(())
}
