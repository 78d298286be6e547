//! Two workers, of whom some are held back until the other has work too.
use super::counted::{closed, report_of};
use super::gates::Meeting;
use super::ring_caves::{both_rings, each_ring, stone_ring};
use instance_regions::Region;
use search_pool::Report;
use std::alloc::Global;
use std::process::Abort;
use std::sync::{Arc, Wait};
use std::test::Fail;
use std::thread::Threads;

/// The report of two workers, of whom these are held back and none stopped waiting, and whether a kid of one of the
/// root's kids entered. The cover has `size` places.
fn met<X: Abort + Threads + Wait + Sync>(
    rt: &X,
    alloc: Global,
    region: &Arc<Region>,
    held: [bool; 2],
    size: u64,
) -> Result<(Report, bool), Fail> {
    let gate = Meeting::of(held);
    let report = report_of(rt, alloc, region, 2, &gate)?;
    assert_eq!(rt; report.cover.size(), size);
    assert!(rt; !gate.gave_up());
    Ok((report, gate.has_reopened()))
}

#[test]
fn all_pieces_of_the_ring_are_closed_while_one_worker_is_held(rt: HostRuntime) -> Result<(), Fail> {
    let (report, _) = met(&rt, rt.alloc(), &stone_ring(rt.alloc())?, [true, false], 2)?;
    assert_eq!(rt;
        [report.gleaned, report.left, report.handed_back],
        [0, 0, 0]
    );
    assert_eq!(rt; closed(&report), report.pushed.wrapping_sub(report.opened));
    Ok(())
}

#[test]
fn both_workers_enter_and_close_pieces(rt: HostRuntime) -> Result<(), Fail> {
    let (report, _) = met(&rt, rt.alloc(), &stone_ring(rt.alloc())?, [true, true], 2)?;
    assert_eq!(rt; report.closed_by.len(), 2);
    for count in &report.closed_by {
        assert!(rt; *count >= 1);
    }
    assert_eq!(rt; report.gleaned, 0);
    Ok(())
}

#[test]
fn pieces_of_two_rings_in_one_region_are_opened_again(rt: HostRuntime) -> Result<(), Fail> {
    let (report, has_reopened) = met(&rt, rt.alloc(), &both_rings(rt.alloc())?, [true, true], 4)?;
    assert!(rt; has_reopened);
    assert!(rt; report.opened >= 1);
    assert_eq!(rt; report.gleaned, 0);
    Ok(())
}

#[test]
fn two_rings_are_two_regions_of_two_torches(rt: HostRuntime) -> Result<(), Fail> {
    let regions = each_ring(rt.alloc())?;
    assert_eq!(rt; regions.len(), 2);
    for region in regions {
        met(
            &rt,
            rt.alloc(),
            &Arc::new(rt.alloc(), region)?,
            [false, false],
            2,
        )?;
    }
    Ok(())
}
