//! The exact words of faults and of what is told beside them, and the statuses of faults.

use super::planning::line_of;
use block_rows::{RowFault, RowsFault};
use nbt_core::NbtFault;
use plan_reading::TorchesFault;
use scan_core::{Field, ScanFault};
use std::test::Fail;
use torch_plan::{Advance, Input, OpenSides, RunFault, Verdict, status_of};

/// A fault of a structure, and its words.
#[derive(Clone, Copy)]
struct Row {
    fault: ScanFault,
    words: &'static str,
}

/// The last place in a file, or index.
const LAST: usize = usize::MAX;

const ROWS: [Row; 12] = [
    Row {
        fault: ScanFault::Missing(Field::NameField(7)),
        words: "structure: missing palette[7].Name",
    },
    Row {
        fault: ScanFault::Nbt(NbtFault::Truncated { at: 67_108_864 }),
        words: "nbt: truncated at 67108864",
    },
    Row {
        fault: ScanFault::Nbt(NbtFault::Truncated { at: LAST }),
        words: "nbt: truncated at 18446744073709551615",
    },
    Row {
        fault: ScanFault::Nbt(NbtFault::BadTag { at: LAST, id: 255 }),
        words: "nbt: bad tag 255 at 18446744073709551615",
    },
    Row {
        fault: ScanFault::Nbt(NbtFault::BadLength { at: LAST }),
        words: "nbt: bad length at 18446744073709551615",
    },
    Row {
        fault: ScanFault::Nbt(NbtFault::TooDeep { at: LAST }),
        words: "nbt: too deep at 18446744073709551615",
    },
    Row {
        fault: ScanFault::BadPosition { index: 1_864_135 },
        words: "structure: block 1864135 outside the box",
    },
    Row {
        fault: ScanFault::BadPosition { index: LAST },
        words: "structure: block 18446744073709551615 outside the box",
    },
    Row {
        fault: ScanFault::BadState { index: LAST },
        words: "structure: block 18446744073709551615 has no such state",
    },
    Row {
        fault: ScanFault::Missing(Field::NameField(LAST)),
        words: "structure: missing palette[18446744073709551615].Name",
    },
    Row {
        fault: ScanFault::WrongType(Field::PosField(LAST)),
        words: "structure: wrong type of blocks[18446744073709551615].pos",
    },
    Row {
        fault: ScanFault::Missing(Field::StateField(LAST)),
        words: "structure: missing blocks[18446744073709551615].state",
    },
];

#[test]
fn faults_have_their_words(rt: HostRuntime) -> Result<(), Fail> {
    for row in ROWS {
        let line = line_of(rt.alloc(), &RunFault::Scan(row.fault))?;
        assert_eq!(rt; line.as_str(), row.words);
    }
    let table = [
        (RunFault::ReadFailed, "cannot read"),
        (
            RunFault::TooLong(Input::StructureInput),
            "structure: file too long",
        ),
        (RunFault::TooLong(Input::TableInput), "table: file too long"),
        (RunFault::TooLong(Input::PlanInput), "plan: file too long"),
        (RunFault::TooLong(Input::ProofInput), "proof: file too long"),
        (
            RunFault::Plan(TorchesFault::Syntax { line: u64::MAX }),
            "plan: syntax line 18446744073709551615",
        ),
        (
            RunFault::Plan(TorchesFault::Illegal {
                x: 0,
                y: 1,
                z: u32::MAX,
            }),
            "plan: illegal torch 0 1 4294967295",
        ),
        (RunFault::WriteFailed, "cannot write"),
        (
            RunFault::Table(RowsFault::BadRow {
                index: LAST,
                fault: RowFault::PutNotPlain,
            }),
            "table: row 18446744073709551615: put",
        ),
        (
            RunFault::Unlightable { x: 1, y: 2, z: 3 },
            "unlightable 1 2 3",
        ),
        (
            RunFault::Unlightable {
                x: 127,
                y: 15,
                z: 127,
            },
            "unlightable 127 15 127",
        ),
        (
            RunFault::Unlightable {
                x: u32::MAX,
                y: u32::MAX,
                z: u32::MAX,
            },
            "unlightable 4294967295 4294967295 4294967295",
        ),
        (RunFault::NoThread, "no thread"),
        (RunFault::OutOfMemory, "out of memory"),
    ];
    for (fault, words) in &table {
        let line = line_of(rt.alloc(), fault)?;
        assert_eq!(rt; line.as_str(), *words);
    }
    Ok(())
}

#[test]
fn faults_have_their_statuses(rt: HostRuntime) {
    let table = [
        (RunFault::TooLong(Input::StructureInput), 1),
        (RunFault::Scan(ScanFault::Palettes), 1),
        (RunFault::Plan(TorchesFault::Syntax { line: 1 }), 1),
        (RunFault::Unlightable { x: 0, y: 0, z: 0 }, 3),
        (RunFault::ReadFailed, 6),
        (RunFault::WriteFailed, 6),
        (RunFault::NoThread, 7),
        (RunFault::OutOfMemory, 7),
    ];
    for (fault, status) in &table {
        assert_eq!(rt; status_of(fault), *status);
    }
}

#[test]
fn standings_and_verdicts_have_their_words(rt: HostRuntime) -> Result<(), Fail> {
    let alloc = rt.alloc();
    let turns = Advance::Turns {
        region: 2,
        regions: 5,
        floor: 38,
        size: 39,
        turns: 1200,
    };
    let line = format!(in alloc; "{turns}")?;
    assert_eq!(rt; line.as_str(), "region 2 of 5: 38 to 39 torches, turn 1200");
    let pieces = Advance::Pieces {
        region: 1,
        regions: 1,
        pieces: 7,
    };
    let line = format!(in alloc; "{pieces}")?;
    assert_eq!(rt; line.as_str(), "region 1 of 1: 7 pieces taken");
    let line = format!(in alloc; "{}", Advance::Searched { turns: 116 })?;
    assert_eq!(rt;
        line.as_str(),
        "search ended, with at most 116 turns for a region"
    );
    let line = format!(in alloc; "{}", Verdict::Accepted { torches: 262_144 })?;
    assert_eq!(rt; line.as_str(), "accepted 262144");
    Ok(())
}

#[test]
fn open_sides_have_their_words(rt: HostRuntime) -> Result<(), Fail> {
    let alloc = rt.alloc();
    let all = OpenSides {
        west: 4,
        east: 1,
        north: 262_144,
        south: 2,
        below: 12,
        above: u32::MAX,
    };
    let line = format!(in alloc; "{}", Advance::Open(all))?;
    assert_eq!(rt;
        line.as_str(),
        "free cells lie at the box's edge: 4 west, 1 east, 262144 north, 2 south, 12 below, \
        4294967295 above; outside counts as solid nothing, without ground, light or room, so save a block more of \
        floor, walls and ceiling"
    );
    let two = OpenSides {
        west: 4,
        east: 0,
        north: 0,
        south: 0,
        below: 12,
        above: 0,
    };
    let line = format!(in alloc; "{}", Advance::Open(two))?;
    assert_eq!(rt;
        line.as_str(),
        "free cells lie at the box's edge: 4 west, 12 below; outside counts as solid nothing, \
        without ground, light or room, so save a block more of floor, walls and ceiling"
    );
    Ok(())
}
