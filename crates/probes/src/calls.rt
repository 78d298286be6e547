//! Makes each call that takes memory on the pillar, and looks whether it answers what it has to, or that memory was
//! refused.
use block_rows::{Rows, RowsFault};
use cave_files::streams::ShortWriter;
use cave_model::{Rule, World};
use cave_problem::{CoverFault, Problem};
use cave_reading::{BuildFault, build, read_cave};
use light_flood::{dark_cells, light, reach};
use nbt_core::{NbtFault, read_root};
use scan_core::{ScanFault, read_scan};
use std::alloc::Global;
use std::io::Read;
use std::test::Fail;
use torch_plan::{RunFault, Unobserved, read_plan, read_table, run_dark, run_levels, run_rows};

const TABLE: &[u8] =
    b"[[row]]\nname = \"cave:felt\"\nwhen = { wet = \"no\" }\nopacity = 15\nstand = true\n";

const PLAN: &[u8] = b"torches 1\ndark 1\nT 0 1 0 floor\n";

const ROWS: &[u8] = b"15 0 stand top side\tminecraft:stone\n0 0 free put\tminecraft:air\n";

/// The root has its blocks.
fn read_root_is_wrong(alloc: Global, pillar: &[u8]) -> bool {
    match read_root(alloc, pillar) {
        Ok(root) => root.field(b"blocks").is_none(),
        Err(fault) => fault != NbtFault::OutOfMemory,
    }
}

/// The first cell is stone, and the others air.
fn read_scan_is_wrong(alloc: Global, pillar: &[u8]) -> bool {
    match read_scan(alloc, pillar) {
        Ok(scan) => scan.cells() != [Some(0), Some(1), Some(1)].as_slice(),
        Err(fault) => fault != ScanFault::OutOfMemory,
    }
}

/// Nothing but refused memory keeps the shipped rows back.
fn shipped_is_wrong(alloc: Global) -> bool {
    match Rows::shipped(alloc) {
        Ok(_) => false,
        Err(fault) => fault != RowsFault::OutOfMemory,
    }
}

/// Nothing but refused memory keeps this table back.
fn with_table_is_wrong(alloc: Global) -> bool {
    match Rows::with_table(alloc, TABLE) {
        Ok(_) => false,
        Err(fault) => fault != RowsFault::OutOfMemory,
    }
}

/// The cave has three cells.
fn build_is_wrong(alloc: Global, pillar: &[u8]) -> bool {
    let Ok(scan) = read_scan(alloc, pillar) else {
        return false;
    };
    let Ok(rows) = Rows::with_table(alloc, TABLE) else {
        return false;
    };
    match build(alloc, &scan, &rows, Rule::new(2, 1)) {
        Ok(world) => world.cell_count() != 3,
        Err(fault) => !matches!(fault, BuildFault::OutOfMemory),
    }
}

/// The pillar's cave; what refuses it is looked at above.
fn world_of(alloc: Global, pillar: &[u8]) -> Option<World> {
    read_cave(alloc, pillar, None, Rule::new(2, 1)).ok()
}

/// The middle cell is dark.
fn light_is_wrong(alloc: Global, pillar: &[u8]) -> bool {
    let Some(world) = world_of(alloc, pillar) else {
        return false;
    };
    let Ok(levels) = light(alloc, &world) else {
        return false;
    };
    match dark_cells(alloc, &world, &levels) {
        Ok(cells) => cells.as_slice() != [1].as_slice(),
        Err(_) => false,
    }
}

/// A torch in the middle cell brings 13 to the cell above.
fn reach_is_wrong(alloc: Global, pillar: &[u8]) -> bool {
    let Some(world) = world_of(alloc, pillar) else {
        return false;
    };
    if world.cell_count() != 3 {
        return true;
    }
    match reach(alloc, &world, 1, 14) {
        Ok(reach) => reach.at(2) != 13,
        Err(_) => false,
    }
}

/// A torch in the middle cell lights it.
fn problem_is_wrong(alloc: Global, pillar: &[u8]) -> bool {
    let Some(world) = world_of(alloc, pillar) else {
        return false;
    };
    match Problem::new(alloc, &world) {
        Ok(problem) => problem.dark() != [1].as_slice(),
        Err(fault) => fault != CoverFault::OutOfMemory,
    }
}

/// The bytes are those of the reader.
fn read_table_is_wrong(alloc: Global) -> bool {
    let mut reader = TABLE;
    match read_table(alloc, &mut reader) {
        Ok(bytes) => bytes.as_slice() != TABLE,
        Err(fault) => !matches!(fault, RunFault::OutOfMemory),
    }
}

/// The text is that of one dark cell; where memory is refused nothing is written.
fn run_dark_is_wrong(alloc: Global, pillar: &[u8]) -> bool {
    let mut reader = pillar;
    let mut writer = ShortWriter::new();
    let ended = run_dark(
        alloc,
        &mut reader,
        Some(TABLE),
        Rule::new(2, 1),
        &Unobserved,
        &mut writer,
    );
    match ended {
        Ok(()) => writer.taken() != b"dark 1\n0 1 0\n".as_slice(),
        Err(RunFault::OutOfMemory) => !writer.taken().is_empty(),
        Err(_) => true,
    }
}

fn read_plan_is_wrong(alloc: Global) -> bool {
    let mut reader = PLAN;
    match read_plan(alloc, &mut reader) {
        Ok(bytes) => bytes.as_slice() != PLAN,
        Err(fault) => !matches!(fault, RunFault::OutOfMemory),
    }
}

/// The text is that of the pillar with a torch; where memory is refused nothing is written.
fn run_levels_is_wrong(alloc: Global, pillar: &[u8]) -> bool {
    let mut reader = pillar;
    let mut writer = ShortWriter::new();
    let ended = run_levels(
        alloc,
        &mut reader,
        Some(TABLE),
        Rule::new(2, 1),
        Some(PLAN),
        &Unobserved,
        &mut writer,
    );
    match ended {
        Ok(()) => writer.taken() != b"levels 1 3 1\n0\ne\nd\n".as_slice(),
        Err(RunFault::OutOfMemory) => !writer.taken().is_empty(),
        Err(_) => true,
    }
}

/// The text is that of the pillar's two states; where memory is refused nothing is written.
fn run_rows_is_wrong(alloc: Global, pillar: &[u8]) -> bool {
    let mut reader = pillar;
    let mut writer = ShortWriter::new();
    match run_rows(alloc, &mut reader, Some(TABLE), &mut writer) {
        Ok(()) => writer.taken() != ROWS,
        Err(RunFault::OutOfMemory) => !writer.taken().is_empty(),
        Err(_) => true,
    }
}

/// Prints which calls are wrong, and how many there are: the same line whichever request for memory is
/// refused, as tools/dev/refuse-memory refuses each in turn.
pub fn run(rt: &HostRuntime) -> Result<(), Fail> {
    let alloc = rt.alloc();
    let mut pillar = [0u8; 213];
    rt.reader().read_exact(&mut pillar)?;
    let wrong = [
        ("read_root", read_root_is_wrong(alloc, &pillar)),
        ("read_scan", read_scan_is_wrong(alloc, &pillar)),
        ("shipped", shipped_is_wrong(alloc)),
        ("with_table", with_table_is_wrong(alloc)),
        ("build", build_is_wrong(alloc, &pillar)),
        ("light", light_is_wrong(alloc, &pillar)),
        ("reach", reach_is_wrong(alloc, &pillar)),
        ("Problem::new", problem_is_wrong(alloc, &pillar)),
        ("read_table", read_table_is_wrong(alloc)),
        ("run_dark", run_dark_is_wrong(alloc, &pillar)),
        ("read_plan", read_plan_is_wrong(alloc)),
        ("run_levels", run_levels_is_wrong(alloc, &pillar)),
        ("run_rows", run_rows_is_wrong(alloc, &pillar)),
    ];
    for (call, is_wrong) in wrong {
        if is_wrong {
            println!(rt; "{call} answers neither what it has to nor out of memory")?;
        }
    }
    println!(rt; "{} calls", wrong.len())?;
    Ok(())
}
