//! Takes the largest box, a floor of stone and air above it, through each step from its bytes to its coverage: with
//! ample memory each step answers.
use crate::parts::{counted, world_of};
use cave_files::caves::LARGEST_FLOOR;
use cave_model::Rule;
use std::alloc::Global;
use std::test::Fail;
use torch_plan::{Unobserved, run_dark};

/// How many bytes the dark text of the structure has.
fn text_length(alloc: Global, bytes: &[u8]) -> Result<usize, Fail> {
    let mut text = Vec::new(alloc);
    let mut reader = bytes;
    run_dark(
        alloc,
        &mut reader,
        None,
        Rule::new(2, 1),
        &Unobserved,
        &mut text,
    )?;
    Ok(text.len())
}

/// Prints how many cells the box has, how many of them are dark and how many places, and how long the dark text is.
pub fn run(rt: &HostRuntime) -> Result<(), Fail> {
    let alloc = rt.alloc();
    let bytes = LARGEST_FLOOR.bytes(alloc)?;
    let world = world_of(alloc, &bytes, Rule::new(2, 1))?;
    let dark = counted(alloc, &world, "light")?;
    let places = counted(alloc, &world, "coverage")?;
    println!(rt;
        "{} cells, {dark} dark, {places} places",
        world.cell_count()
    )?;
    println!(rt; "a dark text of {} bytes", text_length(alloc, &bytes)?)?;
    Ok(())
}
