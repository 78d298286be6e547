//! The lines of a certificate before its regions.
ghost use Rattle.std.specs.Prelude.{◌≡◌, ◌++◌, IfOk, string_bytes};
ghost use Rattle.cave_base.specs.Box.{point};
ghost use Rattle.certificate_text.specs.Heading as texts;
ghost use Rattle.certificate_text.specs.Planned.{version_at};
ghost use Rattle.proof_rules.specs.Certificate.{first};

use crate::line::line_text;
use cave_model::World;
use std::alloc::{AllocError, Global};

/// The lines of version, box and headroom.
fn front_text(
    alloc: Global,
    version: &str,
    size: [u32; 3],
    headroom: u8,
) -> Result<String, AllocError>
    ensures { IfOk result (λ s. string_bytes s ≡ texts.front_text version.now (point size) headroom) }
{
    let [x, y, z] = size;
    format!(in alloc; "{version}\nbox {x} {y} {z}\nheadroom {headroom}\n")
}

/// The lines of the first version, which speaks of no need.
fn first_heading(alloc: Global, world: &World, regions: usize) -> Result<String, AllocError>
    ensures { IfOk result (λ s. string_bytes s ≡ texts.heading_text world.now regions first) }
{
    let headroom = world.rule().headroom;
    let mut out = front_text(alloc, "torchproof 1", world.size(), headroom)?;
    let regions = line_text(alloc, "regions", &[regions as u64])?;
    out.push_str(regions.as_str())?;
    Ok(out)
}

/// The lines of need and how many regions there are, which all later versions have.
fn need_text(alloc: Global, world: &World, regions: usize) -> Result<String, AllocError>
    ensures { IfOk result (λ s. string_bytes s ≡ texts.need_text world.now.rule.need regions) }
{
    let mut out = line_text(alloc, "need", &[world.need() as u64])?;
    let regions = line_text(alloc, "regions", &[regions as u64])?;
    out.push_str(regions.as_str())?;
    Ok(out)
}

/// The lines of a later version: those of version, box and headroom, and those that such a version has after them.
fn later_heading(
    alloc: Global,
    version: &str,
    world: &World,
    regions: usize,
) -> Result<String, AllocError>
    ensures { IfOk result (λ s. string_bytes s ≡ texts.front_text version.now world.now.size world.now.rule.headroom
        ++ texts.need_text world.now.rule.need regions) }
{
    let headroom = world.rule().headroom;
    let mut out = front_text(alloc, version, world.size(), headroom)?;
    let rest = need_text(alloc, world, regions)?;
    out.push_str(rest.as_str())?;
    Ok(out)
}

/// The lines up to the number of regions, in the version with this number.
pub fn heading(
    alloc: Global,
    world: &World,
    regions: usize,
    version: u8,
) -> Result<String, AllocError>
    ensures { IfOk result (λ s. string_bytes s
        ≡ texts.heading_text world.now regions (version_at world.now.rule.need version)) }
{
    if version >= 4 {
        later_heading(alloc, "torchproof 4", world, regions)
    } else if version >= 3 {
        later_heading(alloc, "torchproof 3", world, regions)
    } else if version >= 2 {
        later_heading(alloc, "torchproof 2", world, regions)
    } else {
        first_heading(alloc, world, regions)
    }
}
