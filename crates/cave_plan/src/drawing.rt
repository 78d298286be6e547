//! The text of a plan.
ghost use Rattle.std.specs.List.Sorted.{IsStrictlyIncreasing};
ghost use Rattle.std.specs.Prelude.{◌≡◌, ◌<◌, All, IfOk, string_bytes, flat_map};
ghost use Rattle.cave_base.specs.Box.{cell_count};
ghost use Rattle.cave_plan.specs.PlanText as texts;

use cave_base::{Cell, Class, coordinates, number};
use cave_model::{Hang, World};
use set_cover::find;
use std::alloc::{AllocError, Global};

/// The word of a hang, and the mark of a torch that hangs so.
fn hang_texts(hang: Hang) -> (&'static str, &'static str)
    ensures word { result.0.now ≡ texts.hang_word hang }
    ensures mark { result.1.now ≡ texts.hang_mark hang }
{
    match hang {
        Hang::Floor => ("floor", "T"),
        Hang::North => ("north", "^"),
        Hang::East => ("east", ">"),
        Hang::South => ("south", "v"),
        Hang::West => ("west", "<"),
    }
}

/// How the torch in the cell hangs.
fn hang_at(world: &World, cell: Cell) -> Hang
    requires in_box { cell < cell_count world.now.size }
    ensures { result ≡ texts.hang_at world.now cell }
{
    match world.hang_of(cell) {
        Some(hang) => hang,
        None => Hang::Floor,
    }
}

/// The mark of a block.
fn block_mark(class: Class) -> &'static str
    ensures { result.now ≡ texts.block_mark class }
{
    if class.emission > 0 {
        return "*";
    }
    if class.free {
        return ".";
    }
    "#"
}

/// Whether a new torch stands in the cell.
fn is_torch(torches: &[Cell], cell: Cell) -> bool
    requires ascending { IsStrictlyIncreasing torches.now }
    ensures { result ≡ texts.is_torch torches.now cell }
{
    find(torches, cell).is_some()
}

/// The mark of a cell.
fn mark_at(world: &World, torches: &[Cell], cell: Cell) -> &'static str
    requires in_box { cell < cell_count world.now.size }
    requires ascending { IsStrictlyIncreasing torches.now }
    ensures { result.now ≡ texts.mark_at world.now torches.now cell }
{
    if is_torch(torches, cell) {
        let (_, mark) = hang_texts(hang_at(world, cell));
        return mark;
    }
    block_mark(world.class_of(cell))
}

/// A row of a layer.
fn row_text(
    alloc: Global,
    world: &World,
    torches: &[Cell],
    y: u32,
    z: u32,
) -> Result<String, AllocError>
    requires ascending { IsStrictlyIncreasing torches.now }
    requires y { y < world.now.size.y }
    requires z { z < world.now.size.z }
    ensures { IfOk result (λ s. string_bytes s ≡ texts.row_text world.now torches.now y z) }
{
    let size = world.size();
    let mut out = String::new(alloc);
    for x in 0..size[0] {
        out.push_str(mark_at(world, torches, number(size, [x, y, z])))?;
    }
    out.push_str("\n")?;
    Ok(out)
}

/// A layer with its height.
fn layer_text(alloc: Global, world: &World, torches: &[Cell], y: u32) -> Result<String, AllocError>
    requires ascending { IsStrictlyIncreasing torches.now }
    requires y { y < world.now.size.y }
    ensures { IfOk result (λ s. string_bytes s ≡ texts.layer_text world.now torches.now y) }
{
    let size = world.size();
    let mut out = format!(in alloc; "layer {y}\n")?;
    for z in 0..size[2] {
        let row = row_text(alloc, world, torches, y, z)?;
        out.push_str(row.as_str())?;
    }
    Ok(out)
}

/// Whether a torch stands in the layer.
fn has_torch(world: &World, torches: &[Cell], y: u32) -> bool
    requires in_box { All (λ cell. cell < cell_count world.now.size) torches.now }
    ensures { result ≡ texts.has_torch world.now torches.now y }
{
    let size = world.size();
    for torch in torches {
        if coordinates(size, *torch)[1] == y {
            return true;
        }
    }
    false
}

/// A layer with its height, where a torch stands in it.
fn layer_if(alloc: Global, world: &World, torches: &[Cell], y: u32) -> Result<String, AllocError>
    requires in_box { All (λ cell. cell < cell_count world.now.size) torches.now }
    requires ascending { IsStrictlyIncreasing torches.now }
    requires y { y < world.now.size.y }
    ensures { IfOk result (λ s. string_bytes s ≡ texts.layer_if world.now torches.now y) }
{
    if has_torch(world, torches, y) {
        return layer_text(alloc, world, torches, y);
    }
    Ok(String::new(alloc))
}

/// All layers in which a torch stands.
fn layers_text(alloc: Global, world: &World, torches: &[Cell]) -> Result<String, AllocError>
    requires in_box { All (λ cell. cell < cell_count world.now.size) torches.now }
    requires ascending { IsStrictlyIncreasing torches.now }
    ensures { IfOk result (λ s. string_bytes s
        ≡ texts.up_to (texts.layer_if world.now torches.now) world.now.size.y) }
{
    let size = world.size();
    let mut out = String::new(alloc);
    for y in 0..size[1] {
        let layer = layer_if(alloc, world, torches, y)?;
        out.push_str(layer.as_str())?;
    }
    Ok(out)
}

/// A torch on a line of its own.
fn torch_line(alloc: Global, world: &World, cell: Cell) -> Result<String, AllocError>
    requires in_box { cell < cell_count world.now.size }
    ensures { IfOk result (λ s. string_bytes s ≡ texts.torch_line world.now cell) }
{
    let [x, y, z] = coordinates(world.size(), cell);
    let (hang, _) = hang_texts(hang_at(world, cell));
    format!(in alloc; "T {x} {y} {z} {hang}\n")
}

/// A line for each torch.
fn torch_lines(alloc: Global, world: &World, torches: &[Cell]) -> Result<String, AllocError>
    requires in_box { All (λ cell. cell < cell_count world.now.size) torches.now }
    ensures { IfOk result (λ s. string_bytes s ≡ flat_map (texts.torch_line world.now) torches.now) }
{
    let mut out = String::new(alloc);
    for torch in torches {
        let line = torch_line(alloc, world, *torch)?;
        out.push_str(line.as_str())?;
    }
    Ok(out)
}

/// The lines of the counts.
fn head_text(
    alloc: Global,
    torches: usize,
    dark: usize,
    floor: Option<u64>,
) -> Result<String, AllocError>
    ensures { IfOk result (λ s. string_bytes s ≡ texts.head_text torches dark floor) }
{
    match floor {
        Some(floor) => format!(in alloc; "torches {torches} at-least {floor}\ndark {dark}\n"),
        None => format!(in alloc; "torches {torches}\ndark {dark}\n"),
    }
}

/// The text of a plan: how many torches and dark cells there are, a line a torch, and each layer with a torch, drawn
/// row by row (this project's own). The torches stand in the order of their cells.
pub fn plan_text(
    alloc: Global,
    world: &World,
    torches: &[Cell],
    dark: usize,
    floor: Option<u64>,
) -> Result<String, AllocError>
    requires in_box { All (λ cell. cell < cell_count world.now.size) torches.now }
    requires ascending { IsStrictlyIncreasing torches.now }
    ensures { IfOk result (λ s. string_bytes s ≡ texts.plan_text world.now torches.now dark floor) }
{
    let mut out = head_text(alloc, torches.len(), dark, floor)?;
    let lines = torch_lines(alloc, world, torches)?;
    out.push_str(lines.as_str())?;
    let layers = layers_text(alloc, world, torches)?;
    out.push_str(layers.as_str())?;
    Ok(out)
}
