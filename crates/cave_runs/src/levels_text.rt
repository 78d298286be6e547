//! The text of levels of light: specs/LevelsText.antt.
ghost use Rattle.std.specs.Prelude.{◌≡◌, ◌<◌, ◌≤◌, ◌++◌, All, IfOk, IsTrue, codes};
ghost use Rattle.cave_base.specs.Box.{is_small, point};
ghost use Rattle.cave_runs.specs.DarkText.{point_line};
ghost use Rattle.cave_runs.specs.LevelsText as texts;

use cave_base::number;
use light_flood::Levels;
use std::alloc::{AllocError, Global};

/// A level up to 15 as a hexadecimal digit.
fn level_digit(level: u8) -> u8
    requires { level ≤ 15 }
    ensures { result ≡ texts.level_digit level }
{
    if level < 10 {
        return 48 + level;
    }
    87 + level
}

/// The digits of the cells of a row along x.
fn row(
    alloc: Global,
    size: [u32; 3],
    levels: &Levels,
    y: u32,
    z: u32,
) -> Result<Vec<u8>, AllocError>
    requires small { IsTrue (is_small (point size)) }
    requires low { All (λ level. level ≤ 15) levels.now }
    requires y { y < (point size).y }
    requires z { z < (point size).z }
    ensures { IfOk result (λ v. v.items ≡ texts.levels_row (point size) levels.now y z) }
{
    let mut out = Vec::new(alloc);
    for x in 0..size[0] {
        out.push(level_digit(levels.at(number(size, [x, y, z]))))?;
    }
    out.push(b'\n')?;
    Ok(out)
}

/// The rows of a layer.
fn layer(alloc: Global, size: [u32; 3], levels: &Levels, y: u32) -> Result<Vec<u8>, AllocError>
    requires small { IsTrue (is_small (point size)) }
    requires low { All (λ level. level ≤ 15) levels.now }
    requires y { y < (point size).y }
    ensures { IfOk result (λ v. v.items ≡ texts.levels_layer (point size) levels.now y) }
{
    let mut out = Vec::new(alloc);
    for z in 0..size[2] {
        let row = row(alloc, size, levels, y, z)?;
        out.extend_from_slice(&row)?;
    }
    Ok(out)
}

/// The text of these levels of a box: its sides, and a hexadecimal digit for each cell, a line for each row along x.
pub fn levels_text(alloc: Global, size: [u32; 3], levels: &Levels) -> Result<Vec<u8>, AllocError>
    requires small { IsTrue (is_small (point size)) }
    requires low { All (λ level. level ≤ 15) levels.now }
    ensures { IfOk result (λ v. v.items ≡ texts.levels_text (point size) levels.now) }
{
    let mut out = head(alloc, size)?;
    for y in 0..size[1] {
        let layer = layer(alloc, size, levels, y)?;
        out.extend_from_slice(&layer)?;
    }
    Ok(out)
}

/// The first line: the sides of the box.
fn head(alloc: Global, size: [u32; 3]) -> Result<Vec<u8>, AllocError>
    ensures { IfOk result (λ v. v.items ≡ codes "levels " ++ point_line (point size)) }
{
    let [x, y, z] = size;
    let line = format!(in alloc; "levels {x} {y} {z}\n")?;
    line.as_bytes().to_vec(alloc)
}
