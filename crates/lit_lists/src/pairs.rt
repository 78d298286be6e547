//! Which places light which dark cells: `ArePairsOf` of specs/Lists.antt.
ghost use Rattle.std.specs.Prelude.{◌≡◌, ◌<◌, ◌++◌, length, filter, All, IfOk, OnOk};
ghost use Rattle.cave_base.specs.Box.{cell_count};
ghost use Rattle.cave_model.specs.Passages.{ArePassages};
ghost use Rattle.cave_model.specs.Spawn.{IsDark};
ghost use Rattle.cave_model.specs.Torches.{IsPlace};
ghost use Rattle.lit_lists.specs.Lists.{AreLights, AreMarksOf, ArePairsOf, ArePlacesOf, is_marked, row_at};
ghost use Rattle.lit_lists.specs.Seeded.{IsScratch};

use crate::cell_lists::CellLists;
use crate::lighting::{light_back, reach};
use cave_base::Cell;
use cave_model::{Passages, World};
use std::alloc::{AllocError, Global};
use std::marker::Model;

/// Which places light which dark cells, as lists both ways.
#[derive(Debug, Drop)]
pub struct Pairs {
    lights: CellLists,
    lit_by: CellLists,
}

impl Model for Pairs {
    ghost use Rattle.lit_lists.specs.Lists as lists;

    ghost Value = { lists.Pairs };

    ghost view = { λ p. record { lights = p.lights; lit_by = p.lit_by } };
}

impl Pairs {
    /// The dark cells that a torch at the place lights; none where it is no place.
    pub fn lights(&self, place: Cell) -> &[Cell]
        ensures { result.now ≡ row_at self.now.lights place }
    {
        self.lights.row(place)
    }

    /// The places that light the cell, ascending; none where it isn't dark.
    pub fn lit_by(&self, cell: Cell) -> &[Cell]
        ensures { result.now ≡ row_at self.now.lit_by cell }
    {
        self.lit_by.row(cell)
    }
}

/// Lists, after what is listed, those of the cells that are marked.
fn list_marked(numbers: &mut Vec<u32>, marks: &[bool], cells: &[u32]) -> Result<(), AllocError>
    requires inside { All (λ cell. cell < length marks.now) cells.now }
    ensures { OnOk result (numbers.new.items ≡ numbers.old.items ++ filter (is_marked marks.now) cells.now) }
{
    for cell in cells {
        if marks[*cell as usize] {
            numbers.push(*cell)?;
        }
    }
    Ok(())
}

/// Lists, for each cell, the places that light it where it is dark. The levels are a scratch of no light.
fn find_places(
    alloc: Global,
    world: &World,
    passages: &Passages,
    dark: &[bool],
    places: &[bool],
    levels: &mut [u8],
) -> Result<CellLists, AllocError>
    requires scratch { IsScratch world.now levels.old }
    requires passages { ArePassages world.now passages.now }
    requires dark { AreMarksOf (cell_count world.now.size) (IsDark world.now) dark.now }
    requires places { AreMarksOf (cell_count world.now.size) (IsPlace world.now) places.now }
    ensures { IfOk result (ArePlacesOf world.now (cell_count world.now.size)) }
{
    let mut queue = Vec::new(alloc);
    let mut reached = Vec::new(alloc);
    let mut starts = Vec::with_capacity(alloc, world.cell_count() as usize + 1)?;
    let mut found = Vec::new(alloc);
    starts.push(0)?;
    for cell in 0..world.cell_count() {
        if dark[cell as usize] {
            let light = light_back(world, cell);
            reach(
                world,
                Some(passages),
                levels,
                &mut queue,
                &mut reached,
                cell,
                light,
            )?;
            list_marked(&mut found, places, &reached)?;
        }
        starts.push(found.len())?;
    }
    Ok(CellLists::new(starts, found))
}

/// Every place of the world with the dark cells that it lights.
pub fn pairs_of(
    alloc: Global,
    world: &World,
    passages: &Passages,
    dark: &[bool],
    places: &[bool],
) -> Result<Pairs, AllocError>
    requires passages { ArePassages world.now passages.now }
    requires dark { AreMarksOf (cell_count world.now.size) (IsDark world.now) dark.now }
    requires places { AreMarksOf (cell_count world.now.size) (IsPlace world.now) places.now }
    ensures { IfOk result (ArePairsOf world.now) }
{
    let mut levels = vec![in alloc; 0; world.cell_count() as usize]?;
    let found = find_places(alloc, world, passages, dark, places, levels.as_mut_slice())?;
    let lights = found.turned(alloc, world.cell_count())?;
    let lit_by = lights.turned(alloc, world.cell_count())?;
    Ok(Pairs { lights, lit_by })
}
