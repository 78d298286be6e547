//! For each cell the neighbours that light can enter: `ArePassages` of specs/Passages.antt.
ghost use Rattle.std.specs.Prelude.{◌≡◌, ◌<◌, IfOk, OnOk, IsTrue, ◌↔◌};
ghost use Rattle.cave_base.specs.Box.{cell_count};
ghost use Rattle.cave_model.specs.Light.{entering_cost};
ghost use Rattle.cave_model.specs.Parts.{GoesOn};
ghost use Rattle.cave_model.specs.Passages.{ArePassages, passages_from};

use crate::world::World;
use cave_base::Cell;
use std::alloc::{AllocError, Global};
use std::marker::Model;

/// What no light comes through: as much as the highest level (Minecraft Wiki, "Light").
const OPAQUE: u8 = 15;

/// For each cell of a world the neighbours that light can enter. They stand in one list, one cell's after another's.
#[derive(Debug, Drop)]
pub struct Passages {
    /// Where the neighbours of each cell begin, and last where all end.
    starts: Vec<u32>,
    cells: Vec<Cell>,
}

impl Model for Passages {
    ghost use Rattle.std.specs.Prelude.{ℕ, List};
    ghost use Rattle.cave_model.specs.Parts.{AreStarts, parts};

    ghost Value = { List (List ℕ) };

    ghost view = { λ p. parts p.starts.items p.cells.items };

    ghost invariant = { λ p. AreStarts p.starts.items p.cells.items };
}

/// Whether light can enter the cell.
fn lets_in(world: &World, cell: Cell) -> bool
    requires in_box { cell < cell_count world.now.size }
    ensures { IsTrue result ↔ (entering_cost world.now cell < 15) }
{
    world.class_of(cell).opacity < OPAQUE
}

/// Lists, after what is listed, the neighbours of the cell that light can enter.
fn list_passages(world: &World, cell: Cell, cells: &mut Vec<Cell>) -> Result<(), AllocError>
    requires in_box { cell < cell_count world.now.size }
    ensures { OnOk result (GoesOn world.now cell cells.old.items cells.new.items) }
{
    for to in world.neighbours(cell) {
        if let Some(to) = to {
            if lets_in(world, to) {
                cells.push(to)?;
            }
        }
    }
    Ok(())
}

impl Passages {
    /// The passages of a world.
    pub fn new(alloc: Global, world: &World) -> Result<Passages, AllocError>
        ensures { IfOk result (λ p. ArePassages world.now p) }
    {
        let mut starts = Vec::with_capacity(alloc, world.cell_count() as usize + 1)?;
        let mut cells = Vec::new(alloc);
        starts.push(0)?;
        for cell in 0..world.cell_count() {
            list_passages(world, cell, &mut cells)?;
            starts.push(cells.len() as u32)?;
        }
        Ok(Passages { starts, cells })
    }

    /// The neighbours of the cell that light can enter; none of a number beyond the box.
    pub fn from(&self, cell: Cell) -> &[Cell]
        ensures { result.now ≡ passages_from self.now cell }
    {
        let row = cell as usize;
        if row + 1 < self.starts.len() {
            &self.cells[self.starts[row] as usize..self.starts[row + 1] as usize]
        } else {
            &[]
        }
    }
}
