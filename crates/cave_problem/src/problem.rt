//! The set cover instance of a cave: `IsProblemOf` of specs/Coverage.antt.
ghost use Rattle.std.specs.Prelude.{◌≡◌, ◌≢◌, IfOk, IfErr};
ghost use Rattle.cave_base.specs.Answer.{IsRefusal};
ghost use Rattle.cave_problem.specs.Coverage.{IsProblemOf, IsUnlightableFault};
ghost use Rattle.cave_problem.specs.declared.fault.CoverFault.{CoverFault};
ghost use Rattle.set_cover.specs.Sparse.{IsSparse};

use crate::fault::CoverFault;
use crate::filling::{Lighting, lists_of};
use crate::places::legal_places;
use crate::search::first_unlit;
use cave_base::Cell;
use cave_model::World;
use light_flood::{dark_cells, light};
use set_cover::Sparse;
use std::alloc::Global;
use std::marker::Model;

/// The dark cells of a cave, its legal places, and which place lights which dark cell. Both stand ascending, and each
/// dark cell has a place that lights it. Its memory is a number for each pair of a place and a dark cell that it
/// lights.
#[derive(Debug, Drop)]
pub struct Problem {
    sparse: Sparse,
}

impl Model for Problem {
    ghost use Rattle.set_cover.specs.Sparse.{Sparse, IsSparse};

    ghost Value = { Sparse };

    ghost view = { λ p. p.sparse };

    ghost invariant = { λ p. IsSparse p.sparse };
}

impl Problem {
    /// The instance of a cave.
    pub fn new(alloc: Global, world: &World) -> Result<Problem, CoverFault>
        // Its dark cells, its places, and which of these lights which of those.
        ensures found { IfOk result (IsProblemOf world.now) }
        // A fault names the least dark cell that no place lights.
        ensures fault { IfErr result (λ e. e ≢ CoverFault.OutOfMemory → IsUnlightableFault world.now e) }
        // Such a fault is answered.
        ensures refused { (e : CoverFault) → IsUnlightableFault world.now e
            → IsRefusal CoverFault.OutOfMemory result e }
    {
        let levels = light(alloc, world)?;
        let cells = dark_cells(alloc, world, &levels)?;
        let places = legal_places(alloc, world)?;
        let Lighting { lit, covered } = lists_of(alloc, world, &cells, &places)?;
        match first_unlit(&covered, &cells) {
            Some(cell) => Err(CoverFault::Unlightable { cell }),
            None => Ok(Problem {
                sparse: Sparse::new(cells, places, lit),
            }),
        }
    }

    /// The set cover instance that the problem is.
    pub fn sparse(&self) -> &Sparse
        ensures same { result.now ≡ self.now }
        ensures kept { IsSparse self.now }
    {
        &self.sparse
    }

    /// The dark cells, ascending.
    pub fn dark(&self) -> &[Cell]
        ensures cells { result.now ≡ self.now.cells }
        ensures kept { IsSparse self.now }
    {
        self.sparse.cells()
    }

    /// The legal places, ascending.
    pub fn places(&self) -> &[Cell]
        ensures places { result.now ≡ self.now.places }
        ensures kept { IsSparse self.now }
    {
        self.sparse.places()
    }
}
