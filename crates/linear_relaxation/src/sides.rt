//! Both sides of a relaxation, and the steps that they make in turn.

use crate::fixed_point::one_of;
use crate::runs::ranks_of;
use crate::side::{Lack, Side};
use number_lists::Coverage;
use std::alloc::{AllocError, Global};

/// How much of each place is taken, and what each cell weighs.
#[derive(Drop)]
pub(crate) struct Sides {
    pub taken: Side,
    pub weights: Side,
}

impl Sides {
    /// The sides of these numbers, of which places and cells are told here.
    pub(crate) fn new(
        alloc: Global,
        coverage: &Coverage,
        taken: Vec<i64>,
        weights: Vec<i64>,
    ) -> Result<Sides, AllocError> {
        let places = coverage.place_count();
        let cells = coverage.cell_count();
        Ok(Sides {
            taken: Side::new(alloc, taken, coverage.all_lights(), cells)?,
            weights: Side::new(alloc, weights, coverage.all_lit_by(), places)?,
        })
    }

    /// The sides of these places and cells alone.
    pub(crate) fn part(
        &self,
        alloc: Global,
        places: &[u32],
        cells: &[u32],
    ) -> Result<Sides, AllocError> {
        let of_places = ranks_of(alloc, self.taken.numbers().len(), places)?;
        let of_cells = ranks_of(alloc, self.weights.numbers().len(), cells)?;
        Ok(Sides {
            taken: self.taken.part(alloc, places, &of_cells, cells.len())?,
            weights: self.weights.part(alloc, cells, &of_places, places.len())?,
        })
    }

    /// Takes less of each place that lights too little weight, and more of one that lights too much; then gives more
    /// weight to each cell that is lit too little, and less to one that is lit more than once.
    pub(crate) fn step(&mut self) {
        self.taken.step(self.weights.numbers(), Lack::Lowers);
        self.weights.step(self.taken.ahead(), Lack::Raises);
    }

    /// Makes `steps` steps. Each goes twice as far, and then a part of the way back to where the first one began.
    pub(crate) fn run(&mut self, steps: u32) {
        self.taken.begin_run();
        self.weights.begin_run();
        for step in 0..steps {
            self.step();
            let back = one_of(step.saturating_add(2));
            self.taken.go_on(back);
            self.weights.go_on(back);
        }
    }
}
