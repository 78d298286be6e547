//! The weights of a part raised, one cell after another, as far as its places have room: a dual ascent from the
//! part's weights, where some of its cells are lit and some of its places barred. A cell has no room while one of its
//! places is full. For each cell these are counted, so that cells without room are passed over.

use linear_relaxation::{InPart, ONE, Relaxation, add_at, at, most_at};
use number_lists::{Bits, clear_all, count_numbers, drop_all, set_bit};
use std::alloc::{AllocError, Global};

/// A place that lights more has hardly any room.
const FULL: i64 = ONE - ONE / 512;

/// What a barred place is said to light, so that it binds no weight.
const BARRED: i64 = -(1 << 50);

/// How much of the weights each place lights, and which cells may have room. Numbers are those of the part.
#[derive(Drop)]
pub(crate) struct Raising<'a> {
    relaxation: &'a Relaxation,
    /// How much of the weights each place lights, at first and as they are raised.
    loads: Vec<i64>,
    tried: Vec<i64>,
    /// How many full places each cell has, at first and as weights are raised.
    counts: Vec<u32>,
    full: Vec<u32>,
    /// Rows of the cells without a full place: at first, and with those that lost their last one; and of lit cells.
    roomy: Vec<u64>,
    may_rise: Vec<u64>,
    lit: Vec<u64>,
}

impl<'a> Raising<'a> {
    /// No cell is lit, and no place barred.
    pub(crate) fn new(
        alloc: Global,
        relaxation: &'a Relaxation,
    ) -> Result<Raising<'a>, AllocError> {
        let places = relaxation.taken().len();
        let mut loads = Vec::with_capacity(alloc, places)?;
        for place in 0..places {
            loads.push(relaxation.load(InPart::at(place)))?;
        }
        let cells = relaxation.best().len();
        let mut counts = vec![in alloc; 0u32; cells]?;
        for (place, load) in loads.iter().enumerate() {
            if *load > FULL {
                count_numbers(counts.as_mut_slice(), relaxation.lights(InPart::at(place)));
            }
        }
        let mut roomy = vec![in alloc; 0u64; cells / 64 + 1]?;
        for (cell, count) in counts.iter().enumerate() {
            if *count == 0 {
                set_bit(roomy.as_mut_slice(), cell);
            }
        }
        Ok(Raising {
            relaxation,
            tried: Vec::from_slice(alloc, loads.as_slice())?,
            full: Vec::from_slice(alloc, counts.as_slice())?,
            may_rise: Vec::from_slice(alloc, roomy.as_slice())?,
            lit: vec![in alloc; 0u64; roomy.len()]?,
            loads,
            counts,
            roomy,
        })
    }

    /// Begins anew, with no cell lit and no place barred.
    pub(crate) fn begin(&mut self) -> Result<(), AllocError> {
        self.tried.clear();
        self.tried.extend_from_slice(self.loads.as_slice())?;
        self.full.clear();
        self.full.extend_from_slice(self.counts.as_slice())?;
        self.may_rise.clear();
        self.may_rise.extend_from_slice(self.roomy.as_slice())?;
        clear_all(self.lit.as_mut_slice());
        Ok(())
    }

    /// The place is barred.
    pub(crate) fn bar(&mut self, place: InPart) {
        self.set_load(place.index(), BARRED);
    }

    /// The cell is lit: it weighs nothing any more.
    pub(crate) fn light(&mut self, cell: InPart) {
        set_bit(self.lit.as_mut_slice(), cell.index());
        let relaxation = self.relaxation;
        let weight = at(relaxation.best(), cell.index());
        if weight > 0 {
            for place in relaxation.lit_by(cell) {
                let place = *place as usize;
                let load = at(self.tried.as_slice(), place);
                self.set_load(place, load.wrapping_sub(weight));
            }
        }
    }

    /// The place lights less. If it isn't full any more, its cells have a full one less.
    fn set_load(&mut self, place: usize, load: i64) {
        if place < self.tried.len() {
            let before = self.tried[place];
            self.tried[place] = load;
            if before > FULL && load <= FULL {
                for cell in self.relaxation.lights(InPart::at(place)) {
                    self.lose_full(*cell as usize);
                }
            }
        }
    }

    /// A full place of the cell isn't full any more.
    fn lose_full(&mut self, cell: usize) {
        if cell < self.full.len() {
            let left = self.full[cell].saturating_sub(1);
            self.full[cell] = left;
            if left == 0 {
                set_bit(self.may_rise.as_mut_slice(), cell);
            }
        }
    }

    /// By how much the cells that aren't lit may weigh more, raised in their order.
    pub(crate) fn raise_all(&mut self) -> i64 {
        drop_all(self.may_rise.as_mut_slice(), self.lit.as_slice());
        let mut more: i64 = 0;
        for word in 0..self.may_rise.len() {
            let cells = self.may_rise.get(word).copied().unwrap_or(0);
            for cell in Bits::of(cells, word) {
                more = more.wrapping_add(self.raise(InPart::at(cell)));
            }
        }
        more
    }

    /// By how much these cells may weigh more, raised in their order.
    pub(crate) fn raise_each(&mut self, cells: &[u32]) -> i64 {
        let mut more: i64 = 0;
        for cell in cells {
            more = more.wrapping_add(self.raise(InPart::of(*cell)));
        }
        more
    }

    /// Raises the weight of a cell as far as its places have room, and says by how much.
    fn raise(&mut self, cell: InPart) -> i64 {
        if self.full.get(cell.index()).copied().unwrap_or(0) > 0 {
            return 0;
        }
        let relaxation = self.relaxation;
        let places = relaxation.lit_by(cell);
        let room = ONE.wrapping_sub(most_at(self.tried.as_slice(), places));
        add_at(self.tried.as_mut_slice(), places, room);
        for place in places {
            if at(self.tried.as_slice(), *place as usize) > FULL {
                let cells = relaxation.lights(InPart::of(*place));
                count_numbers(self.full.as_mut_slice(), cells);
            }
        }
        room
    }
}
