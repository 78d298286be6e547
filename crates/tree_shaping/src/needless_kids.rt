//! Kids that a finished branch can do without. Where a kid's place lights, of the cells that the trees of the other
//! kids speak of, only such as the place of another kid lights too, the rest of what it lights is left out above the
//! branch, and then the place for the other one. Weights stand on few of the cells, so that in a long search many kids
//! go (this project's own). Where no leaf is weighted a branch keeps its kids: earlier versions of the certificate,
//! which know no cells that are left out, can say it.

use crate::node_rows::NodeRows;
use crate::spoken::Spoken;
use instance_reduction::{InRegion, RegionInstance};
use number_lists::{keep_all, set_bit};
use proof_tree::{Bar, Proof};
use std::alloc::{AllocError, Global};

/// A tree, and what it speaks of.
#[derive(Drop)]
pub(crate) struct SpokenTree {
    pub tree: Proof,
    pub spoken: Spoken,
}

/// A finished branch on a cell at a node: the places of its kids, and their trees.
#[derive(Clone, Copy)]
pub(crate) struct FinishedBranch<'a> {
    pub whole: RegionInstance<'a>,
    pub left: &'a NodeRows,
    pub cell: InRegion,
    pub places: &'a [u32],
    pub kids: &'a [SpokenTree],
}

/// Which kids of a branch can go, the places to leave out for that, and a row of the cells.
#[derive(Drop)]
pub(crate) struct Needless {
    pub is_gone: Vec<bool>,
    pub bars: Vec<Bar>,
    pub cells: Vec<u64>,
}

impl<'a> FinishedBranch<'a> {
    /// The kids that the branch can do without, the longest trees first; none where they aren't looked for.
    pub(crate) fn needless(self, alloc: Global, is_first: bool) -> Result<Needless, AllocError> {
        let kids = self.kids;
        let mut found = Needless {
            is_gone: vec![in alloc; false; kids.len()]?,
            bars: Vec::new(alloc),
            cells: vec![in alloc; 0u64; self.left.unlit.len()]?,
        };
        if !is_first || self.places.len() != kids.len() || !has_weights(kids) {
            return Ok(found);
        }
        let mut order = Vec::with_capacity(alloc, kids.len())?;
        for (index, kid) in kids.iter().enumerate() {
            order.push((u64::MAX - kid.spoken.size(), index))?;
        }
        order.sort_unstable();
        for _ in 0..kids.len() {
            let before = found.bars.len();
            for (_, index) in &order {
                self.try_without(alloc, *index, &mut found)?;
            }
            if found.bars.len() == before {
                break;
            }
        }
        Ok(found)
    }

    /// Lets a kid go, if the branch can do without it.
    fn try_without(
        self,
        alloc: Global,
        index: usize,
        found: &mut Needless,
    ) -> Result<(), AllocError> {
        let unlit = self.left.unlit.as_slice();
        let place = InRegion::of(self.places.get(index).copied().unwrap_or(u32::MAX));
        if found.is_gone_at(index) || is_needed(self.kids, &found.is_gone, index, place) {
            return Ok(());
        }
        let mut rest = vec![in alloc; 0u64; unlit.len()]?;
        for (other, kid) in self.kids.iter().enumerate() {
            if other != index && !found.is_gone_at(other) {
                kid.spoken.write_cells(rest.as_mut_slice());
            }
        }
        set_bit(rest.as_mut_slice(), self.cell.index());
        keep_all(rest.as_mut_slice(), unlit);
        for (other, by) in self.places.iter().enumerate() {
            let by = InRegion::of(*by);
            if other != index
                && !found.is_gone_at(other)
                && self.whole.is_within(place, by, &rest)
            {
                found.bars.push(Bar {
                    place: place.number(),
                    by: by.number(),
                })?;
                let cells = found.cells.as_mut_slice();
                self.whole.mark_beyond(place, by, unlit, cells);
                found.go(index);
                return Ok(());
            }
        }
        Ok(())
    }
}

impl Needless {
    fn is_gone_at(&self, index: usize) -> bool {
        self.is_gone.get(index).copied().unwrap_or(false)
    }

    fn go(&mut self, index: usize) {
        let is_gone = self.is_gone.as_mut_slice();
        if index < is_gone.len() {
            is_gone[index] = true;
        }
    }
}

/// Whether a leaf of one of the trees is weighted.
fn has_weights(kids: &[SpokenTree]) -> bool {
    for kid in kids {
        if kid.spoken.has_weights() {
            return true;
        }
    }
    false
}

/// Whether the place mustn't be barred above the tree of one of the kids before this one that stay. Where it is the
/// place of a kid there, that one goes with it.
fn is_needed(kids: &[SpokenTree], is_gone: &[bool], index: usize, place: InRegion) -> bool {
    for (other, kid) in kids.iter().enumerate() {
        if other < index
            && !is_gone.get(other).copied().unwrap_or(false)
            && kid.spoken.has_by(place)
        {
            return true;
        }
    }
    false
}
