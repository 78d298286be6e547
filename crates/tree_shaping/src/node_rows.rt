//! What is left of a node while its tree is made shorter.

use crate::needless_kids::Needless;
use crate::spoken::Spoken;
use instance_reduction::InRegion;
use number_lists::{clear_bit, drop_all, is_set, set_bit};
use proof_tree::Bar;
use std::alloc::{AllocError, Global};

/// Rows of the cells that are unlit at a node and not left out, of the places that are barred there, and of those that
/// are, though the tree doesn't know it.
#[derive(Drop)]
pub(crate) struct NodeRows {
    pub unlit: Vec<u64>,
    pub barred: Vec<u64>,
    pub gone: Vec<u64>,
}

impl NodeRows {
    pub(crate) fn copied(&self, alloc: Global) -> Result<NodeRows, AllocError> {
        Ok(NodeRows {
            unlit: Vec::from_slice(alloc, &self.unlit)?,
            barred: Vec::from_slice(alloc, &self.barred)?,
            gone: Vec::from_slice(alloc, &self.gone)?,
        })
    }

    /// Bars the places. Those of the bars whose places aren't gone: the tree speaks of what these go by.
    pub(crate) fn take_bars(
        &mut self,
        alloc: Global,
        bars: &[Bar],
        spoken: &mut Spoken,
    ) -> Result<Vec<Bar>, AllocError> {
        let mut kept = Vec::new(alloc);
        for bar in bars {
            set_bit(self.barred.as_mut_slice(), bar.place as usize);
            if !is_set(&self.gone, bar.place as usize) {
                spoken.add_by(InRegion::of(bar.by));
                kept.push(*bar)?;
            }
        }
        Ok(kept)
    }

    /// Leaves out the cells.
    pub(crate) fn omit(&mut self, cells: &[u32]) {
        for cell in cells {
            clear_bit(self.unlit.as_mut_slice(), *cell as usize);
        }
    }

    /// Leaves out the places and cells for which kids go.
    pub(crate) fn leave_out(&mut self, needless: &Needless) {
        for bar in &needless.bars {
            set_bit(self.gone.as_mut_slice(), bar.place as usize);
        }
        drop_all(self.unlit.as_mut_slice(), &needless.cells);
    }
}
