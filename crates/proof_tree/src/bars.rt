//! Places that are left out above a tree, one after another.
ghost use Rattle.std.specs.Prelude.{◌≡◌, IfOk};
ghost use Rattle.proof_rules.specs.Tree.{bar};
ghost use Rattle.proof_tree.specs.Bars.{wrapped};
ghost use Rattle.proof_tree.specs.Shape.{tree_of};

use crate::proof::{Below, Proof};
use std::alloc::{AllocError, Global};

/// A place to leave out, and one that does as well.
#[derive(Clone, Copy)]
pub struct Bar {
    pub place: u32,
    pub by: u32,
}

impl Bar {
    /// The tree with the place left out above it.
    fn above(self, alloc: Global, tree: Proof) -> Result<Proof, AllocError>
        ensures { IfOk result (λ whole. tree_of whole ≡ bar self.place self.by (tree_of tree)) }
    {
        Ok(Proof::Bar {
            place: self.place,
            by: self.by,
            kid: Below::of(alloc, tree)?,
        })
    }
}

/// The tree with the places that are left out above it.
pub fn wrap(alloc: Global, mut bars: Vec<Bar>, proof: Proof) -> Result<Proof, AllocError>
    ensures { IfOk result (λ whole. tree_of whole ≡ wrapped bars.items (tree_of proof)) }
{
    let mut whole = proof;
    while let Some(bar) = bars.pop() {
        whole = bar.above(alloc, whole)?;
    }
    Ok(whole)
}
