//! Laws over the definitions alone.
ghost use Rattle.std.specs.Prelude.{ℕ, List};
ghost use Rattle.pack_bound.specs.Indices.{GoodAt};
ghost use Rattle.pack_bound.specs.Naming.{place_numbers, numbered};
ghost use Rattle.pack_bound.specs.Nodes.{AreInside};
ghost use Rattle.proof_rules.specs.Good.{Good};
ghost use Rattle.proof_rules.specs.Tree.{Tree};
ghost use Rattle.set_cover.specs.Instance.{Instance, IsInstance, of_instance};

/// A tree that is good by the indices of cells and places is good by their numbers.
pub fn good_named()
    ensures { (region : Instance) → (chosen barred : List ℕ) → (tree : Tree) → (floor : ℕ) → IsInstance region
        → AreInside region chosen → AreInside region barred → GoodAt region chosen barred floor tree
        → Good (of_instance region) region.cells (place_numbers region chosen) (place_numbers region barred) floor
        (numbered region tree) }
{}
