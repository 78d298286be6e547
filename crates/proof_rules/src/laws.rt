//! Laws over the definitions alone.
ghost use Rattle.std.specs.Prelude.{ℕ, ◌≤◌, List, length};
ghost use Rattle.cave_model.specs.Cave.{Cave};
ghost use Rattle.cave_model.specs.Coverage.{of_cave};
ghost use Rattle.cave_model.specs.Plan.{AreDistinct};
ghost use Rattle.proof_rules.specs.Good.{Good, IsCoverOfPiece};
ghost use Rattle.proof_rules.specs.Tree.{Tree};

/// No cover of a piece is smaller than what a good tree says, by whatever legal places.
pub fn good_bounds()
    ensures { (cave : Cave) → (cells chosen barred : List ℕ) → (tree : Tree) → (floor : ℕ) → (places : List ℕ)
        → AreDistinct chosen → Good (of_cave cave) cells chosen barred floor tree
        → IsCoverOfPiece (of_cave cave) cells chosen barred places → floor ≤ length places }
{}

/// A tree that proves `floor` proves each smaller number.
pub fn good_at_less()
    ensures { (cave : Cave) → (cells chosen barred : List ℕ) → (tree : Tree) → (less floor : ℕ) → less ≤ floor
        → Good (of_cave cave) cells chosen barred floor tree → Good (of_cave cave) cells chosen barred less tree }
{}
