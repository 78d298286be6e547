//! Laws over the definitions alone.
ghost use Rattle.std.specs.Prelude.{◌≢◌, ℕ, List, All, AllPairs, Contains};
ghost use Rattle.cave_model.specs.Cave.{Cave, IsSound};
ghost use Rattle.cave_model.specs.Plan.{IsSafe, hung};
ghost use Rattle.cave_problem.specs.Coverage.{IsProblemOf};
ghost use Rattle.set_cover.specs.Sparse.{Sparse, ListsIn};

/// Distinct places of the problem that light each of its cells, each with its first legal hang, are safe torches.
pub fn cover_is_safe()
    ensures { (cave : Cave) (problem : Sparse) (chosen : List ℕ) → IsSound cave → IsProblemOf cave problem
        → AllPairs (λ a b. a ≢ b) chosen → All (Contains problem.places) chosen
        → ((cell : ℕ) → Contains problem.cells cell
        → (place : ℕ) × Contains chosen place × ListsIn problem place cell)
        → IsSafe cave (hung cave chosen) }
{}
