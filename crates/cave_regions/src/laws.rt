//! Laws over the definitions alone.
ghost use Rattle.std.specs.Prelude.{ℕ, List, All, IsPermutation};
ghost use Rattle.cave_model.specs.Cave.{Cave, IsSound};
ghost use Rattle.cave_model.specs.Coverage.{Agrees, of_cave};
ghost use Rattle.cave_model.specs.Plan.{IsSafe, hung};
ghost use Rattle.cave_model.specs.Regions.{AreRegions};
ghost use Rattle.cave_problem.specs.Coverage.{IsProblemOf};
ghost use Rattle.instance_regions.specs.Cover.{Covering, IsCover, places_of, regions_in};
ghost use Rattle.instance_regions.specs.Splitting.{AreRegionsOf, cells_of_each};
ghost use Rattle.set_cover.specs.Instance.{Instance, of_instance};
ghost use Rattle.set_cover.specs.Sparse.{Sparse};

/// The regions of a cave's problem are regions of the cave, and each has of the cave's light what falls on its cells.
pub fn regions_of_cave()
    ensures regions { (cave : Cave) (problem : Sparse) (regions : List Instance) → IsProblemOf cave problem
        → AreRegionsOf problem regions → AreRegions cave (cells_of_each regions) }
    ensures agree { (cave : Cave) (problem : Sparse) (regions : List Instance) → IsProblemOf cave problem
        → AreRegionsOf problem regions
        → All (λ region. Agrees (of_instance region) (of_cave cave) region.cells) regions }
{}

/// Covers of all regions of a cave's problem together, in any order, each place with its first legal hang, are safe
/// torches.
pub fn covers_are_safe()
    ensures { (cave : Cave) (problem : Sparse) (covers : List Covering) (places : List ℕ) → IsSound cave
        → IsProblemOf cave problem → AreRegionsOf problem (regions_in covers) → All IsCover covers
        → IsPermutation (places_of covers) places → IsSafe cave (hung cave places) }
{}
