//! Laws over the definitions alone.
ghost use Rattle.std.specs.List.{AllPairs};
ghost use Rattle.std.specs.Prelude.{ℕ, List, ◌↔◌, All};
ghost use Rattle.cave_model.specs.Cave.{Cave};
ghost use Rattle.cave_model.specs.Coverage.{of_cave};
ghost use Rattle.cave_model.specs.Plan.{AreDistinct};
ghost use Rattle.proof_rules.specs.Good.{KeepsCapacity, ShareNoPlace};
ghost use Rattle.proof_rules.specs.Groups.{all_cells_of};
ghost use Rattle.proof_rules.specs.declared.groups.Group.{Group};
ghost use Rattle.weight_judge.specs.Claims.{claims_of};
ghost use Rattle.weight_judge.specs.Held.{AreAllKept, AreAllOpen};

/// Each place holds such claims as it may just where the groups of distinct cells keep their capacities and share no
/// place.
pub fn kept_is_within()
    ensures { (cave : Cave) → (barred : List ℕ) → (groups : List Group) → (lists : List (List ℕ))
        → AreAllOpen (of_cave cave) barred (claims_of groups) lists → AreDistinct (all_cells_of groups)
        → AreAllKept (claims_of groups) lists ↔ (All (KeepsCapacity (of_cave cave) barred) groups
        × AllPairs (ShareNoPlace (of_cave cave) barred) groups) }
{}
