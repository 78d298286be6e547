//! Laws over the definitions alone.
ghost use Rattle.std.specs.Prelude.{◌≡◌, ℕ, List, length, All, Contains};
ghost use Rattle.cave_model.specs.Cave.{Cave, IsSound, IsWorld};
ghost use Rattle.cave_model.specs.Coverage.{Agrees, of_cave};
ghost use Rattle.cave_model.specs.Plan.{IsSafe, Torch};
ghost use Rattle.cave_plan.specs.Best.{AreTorchesOf, IsInLeastVersion};
ghost use Rattle.cave_plan.specs.Bounded.{AreBoundedIn, AreInOrder, Bounded, IsPlanWithin, all_torches, total_floor};
ghost use Rattle.certificate_text.specs.Planned.{AreBestOf, Plan, certificate_of, certificate_text};
ghost use Rattle.cave_problem.specs.Coverage.{IsUnlightable};
ghost use Rattle.proof_check.specs.Accepted.{Accepts, IsBestPlan};
ghost use Rattle.proof_rules.specs.Certificate.{Certificate};
ghost use Rattle.proof_rules.specs.Good.{Good};
ghost use Rattle.proof_rules.specs.Text.{IsTextOf};
ghost use Rattle.proof_rules.specs.Tree.{Tree};
ghost use Rattle.set_cover.specs.Instance.{Instance, of_instance};

/// A tree that is good over an instance is good over a cave whose places light the same of these cells.
pub fn good_carries()
    ensures { (cave : Cave) → (instance : Instance) → (cells chosen barred : List ℕ) → (floor : ℕ) → (tree : Tree)
        → Agrees (of_instance instance) (of_cave cave) cells → All (Contains instance.places) chosen
        → Good (of_instance instance) cells chosen barred floor tree
        → Good (of_cave cave) cells chosen barred floor tree }
{}

/// A certificate has one text.
pub fn one_text_a_certificate()
    ensures { (certificate : Certificate) → (one other : List ℕ) → IsTextOf one certificate
        → IsTextOf other certificate → one ≡ other }
{}

/// A text is that of one certificate alone.
pub fn one_certificate_a_text()
    ensures { (text : List ℕ) → (one other : Certificate) → IsTextOf text one → IsTextOf text other → one ≡ other }
{}

/// Covers of all regions together are safe torches, and no safe torches are fewer than all floors together.
pub fn parts_make_a_plan()
    ensures { (cave : Cave) → (parts : List Bounded) → (cells : List ℕ) → IsSound cave → AreBoundedIn cave parts
        → AreInOrder parts cells → IsPlanWithin cave cells (total_floor parts) }
{}

/// In order there are as many torches as in all parts together.
pub fn order_keeps_the_number()
    ensures { (cave : Cave) → (parts : List Bounded) → (cells : List ℕ) → AreBoundedIn cave parts
        → AreInOrder parts cells → length cells ≡ length (all_torches parts) }
{}

/// The certificate of best plans of all regions is accepted.
pub fn best_plans_are_accepted()
    ensures { (cave : Cave) → (plans : List Plan) → IsWorld cave → AreBestOf cave plans
        → Accepts cave (certificate_text cave plans) (certificate_of cave plans) }
{}

/// Their torches in order are safe, and no safe ones are fewer.
pub fn best_plans_are_fewest()
    ensures { (cave : Cave) → (plans : List Plan) → (cells : List ℕ) → IsWorld cave → AreBestOf cave plans
        → AreTorchesOf plans cells → IsBestPlan cave cells }
{}

/// No version with a lesser number can speak of its sections under its need.
pub fn version_is_least()
    ensures { (cave : Cave) → (plans : List Plan) → IsInLeastVersion (certificate_of cave plans) }
{}

/// Where no place lights some dark cell, no torches are safe.
pub fn unlightable_has_no_plan()
    ensures { (cave : Cave) → (cell : ℕ) → (torches : List Torch) → IsSound cave → IsUnlightable cave cell
        → IsSafe cave torches → ⊥ }
{}
