//! Laws over the definitions alone.
ghost use Rattle.std.specs.Prelude.{◌≡◌, ◌<◌, ℕ, All, IfSome, IsTrue, List, Option, length, map};
ghost use Rattle.cave_base.specs.Box.{cell_count, is_small};
ghost use Rattle.cave_model.specs.Cave.{Cave};
ghost use Rattle.cave_plan.specs.PlanText.{plan_text};
ghost use Rattle.certificate_lines.specs.Numbers.{IsSmall};
ghost use Rattle.plan_reading.specs.PlanLines.{IsFirstMisfit, TellsTorches, told_at};
ghost use Rattle.plan_reading.specs.declared.torch.ToldTorch.{ToldTorch};

/// A text tells one list of torches.
pub fn one_plan_a_text()
    ensures { (bytes : List ℕ) → (one other : List ToldTorch) → TellsTorches bytes one
        → TellsTorches bytes other → one ≡ other }
{}

/// A text has one first line that doesn't fit.
pub fn one_misfit_a_text()
    ensures { (bytes : List ℕ) → (one other : ℕ) → IsFirstMisfit bytes one → IsFirstMisfit bytes other
        → one ≡ other }
{}

/// The text of a plan tells its torches, each by its first legal hang.
pub fn a_plan_tells_its_torches()
    ensures { (cave : Cave) → (torches : List ℕ) → (dark : ℕ) → (floor : Option ℕ) → IsTrue (is_small cave.size)
        → All (λ cell. cell < cell_count cave.size) torches → IsSmall (length torches) → IsSmall dark
        → IfSome floor IsSmall
        → TellsTorches (plan_text cave torches dark floor) (map (told_at cave) torches) }
{}
