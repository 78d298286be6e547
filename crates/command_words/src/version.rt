//! The versions of the game that a rule stands for.
ghost use Rattle.std.specs.Prelude.{ℕ, IfNone, IfSome, IsTrue, option_copied};
ghost use Rattle.cave_model.specs.Rule.{is_need};
ghost use Rattle.command_words.specs.Versions.{IsNeedFor};

/// The least light that keeps mobs away in this version; 1.18 where none is named. None for a version that no rule
/// stands for.
pub fn need_for(version: Option<&str>) -> Option<u8>
    ensures need { IfSome result (IsNeedFor (option_copied version.entry)) }
    ensures none { IfNone result ((need : ℕ) → ¬ IsNeedFor (option_copied version.entry) need) }
    ensures fits { IfSome result (λ need. IsTrue (is_need need)) }
{
    let Some(version) = version else {
        return Some(1);
    };
    if version == "1.18" {
        return Some(1);
    }
    if version == "1.17" {
        return Some(8);
    }
    None
}
