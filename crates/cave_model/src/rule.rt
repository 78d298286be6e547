//! The rule of spawning: specs/Rule.antt. specs/RuleOf.antt says which one the code's value stands for.
ghost use Rattle.std.specs.Prelude.{◌≡◌, IsTrue};
ghost use Rattle.cave_model.specs.Rule.{is_headroom, is_need};

/// The rule of spawning.
#[derive(Clone, Copy, Debug, PartialEq, Eq)]
pub struct Rule {
    /// How many cells above its ground a mob takes up: 1 or 2 (this project's own).
    pub headroom: u8,
    /// The least block light that keeps mobs away: 1 from 1.18 on, 8 before (Minecraft Wiki, "Spawn").
    pub need: u8,
    pub ghost one_or_two: { IsTrue (is_headroom headroom) },
    pub ghost one_or_eight: { IsTrue (is_need need) },
}

impl Rule {
    /// The rule of that headroom and that need.
    pub fn new(headroom: u8, need: u8) -> Rule
        requires headroom { IsTrue (is_headroom headroom) }
        requires need { IsTrue (is_need need) }
        ensures headroom { result.headroom ≡ headroom }
        ensures need { result.need ≡ need }
    {
        Rule { headroom, need }
    }
}
