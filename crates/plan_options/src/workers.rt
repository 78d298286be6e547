//! How many workers there may be: specs/Crew.antt.
ghost use Rattle.std.specs.Prelude.{◌≡◌, IsFalse, IsTrue, MatchOption};
ghost use Rattle.plan_options.specs.Crew.{is_crew};

/// The most workers that a region may have (this project's own).
const MOST: u32 = 64;

/// How many workers plan a region: 1 to 64.
#[derive(Clone, Copy, Debug, PartialEq, Eq)]
pub struct Workers {
    pub number: u32,
    pub ghost some: { IsTrue (is_crew number) },
}

impl Workers {
    /// `number` workers. None for no worker, or more than 64.
    pub fn new(number: u32) -> Option<Workers>
        ensures { MatchOption result (IsFalse (is_crew number)) (λ workers. workers.number ≡ number) }
    {
        if number == 0 || number > MOST {
            return None;
        }
        Some(Workers { number })
    }
}
