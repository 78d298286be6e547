//! The beacon's rule, and what each kind of step changes.
use crate::known::Known;
use atomic_table::{Join, Play, Split, TableRule};

/// The word is the least size told.
pub(crate) struct Least;

impl TableRule<u8, Known, u64> for Least {
    ghost use Rattle.beacon.specs.Marks.{at_first};
    ghost use Rattle.beacon.specs.Rule.{IsLeastTold};

    ghost holds = { λ _ s. IsLeastTold s.words s.views };

    ghost first = { at_first };
}

/// A load.
pub(crate) struct Looks;

impl Play<u8, Known> for Looks {
    ghost use Rattle.std.specs.Prelude.{◌≡◌};
    ghost use Rattle.beacon.specs.Marks.{Looked};

    ghost then = { λ _ before found after. Looked before.0 found after.0 × (after.1 ≡ before.1) };
}

/// A minimum taken.
pub(crate) struct Tells;

impl Play<u8, Known> for Tells {
    ghost use Rattle.std.specs.Prelude.{◌≡◌};
    ghost use Rattle.beacon.specs.Marks.{told_too};

    ghost then = { λ s before _ after. (after.0 ≡ told_too before.0 s.first) × (after.1 ≡ before.1) };
}

/// A seat split off, or joined again.
pub(crate) struct Seats;

impl Split<Known> for Seats {
    ghost use Rattle.beacon.specs.Marks.{after_split, newcomer};

    ghost left = { after_split };

    ghost right = { newcomer };
}

impl Join<Known> for Seats {
    ghost use Rattle.beacon.specs.Marks.{together, nobody};

    ghost both = { together };

    ghost spent = { nobody };
}
