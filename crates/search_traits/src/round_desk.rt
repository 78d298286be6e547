//! The desk of a round that others may take up: they begin with its cover and its turns, and it counts theirs.
ghost use Rattle.std.specs.Prelude.{◌≡◌};
ghost use Rattle.search_traits.specs.Desks.{Continues, IsSpent};
ghost use Rattle.search_traits.specs.Turns.{AreSpent, counted_on, rest};

use crate::desk::Desk;
use instance_regions::Cover;

/// A desk that keeps a cover, and counts turns that were taken elsewhere.
pub trait RoundDesk: Desk {
    /// The smallest cover.
    fn cover(&self) -> &Cover
        ensures { result.now.region ≡ (Self.state self.now).region };

    /// The turns that are left, or any number of them.
    fn left(&self) -> Option<u64>
        ensures { result ≡ rest (Self.state self.now).limit (Self.state self.now).granted };

    /// Counts `turns` turns as granted, as far as they are left.
    fn count(&mut self, turns: u64)
        ensures counted { (Self.state self.new).granted
            ≡ counted_on (Self.state self.old).limit (Self.state self.old).granted turns }
        ensures spent { AreSpent (rest (Self.state self.old).limit (Self.state self.old).granted) turns
            → IsSpent (Self.state self.new) }
        ensures onward { Continues (Self.state self.old) (Self.state self.new) };
}
