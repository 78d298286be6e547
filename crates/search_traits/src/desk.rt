//! Where a search looks for the size to beat, offers covers, and asks for turns.
ghost use Rattle.std.specs.Prelude.{◌≡◌, length, OnOk, OnErr};
ghost use Rattle.search_traits.specs.Desks.{DeskState, Enters, Looks, Takes};

use cave_model::OutOfMemory;
use instance_regions::Cover;

/// It shows a size and accepts covers of one region. Its turns may be limited.
pub trait Desk {
    ghost state: { Self → DeskState };

    /// The size to beat.
    fn look(&mut self) -> u64
        ensures { Looks (state self.old) result (state self.new) };

    /// Takes a cover of its region. Refused memory changes nothing.
    fn offer(&mut self, cover: &Cover) -> Result<(), OutOfMemory>
        requires { cover.now.region ≡ (state self.old).region }
        ensures ok { OnOk result (Takes (state self.old) (length cover.now.places) (state self.new)) }
        ensures err { OnErr result (state self.new ≡ state self.old) };

    /// Asks for a turn: one node worked on. It is counted where it is granted. False is answered only where turns are
    /// limited, and all of them were granted.
    fn enter(&mut self) -> bool
        ensures { Enters (state self.old) result (state self.new) };
}
