//! Who searches: works on pieces node by node, or closes them whole.
ghost use Rattle.std.specs.Prelude.{◌≡◌, IfErr, IfOk};
ghost use Rattle.search_traits.specs.Desks.{Continues, Works};
ghost use Rattle.search_traits.specs.Pieces.{IsClosing, IsHandedBack, IsWorked};

use crate::close_fault::CloseFault;
use crate::desk::Desk;
use crate::worked::Worked;
use cave_model::OutOfMemory;
use proof_tree::{Closed, Piece};
use std::alloc::Global;

/// A search that may be shared out by pieces. It is made once for a region, and all workers on it share it. They stand
/// on this role alone, and know nothing of how the search is done.
pub trait Closer: Drop {
    /// What one worker searches with.
    type Hand: Drop;

    /// What is remembered of a piece that was opened, for the work on its kids.
    type Memory: Drop;

    /// What a worker begins with.
    fn hand(&self, alloc: Global) -> Result<Self::Hand, OutOfMemory>;

    /// The piece after work on one node: closed, by a tree that is good at the size that the desk showed last; or
    /// opened. What was remembered of the piece above it may be handed in.
    fn work_on<D: Desk>(
        &self,
        alloc: Global,
        hand: &mut Self::Hand,
        above: Option<&Self::Memory>,
        piece: Piece,
        desk: &mut D,
    ) -> Result<Worked<Self::Memory>, CloseFault>
        requires { piece.region ≡ (D.state desk.old).region }
        ensures worked { IfOk result (IsWorked piece (D.state desk.new).shown) }
        ensures fault { IfErr result (IsHandedBack piece (D.state desk.new)) }
        ensures took { IfOk result (λ _. Works (D.state desk.old) (D.state desk.new)) }
        ensures onward { Continues (D.state desk.old) (D.state desk.new) };

    /// The piece with a tree that is good at the size that the desk showed last.
    fn close_piece<D: Desk>(
        &self,
        alloc: Global,
        piece: Piece,
        desk: &mut D,
    ) -> Result<Closed, CloseFault>
        requires { piece.region ≡ (D.state desk.old).region }
        ensures closed { IfOk result (λ closed. IsClosing piece (D.state desk.new).shown closed) }
        ensures fault { IfErr result (IsHandedBack piece (D.state desk.new)) }
        ensures worked { IfOk result (λ _. Works (D.state desk.old) (D.state desk.new)) }
        ensures onward { Continues (D.state desk.old) (D.state desk.new) };
}
