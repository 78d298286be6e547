//! Closing a piece.
ghost use Rattle.std.specs.Prelude.{◌≡◌, ◌↔◌, IfOk, OnErr, IsTrue};
ghost use Rattle.event_core.specs.Events.{MayClose};
ghost use Rattle.event_core.specs.Kept.{IsKept, StepsTo, state_of};
ghost use Rattle.event_core.specs.Moving.{IsHeldAs};
ghost use Rattle.event_core.specs.declared.event.Event.TheVariants.{Close};

use crate::event_state::Core;
use crate::node::PieceNode;
use crate::tracing::{Standing, Traced};
use proof_tree::{Closed, Piece, floor_of};
use std::alloc::AllocError;

impl Core {
    /// A worker closes a piece.
    pub(crate) fn close(&mut self, worker: u32, closed: Closed) -> Result<bool, AllocError>
        ensures done { IfOk result (StepsTo self.old (Close worker closed) self.new) }
        ensures err { OnErr result (self.new ≡ self.old) }
    {
        let may = self.may_close(worker, &closed)?;
        if !may {
            return Ok(false);
        }
        let name = Vec::from_slice(self.alloc(), closed.piece().name().as_slice())?;
        let floor = floor_of(&closed);
        let node = PieceNode::Closed {
            floor,
            proof: closed.into_proof(),
        };
        self.turn(&name, node);
        Ok(true)
    }

    fn may_close(&self, worker: u32, closed: &Closed) -> Result<bool, AllocError>
        ensures may { IfOk result (λ may. IsTrue may ↔ MayClose (state_of self.now) worker closed.now) }
        ensures kept { IsKept self.now }
    {
        let piece = closed.piece();
        let traced = self.traced(piece.name().as_slice())?;
        if !self.has_worker(worker) {
            return Ok(false);
        }
        if !self.region().is_same(piece.region()) {
            return Ok(false);
        }
        if floor_of(closed) < self.seen(worker) {
            return Ok(false);
        }
        match traced {
            None => Ok(false),
            Some(traced) => Ok(is_held(&traced, worker, piece)),
        }
    }
}

/// Whether the worker holds a piece in which the same places are chosen and barred.
fn is_held(traced: &Traced, worker: u32, piece: &Piece) -> bool
    ensures { IsTrue result ↔ IsHeldAs traced.now worker piece.now }
{
    let Standing::Held(by) = traced.standing else {
        return false;
    };
    if by != worker {
        return false;
    }
    if traced.chosen.as_slice() != piece.chosen() {
        return false;
    }
    traced.barred.as_slice() == piece.barred()
}
