//! One event.
ghost use Rattle.std.specs.Prelude.{◌≡◌, IfOk, OnErr};
ghost use Rattle.event_core.specs.Events.{opening_on};
ghost use Rattle.event_core.specs.Kept.{IsKept, StepsTo};
ghost use Rattle.event_core.specs.Moving.{IsMade};

use crate::event::Event;
use crate::event_state::Core;
use crate::node::PieceNode;
use crate::opening::opened;
use proof_tree::{Bar, Branching, Name};
use std::alloc::AllocError;

impl Core {
    /// Does the event where it is enabled; false where it isn't, and the event is dropped.
    pub fn step(&mut self, event: Event) -> Result<bool, AllocError>
        ensures done { IfOk result (StepsTo self.old event self.new) }
        ensures err { OnErr result (self.new ≡ self.old) }
    {
        match event {
            Event::Look(worker) => Ok(self.look(worker)),
            Event::Offer(worker, cover) => Ok(self.offer(worker, cover)),
            Event::Take(worker, name) => self.take(worker, name.as_slice()),
            Event::Open(name, bars, cell) => self.open(
                &name,
                bars.as_slice(),
                Branching::Cell(cell),
            ),
            Event::Pick(name, bars, place) => {
                self.open(&name, bars.as_slice(), Branching::Place(place))
            }
            Event::Close(worker, closed) => self.close(worker, closed),
            Event::Leave(worker, name) => self.leave(worker, name.as_slice()),
        }
    }

    /// The piece of this name is opened on this, below these bars.
    fn open(&mut self, name: &Name, bars: &[Bar], on: Branching) -> Result<bool, AllocError>
        ensures done { IfOk result (StepsTo self.old (opening_on name.now bars.now on) self.new) }
        ensures err { OnErr result (self.new ≡ self.old) }
    {
        match self.made(name, bars, on)? {
            None => Ok(false),
            Some(node) => {
                self.turn(name.as_slice(), node);
                Ok(true)
            }
        }
    }

    /// The piece of this name, opened on this, below these bars, where it may be.
    fn made(
        &self,
        name: &Name,
        bars: &[Bar],
        on: Branching,
    ) -> Result<Option<PieceNode>, AllocError>
        ensures made { IfOk result (IsMade self.now name.now (record { bars = bars.now; on = on })) }
        ensures kept { IsKept self.now }
    {
        let Some(piece) = self.left_piece(name)? else {
            return Ok(None);
        };
        let node = opened(self.alloc(), &piece, bars, on)?;
        Ok(node)
    }
}
