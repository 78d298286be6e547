//! Taking a piece, and leaving it.
ghost use Rattle.std.specs.Prelude.{◌≡◌, IfOk, OnErr};
ghost use Rattle.event_core.specs.Kept.{IsKept, StepsTo, state_of};
ghost use Rattle.event_core.specs.Tracing.{IsStanding};
ghost use Rattle.event_core.specs.declared.event.Event.TheVariants.{Leave, Take};

use crate::event_state::Core;
use crate::node::PieceNode;
use crate::tracing::Standing;
use std::alloc::AllocError;

impl Core {
    /// A worker takes the piece of this name.
    pub(crate) fn take(&mut self, worker: u32, name: &[u32]) -> Result<bool, AllocError>
        ensures done { IfOk result (StepsTo self.old (Take worker name.now) self.new) }
        ensures err { OnErr result (self.new ≡ self.old) }
    {
        let standing = self.standing(name)?;
        if !self.has_worker(worker) {
            return Ok(false);
        }
        match standing {
            Standing::Waiting => {
                self.turn(name, PieceNode::Held(worker));
                Ok(true)
            }
            Standing::Held(_) => Ok(false),
            Standing::Past => Ok(false),
        }
    }

    /// A worker leaves the piece of this name.
    pub(crate) fn leave(&mut self, worker: u32, name: &[u32]) -> Result<bool, AllocError>
        ensures done { IfOk result (StepsTo self.old (Leave worker name.now) self.new) }
        ensures err { OnErr result (self.new ≡ self.old) }
    {
        let standing = self.standing(name)?;
        if !self.has_worker(worker) {
            return Ok(false);
        }
        match standing {
            Standing::Waiting => Ok(false),
            Standing::Held(by) => {
                if by != worker {
                    return Ok(false);
                }
                self.turn(name, PieceNode::Waiting);
                Ok(true)
            }
            Standing::Past => Ok(false),
        }
    }

    /// How the piece of this name stands; as one that is past where there is none.
    fn standing(&self, name: &[u32]) -> Result<Standing, AllocError>
        ensures standing { IfOk result (IsStanding (state_of self.now) name.now) }
        ensures kept { IsKept self.now }
    {
        match self.traced(name)? {
            None => Ok(Standing::Past),
            Some(traced) => Ok(traced.standing),
        }
    }
}
