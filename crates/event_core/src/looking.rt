//! Looks and offers.
ghost use Rattle.event_core.specs.Kept.{StepsTo};
ghost use Rattle.event_core.specs.declared.event.Event.TheVariants.{Look, Offer};

use crate::event_state::Core;
use instance_regions::Cover;

impl Core {
    /// A worker sees the size at which pieces are to be closed.
    pub(crate) fn look(&mut self, worker: u32) -> bool
        ensures { StepsTo self.old (Look worker) self.new result }
    {
        if !self.has_worker(worker) {
            return false;
        }
        self.see(worker);
        true
    }

    /// A worker offers a cover.
    pub(crate) fn offer(&mut self, worker: u32, cover: Cover) -> bool
        ensures { StepsTo self.old (Offer worker cover) self.new result }
    {
        if !self.has_worker(worker) {
            return false;
        }
        if !self.region().is_same(cover.region()) {
            return false;
        }
        self.better(cover);
        true
    }
}
