//! The kids that a worker keeps to itself: it takes the newest, and shows the oldest to thieves, on its own deque.
ghost use Rattle.std.specs.Prelude.{◌≡◌, ◌+◌, length};
ghost use Rattle.piece_deque.specs.Rule.{HeldCount};
ghost use Rattle.worker_results.specs.Steps.{Shows, TookKept};

use crate::holdings::Holdings;
use crate::naming::Naming;

impl<B: Naming> Holdings<B> {
    /// Takes the newest kid that it keeps, if there is one, and holds it: whether it did. None is taken where memory is
    /// refused.
    pub fn take_kept(&mut self) -> bool
        ensures worker { self.new.worker ≡ self.old.worker }
        ensures closed { self.new.closed ≡ self.old.closed }
        ensures took { TookKept self.old result self.new }
    {
        if self.held.reserve(1).is_err() {
            return false;
        }
        match self.kept.pop() {
            Some(piece) => {
                self.held.push_reserved(piece);
                true
            }
            None => false,
        }
    }

    /// How many kids it keeps.
    pub fn kept_count(&self) -> usize
        ensures { result ≡ length self.now.kept }
    {
        self.kept.len()
    }

    /// How many pieces it holds or keeps.
    pub fn count(&self) -> usize
        ensures { result ≡ length self.now.kept + length self.now.held }
    {
        self.kept_count() + self.held.len()
    }

    /// How many pieces lay on its own deque at one moment of the call.
    pub fn shown_count(&mut self) -> usize
        ensures same { self.new ≡ self.old }
        ensures count { HeldCount self.old.own result }
    {
        self.own.count()
    }

    /// Pushes the oldest kid that it keeps on its own deque: whether it did. Where there is no room it goes on keeping
    /// the kid.
    pub fn show_oldest(&mut self) -> bool
        ensures worker { self.new.worker ≡ self.old.worker }
        ensures closed { self.new.closed ≡ self.old.closed }
        ensures shows { Shows self.old result self.new }
    {
        if self.kept.is_empty() {
            return false;
        }
        let oldest = self.kept.remove(0);
        match self.own.push(oldest) {
            Ok(()) => true,
            Err(back) => {
                self.kept.push_reserved(back);
                self.kept.rotate_right(1);
                false
            }
        }
    }
}
