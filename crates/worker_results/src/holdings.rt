//! What a worker holds while it works: its passes, and what became of the pieces that it took. Seen as `HeldParts` of
//! specs/Holdings.antt, it always is as `HeldSoundly` says.
ghost use Rattle.std.specs.Prelude.{◌≡◌, ◌-◌, [], length, option_copied, option_map, slice_get};
ghost use Rattle.worker_results.specs.Passes.{IsRow, all_taken};
ghost use Rattle.worker_results.specs.Holdings.{IsFresh, HeldSoundly, work_of};

use crate::naming::Naming;
use crate::own::Own;
use crate::pass_at::PassAt;
use instance_regions::Cover;
use proof_tree::{Closed, Name, Opened, Piece};
use schedule_law::Work;
use std::alloc::Global;
use std::marker::Model;

/// A worker's deque, its passes at all deques, and what became of the pieces that it took.
#[derive(Drop)]
pub struct Holdings<B: Naming> {
    pub(crate) own: Own<B>,
    pub(crate) passes: Vec<PassAt<B>>,
    pub(crate) closed: Vec<Closed>,
    pub(crate) opened: Vec<Opened>,
    pub(crate) held: Vec<Piece>,
    pub(crate) kept: Vec<Piece>,
}

impl<B: Naming> Model for Holdings<B> {
    ghost use Rattle.std.specs.Prelude.{◌≡◌};
    ghost use Rattle.worker_results.specs.Passes.{IsRow};
    ghost use Rattle.worker_results.specs.Holdings.{HeldParts, held_parts_coded, held_of, HeldSoundly};

    ghost Value = { HeldParts };

    ghost coded = { held_parts_coded };

    ghost view = { λ s.
        held_of s.own s.passes.items s.closed.items s.opened.items s.held.items s.kept.items };

    ghost invariant = { λ s. ((s.own.knows.out ≡ B.workers) × IsRow B.workers s.passes)
        × HeldSoundly B.region (B.start s.own.worker)
        (held_of s.own s.passes.items s.closed.items s.opened.items s.held.items s.kept.items) };
}

impl<B: Naming> Holdings<B> {
    /// Nothing was taken yet, and nothing pushed but what is there at the start.
    pub fn new(alloc: Global, own: Own<B>, passes: Vec<PassAt<B>>) -> Holdings<B>
        requires own { (own.knows.out ≡ B.workers) × (own.knows.pushed ≡ B.start own.worker)
            × (own.knows.taken ≡ []) }
        requires others { IsRow B.workers passes × (all_taken passes.items ≡ []) }
        ensures passes { (result.worker ≡ own.worker) × (result.own ≡ own.knows)
            × (result.passes ≡ passes.items) }
        ensures fresh { IsFresh (B.start own.worker) result }
    {
        Holdings {
            own,
            passes,
            closed: Vec::new(alloc),
            opened: Vec::new(alloc),
            held: Vec::new(alloc),
            kept: Vec::new(alloc),
        }
    }

    /// The worker's number.
    pub fn worker(&self) -> u32
        ensures { result ≡ self.now.worker }
    {
        self.own.worker()
    }

    /// The name of the piece that it took last, if it holds one.
    pub fn last_name(&self) -> Option<&Name>
        ensures { option_copied result ≡ option_map (λ piece. piece.name)
            (slice_get self.now.held (length self.now.held - 1)) }
    {
        Some(self.held.last()?.name())
    }

    /// Its passes, and what it hands over with this cover.
    pub fn into_parts(self, cover: Option<Cover>) -> (Own<B>, Vec<PassAt<B>>, Work)
        ensures own { (result.0.worker ≡ self.worker) × (result.0.knows ≡ self.own)
            × (result.0.knows.out ≡ B.workers) }
        ensures passes { (result.1.items ≡ self.passes) × IsRow B.workers result.1 }
        ensures work { result.2 ≡ work_of self cover }
        ensures holdings { HeldSoundly B.region (B.start self.worker) self }
    {
        let Holdings {
            own,
            passes,
            closed,
            opened,
            held,
            kept,
        } = self;
        let work = Work {
            cover,
            closed,
            opened,
            held,
            kept,
        };
        (own, passes, work)
    }
}
