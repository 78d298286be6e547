//! A worker works on the piece that it took last, by a search of which it knows the role alone: it is closed, or opened
//! (`Leaves` of specs/Steps.antt). Otherwise it goes on holding the piece.
ghost use Rattle.std.specs.Arc.{arc_value};
ghost use Rattle.std.specs.Prelude.{◌≡◌, ◌≤◌, ◌+◌, IfErr, IfOk, ◌++◌, reverse, length, vec_len, vec_capacity};
ghost use Rattle.proof_tree.specs.Opened.{kids_of};
ghost use Rattle.search_traits.specs.Desks.{Continues};
ghost use Rattle.worker_results.specs.Steps.{KeepFloors, Leaves, UsesTurns};

use crate::holdings::Holdings;
use crate::naming::Naming;
use crate::step::Step;
use proof_tree::{Opened, Piece, floor_of};
use search_traits::{CloseFault, Closer, Desk, SharedSearch, Worked};
use std::alloc::{AllocError, Global};

impl<B: Naming> Holdings<B> {
    /// Works on one node of the piece that it took last, if it is of the region: the piece is closed, or opened, and
    /// its kids are kept. It takes a turn.
    #[tactic(auto, using(search_traits::proofs::DeskLemmas::continues_same))]
    pub fn work_last<C: Closer, D: Desk>(
        &mut self,
        search: SharedSearch<'_, C>,
        hand: &mut C::Hand,
        above: Option<&C::Memory>,
        desk: &mut D,
    ) -> Step<C::Memory>
        requires { (arc_value search.region.now ≡ B.region) × ((D.state desk.old).region ≡ B.region) }
        ensures worker { self.new.worker ≡ self.old.worker }
        ensures heaps { Leaves self.old result self.new }
        ensures floors { KeepFloors B.region (D.state desk.old).shown self.old.closed
            (D.state desk.new).shown self.new.closed }
        ensures turns { UsesTurns (D.state desk.old) result (D.state desk.new) }
        ensures onward { Continues (D.state desk.old) (D.state desk.new) }
    {
        if self.closed.reserve(1).is_err() || self.opened.reserve(1).is_err() {
            return Step::OutOfMemory;
        }
        let Some(piece) = self.held.pop() else {
            return Step::NotMade;
        };
        if !search.region.is_same(piece.region()) {
            self.held.push_reserved(piece);
            return Step::NotMade;
        }
        match search
            .closer
            .work_on(search.alloc, hand, above, piece, desk)
        {
            Ok(Worked::Closed(closed)) => {
                // What is read shows that the tree closes the piece.
                let _ = floor_of(&closed); // for the proof
                self.closed.push_reserved(closed);
                Step::Closed
            }
            Ok(Worked::Opened(opened, memory)) => match kept_kids(
                search.alloc,
                &opened,
                &mut self.kept,
            ) {
                Ok(kids) => {
                    self.opened.push_reserved(opened);
                    Step::Opened { kids, memory }
                }
                Err(_) => {
                    self.held.push_reserved(opened.into_piece());
                    Step::OutOfMemory
                }
            },
            Err(CloseFault::TurnsSpent(piece)) => {
                self.held.push_reserved(piece);
                Step::TurnsSpent
            }
            Err(CloseFault::OutOfMemory(piece)) => {
                self.held.push_reserved(piece);
                Step::OutOfMemory
            }
        }
    }
}

/// Keeps the kids of an opened piece, the first one last: how many there are. Refused memory changes nothing.
fn kept_kids(alloc: Global, opened: &Opened, kept: &mut Vec<Piece>) -> Result<usize, AllocError>
    ensures kids { IfOk result (λ count. (count ≡ length (kids_of opened.now))
        × (kept.new.items ≡ kept.old.items ++ reverse (kids_of opened.now))) }
    ensures same { IfErr result (λ _. kept.new.items ≡ kept.old.items) }
{
    let mut kids = opened.kids(alloc)?;
    let count = kids.len();
    kept.reserve(count)?;
    kids.as_mut_slice().reverse();
    push_all(kids, kept);
    Ok(count)
}

/// Puts the pieces on, where there is room for them.
fn push_all(pieces: Vec<Piece>, kept: &mut Vec<Piece>)
    requires { vec_len kept.old + vec_len pieces ≤ vec_capacity kept.old }
    ensures { kept.new.items ≡ kept.old.items ++ pieces.items }
{
    for piece in pieces {
        kept.push_reserved(piece);
    }
}
