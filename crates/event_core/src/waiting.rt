//! The pieces that wait or are held.
ghost use Rattle.std.specs.Prelude.{◌≡◌, ◌++◌, IfOk};
ghost use Rattle.event_core.specs.Kept.{IsKept, state_of};
ghost use Rattle.event_core.specs.Moving.{IsLeftPiece};
ghost use Rattle.event_core.specs.NodeShape.{shape_of, shapes_of};
ghost use Rattle.event_core.specs.State.{piece_of};
ghost use Rattle.event_core.specs.Waiting.{AreAllWaiting, IsWaitingPiece};
ghost use Rattle.event_core.specs.WaitingNames.{waiting_in, waiting_below};
ghost use Rattle.proof_tree.specs.Piece.{IsPiece};

use crate::event_state::Core;
use crate::node::PieceNode;
use crate::tracing::{Standing, Traced};
use proof_tree::{Name, Piece};
use std::alloc::AllocError;
use std::sync::Arc;

impl Core {
    /// The names of all pieces that wait.
    pub fn waiting_names(&self) -> Result<Vec<Name>, AllocError>
        ensures { IfOk result (λ names. AreAllWaiting (state_of self.now) names.items) }
    {
        let root = Name::root(self.alloc());
        let names = Vec::new(self.alloc());
        let names = add_names(self.root(), &root, names)?;
        Ok(names)
    }

    /// The piece of this name, where it waits.
    pub fn waiting_piece(&self, name: &Name) -> Result<Option<Piece>, AllocError>
        ensures { IfOk result (IsWaitingPiece (state_of self.now) name.now) }
    {
        let Some(traced) = self.traced(name.as_slice())? else {
            return Ok(None);
        };
        let Standing::Waiting = traced.standing else {
            return Ok(None);
        };
        Ok(Some(self.named(name, traced)?))
    }

    /// The piece of this name, where it waits or is held.
    pub(crate) fn left_piece(&self, name: &Name) -> Result<Option<Piece>, AllocError>
        ensures left { IfOk result (IsLeftPiece (state_of self.now) name.now) }
        ensures kept { IsKept self.now }
    {
        let Some(traced) = self.traced(name.as_slice())? else {
            return Ok(None);
        };
        if let Standing::Past = traced.standing {
            return Ok(None);
        }
        Ok(Some(self.named(name, traced)?))
    }

    /// The piece of this name, to which it was traced.
    fn named(&self, name: &Name, traced: Traced) -> Result<Piece, AllocError>
        requires { IsPiece (piece_of (state_of self.now) name.now traced.chosen.items traced.barred.items) }
        ensures { IfOk result (λ piece.
            piece ≡ piece_of (state_of self.now) name.now traced.chosen.items traced.barred.items) }
    {
        let region = Arc::try_clone(self.shared())?;
        let name = name.try_clone()?;
        let Traced { chosen, barred, .. } = traced;
        Ok(Piece::new(region, name, chosen, barred))
    }
}

/// The names with those of the waiting pieces from a node on, which has this name.
#[cycle(waiting)]
fn add_names(node: &PieceNode, name: &Name, mut names: Vec<Name>) -> Result<Vec<Name>, AllocError>
    ensures { IfOk result (λ all. all.items ≡ names.items ++ waiting_in name.now (shape_of node.now)) }
{
    match node {
        PieceNode::Waiting => {
            names.push(name.try_clone()?)?;
            Ok(names)
        }
        PieceNode::Held(_) => Ok(names),
        PieceNode::Closed { .. } => Ok(names),
        PieceNode::Opened { kids, .. } => {
            let names = add_below(kids.as_slice(), name, names)?;
            Ok(names)
        }
    }
}

/// The names with those of the waiting pieces below a node, which has this name and these kids. A kid whose number
/// takes more than 32 bits has no name, as if memory had been refused; there are fewer places.
#[cycle(waiting)]
fn add_below(kids: &[PieceNode], name: &Name, names: Vec<Name>) -> Result<Vec<Name>, AllocError>
    ensures { IfOk result (λ all. all.items ≡ names.items ++ waiting_below name.now 0 (shapes_of kids.now)) }
{
    let mut all = names;
    for index in 0..kids.len() {
        let Ok(number) = u32::try_from(index) else {
            return Err(AllocError);
        };
        let kid = name.kid(number)?;
        all = add_names(&kids[index], &kid, all)?;
    }
    Ok(all)
}
