//! The pieces that a core knows, as a tree.
ghost use Rattle.std.specs.Prelude.{◌≡◌};
ghost use Rattle.event_core.specs.NodeShape.{shapes_of};

use cave_base::Sequence;
use proof_tree::{Bar, Below, Branching, Proof};
use std::marker::Model;

/// The kids of an opened piece, in the order of their places.
#[cycle(node)]
#[derive(Drop)]
pub(crate) struct Siblings {
    items: Vec<PieceNode>,
}

/// A piece by what became of it. An opened one has the places of its kids, and room for their trees and for those that
/// stand below others.
#[cycle(node)]
#[derive(Drop)]
pub(crate) enum PieceNode {
    Waiting,
    Held(u32),
    Closed {
        floor: u64,
        proof: Proof,
    },
    Opened {
        bars: Sequence<Bar>,
        on: Branching,
        places: Sequence<u32>,
        kids: Siblings,
        trees: Vec<Proof>,
        boxes: Vec<Below>,
    },
}

impl Model for Siblings {
    ghost use Rattle.event_core.specs.Shape.{Shapes};
    ghost use Rattle.event_core.specs.Codes.{shapes_coded};

    ghost Value = { Shapes };

    ghost coded = { shapes_coded };

    ghost use Rattle.event_core.specs.NodeShape.{shapes_of};
    ghost use Rattle.event_core.specs.Shape.{shapes_size};

    ghost view = { λ n. shapes_of n.items.items };

    ghost size = { shapes_size };

    ghost use Rattle.event_core.specs.Falls.{kids_fall};

    ghost size_decreases = { λ a h. kids_fall a.items.items };
}

impl Siblings {
    /// These nodes, with no new memory.
    pub(crate) fn of(items: Vec<PieceNode>) -> Siblings
        ensures { result ≡ shapes_of items.items }
    {
        Siblings { items }
    }

    pub(crate) fn as_slice(&self) -> &[PieceNode]
        ensures { self.now ≡ shapes_of result.now }
    {
        self.items.as_slice()
    }

    /// The nodes alone, with no new memory.
    pub(crate) fn into_items(self) -> Vec<PieceNode>
        ensures { shapes_of result.items ≡ self }
    {
        let Siblings { items } = self;
        items
    }
}
