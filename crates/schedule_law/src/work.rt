//! What a worker did, without its seat and passes: `Worked` of specs/Worked.antt.
use instance_regions::Cover;
use proof_tree::{Closed, Opened, Piece};
use std::marker::Model;

/// What a worker hands over once it is joined.
#[derive(Drop)]
pub struct Work {
    /// The smallest cover that it found, if it found one.
    pub cover: Option<Cover>,
    /// The pieces that it closed.
    pub closed: Vec<Closed>,
    /// The pieces that it opened.
    pub opened: Vec<Opened>,
    /// The pieces that it took and neither closed nor opened.
    pub held: Vec<Piece>,
    /// The kids of what it opened that it keeps to itself.
    pub kept: Vec<Piece>,
}

impl Model for Work {
    ghost use Rattle.schedule_law.specs.Worked.{Worked, worked_coded};

    ghost Value = { Worked };

    ghost coded = { worked_coded };

    ghost view = { λ w. record {
      cover = w.cover;
      closed = w.closed.items;
      opened = w.opened.items;
      held = w.held.items;
      kept = w.kept.items;
    } };
}
