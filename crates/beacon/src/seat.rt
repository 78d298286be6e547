//! A thread's token.
use crate::known::Known;
use std::marker::Model;

/// Contracts see the beacon that it is of, and what it has seen and told.
#[derive(Drop)]
pub struct Seat {
    pub(crate) seat: atomic_table::Seat<u8, Known>,
}

impl Model for Seat {
    ghost use Rattle.std.specs.Prelude.{◌≡◌, [], false};
    ghost use Rattle.beacon.specs.Marks.{Seated, seated_coded};

    ghost Value = { Seated };

    ghost coded = { seated_coded };

    ghost view = { λ s. record { beacon = s.seat.table_id; knows = s.seat.me.0 } };

    ghost invariant = { λ s. (s.seat.me.1 ≡ []) × (s.seat.me.0.spent ≡ false) };
}
