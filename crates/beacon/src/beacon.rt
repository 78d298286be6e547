//! The shared word.
ghost use Rattle.std.specs.Prelude.{◌≡◌, ◌≤◌, true, Some, IfOk};
ghost use Rattle.beacon.specs.Marks.{at_first, Looked, told_too, after_split, newcomer, together};

use crate::known::Known;
use crate::rule::{Least, Looks, Seats, Tells};
use crate::seat::Seat;
use std::alloc::{AllocError, Global};
use std::marker::Model;

/// Threads that share it hold a seat each. Contracts see which beacon it is.
#[derive(Drop)]
pub struct Beacon {
    table: atomic_table::Table<u8, Known, u64, Least, Global>,
}

impl Model for Beacon {
    ghost use Rattle.std.specs.Prelude.{◌≡◌};
    ghost use Rattle.atomic_table.specs.Seated.{TableId, table_id_coded};

    ghost Value = { TableId };

    ghost coded = { table_id_coded };

    ghost view = { λ b. b.table.shared.table_id };

    ghost invariant = { λ b. (b.table.shared.table_id.words ≡ 1) × (b.table.shared.table_id.slots ≡ 0) };
}

impl Beacon {
    /// A beacon, and the first seat, which has seen and told this size.
    pub fn open(alloc: Global, size: u64) -> Result<(Beacon, Seat), AllocError>
        ensures { IfOk result (λ r. (r.1.beacon ≡ r.0) × (r.1.knows ≡ at_first size)) }
    {
        let (table, seat) = atomic_table::Table::of_words(alloc, &[size], &size)?;
        Ok((Beacon { table }, Seat { seat }))
    }

    /// The least size told: at most all that this seat has seen or told, and then what it has seen.
    pub fn look(&self, seat: &mut Seat) -> u64
        requires { seat.old.beacon ≡ self.now }
        ensures same { seat.new.beacon ≡ seat.old.beacon }
        ensures marks { Looked seat.old.knows result seat.new.knows }
    {
        self.table.shared.load::<Looks>(&mut seat.seat, 0)
    }

    /// Tells a size to all that look.
    pub fn tell(&self, seat: &mut Seat, size: u64)
        requires { seat.old.beacon ≡ self.now }
        ensures same { seat.new.beacon ≡ seat.old.beacon }
        ensures marks { seat.new.knows ≡ told_too seat.old.knows size }
    {
        self.table
            .shared
            .fetch_min::<Tells>(&mut seat.seat, 0, size);
    }

    /// A seat that has seen what the first one has, and told nothing.
    pub fn split(&self, seat: &mut Seat) -> Seat
        requires { (seat.old.beacon ≡ self.now) × (seat.old.knows.first ≡ true) }
        ensures same { (seat.new.beacon ≡ seat.old.beacon) × (result.beacon ≡ seat.old.beacon) }
        ensures marks { (seat.new.knows ≡ after_split seat.old.knows) × (result.knows ≡ newcomer seat.old.knows) }
    {
        Seat {
            seat: self.table.shared.split_seat::<Seats>(&mut seat.seat),
        }
    }

    /// The first seat takes in another.
    pub fn join(&self, seat: &mut Seat, other: Seat)
        requires { (seat.old.beacon ≡ self.now) × (other.beacon ≡ self.now) × (seat.old.knows.first ≡ true) }
        ensures same { seat.new.beacon ≡ seat.old.beacon }
        ensures marks { seat.new.knows ≡ together seat.old.knows other.knows }
    {
        let Seat { seat: other } = other;
        self.table.shared.join_seat::<Seats>(&mut seat.seat, other);
    }

    /// The least size told by any seat. No seat ever saw less.
    pub fn close(self, seat: Seat) -> u64
        requires { (seat.beacon ≡ self) × (seat.knows.first ≡ true) × (seat.knows.out ≡ 0) }
        ensures told { seat.knows.told ≡ Some result }
        ensures seen { result ≤ seat.knows.seen }
    {
        let Beacon { table } = self;
        let Seat { seat } = seat;
        let closed = table.close_with(seat);
        let word = closed.word(0);
        closed.free();
        word
    }
}
