//! What a worker has done: `Handed` of specs/Results.antt, which it begins with and hands over in the end. What that
//! promises is `IsHandedIn` there.
ghost use Rattle.std.specs.Prelude.{◌≡◌, IfSome};
ghost use Rattle.schedule_law.specs.Worked.{IsCoverFor};
ghost use Rattle.worker_results.specs.Results.{IsSeatAt, KeepsTold};
ghost use Rattle.worker_results.specs.Holdings.{AreClosedFrom};

use crate::holdings::Holdings;
use crate::naming::Naming;
use beacon::Seat;
use instance_regions::Cover;
use std::marker::Model;

/// A worker's seat, its smallest cover, its passes, and what became of the pieces that it took.
#[derive(Drop)]
pub struct Done<B: Naming> {
    seat: Seat,
    cover: Option<Cover>,
    holdings: Holdings<B>,
}

impl<B: Naming> Model for Done<B> {
    ghost use Rattle.std.specs.Prelude.{IfSome};
    ghost use Rattle.schedule_law.specs.Worked.{IsCoverFor};
    ghost use Rattle.worker_results.specs.Results.{Handed, handed_coded, IsSeatAt, KeepsTold};
    ghost use Rattle.worker_results.specs.Holdings.{AreClosedFrom};

    ghost Value = { Handed };

    ghost coded = { handed_coded };

    ghost view = { λ d. record {
      holdings = d.holdings;
      knows = d.seat.knows;
      cover = d.cover;
    } };

    ghost invariant = { λ d. IsSeatAt B.beacon d.seat × KeepsTold d.cover d.seat.knows.told
        × IfSome d.cover (IsCoverFor B.region)
        × AreClosedFrom B.region d.seat.knows.seen d.holdings.closed };
}

impl<B: Naming> Done<B> {
    /// What a worker has done, with this seat.
    pub fn new(seat: Seat, cover: Option<Cover>, holdings: Holdings<B>) -> Done<B>
        requires seat { IsSeatAt B.beacon seat }
        requires cover { KeepsTold cover seat.knows.told × IfSome cover (IsCoverFor B.region) }
        requires floors { AreClosedFrom B.region seat.knows.seen holdings.closed }
        ensures { result ≡ record {
          holdings = holdings;
          knows = seat.knows;
          cover = cover;
        } }
    {
        Done {
            seat,
            cover,
            holdings,
        }
    }

    /// The worker's number.
    pub fn worker(&self) -> u32
        ensures { result ≡ self.now.holdings.worker }
    {
        self.holdings.worker()
    }

    /// The seat, the cover and the holdings.
    pub fn into_parts(self) -> (Seat, Option<Cover>, Holdings<B>)
        ensures seat { IsSeatAt B.beacon result.0 × (result.0.knows ≡ self.knows) }
        ensures cover { (result.1 ≡ self.cover) × KeepsTold result.1 result.0.knows.told
            × IfSome result.1 (IsCoverFor B.region) }
        ensures holdings { (result.2 ≡ self.holdings)
            × AreClosedFrom B.region result.0.knows.seen result.2.closed }
    {
        let Done {
            seat,
            cover,
            holdings,
        } = self;
        (seat, cover, holdings)
    }
}
