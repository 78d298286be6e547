//! The desk of one of many workers: `Desked` of specs/Results.antt. It plays the role of search_traits' `Desk` over the
//! beacon that all share. Its turns come one by one, from a count that all workers take from.
ghost use Rattle.std.specs.Arc.{arc_value};
ghost use Rattle.std.specs.Prelude.{◌≡◌, None, Some, IfSome, if◌then◌else◌};
ghost use Rattle.schedule_law.specs.Worked.{IsCoverFor};
ghost use Rattle.worker_results.specs.Results.{IsSeatAt, KeepsTold, one_more, state_of};

use crate::naming::Naming;
use beacon::{Beacon, Seat};
use cave_model::OutOfMemory;
use instance_regions::{Cover, Region};
use search_traits::Desk;
use std::marker::{Model, PhantomData};
use std::sync::Arc;

/// It looks at the beacon, tells it the sizes of covers, keeps the smallest, and counts turns.
pub struct PoolDesk<'a, B: Naming> {
    beacon: &'a Beacon,
    region: &'a Arc<Region>,
    seat: Seat,
    cover: Option<Cover>,
    limit: Option<u64>,
    granted: u64,
    of: PhantomData<B>,
}

impl<'a, B: Naming> Model for PoolDesk<'a, B> {
    ghost use Rattle.std.specs.Prelude.{◌≡◌, IfSome};
    ghost use Rattle.std.specs.Arc.{arc_value};
    ghost use Rattle.schedule_law.specs.Worked.{IsCoverFor};
    ghost use Rattle.search_traits.specs.Turns.{IsWithin};
    ghost use Rattle.worker_results.specs.Results.{Desked, desked_coded, IsSeatAt, KeepsTold};

    ghost Value = { Desked };

    ghost coded = { desked_coded };

    ghost view = { λ d. record {
      region = arc_value d.region.now;
      knows = d.seat.knows;
      cover = d.cover;
      limit = d.limit;
      granted = d.granted;
    } };

    ghost invariant = { λ d. (d.beacon.now ≡ B.beacon) × (arc_value d.region.now ≡ B.region)
        × IsSeatAt B.beacon d.seat × KeepsTold d.cover d.seat.knows.told
        × IfSome d.cover (IsCoverFor B.region) × IsWithin d.limit d.granted };
}

impl<'a, B: Naming> PoolDesk<'a, B> {
    /// A desk that grants any number of turns, or, where they are limited, as many as it is allowed.
    pub fn new(
        beacon: &'a Beacon,
        region: &'a Arc<Region>,
        seat: Seat,
        cover: Option<Cover>,
        is_limited: bool,
    ) -> PoolDesk<'a, B>
        requires places { (beacon.now ≡ B.beacon) × (arc_value region.now ≡ B.region) }
        requires seat { IsSeatAt B.beacon seat }
        requires cover { KeepsTold cover seat.knows.told × IfSome cover (IsCoverFor B.region) }
        ensures { result ≡ record {
          region = B.region;
          knows = seat.knows;
          cover = cover;
          limit = if is_limited then Some 0 else None;
          granted = 0;
        } }
    {
        PoolDesk {
            beacon,
            region,
            seat,
            cover,
            limit: if is_limited { Some(0) } else { None },
            granted: 0,
            of: PhantomData,
        }
    }

    /// Allows one turn more, where they are limited.
    pub fn allow(&mut self)
        ensures { self.new ≡ record self.old { limit = one_more self.old.limit } }
    {
        if let Some(limit) = self.limit {
            self.limit = Some(limit.saturating_add(1));
        }
    }

    /// The seat, and the cover that is kept.
    pub fn into_parts(self) -> (Seat, Option<Cover>)
        ensures seat { IsSeatAt B.beacon result.0 × (result.0.knows ≡ self.entry.knows) }
        ensures cover { (result.1 ≡ self.entry.cover) × IfSome result.1 (IsCoverFor B.region) }
        ensures kept { KeepsTold result.1 result.0.knows.told }
    {
        let PoolDesk {
            beacon: _,
            region: _,
            seat,
            cover,
            limit: _,
            granted: _,
            of: _,
        } = self;
        (seat, cover)
    }
}

impl<'a, B: Naming> Desk for PoolDesk<'a, B> {
    ghost state = { λ d. state_of d };

    fn look(&mut self) -> u64 {
        self.beacon.look(&mut self.seat)
    }

    fn offer(&mut self, cover: &Cover) -> Result<(), OutOfMemory> {
        let size = cover.size();
        let better = match &self.cover {
            Some(old) => size < old.size(),
            None => true,
        };
        if better {
            self.cover = Some(cover.try_clone()?);
        }
        self.beacon.tell(&mut self.seat, size);
        Ok(())
    }

    fn enter(&mut self) -> bool {
        match self.limit {
            Some(limit) if self.granted >= limit => false,
            _ => {
                self.granted = self.granted.saturating_add(1);
                true
            }
        }
    }
}
