//! The desk of a search in one thread.
ghost use Rattle.std.specs.Prelude.{◌≡◌, length};
ghost use Rattle.search_traits.specs.Alone.{IsKept, state_of};
ghost use Rattle.search_traits.specs.Turns.{IsWithin};

use crate::desk::Desk;
use crate::planner::BestPlan;
use crate::round_desk::RoundDesk;
use crate::two_searches::rest_of;
use cave_model::OutOfMemory;
use instance_regions::Cover;
use proof_tree::Proof;
use std::marker::Model;

/// It keeps the smallest cover that it was offered, and counts turns.
#[derive(Drop)]
pub struct AloneDesk {
    cover: Cover,
    shown: u64,
    accepted: Option<u64>,
    /// How many turns are granted, or any number of them.
    limit: Option<u64>,
    granted: u64,
}

impl Model for AloneDesk {
    ghost use Rattle.search_traits.specs.Alone.{Alone, alone_coded, IsKept};

    ghost Value = { Alone };

    ghost coded = { alone_coded };

    ghost view = { λ d. record {
      cover = d.cover;
      shown = d.shown;
      accepted = d.accepted;
      limit = d.limit;
      granted = d.granted;
    } };

    ghost invariant = { λ d. IsKept (record {
      cover = d.cover;
      shown = d.shown;
      accepted = d.accepted;
      limit = d.limit;
      granted = d.granted;
    }) };
}

impl AloneDesk {
    /// A desk that begins with a cover, and grants `turns` turns, or any number of them.
    pub fn new(cover: Cover, turns: Option<u64>) -> AloneDesk
        ensures cover { result.cover ≡ cover }
        ensures turns { (result.limit ≡ turns) × (result.granted ≡ 0) }
    {
        let shown = cover.size();
        AloneDesk {
            cover,
            shown,
            accepted: None,
            limit: turns,
            granted: 0,
        }
    }

    /// The smallest cover.
    pub fn cover(&self) -> &Cover
        ensures cover { result.now ≡ self.now.cover }
        ensures kept { IsKept self.now }
    {
        &self.cover
    }

    /// How many turns it grants, or any number of them.
    pub fn limit(&self) -> Option<u64>
        ensures { result ≡ self.now.limit }
    {
        self.limit
    }

    /// How many turns were granted. The count stops at the greatest number that it holds.
    pub fn granted(&self) -> u64
        ensures count { result ≡ self.now.granted }
        ensures within { IsWithin self.now.limit result }
    {
        self.granted
    }

    /// The size of the smallest cover.
    pub fn size(&self) -> u64
        ensures { result ≡ length self.now.cover.places }
    {
        self.cover.size()
    }

    /// The smallest cover with this tree, and how many turns were granted.
    pub fn into_plan(self, proof: Proof) -> BestPlan
        ensures plan { (result.cover ≡ self.cover) × (result.proof ≡ proof) × (result.turns ≡ self.granted) }
        ensures kept { IsKept self }
    {
        let turns = self.granted;
        BestPlan {
            cover: self.into_cover(),
            proof,
            turns,
        }
    }

    /// The smallest cover.
    pub fn into_cover(self) -> Cover
        ensures cover { result ≡ self.cover }
        ensures kept { IsKept self }
    {
        let AloneDesk { cover, .. } = self;
        cover
    }
}

impl Desk for AloneDesk {
    ghost state = { λ d. state_of d };

    fn look(&mut self) -> u64 {
        self.shown = self.cover.size();
        self.shown
    }

    fn offer(&mut self, cover: &Cover) -> Result<(), OutOfMemory> {
        let size = cover.size();
        if size < self.cover.size() {
            self.cover = cover.try_clone()?;
        }
        self.accepted = match self.accepted {
            Some(least) if least < size => Some(least),
            _ => Some(size),
        };
        Ok(())
    }

    fn enter(&mut self) -> bool {
        match self.limit {
            Some(limit) if self.granted >= limit => false,
            _ => {
                self.granted = self.granted.saturating_add(1);
                true
            }
        }
    }
}

impl RoundDesk for AloneDesk {
    fn cover(&self) -> &Cover {
        &self.cover
    }

    fn left(&self) -> Option<u64> {
        rest_of(self.limit, self.granted)
    }

    fn count(&mut self, turns: u64) {
        let granted = self.granted.saturating_add(turns);
        self.granted = match self.limit {
            Some(limit) => limit.min(granted),
            None => granted,
        };
    }
}
