//! Covers of a region: `IsCover` of specs/Cover.antt.
ghost use Rattle.std.specs.Arc.{arc_value};
ghost use Rattle.std.specs.Prelude.{◌≡◌, length, IfOk};
ghost use Rattle.instance_regions.specs.Cover.{IsCover, IsCoverOfRegion};

use crate::region::Region;
use cave_base::Cell;
use cave_model::OutOfMemory;
use std::marker::Model;
use std::sync::Arc;

/// Distinct places of a region that light each of its cells.
#[derive(Drop)]
pub struct Cover {
    region: Arc<Region>,
    places: Vec<Cell>,
}

impl Model for Cover {
    ghost use Rattle.std.specs.Arc.{arc_value};
    ghost use Rattle.instance_regions.specs.Cover.{Covering, covering_coded, IsCover};

    ghost Value = { Covering };

    ghost coded = { covering_coded };

    ghost view = { λ c. record { region = arc_value c.region; places = c.places.items } };

    ghost invariant = { λ c. IsCover (record { region = arc_value c.region; places = c.places.items }) };
}

impl Cover {
    /// These places as a cover of the region, which is shared and not copied.
    pub fn new(region: &Arc<Region>, places: Vec<Cell>) -> Result<Cover, OutOfMemory>
        requires { IsCoverOfRegion (arc_value region.now) places.items }
        ensures { IfOk result (λ c. c ≡ record { region = arc_value region.now; places = places.items }) }
    {
        Ok(Cover {
            region: Arc::try_clone(region)?,
            places,
        })
    }

    /// The region that it covers.
    pub fn region(&self) -> &Arc<Region>
        ensures { arc_value result.now ≡ self.now.region }
    {
        &self.region
    }

    /// Its places, in no order.
    pub fn places(&self) -> &[Cell]
        ensures places { result.now ≡ self.now.places }
        ensures kept { IsCover self.now }
    {
        &self.places
    }

    /// How many places it has.
    pub fn size(&self) -> u64
        ensures size { result ≡ length self.now.places }
        ensures kept { IsCover self.now }
    {
        self.places.len() as u64
    }

    /// A copy of the cover.
    pub fn try_clone(&self) -> Result<Cover, OutOfMemory>
        ensures { IfOk result (λ c. c ≡ self.now) }
    {
        Ok(Cover {
            region: Arc::try_clone(&self.region)?,
            places: self.places.clone()?,
        })
    }
}
