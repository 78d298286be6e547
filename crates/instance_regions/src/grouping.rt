//! Cells and places by the label of their region.
ghost use Rattle.std.specs.Prelude.{◌<◌, ◌≤◌, ◌^◌, length, All, IfOk};
ghost use Rattle.instance_regions.specs.Grouping.{IsCellOf, IsPlaceOfLabel};
ghost use Rattle.instance_regions.specs.Joining.{AreLabels};
ghost use Rattle.set_cover.specs.Buckets.{AreBucketsOf};

use crate::joining::count_of;
use cave_model::OutOfMemory;
use set_cover::{Buckets, Sparse};
use std::alloc::Global;

/// The cells of each label.
pub fn cells_by(alloc: Global, labels: &[u32]) -> Result<Buckets, OutOfMemory>
    requires inside { All (λ label. label < length labels.now) labels.now }
    requires few { length labels.now ≤ 2 ^ 32 }
    ensures { IfOk result (AreBucketsOf (IsCellOf labels.now) (length labels.now)) }
{
    let mut buckets = Buckets::new(alloc, labels.len())?;
    for (cell, label) in labels.iter().enumerate() {
        buckets.push(*label as usize, cell as u32)?;
    }
    Ok(buckets)
}

/// The places that light a cell of each label.
pub fn places_by(alloc: Global, sparse: &Sparse, labels: &[u32]) -> Result<Buckets, OutOfMemory>
    requires labels { AreLabels sparse.now labels.now }
    requires few { length labels.now ≤ 2 ^ 32 }
    ensures { IfOk result (AreBucketsOf (IsPlaceOfLabel sparse.now labels.now) (length labels.now)) }
{
    let mut buckets = Buckets::new(alloc, labels.len())?;
    for place in 0..count_of(sparse.places()) {
        if let Some(cell) = sparse.lit_by(place).first() {
            buckets.push(labels[*cell as usize] as usize, place as u32)?;
        }
    }
    Ok(buckets)
}
