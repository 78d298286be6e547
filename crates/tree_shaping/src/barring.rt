//! Places to leave out before a branch: of those that light its cell each that another does as well as, and of the rest
//! those that one of its kids does as well as, since that one is barred for later kids. Source: column dominance, at a
//! node.

use instance_reduction::{InRegion, NodePlaces, RegionInstance};
use number_lists::{Dominance, first_dominating};
use proof_tree::Bar;
use std::alloc::{AllocError, Global};

/// The places of a node, where a place that the reduced instance lacks dominates none.
#[derive(Clone, Copy)]
struct KeptPlaces<'a> {
    site: NodePlaces<'a>,
}

impl<'a> Dominance for KeptPlaces<'a> {
    fn is_within(&self, place: u32, other: u32) -> bool {
        !self.site.whole.instance.is_left_out(InRegion::of(other))
            && self.site.is_within(place, other)
    }
}

/// The places to leave out where the node branches on a cell, descending.
pub fn bars_for(
    alloc: Global,
    site: NodePlaces<'_>,
    cell: InRegion,
) -> Result<Vec<Bar>, AllocError> {
    let kids = site.kids(alloc, cell)?;
    let kept = KeptPlaces { site };
    let mut bars = Vec::new(alloc);
    for index in (0..site.whole.region.places().len()).rev() {
        let place = InRegion::at(index);
        let is_kid = kids.contains(&place.number());
        if !is_kid && !site.is_barred(place) && site.lights_any(place) {
            push_bar(&mut bars, &kept, place, &kids)?;
        }
    }
    Ok(bars)
}

/// Adds the places that light no more than the one that is picked does: of what is left each does less than it. Those
/// that the instance lacks are left out at the first node.
pub fn bars_for_pick(
    site: NodePlaces<'_>,
    pick: InRegion,
    bars: &mut Vec<Bar>,
) -> Result<(), AllocError> {
    for index in 0..site.whole.region.places().len() {
        let place = InRegion::at(index);
        if place.number() != pick.number()
            && !site.is_barred(place)
            && !site.whole.instance.is_left_out(place)
            && site.lights_any(place)
            && site.whole.is_within(place, pick, site.node.unlit())
        {
            bars.push(Bar {
                place: place.number(),
                by: pick.number(),
            })?;
        }
    }
    Ok(())
}

/// The places that aren't barred and are no places of the instance, each by one of the instance's that dominates it,
/// ascending.
pub fn bars_at_first(alloc: Global, site: NodePlaces<'_>) -> Result<Vec<Bar>, AllocError> {
    let RegionInstance { region, instance } = site.whole;
    let kept = KeptPlaces { site };
    let mut bars = Vec::new(alloc);
    for index in 0..region.places().len() {
        let place = InRegion::at(index);
        if instance.is_left_out(place) && !site.is_barred(place) {
            if let Some(cell) = instance.spread(place).first() {
                let others = instance.sources(InRegion::of(*cell));
                push_bar(&mut bars, &kept, place, others)?;
            }
        }
    }
    Ok(bars)
}

/// Adds the place with the first of the others that dominates it, if one does.
fn push_bar(
    bars: &mut Vec<Bar>,
    kept: &KeptPlaces<'_>,
    place: InRegion,
    others: &[u32],
) -> Result<(), AllocError> {
    let place = place.number();
    if let Some(by) = first_dominating(kept, place, others) {
        bars.push(Bar { place, by })?;
    }
    Ok(())
}
