//! Who is told of a run.

use crate::sides::{OpenSides, open_sides};
use cave_model::World;
use cave_plan::{Observer, Unobserved};

/// Told of a run while it goes on: of the cave that was read, and of the search. Nothing is promised of it, and nothing
/// comes back from it.
pub trait Watcher: Observer {
    /// The cave's box has free cells at these sides.
    fn opened(&self, _sides: &OpenSides) {}

    /// The search of all regions ended, and none was granted more turns than these.
    fn searched(&self, _turns: u64) {}
}

impl Watcher for Unobserved {}

/// Tells of the sides of the cave's box at which free cells lie, where there are any.
pub(crate) fn tell_sides<O: Watcher>(world: &World, observer: &O) {
    let sides = open_sides(world);
    if !sides.is_closed() {
        observer.opened(&sides);
    }
}
