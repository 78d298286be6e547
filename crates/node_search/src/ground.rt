//! Where a search takes place.
ghost use Rattle.std.specs.Arc.{arc_value};
ghost use Rattle.std.specs.Prelude.{◌≡◌, ◌↔◌, ◌<◌, ◌+◌, IsTrue};

use instance_regions::Region;
use std::alloc::Global;
use std::sync::Arc;

/// How many places that were picked may be barred above a node: each stands for a frame of the stack.
const MOST_PICKS: u32 = 1024;

/// The allocator and the region of a search, and the region once more as covers and pieces share it; and how far the
/// search may go on by picks, none where places aren't picked.
#[derive(Clone, Copy)]
pub struct Ground<'a> {
    pub alloc: Global,
    pub region: &'a Region,
    pub shared: &'a Arc<Region>,
    /// How many places that were picked are barred here.
    pub refused: u32,
    /// How many may be.
    pub picks: u32,
    ghost same: { arc_value shared.now ≡ region.now },
}

impl<'a> Ground<'a> {
    /// The region that is shared, and whether places are picked in it.
    pub fn of(alloc: Global, shared: &'a Arc<Region>, may_pick: bool) -> Ground<'a>
        ensures { result.region.now ≡ arc_value shared.now }
    {
        Ground {
            alloc,
            region: shared.as_ref(),
            shared,
            refused: 0,
            picks: if may_pick { MOST_PICKS } else { 0 },
        }
    }

    /// Whether one more place may be picked, and barred in the second tree of the pick.
    pub fn may_pick(&self) -> bool
        ensures { IsTrue result ↔ self.now.refused < self.now.picks }
    {
        self.refused < self.picks
    }

    /// The ground below a node where one more place that was picked is barred.
    pub fn refusing(&self) -> Ground<'a>
        requires { self.now.refused < self.now.picks }
        ensures same { result.region.now ≡ self.now.region.now }
        ensures one_more { result.refused ≡ self.now.refused + 1 }
        ensures picks { result.picks ≡ self.now.picks }
    {
        let mut below = *self;
        below.refused += 1;
        below
    }
}
