//! The core.
ghost use Rattle.std.specs.Arc.{arc_value};
ghost use Rattle.std.specs.Prelude.{◌≡◌, ◌<◌, ◌↔◌, [], length, set, slice_index, IsTrue, IfOk, IfErr, is_ok};
ghost use Rattle.event_core.specs.Events.{smaller};
ghost use Rattle.event_core.specs.Finished.{IsWhole};
ghost use Rattle.event_core.specs.Kept.{IsKept, IsAssembly, put_kept, state_of};
ghost use Rattle.event_core.specs.NodeShape.{shape_of};
ghost use Rattle.event_core.specs.Sound.{IsSoundState};
ghost use Rattle.event_core.specs.State.{Begins, IsDone, goal_of};
ghost use Rattle.event_core.specs.Tracing.{IsTraced};
ghost use Rattle.instance_regions.specs.Cover.{IsCover};
ghost use Rattle.proof_tree.specs.Shape.{tree_of};

use crate::assembling::{assemble, is_done};
use crate::node::PieceNode;
use crate::putting::put;
use crate::tracing::{Traced, trace};
use instance_regions::{Cover, Region};
use proof_tree::Proof;
use std::alloc::{AllocError, Global};
use std::marker::Model;
use std::mem;
use std::sync::Arc;

/// What is known of a region while workers close its pieces: the best cover, the aim, the size that each worker saw
/// last, and what became of each piece.
#[derive(Drop)]
pub struct Core {
    alloc: Global,
    region: Arc<Region>,
    best: Cover,
    /// No piece has to be closed at a greater size than this.
    aim: u64,
    seen: Vec<u64>,
    root: PieceNode,
}

impl Model for Core {
    ghost use Rattle.std.specs.Prelude.{◌≡◌};
    ghost use Rattle.std.specs.Arc.{arc_value};
    ghost use Rattle.event_core.specs.Kept.{Kept, kept_coded, IsKept};
    ghost use Rattle.event_core.specs.NodeShape.{shape_of};

    ghost Value = { Kept };

    ghost coded = { kept_coded };

    ghost view = { λ c. record {
      region = arc_value c.region;
      best = c.best.places;
      aim = c.aim;
      seen = c.seen.items;
      root = shape_of c.root;
    } };

    ghost invariant = { λ c. (c.best.region ≡ arc_value c.region) × IsKept (record {
      region = arc_value c.region;
      best = c.best.places;
      aim = c.aim;
      seen = c.seen.items;
      root = shape_of c.root;
    }) };
}

impl Core {
    /// A core in which the root waits. Each of `workers` workers has seen the aim, or the size of this cover of the
    /// region where that is smaller.
    pub fn new(
        alloc: Global,
        region: Arc<Region>,
        best: Cover,
        aim: u64,
        workers: u32,
    ) -> Result<Core, AllocError>
        requires of_it { best.region ≡ arc_value region }
        ensures { IfOk result (λ core. Begins (arc_value region) best.places aim workers (state_of core)) }
    {
        let goal = aim.min(best.size());
        let seen = vec![in alloc; goal; workers as usize]?;
        Ok(Core {
            alloc,
            region,
            best,
            aim,
            seen,
            root: PieceNode::Waiting,
        })
    }

    /// The best cover.
    pub fn best(&self) -> &Cover
        ensures { result.now ≡ record { region = self.now.region; places = self.now.best } }
    {
        &self.best
    }

    /// Whether no piece waits or is held.
    pub fn is_done(&self) -> bool
        ensures done { IsTrue result ↔ IsDone (state_of self.now) }
        ensures sound { IsSoundState (state_of self.now) }
    {
        is_done(&self.root)
    }

    /// The best cover, and the tree which proves that none is smaller, or none below the aim where that is smaller
    /// still. The core comes back where a piece waits or is held. It takes no memory.
    pub fn assemble(self) -> Result<(Cover, Proof), Core>
        ensures exactly { IsTrue (is_ok result) ↔ IsDone (state_of self) }
        ensures done { IfOk result (λ r. IsAssembly self r.0 (tree_of r.1)) }
        ensures back { IfErr result (λ core. core ≡ self) }
    {
        if !is_done(&self.root) {
            return Err(self);
        }
        let Core { best, root, .. } = self;
        Ok((best, assemble(root)))
    }

    /// The size at which pieces are to be closed: that of the best cover, or the aim where that is smaller.
    fn goal(&self) -> u64
        ensures { result ≡ goal_of (state_of self.now) }
    {
        self.aim.min(self.best.size())
    }

    pub(crate) fn alloc(&self) -> Global {
        self.alloc
    }

    pub(crate) fn has_worker(&self, worker: u32) -> bool
        ensures { IsTrue result ↔ (worker < length self.now.seen) }
    {
        (worker as usize) < self.seen.len()
    }

    pub(crate) fn region(&self) -> &Region
        ensures { result.now ≡ self.now.region }
    {
        self.region.as_ref()
    }

    /// The region, to be shared.
    pub(crate) fn shared(&self) -> &Arc<Region>
        ensures { arc_value result.now ≡ self.now.region }
    {
        &self.region
    }

    pub(crate) fn root(&self) -> &PieceNode
        ensures { shape_of result.now ≡ self.now.root }
    {
        &self.root
    }

    /// The size that the worker saw last.
    pub(crate) fn seen(&self, worker: u32) -> u64
        requires { worker < length self.now.seen }
        ensures { result ≡ slice_index self.now.seen worker }
    {
        self.seen[worker as usize]
    }

    /// The piece of this name.
    pub(crate) fn traced(&self, name: &[u32]) -> Result<Option<Traced>, AllocError>
        ensures traced { IfOk result (IsTraced [] [] self.now.root name.now) }
        ensures kept { IsKept self.now }
    {
        let chosen = Vec::new(self.alloc);
        let barred = Vec::new(self.alloc);
        let traced = trace(&self.root, name, chosen, barred)?;
        Ok(traced)
    }

    /// The worker sees the size at which pieces are to be closed.
    pub(crate) fn see(&mut self, worker: u32)
        requires { worker < length self.old.seen }
        ensures { self.new ≡ record self.old { seen = set self.old.seen worker (goal_of (state_of self.old)) } }
    {
        let goal = self.goal();
        self.seen[worker as usize] = goal;
    }

    /// The cover is the best if it is smaller.
    pub(crate) fn better(&mut self, cover: Cover)
        requires { cover.region ≡ self.old.region }
        ensures better { self.new ≡ record self.old { best = smaller cover.places self.old.best } }
        ensures covers { IsCover cover }
    {
        if cover.size() < self.best.size() {
            self.best = cover;
        }
    }

    /// The new node stands at the name.
    pub(crate) fn turn(&mut self, name: &[u32], node: PieceNode)
        requires whole { IsWhole (shape_of node) }
        requires sound { IsSoundState (state_of (put_kept self.old name.now (shape_of node))) }
        ensures { self.new ≡ put_kept self.old name.now (shape_of node) }
    {
        let root = mem::replace(&mut self.root, PieceNode::Waiting);
        self.root = put(root, name, node);
    }
}
