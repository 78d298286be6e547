//! What proposes at the nodes of a search. Nothing is promised of it: judges accept or refuse.
ghost use Rattle.pack_bound.specs.Nodes.{IsStateOf};

use cave_base::Cell;
use instance_regions::Region;
use pack_bound::Node;
use proof_tree::{Bar, Branching, Proof};
use std::alloc::{AllocError, Global};

/// What is asked of a proposer.
#[derive(Clone, Copy)]
pub struct Task<'a> {
    pub region: &'a Region,
    pub node: &'a Node,
    /// The floor of the tree that is wanted for the node. With none it is the node where the search begins.
    pub floor: Option<u64>,
    /// How many places were picked above the node and are barred here.
    pub refused: u32,
    /// Whether a place may be picked.
    pub may_pick: bool,
}

/// What is proposed at a node, by the indices of cells and places in the region.
#[derive(Drop)]
pub struct Proposal {
    /// A cover of the region, where a better one was found.
    pub cover: Option<Vec<u32>>,
    /// A tree for what is left: a leaf, or a whole one.
    pub tree: Proof,
    /// The places to leave out before the branch, in their order.
    pub bars: Vec<Bar>,
    /// What to branch on, if anything is proposed.
    pub branch: Option<Branching>,
}

/// The heuristics of a search, and what they remember of the nodes above the one that is worked on.
pub trait Proposer {
    /// What is proposed at a node for a tree of this floor, which the tree may fall short of. With no floor: a cover,
    /// as large a leaf as is found, and what to branch on.
    fn propose(&mut self, alloc: Global, task: Task<'_>) -> Result<Proposal, AllocError>
        requires { IsStateOf task.region.now task.node.now };
}

/// Heuristics that a planner is put together with: how a proposer is made, and what is proposed of whole regions and
/// whole trees. The calls may come in any order.
pub trait Strategy: Proposer + Drop {
    /// What it remembers of one node, for those right below it.
    type Memory: Drop;

    /// A proposer for the search below a node of the region.
    fn at(alloc: Global, region: &Region, node: &Node) -> Result<Self, AllocError>
        requires { IsStateOf region.now node.now };

    /// A proposer for the search below another node, which begins with what this one found at its own.
    fn below(&self, alloc: Global, region: &Region, node: &Node) -> Result<Self, AllocError>
        requires { IsStateOf region.now node.now };

    /// Another proposer for the same search, for another thread: it shares what this one was made of.
    fn again(&self, alloc: Global) -> Result<Self, AllocError>;

    /// What it remembers of the node that it proposed for last.
    fn memory(&self, alloc: Global) -> Result<Self::Memory, AllocError>;

    /// The node that it proposes for next is right below the one of which this is remembered.
    fn recall(&mut self, alloc: Global, above: &Self::Memory) -> Result<(), AllocError>;

    /// Whether picks make shorter trees in the region than branches on cells, where a search gets long.
    fn is_for_picks(&self) -> bool;

    /// A node's tree, or a shorter one, both by indices.
    fn shortened(
        &self,
        alloc: Global,
        region: &Region,
        node: &Node,
        tree: &Proof,
    ) -> Result<Proof, AllocError>;

    /// A finished tree of the region, by numbers, or a shorter one, by indices.
    fn shortened_whole(
        &self,
        alloc: Global,
        region: &Region,
        root: &Node,
        tree: &Proof,
    ) -> Result<Proof, AllocError>;

    /// The places of the region's core, ascending, by their indices: the region can do without the others.
    fn kept_places(
        &self,
        alloc: Global,
        region: &Region,
        node: &Node,
    ) -> Result<Vec<u32>, AllocError>
        requires { IsStateOf region.now node.now };

    /// A cover of the region as one of its core, by indices there: of each place itself, or the one that stands in for
    /// it.
    fn core_cover(
        &self,
        alloc: Global,
        region: &Region,
        node: &Node,
        core: &Region,
        cover: &[Cell],
    ) -> Result<Vec<u32>, AllocError>
        requires { IsStateOf region.now node.now };

    /// A cover of the region's core, by the indices of its places in the region.
    fn carried_places(
        &self,
        alloc: Global,
        region: &Region,
        places: &[Cell],
    ) -> Result<Vec<u32>, AllocError>;

    /// A tree of the region's core, by numbers, as one of the region, by indices: below cells that are left out and
    /// bars for the other places, as far as it needs them.
    fn carried_tree(
        &self,
        alloc: Global,
        region: &Region,
        node: &Node,
        tree: Proof,
    ) -> Result<Proof, AllocError>
        requires { IsStateOf region.now node.now };
}
