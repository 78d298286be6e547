//! Finished trees without the kids that their branches can do without.

use crate::groups::copied_groups;
use crate::needless_kids::{FinishedBranch, Needless, SpokenTree};
use crate::node_rows::NodeRows;
use crate::pruning::{bars_above, copied};
use crate::spoken::Spoken;
use cave_base::Sequence;
use instance_reduction::{InRegion, NodePlaces, RegionInstance};
use number_lists::{bits_of, clear_bit, is_set, set_bit};
use proof_tree::{Below, Kids, Proof, wrap};
use std::alloc::{AllocError, Global};

/// A copy of the tree of a node without the kids that its branches can do without.
pub fn without_needless_kids(
    alloc: Global,
    site: NodePlaces<'_>,
    tree: &Proof,
) -> Result<Proof, AllocError> {
    let NodePlaces { whole, node } = site;
    let left = NodeRows {
        unlit: Vec::from_slice(alloc, node.unlit())?,
        barred: Vec::from_slice(alloc, node.barred())?,
        gone: vec![in alloc; 0u64; node.barred().len()]?,
    };
    let lessening = Lessening {
        alloc,
        whole,
        is_first: true,
    };
    let told = lessening.lessened(left, tree, whole.region.places().len())?;
    let SpokenTree { tree, spoken: _ } = told;
    Ok(tree)
}

/// A place that is picked, and the trees with it chosen and with it barred.
#[derive(Clone, Copy)]
struct PickedTrees<'a> {
    place: InRegion,
    with: &'a Proof,
    without: &'a Proof,
}

/// How trees are made shorter: in this region, and whether kids that branches can do without are looked for.
#[derive(Clone, Copy)]
struct Lessening<'a> {
    alloc: Global,
    whole: RegionInstance<'a>,
    is_first: bool,
}

impl<'a> Lessening<'a> {
    /// Once more, where no needless kids are looked for.
    fn again(self) -> Lessening<'a> {
        Lessening {
            alloc: self.alloc,
            whole: self.whole,
            is_first: false,
        }
    }

    /// The tree of a node without the kids and bars of places that are gone, if it isn't deeper than there is room; and
    /// without needless kids, where such are looked for.
    #[cycle(lessening)]
    fn lessened(self, left: NodeRows, tree: &Proof, room: usize) -> Result<SpokenTree, AllocError> {
        let mut left = left;
        let mut spoken = Spoken::none(self.alloc, self.whole.region)?;
        let (bars, rest) = bars_above(self.alloc, tree)?;
        let bars = left.take_bars(self.alloc, &bars, &mut spoken)?;
        if room == 0 {
            return Ok(SpokenTree {
                tree: copied(self.alloc, &[])?,
                spoken,
            });
        }
        let bare = self.bare(left, rest, room - 1, &mut spoken)?;
        let tree = wrap(self.alloc, bars, bare)?;
        Ok(SpokenTree { tree, spoken })
    }

    /// A tree that has no bars above it, made shorter. What is spoken of gains what it speaks of.
    #[cycle(lessening)]
    fn bare(
        self,
        left: NodeRows,
        tree: &Proof,
        room: usize,
        spoken: &mut Spoken,
    ) -> Result<Proof, AllocError> {
        match tree {
            Proof::Branch { cell, kids } => {
                self.branch(left, InRegion::of(*cell), kids.trees(), room, spoken)
            }
            Proof::Omit { cells, kid } => {
                self.omission(left, cells.as_slice(), kid.tree(), room, spoken)
            }
            Proof::Pick {
                place,
                with,
                without,
            } => {
                let trees = PickedTrees {
                    place: InRegion::of(*place),
                    with: with.tree(),
                    without: without.tree(),
                };
                self.pick(left, trees, room, spoken)
            }
            Proof::Leaf(cells) => {
                spoken.add_cells(cells.as_slice());
                copied(self.alloc, cells.as_slice())
            }
            Proof::Weighted(groups) => {
                spoken.add_groups(groups.as_slice());
                let groups = copied_groups(self.alloc, groups.as_slice())?;
                Ok(Proof::Weighted(groups))
            }
            _ => copied(self.alloc, &[]),
        }
    }

    /// The branch on the cell, with its kids made shorter, and without those that it can do without.
    #[cycle(lessening)]
    fn branch(
        self,
        left: NodeRows,
        cell: InRegion,
        kids: &[Proof],
        room: usize,
        spoken: &mut Spoken,
    ) -> Result<Proof, AllocError> {
        let mut left = left;
        let places = self.whole.open_at(self.alloc, cell, &left.barred)?;
        let told = self.each(&left, &places, kids, room)?;
        let finished = FinishedBranch {
            whole: self.whole,
            left: &left,
            cell,
            places: &places,
            kids: &told,
        };
        let needless = finished.needless(self.alloc, self.is_first)?;
        let kids = if needless.bars.is_empty() {
            told
        } else {
            let trees = trees_of(self.alloc, told)?;
            left.leave_out(&needless);
            self.again().each(&left, &places, &trees, room)?
        };
        branch_of(self.alloc, cell, kids, needless, spoken)
    }

    /// The omission of the cells, with its tree made shorter.
    #[cycle(lessening)]
    fn omission(
        self,
        left: NodeRows,
        cells: &[u32],
        kid: &Proof,
        room: usize,
        spoken: &mut Spoken,
    ) -> Result<Proof, AllocError> {
        let mut left = left;
        left.omit(cells);
        let told = self.lessened(left, kid, room)?;
        spoken.join(&told.spoken);
        spoken.add_cells(cells);
        let SpokenTree { tree, spoken: _ } = told;
        let cells = Vec::from_slice(self.alloc, cells)?;
        omitted(self.alloc, cells, tree)
    }

    /// The pick of both trees, each made shorter. One of a place that is gone is its second tree.
    #[cycle(lessening)]
    fn pick(
        self,
        left: NodeRows,
        trees: PickedTrees<'_>,
        room: usize,
        spoken: &mut Spoken,
    ) -> Result<Proof, AllocError> {
        let PickedTrees {
            place,
            with,
            without,
        } = trees;
        let mut rest = left.copied(self.alloc)?;
        set_bit(rest.barred.as_mut_slice(), place.index());
        let without = self.lessened(rest, without, room)?;
        spoken.join(&without.spoken);
        if is_set(&left.gone, place.index()) {
            let SpokenTree { tree, .. } = without;
            return Ok(tree);
        }
        let mut below = left;
        for lit in self.whole.instance.spread(place) {
            clear_bit(below.unlit.as_mut_slice(), *lit as usize);
        }
        let with = self.lessened(below, with, room)?;
        spoken.join(&with.spoken);
        let (SpokenTree { tree: with, .. }, SpokenTree { tree: without, .. }) = (with, without);
        Ok(Proof::Pick {
            place: place.number(),
            with: Below::of(self.alloc, with)?,
            without: Below::of(self.alloc, without)?,
        })
    }

    /// The trees of a branch, whose kids have these places, each made shorter; without those of places that are gone.
    #[cycle(lessening)]
    fn each(
        self,
        left: &NodeRows,
        places: &[u32],
        trees: &[Proof],
        room: usize,
    ) -> Result<Vec<SpokenTree>, AllocError> {
        let mut barred = Vec::from_slice(self.alloc, &left.barred)?;
        let mut found = Vec::with_capacity(self.alloc, trees.len())?;
        for index in 0..trees.len() {
            let place = InRegion::of(places.get(index).copied().unwrap_or(u32::MAX));
            if !is_set(&left.gone, place.index()) {
                let mut below = left.copied(self.alloc)?;
                below.barred.clear();
                below.barred.extend_from_slice(&barred)?;
                for lit in self.whole.instance.spread(place) {
                    clear_bit(below.unlit.as_mut_slice(), *lit as usize);
                }
                found.push(self.lessened(below, &trees[index], room)?)?;
            }
            set_bit(barred.as_mut_slice(), place.index());
        }
        Ok(found)
    }
}

/// The branch on a cell with these kids, below what is left out for it. What is spoken of gains what it speaks of.
fn branch_of(
    alloc: Global,
    cell: InRegion,
    kids: Vec<SpokenTree>,
    needless: Needless,
    spoken: &mut Spoken,
) -> Result<Proof, AllocError> {
    for kid in &kids {
        spoken.join(&kid.spoken);
    }
    spoken.add_cell(cell);
    for bar in &needless.bars {
        spoken.add_by(InRegion::of(bar.by));
    }
    let Needless {
        is_gone: _,
        bars,
        cells,
    } = needless;
    let branch = Proof::Branch {
        cell: cell.number(),
        kids: Kids::of(trees_of(alloc, kids)?),
    };
    let tree = wrap(alloc, bars, branch)?;
    let cells = bits_of(alloc, &cells)?;
    spoken.add_cells(&cells);
    omitted(alloc, cells, tree)
}

/// The tree below cells that are left out, if any are.
pub(crate) fn omitted(alloc: Global, cells: Vec<u32>, tree: Proof) -> Result<Proof, AllocError> {
    if cells.is_empty() {
        return Ok(tree);
    }
    Ok(Proof::Omit {
        cells: Sequence::from_vec(cells),
        kid: Below::of(alloc, tree)?,
    })
}

/// The trees alone.
fn trees_of(alloc: Global, kids: Vec<SpokenTree>) -> Result<Vec<Proof>, AllocError> {
    let mut trees = Vec::with_capacity(alloc, kids.len())?;
    for kid in kids {
        let SpokenTree { tree, spoken: _ } = kid;
        trees.push(tree)?;
    }
    Ok(trees)
}
