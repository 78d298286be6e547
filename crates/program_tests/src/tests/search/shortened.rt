//! Finished trees without the kids that a branch can do without, in small regions, two of whose places are needed.
use super::rings::region;
use cave_base::Sequence;
use instance_regions::Region;
use pack_bound::Node;
use proof_rules::{Group, Share};
use proof_tree::{Kids, Proof};
use search_moves::Moves;
use search_traits::Strategy;
use std::alloc::{AllocError, Global};
use std::process::Abort;
use std::test::Fail;
use tree_judges::is_good;

/// A ring: places by the cells that they light.
const RING: [[u32; 2]; 4] = [[0, 1], [0, 2], [3, 1], [3, 2]];

/// Places of which two light the same.
const TWINS: [[u32; 2]; 5] = [[0, 1], [0, 2], [0, 2], [1, 3], [2, 3]];

/// The weighted leaf of one cell.
fn leaf_of(alloc: Global, cell: u32) -> Result<Proof, AllocError> {
    let shares = vec![in alloc; Share { cell, weight: 1 }]?;
    let group = Group {
        capacity: 1,
        shares: Sequence::from_vec(shares),
    };
    Ok(Proof::Weighted(Sequence::from_vec(vec![in alloc; group]?)))
}

/// The leaf of no cell.
fn lit(alloc: Global) -> Proof {
    Proof::Leaf(Sequence::from_vec(Vec::new(alloc)))
}

/// A branch on a cell.
fn branch_on(cell: u32, kids: Vec<Proof>) -> Proof {
    let kids = Kids::of(kids);
    Proof::Branch { cell, kids }
}

/// The branch below the bars and cells that a tree begins with.
fn trees_below(tree: &Proof) -> Option<&[Proof]> {
    let mut rest = tree;
    for _ in 0..8 {
        match rest {
            Proof::Bar {
                place: _,
                by: _,
                kid,
            } => rest = kid.tree(),
            Proof::Omit { cells: _, kid } => rest = kid.tree(),
            Proof::Branch { cell: _, kids } => return Some(kids.trees()),
            _ => return None,
        }
    }
    None
}

/// How many kids the first branch of a tree has; none where it is a leaf.
fn kid_count(tree: &Proof) -> usize {
    match trees_below(tree) {
        Some(trees) => trees.len(),
        None => 0,
    }
}

/// How many kids the branch of its first kid has.
fn kid_count_below(tree: &Proof) -> usize {
    match trees_below(tree) {
        Some(trees) if !trees.is_empty() => kid_count(&trees[0]),
        _ => 0,
    }
}

/// The tree of the whole region, shortened.
fn shortened(alloc: Global, region: &Region, tree: &Proof) -> Result<Proof, AllocError> {
    let node = Node::root(alloc, region)?;
    let moves = Moves::at(alloc, region, &node)?;
    moves.shortened(alloc, region, &node, tree)
}

/// Whether it shows that two places are needed.
fn shows_two(alloc: Global, region: &Region, tree: &Proof) -> Result<bool, AllocError> {
    let mut node = Node::root(alloc, region)?;
    is_good(alloc, region, &mut node, tree, 2)
}

/// The tree, shortened; it and the shorter one show that two places are needed.
fn shorter(rt: &impl Abort, alloc: Global, region: &Region, tree: &Proof) -> Result<Proof, Fail> {
    assert!(rt; shows_two(alloc, region, tree)?);
    let less = shortened(alloc, region, tree)?;
    assert!(rt; shows_two(alloc, region, &less)?);
    Ok(less)
}

/// A branch on cell 0 with two kids, whose leaves name cell 3 alone, which neither place lights.
fn tree_of_ring(alloc: Global) -> Result<Proof, AllocError> {
    let one = leaf_of(alloc, 3)?;
    let other = leaf_of(alloc, 3)?;
    Ok(branch_on(0, vec![in alloc; one, other]?))
}

/// A branch on cell 0, the first of whose kids is branched on cell 2, which both twins light, and the last place.
fn tree_of_twins(alloc: Global) -> Result<Proof, AllocError> {
    let below = branch_on(2, vec![in alloc; lit(alloc), lit(alloc), lit(alloc)]?);
    let one = leaf_of(alloc, 1)?;
    let other = leaf_of(alloc, 1)?;
    Ok(branch_on(0, vec![in alloc; below, one, other]?))
}

#[test]
fn a_kid_goes_where_the_others_name_no_cell_that_it_alone_lights(
    rt: HostRuntime,
) -> Result<(), Fail> {
    let alloc = rt.alloc();
    let region = region(alloc, 4, &RING)?;
    let less = shorter(&rt, alloc, region.as_ref(), &tree_of_ring(alloc)?)?;
    assert_eq!(rt; kid_count(&less), 1);
    Ok(())
}

#[test]
fn kids_below_go_with_the_place_of_one_that_goes(rt: HostRuntime) -> Result<(), Fail> {
    let alloc = rt.alloc();
    let region = region(alloc, 4, &TWINS)?;
    let less = shorter(&rt, alloc, region.as_ref(), &tree_of_twins(alloc)?)?;
    // one twin goes for the other, at the root and below
    assert_eq!(rt; kid_count(&less), 2);
    assert_eq!(rt; kid_count_below(&less), 2);
    Ok(())
}
