//! The first version of the text that knows each node of a tree.
ghost use Rattle.std.specs.Prelude.{◌≡◌};
ghost use Rattle.certificate_text.specs.Planned.{version_for, versions_for};
ghost use Rattle.proof_tree.specs.Shape.{forest_of, tree_of};

use proof_tree::Proof;

/// The number of the first version that knows each node of the tree: the second a place that is left out, the third
/// cells that are left out or weigh, and the fourth a pick.
#[cycle(versions)]
pub fn least_version(proof: &Proof) -> u8
    ensures { result ≡ version_for (tree_of proof.now) }
{
    match proof {
        Proof::Leaf(_) => 1,
        Proof::Weighted(_) => 3,
        Proof::Branch { cell: _, kids } => greatest_version(kids.trees()),
        Proof::Bar {
            place: _,
            by: _,
            kid,
        } => least_version(kid.tree()).max(2),
        Proof::Omit { cells: _, kid } => least_version(kid.tree()).max(3),
        Proof::Pick { .. } => 4,
    }
}

/// The number of the first version that knows each node of the trees.
#[cycle(versions)]
fn greatest_version(trees: &[Proof]) -> u8
    ensures { result ≡ versions_for (forest_of trees.now) }
{
    let mut version = 1;
    for tree in trees {
        version = least_version(tree).max(version);
    }
    version
}
