//! A tree of cases.
ghost use Rattle.std.specs.Prelude.{◌≡◌, IfOk};
ghost use Rattle.proof_tree.specs.Shape.{tree_of, forest_of};

use cave_base::Sequence;
use proof_rules::Group;
use std::alloc::{AllocError, Global};
use std::marker::Model;

/// A tree below a node: of a place or cells that are left out, or of a pick.
#[cycle(proof)]
pub struct Below {
    tree: Box<Proof>,
}

/// Trees, one for each place in turn.
#[cycle(proof)]
#[derive(Drop)]
pub struct Kids {
    items: Vec<Proof>,
}

/// Why each cover of a piece has at least a given number of places.
#[cycle(proof)]
#[derive(Drop)]
pub enum Proof {
    Leaf(Sequence<u32>),
    Weighted(Sequence<Group>),
    Branch {
        cell: u32,
        kids: Kids,
    },
    Bar {
        place: u32,
        by: u32,
        kid: Below,
    },
    Omit {
        cells: Sequence<u32>,
        kid: Below,
    },
    Pick {
        place: u32,
        with: Below,
        without: Below,
    },
}

/// One level at a time, so that a long row of bars takes no stack.
impl Drop for Below {
    #[cycle(let_go)]
    fn drop(mut self) {
        loop {
            let Below { tree } = self;
            match Box::into_inner(tree) {
                Proof::Bar { kid, .. } => self = kid,
                Proof::Omit { cells: _cells, kid } => self = kid,
                Proof::Pick {
                    with: _with,
                    without,
                    ..
                } => self = without,
                Proof::Leaf(_cells) => return,
                Proof::Weighted(_groups) => return,
                Proof::Branch { kids: _kids, .. } => return,
            }
        }
    }
}

impl Model for Below {
    ghost use Rattle.proof_rules.specs.Tree.{Tree};
    ghost use Rattle.proof_tree.specs.Codes.{tree_coded};

    ghost Value = { Tree };

    ghost coded = { tree_coded };

    ghost use Rattle.proof_tree.specs.Shape.{tree_of, tree_size};

    ghost view = { λ b. tree_of b.tree.value };

    ghost size = { tree_size };

    ghost use Rattle.proof_tree.specs.Falls.{below_falls};

    ghost size_decreases = { λ a h. below_falls a.tree.value };
}

impl Model for Kids {
    ghost use Rattle.proof_rules.specs.Tree.{Forest};
    ghost use Rattle.proof_tree.specs.Codes.{forest_coded};

    ghost Value = { Forest };

    ghost coded = { forest_coded };

    ghost use Rattle.proof_tree.specs.Shape.{forest_of, forest_size};

    ghost view = { λ k. forest_of k.items.items };

    ghost size = { forest_size };

    ghost use Rattle.proof_tree.specs.Falls.{kids_fall};

    ghost size_decreases = { λ a h. kids_fall a.items.items };
}

impl Kids {
    /// These trees, with no new memory.
    pub fn of(items: Vec<Proof>) -> Kids
        ensures { result ≡ forest_of items.items }
    {
        Kids { items }
    }

    /// The trees, in the order in which they were given.
    pub fn trees(&self) -> &[Proof]
        ensures { self.now ≡ forest_of result.now }
    {
        self.items.as_slice()
    }

    /// The trees alone, with no new memory.
    pub fn into_trees(self) -> Vec<Proof>
        ensures { forest_of result.items ≡ self }
    {
        let Kids { items } = self;
        items
    }
}

impl Below {
    /// This tree, in memory of its own.
    pub fn of(alloc: Global, tree: Proof) -> Result<Below, AllocError>
        ensures { IfOk result (λ below. below ≡ tree_of tree) }
    {
        Ok(Below {
            tree: Box::new(alloc, tree)?,
        })
    }

    /// The tree below.
    pub fn tree(&self) -> &Proof
        ensures { tree_of result.now ≡ self.now }
    {
        &self.tree
    }

    /// Another tree in the same memory.
    pub fn holding(self, tree: Proof) -> Below
        ensures { result ≡ tree_of tree }
    {
        let Below { tree: mut room } = self;
        *room = tree;
        Below { tree: room }
    }

    /// The tree alone, with no new memory.
    pub fn into_tree(self) -> Proof
        ensures { tree_of result ≡ self }
    {
        let Below { tree } = self;
        Box::into_inner(tree)
    }
}
