//! Names of pieces: the numbers of the kids on the way from the root.
ghost use Rattle.std.specs.Prelude.{◌≡◌, ◌∷◌, [], ◌++◌, IfOk};

use cave_model::OutOfMemory;
use std::alloc::Global;
use std::marker::Model;

/// The name of a piece: the numbers of the kids that lead to it from the root, whose name is empty.
#[derive(Debug, Drop)]
pub struct Name {
    kids: Vec<u32>,
}

impl Model for Name {
    ghost use Rattle.std.specs.Prelude.{List, ℕ};

    ghost Value = { List ℕ };

    ghost view = { λ n. n.kids.items };
}

impl Name {
    /// The name of the root, which takes no memory.
    pub fn root(alloc: Global) -> Name
        ensures { result ≡ [] }
    {
        Name {
            kids: Vec::new(alloc),
        }
    }

    /// The numbers from the root.
    pub fn as_slice(&self) -> &[u32]
        ensures { result.now ≡ self.now }
    {
        self.kids.as_slice()
    }

    /// The name of the kid with this number.
    pub fn kid(&self, number: u32) -> Result<Name, OutOfMemory>
        ensures { IfOk result (λ name. name ≡ self.now ++ number ∷ []) }
    {
        let mut kids = self.kids.clone()?;
        kids.push(number)?;
        Ok(Name { kids })
    }

    /// A copy of the name.
    pub fn try_clone(&self) -> Result<Name, OutOfMemory>
        ensures { IfOk result (λ name. name ≡ self.now) }
    {
        Ok(Name {
            kids: self.kids.clone()?,
        })
    }
}
