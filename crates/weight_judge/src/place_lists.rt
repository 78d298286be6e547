//! Lists of places, one for each of some cells.
ghost use Rattle.std.specs.Prelude.{◌≡◌, [], ◌∷◌, ◌++◌, OnOk};
ghost use Rattle.weight_judge.specs.Held.{places_at};

use std::alloc::{AllocError, Global};
use std::marker::Model;

/// Lists of places, one after another.
#[derive(Drop)]
pub struct PlaceLists {
    lists: Vec<Vec<u32>>,
}

impl Model for PlaceLists {
    ghost use Rattle.std.specs.Prelude.{ℕ, List, map};

    ghost Value = { List (List ℕ) };

    ghost view = { λ r. map (λ v. v.items) r.lists.items };
}

impl PlaceLists {
    /// No list.
    pub fn new(alloc: Global) -> PlaceLists
        ensures { result ≡ [] }
    {
        PlaceLists {
            lists: Vec::new(alloc),
        }
    }

    /// Puts a list at the end.
    pub fn push(&mut self, places: Vec<u32>) -> Result<(), AllocError>
        ensures { OnOk result (self.new ≡ self.old ++ places.items ∷ []) }
    {
        self.lists.push(places)?;
        Ok(())
    }

    /// The list at an index; past the end it is empty.
    pub fn list(&self, index: usize) -> &[u32]
        ensures { result.now ≡ places_at self.now index }
    {
        match self.lists.get(index) {
            Some(places) => places,
            None => &[],
        }
    }
}
