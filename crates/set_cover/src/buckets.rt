//! Lists of numbers by a key: specs/Buckets.antt.
ghost use Rattle.std.specs.Prelude.{◌≡◌, ◌<◌, [], length, slice_index_or, IfOk, OnOk};
ghost use Rattle.set_cover.specs.Buckets.{AreNone, IsPushed};

use std::alloc::{AllocError, Global};
use std::marker::Model;

/// Room for this many numbers is made at once in a list that gets its first.
const SHORT: usize = 16;

/// Lists of numbers by a key.
#[derive(Debug, Drop)]
pub struct Buckets {
    lists: Vec<Vec<u32>>,
}

impl Model for Buckets {
    ghost use Rattle.std.specs.Prelude.{ℕ, List, map};

    ghost Value = { List (List ℕ) };

    ghost view = { λ b. map (λ v. v.items) b.lists.items };
}

impl Buckets {
    /// An empty list for each of `count` keys.
    pub fn new(alloc: Global, count: usize) -> Result<Buckets, AllocError>
        ensures { IfOk result (AreNone count) }
    {
        let mut lists = Vec::with_capacity(alloc, count)?;
        for _ in 0..count {
            lists.push(Vec::new(alloc))?;
        }
        Ok(Buckets { lists })
    }

    /// Puts the item at the end of the key's list.
    pub fn push(&mut self, key: usize, item: u32) -> Result<(), AllocError>
        requires key { key < length self.old }
        ensures { OnOk result (IsPushed self.old key item self.new) }
    {
        let list = &mut self.lists[key];
        make_room(list)?;
        list.push(item)?;
        Ok(())
    }

    /// The list of the key.
    pub fn at(&self, key: usize) -> &[u32]
        requires key { key < length self.now }
        ensures { result.now ≡ slice_index_or self.now key [] }
    {
        &self.lists[key]
    }
}

/// Makes room in a list without numbers.
#[inline(always)]
fn make_room(list: &mut Vec<u32>) -> Result<(), AllocError>
    ensures { list.new.items ≡ list.old.items }
{
    if list.is_empty() {
        list.reserve(SHORT)?;
    }
    Ok(())
}
