//! Who is told how a search gets on.
ghost use Rattle.std.specs.Prelude.{◌≤◌};

use proof_tree::Name;
use std::marker::Sync;

/// Told of a search while it goes on. Nothing is promised of it, and nothing comes back from it; tests hold workers
/// back in it.
pub trait Observer: Sync {
    /// The region with this number, from 1, of `_count` regions is planned next.
    fn region(&self, _number: usize, _count: usize)
        requires { (1 ≤ _number) × (_number ≤ _count) }
    {}

    /// A node is worked on. The smallest cover had `_size` places as the round began, and it is proved, if the round
    /// comes to its end, that no cover has fewer than `_aim`.
    fn turn(&self, _size: u64, _aim: u64)
        requires { (1 ≤ _aim) × (_aim ≤ _size) }
    {}

    /// The worker with this number took the piece of this name, and works on it next.
    fn enter(&self, _worker: u32, _name: &Name) {}
}

/// Nobody.
pub struct Unobserved;

impl Observer for Unobserved {}
