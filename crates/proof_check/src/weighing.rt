//! A weighted leaf while its groups are told, and the group of a line.
ghost use Rattle.std.specs.Prelude.{◌≡◌, [], IfOk};
ghost use Rattle.proof_check.specs.Judged.{shares_of as told};

use cave_base::Sequence;
use proof_rules::{Group, Share};
use std::alloc::{AllocError, Global};

/// A weighted leaf of which not all groups are told.
#[derive(Drop)]
pub struct Weighing {
    /// The number of its line.
    pub line: u64,
    /// How many groups are to come.
    pub to_come: u32,
    /// The groups that were told.
    pub groups: Vec<Group>,
}

impl Weighing {
    /// A weighted leaf on this line with `to_come` groups, none of them told.
    pub fn new(alloc: Global, line: u64, to_come: u32) -> Weighing
        ensures line { result.line ≡ line }
        ensures to_come { result.to_come ≡ to_come }
        ensures none { result.groups.items ≡ [] }
    {
        Weighing {
            line,
            to_come,
            groups: Vec::new(alloc),
        }
    }
}

/// The shares that the numbers tell, each by a cell and its weight.
pub fn shares_of(alloc: Global, numbers: &[u32]) -> Result<Sequence<Share>, AllocError>
    ensures { IfOk result (λ shares. shares ≡ told numbers.now) }
{
    let mut shares = Vec::new(alloc);
    let mut rest = numbers;
    while let [cell, weight, more @ ..] = rest {
        let share = Share {
            cell: *cell,
            weight: *weight,
        };
        shares.push(share)?;
        rest = more;
    }
    Ok(Sequence::from_vec(shares))
}
