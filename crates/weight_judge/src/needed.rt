//! How many places groups need.
ghost use Rattle.std.specs.Prelude.{◌≡◌, ◌<◌, ◌≤◌, ◌*◌, All, length};
ghost use Rattle.proof_rules.specs.Groups.{all_cells_of, places_for as needed_by, places_for_all as needed_by_all};
ghost use Rattle.proof_rules.specs.Groups.{weight_of};

use proof_rules::{Group, Share};

/// How many places the groups need together, where no place lights cells of two.
pub fn places_for_all(groups: &[Group]) -> u64
    requires some { All (λ group. 0 < group.capacity) groups.now }
    requires few { length (all_cells_of groups.now) ≤ 4294967296 }
    ensures { result ≡ needed_by_all groups.now }
{
    let mut total: u64 = 0;
    for group in groups {
        total += places_for(group);
    }
    total
}

/// How many a group needs at least.
fn places_for(group: &Group) -> u64
    requires some { 0 < group.now.capacity }
    requires few { length group.now.shares ≤ 4294967296 }
    ensures exact { result ≡ needed_by group.now }
    ensures few { result ≤ length group.now.shares * 4294967295 }
{
    weight(group.shares.as_slice()).div_ceil(u64::from(group.capacity))
}

/// What the shares weigh together.
fn weight(shares: &[Share]) -> u64
    requires few { length shares.now ≤ 4294967296 }
    ensures exact { result ≡ weight_of shares.now }
    ensures few { result ≤ length shares.now * 4294967295 }
{
    let mut total: u64 = 0;
    for share in shares {
        total += u64::from(share.weight);
    }
    total
}
