//! The shares of groups, one after another, each with its group.
ghost use Rattle.std.specs.Prelude.{◌≡◌, ◌++◌, IfOk, OnOk};
ghost use Rattle.weight_judge.specs.Claims.{claims_of as list_of, share_claims};

use cave_base::Cell;
use proof_rules::{Group, Share};
use std::alloc::{AllocError, Global};

/// A share with the index and the capacity of its group: what it claims of the places that light its cell.
#[derive(Clone, Copy)]
pub struct Claim {
    pub group: usize,
    pub capacity: u32,
    pub cell: Cell,
    pub weight: u32,
}

/// The claims of all shares of the groups, in their order.
pub fn claims_of(alloc: Global, groups: &[Group]) -> Result<Vec<Claim>, AllocError>
    ensures { IfOk result (λ v. v.items ≡ list_of groups.now) }
{
    let mut claims = Vec::new(alloc);
    for index in 0..groups.len() {
        let group = &groups[index];
        push_claims(&mut claims, index, group.capacity, group.shares.as_slice())?;
    }
    Ok(claims)
}

/// Puts the claims of a group's shares at the end.
fn push_claims(
    claims: &mut Vec<Claim>,
    group: usize,
    capacity: u32,
    shares: &[Share],
) -> Result<(), AllocError>
    ensures { OnOk result (claims.new.items ≡ claims.old.items ++ share_claims group capacity shares.now) }
{
    for share in shares {
        let claim = Claim {
            group,
            capacity,
            cell: share.cell,
            weight: share.weight,
        };
        claims.push(claim)?;
    }
    Ok(())
}
