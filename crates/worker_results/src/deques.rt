//! Owners take back the passes of all workers, and what is left in the deques is taken: `TakeRows` and `AreDrained` of
//! specs/Taking.antt.
ghost use Rattle.std.specs.Prelude.{◌≡◌, length, All, IfOk};
ghost use Rattle.worker_results.specs.Parting.{AreOut};
ghost use Rattle.worker_results.specs.Joining.{numbers_of};
ghost use Rattle.worker_results.specs.Naming.{numbers_from};
ghost use Rattle.worker_results.specs.Passes.{IsRow};
ghost use Rattle.worker_results.specs.Taking.{AreDrained, TakeRows, take_back_row};

use crate::naming::Naming;
use crate::own::Own;
use crate::pass_at::PassAt;
use cave_model::OutOfMemory;
use proof_tree::Piece;
use std::alloc::Global;

/// Each owner takes back all passes at its deque.
pub(crate) fn take_rows<B: Naming>(owners: &mut Vec<Own<B>>, rows: Vec<Vec<PassAt<B>>>)
    requires numbers { numbers_of owners.old.items ≡ numbers_from 0 B.workers }
    requires out { AreOut (length rows.items) owners.old.items }
    requires rows { All (IsRow B.workers) rows.items }
    ensures out { AreOut 0 owners.new.items }
    ensures sums { TakeRows owners.old.items rows.items owners.new.items }
{
    for row in rows {
        take_row(owners, row);
    }
}

/// Each owner takes back one pass at its deque.
fn take_row<B: Naming>(owners: &mut Vec<Own<B>>, row: Vec<PassAt<B>>)
    requires numbers { numbers_of owners.old.items ≡ numbers_from 0 B.workers }
    requires row { IsRow B.workers row }
    ensures numbers { numbers_of owners.new.items ≡ numbers_of owners.old.items }
    ensures done { owners.new.items ≡ take_back_row owners.old.items row.items }
{
    let mut next = 0;
    for pass in row {
        owners[next].take_back(pass);
        next += 1;
    }
}

/// The pieces that are left in the deques.
pub(crate) fn drain_all<B: Naming>(
    alloc: Global,
    owners: Vec<Own<B>>,
) -> Result<Vec<Piece>, OutOfMemory>
    requires { AreOut 0 owners.items }
    ensures { IfOk result (λ left. AreDrained owners.items left.items) }
{
    let mut left = Vec::new(alloc);
    for own in owners {
        if !own.drain(&mut left) {
            return Err(OutOfMemory);
        }
    }
    Ok(left)
}
