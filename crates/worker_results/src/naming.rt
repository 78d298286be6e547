//! Names of a search's beacon, deques and region, as a type. So what workers hold and hand over fits together by its
//! type; the words are those of specs/Naming.antt.
use std::marker::Brand;

/// Which beacon and deques a type speaks of, and which region. Each call of a search picks them. `start` is what lies
/// on a worker's deque when it starts.
pub trait Naming {
    ghost use Rattle.std.specs.Prelude.{ℕ, List};
    ghost use Rattle.atomic_table.specs.Seated.{TableId};
    ghost use Rattle.set_cover.specs.Instance.{Instance};
    ghost use Rattle.proof_tree.specs.Piece.{Subproblem};
    ghost use Rattle.worker_results.specs.Naming.{DequeId};

    ghost beacon: { TableId };

    ghost deque: { ℕ → DequeId };

    ghost region: { Instance };

    ghost workers: { ℕ };

    ghost start: { ℕ → List Subproblem };
}

impl Naming for Brand {
    ghost use Rattle.std.specs.Prelude.{[]};
    ghost use Rattle.worker_results.specs.Nothing.{no_table, no_deque, no_region};

    ghost beacon = { no_table };

    ghost deque = { λ _. no_deque };

    ghost region = { no_region };

    ghost workers = { 0 };

    ghost start = { λ _. [] };
}
