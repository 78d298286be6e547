//! The rule of a deque of pieces, `Balances` of specs/Rule.antt, and what each kind of step changes in a pass, as
//! specs/Deals.antt says it.
use crate::dealt::Dealt;
use crossbeam_deque::protocol::{Join, Lesson, Outcome, Protocol, Split};
use proof_tree::Piece;

/// The pieces pushed are those in the deque and those taken.
pub struct EachOnce;

impl Protocol<Piece, Dealt> for EachOnce {
    ghost use Rattle.piece_deque.specs.Deals.{owner_pass, nobody};
    ghost use Rattle.piece_deque.specs.Rule.{Balances};

    ghost holds = { Balances };

    ghost first = { owner_pass };

    ghost guest = { nobody };
}

/// A push.
pub(crate) struct Pushes;

impl Outcome<Piece, Dealt> for Pushes {
    ghost use Rattle.std.specs.Prelude.{◌≡◌};
    ghost use Rattle.piece_deque.specs.Deals.{pushed_too};

    ghost then = { λ before pieces after. after ≡ pushed_too before pieces };
}

/// A take at the front.
pub(crate) struct Takes;

impl Outcome<Piece, Dealt> for Takes {
    ghost use Rattle.std.specs.Prelude.{◌≡◌};
    ghost use Rattle.piece_deque.specs.Deals.{took_too};
    ghost use Rattle.piece_deque.specs.Rule.{WasEmpty};

    ghost then = { λ before pieces after. after ≡ took_too before pieces };

    ghost empty = { WasEmpty };
}

/// A pass lent, or taken back.
pub(crate) struct Lends;

impl Split<Dealt> for Lends {
    ghost use Rattle.piece_deque.specs.Deals.{one_more_out, thief_pass};

    ghost left = { one_more_out };

    ghost right = { λ _. thief_pass };
}

impl Join<Dealt> for Lends {
    ghost use Rattle.piece_deque.specs.Deals.{together_with, nobody};

    ghost both = { together_with };

    ghost spent = { nobody };
}

/// A look at how many pieces there are.
pub(crate) struct Counts;

impl Lesson<Piece, Dealt> for Counts {
    ghost use Rattle.piece_deque.specs.Rule.{HeldPieces};

    ghost fact = { HeldPieces };
}
