//! Laws over the definitions alone: what each worker is counted for, and the caller's thread, is `AreCounted` of
//! specs/Counted.antt.
ghost use Rattle.std.specs.Prelude.{ℕ, List, length, min};
ghost use Rattle.gathering.specs.Counted.{AreCounted};
ghost use Rattle.gathering.specs.Gathered.{Gathering, IsGathered};
ghost use Rattle.proof_tree.specs.Piece.{Subproblem};
ghost use Rattle.schedule_law.specs.Joined.{AreJoined};
ghost use Rattle.schedule_law.specs.Worked.{Worked};
ghost use Rattle.set_cover.specs.Instance.{Instance};

/// Where the works are those of joined results, each piece that a worker closed counts as its own, and the caller's
/// thread closed as many pieces as were handed back or left.
pub fn all_are_counted()
    ensures { (region : Instance) (first : List ℕ) (aim : ℕ) (works : List Worked)
        (left : List Subproblem) (gathered : Gathering) → AreJoined region (min aim (length first)) works left
        → IsGathered region first aim works gathered → AreCounted works left gathered }
{}
