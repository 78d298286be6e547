//! Laws over plain data: what joined results say, whatever the schedule was.
ghost use Rattle.std.specs.Prelude.{◌≡◌, ◌≤◌, ◌+◌, ℕ, List, length, min, IsPermutation};
ghost use Rattle.event_core.specs.State.{Begins, State};
ghost use Rattle.proof_tree.specs.Piece.{Subproblem};
ghost use Rattle.schedule_law.specs.Joined.{AreJoined, all_back, all_closed, all_opened, all_pieces};
ghost use Rattle.schedule_law.specs.Listing.{AllEnabled, listing};
ghost use Rattle.schedule_law.specs.Names.{count_named};
ghost use Rattle.schedule_law.specs.Worked.{Worked};
ghost use Rattle.set_cover.specs.Instance.{Instance};

/// In a core with one worker more than handed over, the last being the caller's thread, every event of the list is
/// enabled.
pub fn listing_is_enabled()
    ensures { (region : Instance) (first : List ℕ) (aim : ℕ) (works : List Worked)
        (left : List Subproblem) (start : State) → AreJoined region (min aim (length first)) works left
        → Begins region first aim (length works + 1) start → AllEnabled start (listing works) }
{}

/// No name stands twice among all pieces that came to be: none was pushed on two deques, and none was taken twice.
/// Names have any length.
pub fn no_name_stands_twice()
    ensures { (region : Instance) (goal : ℕ) (works : List Worked) (left : List Subproblem)
        (name : List ℕ) → AreJoined region goal works left → count_named name (all_pieces region works) ≤ 1 }
{}

/// The pieces that came to be are as many as those opened, closed, handed back and left.
pub fn counts_add_up()
    ensures { (region : Instance) (goal : ℕ) (works : List Worked) (left : List Subproblem)
        → AreJoined region goal works left → length (all_pieces region works)
        ≡ length (all_opened works) + length (all_closed works) + length (all_back works) + length left }
{}

/// In whatever order the workers' results stand, they are joined results: so all of these laws hold of each order.
pub fn joined_in_any_order()
    ensures { (region : Instance) (goal : ℕ) (works others : List Worked) (left : List Subproblem)
        → IsPermutation works others → AreJoined region goal works left → AreJoined region goal others left }
{}
