//! Laws over the definitions alone: whatever events there were, and of however many workers.
ghost use Rattle.std.specs.Prelude.{ℕ, ◌<◌, ◌≤◌, Bool, List, [], length};
ghost use Rattle.event_core.specs.Assembled.{IsAssembled};
ghost use Rattle.event_core.specs.Kept.{Kept, StepsTo, state_of};
ghost use Rattle.event_core.specs.Laws.{IsAnyCover, IsReached};
ghost use Rattle.event_core.specs.Plays.{Steps};
ghost use Rattle.event_core.specs.Sound.{HasKids, HasNoBars, IsLeftFor, IsLeftOver};
ghost use Rattle.event_core.specs.State.{State, HasPart, IsDone, Way, goal_of, opened};
ghost use Rattle.event_core.specs.declared.event.Event.{Event};
ghost use Rattle.proof_rules.specs.Good.{Good};
ghost use Rattle.proof_rules.specs.Tree.{Tree};
ghost use Rattle.set_cover.specs.Instance.{Instance, of_instance};

/// For each cover below the goal some piece that waits or is held has a cover of no more places. It may be another one:
/// a place that was left out gave way to one that does as well.
pub fn smaller_covers_are_left()
    ensures { (region : Instance) (events : List Event) (state : State) (places : List ℕ)
        → IsReached region events state → IsAnyCover region places → length places < goal_of state
        → IsLeftOver state places }
{}

/// Where no piece is opened below bars, each cover below the goal covers a piece that waits or is held itself.
pub fn smaller_covers_stay()
    ensures { (region : Instance) (events : List Event) (state : State) (places : List ℕ)
        → IsReached region events state → HasNoBars state → IsAnyCover region places
        → length places < goal_of state → IsLeftFor state places }
{}

/// An assembled tree is good at the goal with nothing chosen or barred.
pub fn assembled_is_good()
    ensures { (region : Instance) (events : List Event) (state : State) (tree : Tree) → IsReached region events state
        → IsAssembled state [] tree → Good (of_instance region) region.cells [] [] (goal_of state) tree }
{}

/// Where no piece waits or is held, no cover is below the goal.
pub fn done_reaches_the_goal()
    ensures { (region : Instance) (events : List Event) (state : State) (places : List ℕ)
        → IsReached region events state → IsDone state → IsAnyCover region places → goal_of state ≤ length places }
{}

/// Where no piece waits or is held, and the best is no larger than the aim, no cover is smaller than the best.
pub fn done_is_best()
    ensures { (region : Instance) (events : List Event) (state : State) (places : List ℕ)
        → IsReached region events state → IsDone state → length state.best ≤ state.aim
        → IsAnyCover region places → length state.best ≤ length places }
{}

/// A piece that is opened on a cell has a kid for each place that lights it and is open below the bars, and no other:
/// the place is chosen in the kid too, and the places before it barred. One that is opened at a place has a kid in
/// which it is chosen, and one in which it is barred.
pub fn opened_has_kids()
    ensures { (region : Instance) (events : List Event) (state : State) (name chosen barred : List ℕ) (way : Way)
        → IsReached region events state → HasPart state name chosen barred (opened way)
        → HasKids state name chosen barred way }
{}

/// What a call of `step` answers and leaves is a step of the state that the core stands for.
pub fn steps_are_events()
    ensures { (old : Kept) (event : Event) (new : Kept) (done : Bool) → StepsTo old event new done
        → Steps (state_of old) event done (state_of new) }
{}
