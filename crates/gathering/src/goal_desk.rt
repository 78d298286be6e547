//! The desk of the caller's thread. Its type names its aim, which is known after a search, too.
ghost use Rattle.std.specs.Prelude.{◌≡◌, ◌≤◌, length, min};
ghost use Rattle.search_traits.specs.Aimed.{aimed_state};

use cave_model::OutOfMemory;
use instance_regions::Cover;
use search_traits::{AimedDesk, AloneDesk, Desk};
use std::marker::{Brand, Model, PhantomData};

/// The aim that a type stands for. Each call of `gather` picks it.
pub(crate) trait Aim {
    ghost use Rattle.std.specs.Prelude.{ℕ};

    ghost aim: { ℕ };
}

impl Aim for Brand {
    ghost aim = { 0 };
}

/// A desk with the aim of this type.
pub(crate) struct GoalDesk<A: Aim> {
    desk: AimedDesk,
    of: PhantomData<A>,
}

impl<A: Aim> Model for GoalDesk<A> {
    ghost use Rattle.std.specs.Prelude.{◌≡◌};
    ghost use Rattle.search_traits.specs.Aimed.{aimed_state};
    ghost use Rattle.search_traits.specs.Desks.{DeskState, desk_state_coded};

    ghost Value = { DeskState };

    ghost coded = { desk_state_coded };

    ghost view = { λ d. aimed_state d.desk.shown d.desk.desk };

    ghost invariant = { λ d. d.desk.aim ≡ A.aim };
}

impl<A: Aim> GoalDesk<A> {
    /// The desk, whose aim is that of this type.
    pub(crate) fn new(desk: AimedDesk) -> GoalDesk<A>
        requires { desk.aim ≡ A.aim }
        ensures { result ≡ aimed_state desk.shown desk.desk }
    {
        GoalDesk {
            desk,
            of: PhantomData,
        }
    }

    /// The smallest cover, which has no more places than the desk showed last, or than the aim.
    pub(crate) fn cover(&self) -> &Cover
        ensures of_it { result.now.region ≡ self.now.region }
        ensures kept { min A.aim (length result.now.places) ≤ self.now.shown }
    {
        self.desk.cover()
    }

    /// The desk alone.
    pub(crate) fn into_desk(self) -> AloneDesk
        ensures cover { result.cover.region ≡ self.region }
        ensures turns { (result.limit ≡ self.limit) × (result.granted ≡ self.granted) }
    {
        let GoalDesk { desk, of: _ } = self;
        desk.into_desk()
    }
}

impl<A: Aim> Desk for GoalDesk<A> {
    ghost state = { λ d. d };

    fn look(&mut self) -> u64 {
        self.desk.look()
    }

    fn offer(&mut self, cover: &Cover) -> Result<(), OutOfMemory> {
        self.desk.offer(cover)
    }

    fn enter(&mut self) -> bool {
        self.desk.enter()
    }
}
