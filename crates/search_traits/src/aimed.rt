//! The desk of a search in one thread that is after a size below that of its cover: what is proved then is a floor.
ghost use Rattle.std.specs.Prelude.{◌≡◌, ◌≤◌, ◌↔◌, IsTrue, OnErr, OnOk, length, min};
ghost use Rattle.search_traits.specs.Aimed.{aimed_state};
ghost use Rattle.search_traits.specs.Desks.{Enters, Looks, Takes};

use crate::alone::AloneDesk;
use crate::desk::Desk;
use crate::round_desk::RoundDesk;
use cave_model::OutOfMemory;
use instance_regions::Cover;

/// The desk of a search in one thread, which shows no more than the size that the search is after.
#[derive(Drop)]
pub struct AimedDesk {
    pub desk: AloneDesk,
    /// The size that the search is after.
    pub aim: u64,
    /// The size that was shown last.
    pub shown: u64,
    ghost kept: { min aim desk.shown ≤ shown },
}

impl AimedDesk {
    /// The desk, which shows at most this size.
    pub fn new(desk: AloneDesk, aim: u64) -> AimedDesk
        ensures desk { result.desk ≡ desk }
        ensures aim { (result.aim ≡ aim) × (result.shown ≡ aim) }
    {
        AimedDesk {
            desk,
            aim,
            shown: aim,
        }
    }

    /// From now on it shows at most this size.
    pub fn aim_at(&mut self, aim: u64)
        ensures desk { self.new.desk ≡ self.old.desk }
        ensures aim { self.new.aim ≡ aim }
        ensures shown { self.new.shown ≡ aim }
    {
        self.aim = aim;
        self.shown = aim;
    }

    /// The size that it showed last.
    pub fn shown(&self) -> u64
        ensures { result ≡ self.now.shown }
    {
        self.shown
    }

    /// Its smallest cover, which has no more places than it showed last, or than its aim.
    pub fn cover(&self) -> &Cover
        ensures cover { result.now ≡ self.now.desk.cover }
        ensures kept { min self.now.aim (length result.now.places) ≤ self.now.shown }
    {
        self.desk.cover()
    }

    /// The size of its smallest cover.
    pub fn size(&self) -> u64
        ensures { result ≡ length self.now.desk.cover.places }
    {
        self.desk.size()
    }

    /// Whether its cover has no more places than it showed last.
    pub fn is_met(&self) -> bool
        ensures { IsTrue result ↔ length self.now.desk.cover.places ≤ self.now.shown }
    {
        self.desk.size() <= self.shown
    }

    /// The desk alone.
    pub fn into_desk(self) -> AloneDesk
        ensures { result ≡ self.desk }
    {
        let AimedDesk { desk, .. } = self;
        desk
    }
}

impl Desk for AimedDesk {
    ghost state = { λ d. aimed_state d.shown d.desk };

    fn look(&mut self) -> u64
        ensures looks { Looks (aimed_state self.old.shown self.old.desk) result
            (aimed_state self.new.shown self.new.desk) }
        ensures aim { self.new.aim ≡ self.old.aim }
    {
        let size = self.desk.look();
        self.shown = if size < self.aim { size } else { self.aim };
        self.shown
    }

    fn offer(&mut self, cover: &Cover) -> Result<(), OutOfMemory>
        requires { cover.now.region ≡ self.old.desk.cover.region }
        ensures ok { OnOk result (Takes (aimed_state self.old.shown self.old.desk) (length cover.now.places)
            (aimed_state self.new.shown self.new.desk)) }
        ensures err { OnErr result (aimed_state self.new.shown self.new.desk
            ≡ aimed_state self.old.shown self.old.desk) }
        ensures aim { self.new.aim ≡ self.old.aim }
    {
        self.desk.offer(cover)?;
        Ok(())
    }

    fn enter(&mut self) -> bool
        ensures enters { Enters (aimed_state self.old.shown self.old.desk) result
            (aimed_state self.new.shown self.new.desk) }
        ensures aim { self.new.aim ≡ self.old.aim }
    {
        self.desk.enter()
    }
}

impl RoundDesk for AimedDesk {
    fn cover(&self) -> &Cover {
        self.desk.cover()
    }

    fn left(&self) -> Option<u64> {
        self.desk.left()
    }

    fn count(&mut self, turns: u64) {
        self.desk.count(turns);
    }
}
