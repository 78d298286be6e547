//! The branches and picks that are open on the way to a node: specs/Track.antt.
ghost use Rattle.std.specs.Prelude.{◌≡◌, ◌<◌, ◌+◌, length, OnOk};
ghost use Rattle.proof_check.specs.Track.{ClosesFrames, Enters, EntersPick, IsCleared, IsNextKid};
ghost use Rattle.proof_check.specs.Track.{IsSecondTree, IsSettingOf};

use cave_base::Cell;
use lit_lists::Lists;
use node_judges::{Setting, Tally};
use std::alloc::{AllocError, Global};

/// An open branch, or an open pick, whose tree with its place chosen is judged.
#[derive(Debug, Drop)]
pub struct Frame {
    /// The places that may light the branch's cell, a kid for each; or the one that is picked.
    pub places: Vec<Cell>,
    /// Which of them is chosen now.
    pub index: usize,
    /// How many places were barred before its kid began.
    pub bars: usize,
    /// How many cells were left out before it began.
    pub omits: usize,
    /// Whether it is a pick.
    pub is_pick: bool,
}

/// The open branches and picks, with the places that are chosen and barred and the cells that are left out on the way.
#[derive(Debug, Drop)]
pub struct Track {
    pub chosen: Tally,
    pub barred: Tally,
    pub omitted: Tally,
    pub frames: Vec<Frame>,
}

impl Track {
    /// What a node of the region is judged in here.
    pub fn setting<'a>(&'a self, lists: &'a Lists, region: &'a Tally) -> Setting<'a>
        ensures { IsSettingOf lists.now region.now self.now result }
    {
        Setting {
            lists,
            region,
            omitted: &self.omitted,
            chosen: &self.chosen,
            barred: &self.barred,
        }
    }

    /// Goes on to the next kid of a branch.
    fn next_kid(&mut self, frame: Frame) -> Result<(), AllocError>
        requires more { frame.index + 1 < length frame.places.items }
        ensures kid { OnOk result (IsNextKid (length self.old.chosen.counts) (length self.old.barred.counts)
            frame self.old self.new) }
        ensures whole { length self.new.chosen.counts ≡ length self.old.chosen.counts }
        ensures wide { length self.new.barred.counts ≡ length self.old.barred.counts }
        ensures long { length self.new.omitted.counts ≡ length self.old.omitted.counts }
    {
        let place = frame.places[frame.index];
        let next = frame.places[frame.index + 1];
        self.barred.push(place)?;
        self.chosen.push(next)?;
        let frame = Frame {
            places: frame.places,
            index: frame.index + 1,
            bars: self.barred.len(),
            omits: self.omitted.len(),
            is_pick: false,
        };
        self.frames.push(frame)?;
        Ok(())
    }

    /// Goes on to the second tree of a pick, with its place barred.
    fn second_tree(&mut self, frame: &Frame) -> Result<(), AllocError>
        ensures tree { OnOk result (IsSecondTree (length self.old.barred.counts) frame.now self.old self.new) }
        ensures whole { length self.new.chosen.counts ≡ length self.old.chosen.counts }
        ensures wide { length self.new.barred.counts ≡ length self.old.barred.counts }
        ensures long { length self.new.omitted.counts ≡ length self.old.omitted.counts }
    {
        if let Some(place) = frame.places.get(frame.index) {
            self.barred.push(*place)?;
        }
        Ok(())
    }

    /// A tree has ended: goes on to the next kid of the innermost branch that has one, or to the second tree of a pick.
    pub fn close(&mut self) -> Result<(), AllocError>
        requires same { length self.old.barred.counts ≡ length self.old.chosen.counts }
        ensures closes { OnOk result (ClosesFrames (length self.old.chosen.counts)
            self.old.chosen.items self.old.barred.items self.old.omitted.items self.old.frames.items
            self.new.chosen.items self.new.barred.items self.new.omitted.items self.new.frames.items) }
        ensures whole { length self.new.chosen.counts ≡ length self.old.chosen.counts }
        ensures wide { length self.new.barred.counts ≡ length self.old.barred.counts }
        ensures long { length self.new.omitted.counts ≡ length self.old.omitted.counts }
    {
        while let Some(frame) = self.frames.pop() {
            self.chosen.pop();
            self.barred.cut(frame.bars);
            self.omitted.cut(frame.omits);
            if frame.is_pick {
                self.second_tree(&frame)?;
                return Ok(());
            }
            if frame.index < frame.places.len().saturating_sub(1) {
                self.next_kid(frame)?;
                return Ok(());
            }
        }
        self.barred.cut(0);
        self.omitted.cut(0);
        Ok(())
    }

    /// A branch with a kid for each of these places begins.
    pub fn enter(&mut self, places: Vec<Cell>) -> Result<(), AllocError>
        requires same { length self.old.barred.counts ≡ length self.old.chosen.counts }
        ensures enters { OnOk result (Enters (length self.old.chosen.counts) places.items
            self.old.chosen.items self.old.barred.items self.old.omitted.items self.old.frames.items
            self.new.chosen.items self.new.barred.items self.new.omitted.items self.new.frames.items) }
        ensures whole { length self.new.chosen.counts ≡ length self.old.chosen.counts }
        ensures wide { length self.new.barred.counts ≡ length self.old.barred.counts }
        ensures long { length self.new.omitted.counts ≡ length self.old.omitted.counts }
    {
        if places.is_empty() {
            self.close()?;
            return Ok(());
        }
        self.chosen.push(places[0])?;
        let frame = Frame {
            places,
            index: 0,
            bars: self.barred.len(),
            omits: self.omitted.len(),
            is_pick: false,
        };
        self.frames.push(frame)?;
        Ok(())
    }

    /// A pick of the place begins: it is chosen first.
    pub fn pick(&mut self, alloc: Global, place: Cell) -> Result<(), AllocError>
        ensures picks { OnOk result (EntersPick (length self.old.chosen.counts) place
            self.old.chosen.items self.old.barred.items self.old.omitted.items self.old.frames.items
            self.new.chosen.items self.new.barred.items self.new.omitted.items self.new.frames.items) }
        ensures whole { length self.new.chosen.counts ≡ length self.old.chosen.counts }
        ensures wide { length self.new.barred.counts ≡ length self.old.barred.counts }
        ensures long { length self.new.omitted.counts ≡ length self.old.omitted.counts }
    {
        let places = vec![in alloc; place]?;
        self.chosen.push(place)?;
        let frame = Frame {
            places,
            index: 0,
            bars: self.barred.len(),
            omits: self.omitted.len(),
            is_pick: true,
        };
        self.frames.push(frame)?;
        Ok(())
    }

    /// Nothing is chosen, barred or left out, and no branch or pick is open.
    pub fn clear(&mut self)
        ensures { IsCleared self.old self.new }
    {
        self.chosen.cut(0);
        self.barred.cut(0);
        self.omitted.cut(0);
        self.frames.clear();
    }
}
