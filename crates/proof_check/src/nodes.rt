//! The judge of a region's tree, node by node, with a stack of its own: specs/Kept.antt.
ghost use Rattle.std.specs.List.Sorted.{IsStrictlyIncreasing};
ghost use Rattle.std.specs.Option.{option_or};
ghost use Rattle.std.specs.Prelude.{◌≡◌, ◌+◌, length, nat_lt, if◌then◌else◌, Some, None, IfOk, OnOk};
ghost use Rattle.lit_lists.specs.Lists.{row_at};
ghost use Rattle.node_judges.specs.Tests.{AreAscending};
ghost use Rattle.proof_check.specs.Kept.{BeginsRegion, Expects, IsNew, IsWide, JudgesBar};
ghost use Rattle.proof_check.specs.Kept.{JudgesBranch, JudgesGroup, JudgesLeaf, JudgesOmission, JudgesPick};
ghost use Rattle.proof_check.specs.Kept.{JudgesWeighted};

use crate::track::Track;
use crate::weighing::Weighing;
use cave_base::Cell;
use lit_lists::Lists;
use node_judges::{
    Tally, are_left, is_dominated, is_free, is_leaf, is_weighted, left_of, mark, may_be_picked,
};
use proof_rules::Group;
use std::alloc::{AllocError, Global};
use std::mem;
use weight_judge::{Rooms, places_for_all};

/// The judge of nodes.
#[derive(Drop)]
pub struct NodeJudge {
    pub alloc: Global,
    /// The cells of the region.
    pub region: Tally,
    /// Scratch of the leaves: the places or the cells seen.
    pub seen: Tally,
    /// Scratch of the weighted leaves: what each place may still light.
    pub rooms: Rooms,
    pub track: Track,
    /// The size that the region's tree is to prove.
    pub floor: usize,
    /// The first leaf that proves less.
    pub weak: Option<u64>,
    /// The first node against the rules.
    pub bad: Option<u64>,
    /// The weighted leaf whose groups are told.
    pub weighing: Weighing,
}

impl NodeJudge {
    /// Nothing judged, in a box of `count` cells.
    pub fn new(alloc: Global, count: u32) -> Result<NodeJudge, AllocError>
        ensures { IfOk result (IsNew count) }
    {
        let region = Tally::new(alloc, count)?;
        let seen = Tally::new(alloc, count)?;
        let rooms = Rooms::new(alloc, count as usize)?;
        let chosen = Tally::new(alloc, count)?;
        let barred = Tally::new(alloc, count)?;
        let omitted = Tally::new(alloc, count)?;
        let track = Track {
            chosen,
            barred,
            omitted,
            frames: Vec::new(alloc),
        };
        Ok(NodeJudge {
            alloc,
            region,
            seen,
            rooms,
            track,
            floor: 0,
            weak: None,
            bad: None,
            weighing: Weighing::new(alloc, 0, 0),
        })
    }

    /// Whether a leaf with `count` cells proves less than the region's tree is to.
    fn is_weak(&self, count: usize) -> bool
        ensures { result ≡ nat_lt (length self.now.track.chosen.items + count) self.now.floor }
    {
        let chosen = self.track.chosen.len();
        count < self.floor.saturating_sub(chosen)
    }

    /// A leaf with these cells.
    pub fn leaf(&mut self, lists: &Lists, these: &[Cell], line: u64) -> Result<(), AllocError>
        requires wide { IsWide lists.now self.old }
        ensures leaf { OnOk result (JudgesLeaf lists.now these.now line self.old self.new) }
        ensures wide { OnOk result (IsWide lists.now self.new) }
    {
        let setting = self.track.setting(lists, &self.region);
        let fits = is_leaf(&setting, &mut self.seen, these)?;
        if !fits {
            self.bad = Some(line);
            return Ok(());
        }
        let weak = self.is_weak(these.len());
        self.weak = first_of(self.weak, weak, line);
        self.track.close()?;
        Ok(())
    }

    /// A weighted leaf with these groups.
    fn weighted(&mut self, lists: &Lists, groups: &[Group], line: u64) -> Result<(), AllocError>
        requires wide { IsWide lists.now self.old }
        requires ascending { AreAscending lists.now }
        ensures weighted { OnOk result (JudgesWeighted lists.now groups.now line self.old self.new) }
        ensures wide { OnOk result (IsWide lists.now self.new) }
    {
        let setting = self.track.setting(lists, &self.region);
        let fits = is_weighted(
            self.alloc,
            &setting,
            &mut self.seen,
            &mut self.rooms,
            groups,
        )?;
        if !fits {
            self.bad = Some(line);
            return Ok(());
        }
        let weak = self.is_weak(places_for_all(groups) as usize);
        self.weak = first_of(self.weak, weak, line);
        self.track.close()?;
        Ok(())
    }

    /// A group of a weighted leaf, which is judged at its last.
    pub fn group(&mut self, lists: &Lists, group: Group) -> Result<(), AllocError>
        requires wide { IsWide lists.now self.old }
        requires ascending { AreAscending lists.now }
        ensures group { OnOk result (JudgesGroup lists.now group self.old self.new) }
        ensures wide { OnOk result (IsWide lists.now self.new) }
    {
        if self.weighing.to_come == 0 {
            return Ok(());
        }
        self.weighing.groups.push(group)?;
        self.weighing.to_come -= 1;
        if self.weighing.to_come == 0 {
            let told = mem::replace(&mut self.weighing, Weighing::new(self.alloc, 0, 0));
            self.weighted(lists, &told.groups, told.line)?;
        }
        Ok(())
    }

    /// A branch on the cell, with `count` kids.
    pub fn branch(
        &mut self,
        lists: &Lists,
        cell: Cell,
        count: u32,
        line: u64,
    ) -> Result<(), AllocError>
        requires wide { IsWide lists.now self.old }
        requires ascending { IsStrictlyIncreasing (row_at lists.now.pairs.lit_by cell) }
        ensures branch { OnOk result (JudgesBranch lists.now cell count line self.old self.new) }
        ensures wide { OnOk result (IsWide lists.now self.new) }
    {
        let setting = self.track.setting(lists, &self.region);
        if !is_free(&setting, cell) {
            self.bad = Some(line);
            return Ok(());
        }
        let places = left_of(self.alloc, lists.lit_by(cell), &self.track.barred)?;
        if places.len() != count as usize {
            self.bad = Some(line);
            return Ok(());
        }
        self.track.enter(places)?;
        Ok(())
    }

    /// A place to leave out, for another.
    pub fn bar(&mut self, lists: &Lists, place: Cell, by: Cell, line: u64) -> Result<(), AllocError>
        requires wide { IsWide lists.now self.old }
        ensures bar { OnOk result (JudgesBar lists.now place by line self.old self.new) }
        ensures wide { OnOk result (IsWide lists.now self.new) }
    {
        let setting = self.track.setting(lists, &self.region);
        if !is_dominated(&setting, place, by) {
            self.bad = Some(line);
            return Ok(());
        }
        self.track.barred.push(place)?;
        Ok(())
    }

    /// Cells to leave out.
    pub fn omit(&mut self, lists: &Lists, these: &[Cell], line: u64) -> Result<(), AllocError>
        requires wide { IsWide lists.now self.old }
        ensures omission { OnOk result (JudgesOmission lists.now these.now line self.old self.new) }
        ensures wide { OnOk result (IsWide lists.now self.new) }
    {
        let setting = self.track.setting(lists, &self.region);
        if !are_left(&setting, these) {
            self.bad = Some(line);
            return Ok(());
        }
        mark(these, &mut self.track.omitted)?;
        Ok(())
    }

    /// A place to choose, and then to bar.
    pub fn pick(&mut self, lists: &Lists, place: Cell, line: u64) -> Result<(), AllocError>
        requires wide { IsWide lists.now self.old }
        ensures pick { OnOk result (JudgesPick lists.now place line self.old self.new) }
        ensures wide { OnOk result (IsWide lists.now self.new) }
    {
        let setting = self.track.setting(lists, &self.region);
        if !may_be_picked(&setting, place) {
            self.bad = Some(line);
            return Ok(());
        }
        self.track.pick(self.alloc, place)?;
        Ok(())
    }

    /// The cells of the next region.
    pub fn begin(&mut self, cells: &[Cell]) -> Result<(), AllocError>
        ensures begins { OnOk result (BeginsRegion cells.now self.old self.new) }
    {
        self.region.cut(0);
        mark(cells, &mut self.region)?;
        Ok(())
    }

    /// The region has `count` torches: its tree is to prove that it needs as many.
    pub fn expect(&mut self, count: usize)
        ensures { Expects count self.old self.new }
    {
        self.floor = count;
        self.track.clear();
    }
}

/// What was first, or else this line where it is so.
fn first_of(first: Option<u64>, is_so: bool, line: u64) -> Option<u64>
    ensures { result ≡ option_or first (if is_so then Some line else None) }
{
    match first {
        Some(first) => Some(first),
        None => { if is_so { Some(line) } else { None } }
    }
}
