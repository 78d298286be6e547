//! The lines of nodes, by their kinds.
ghost use Rattle.std.specs.Prelude.{OnOk};
ghost use Rattle.certificate_lines.specs.declared.kind.LineKind.TheVariants as kinds;
ghost use Rattle.node_judges.specs.Tests.{AreAscending};
ghost use Rattle.proof_check.specs.Kept.{IsWide, Judges, StepsOn};

use crate::nodes::NodeJudge;
use crate::weighing::{Weighing, shares_of};
use certificate_lines::LineKind;
use lit_lists::Lists;
use proof_rules::Group;
use std::alloc::AllocError;

impl NodeJudge {
    /// A weighted leaf's line: how many groups.
    fn weighted_line(&mut self, lists: &Lists, numbers: &[u32], line: u64)
        requires wide { IsWide lists.now self.old }
        ensures steps { StepsOn lists.now kinds.Weighted numbers.now line self.old self.new }
        ensures wide { IsWide lists.now self.new }
    {
        if numbers.len() == 1 {
            self.weighing = Weighing::new(self.alloc, line, numbers[0]);
        }
    }

    /// A group's line: its capacity, how many cells, and each cell with its weight.
    fn group_line(&mut self, lists: &Lists, numbers: &[u32], line: u64) -> Result<(), AllocError>
        requires wide { IsWide lists.now self.old }
        requires ascending { AreAscending lists.now }
        ensures steps { OnOk result (StepsOn lists.now kinds.Group numbers.now line self.old self.new) }
        ensures wide { OnOk result (IsWide lists.now self.new) }
    {
        if let [capacity, _, told @ ..] = numbers {
            let shares = shares_of(self.alloc, told)?;
            let group = Group {
                capacity: *capacity,
                shares,
            };
            self.group(lists, group)?;
        }
        Ok(())
    }

    /// A branch's line: its cell, and how many kids.
    fn branch_line(&mut self, lists: &Lists, numbers: &[u32], line: u64) -> Result<(), AllocError>
        requires wide { IsWide lists.now self.old }
        requires ascending { AreAscending lists.now }
        ensures steps { OnOk result (StepsOn lists.now kinds.Branch numbers.now line self.old self.new) }
        ensures wide { OnOk result (IsWide lists.now self.new) }
    {
        if numbers.len() == 2 {
            self.branch(lists, numbers[0], numbers[1], line)?;
        }
        Ok(())
    }

    /// A bar's line: the place, and the other.
    fn bar_line(&mut self, lists: &Lists, numbers: &[u32], line: u64) -> Result<(), AllocError>
        requires wide { IsWide lists.now self.old }
        ensures steps { OnOk result (StepsOn lists.now kinds.Bar numbers.now line self.old self.new) }
        ensures wide { OnOk result (IsWide lists.now self.new) }
    {
        if numbers.len() == 2 {
            self.bar(lists, numbers[0], numbers[1], line)?;
        }
        Ok(())
    }

    /// A pick's line: the place.
    fn pick_line(&mut self, lists: &Lists, numbers: &[u32], line: u64) -> Result<(), AllocError>
        requires wide { IsWide lists.now self.old }
        ensures steps { OnOk result (StepsOn lists.now kinds.Pick numbers.now line self.old self.new) }
        ensures wide { OnOk result (IsWide lists.now self.new) }
    {
        if numbers.len() == 1 {
            self.pick(lists, numbers[0], line)?;
        }
        Ok(())
    }

    /// Judges a line; stands still after one against the rules.
    pub fn judge_node_line(
        &mut self,
        lists: &Lists,
        kind: LineKind,
        numbers: &[u32],
        line: u64,
    ) -> Result<(), AllocError>
        requires wide { IsWide lists.now self.old }
        requires ascending { AreAscending lists.now }
        ensures judges { OnOk result (Judges lists.now kind numbers.now line self.old self.new) }
        ensures wide { OnOk result (IsWide lists.now self.new) }
    {
        if self.bad.is_some() {
            return Ok(());
        }
        match kind {
            // how many cells, and the cells
            LineKind::Leaf => {
                if let [_, these @ ..] = numbers {
                    self.leaf(lists, these, line)?;
                }
            }
            LineKind::Omit => {
                if let [_, these @ ..] = numbers {
                    self.omit(lists, these, line)?;
                }
            }
            LineKind::Branch => self.branch_line(lists, numbers, line)?,
            LineKind::Bar => self.bar_line(lists, numbers, line)?,
            LineKind::Pick => self.pick_line(lists, numbers, line)?,
            LineKind::Weighted => self.weighted_line(lists, numbers, line),
            LineKind::Group => self.group_line(lists, numbers, line)?,
            LineKind::Dark => self.begin(numbers)?,
            LineKind::Torches => self.expect(numbers.len()),
            _ => {}
        }
        Ok(())
    }
}
