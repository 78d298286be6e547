//! The judge of a certificate, line by line: specs/Heard.antt.
ghost use Rattle.std.specs.Prelude.{◌<◌, ◌+◌, ◌^◌, [], IfOk, OnOk};
ghost use Rattle.node_judges.specs.Tests.{AreAscending};
ghost use Rattle.proof_check.specs.Heard.{Hears, IsAfter};
ghost use Rattle.proof_check.specs.Kept.{IsWide};

use crate::homes::Homes;
use crate::nodes::NodeJudge;
use cave_model::World;
use certificate_lines::LineKind;
use lit_lists::Lists;
use std::alloc::{AllocError, Global};

/// The judge of a certificate's lines.
#[derive(Drop)]
pub struct Judge {
    pub lists: Lists,
    pub nodes: NodeJudge,
    pub torches: Homes,
    pub regions: Homes,
}

impl Judge {
    /// No line was heard.
    pub fn new(alloc: Global, world: &World) -> Result<Judge, AllocError>
        ensures { IfOk result (λ judge. IsAfter world.now judge []) }
    {
        let count = world.cell_count();
        let lists = Lists::new(alloc, world)?;
        let nodes = NodeJudge::new(alloc, count)?;
        let torches = Homes::new(alloc, count)?;
        let regions = Homes::new(alloc, count)?;
        Ok(Judge {
            lists,
            nodes,
            torches,
            regions,
        })
    }

    /// Takes what a line says.
    pub fn judge_line(
        &mut self,
        kind: LineKind,
        numbers: &[u32],
        line: u64,
    ) -> Result<(), AllocError>
        requires wide { IsWide self.old.lists self.old.nodes }
        requires ascending { AreAscending self.old.lists }
        requires torches { self.old.torches.count + 1 < 2 ^ 64 }
        requires regions { self.old.regions.count + 1 < 2 ^ 64 }
        ensures { OnOk result (Hears kind numbers.now line self.old self.new) }
    {
        self.nodes
            .judge_node_line(&self.lists, kind, numbers, line)?;
        match kind {
            LineKind::Dark => self.regions.join(numbers),
            LineKind::Torches => self.torches.join(numbers),
            _ => {}
        }
        Ok(())
    }
}
