//! Lines taken one after another: `Fits` of specs/Moves.antt.
ghost use Rattle.std.specs.Prelude.{◌≡◌, ◌<◌, ◌+◌, ◌-◌, ◌^◌, IfOk, MatchOption, IsTrue, ◌↔◌};
ghost use Rattle.cave_base.specs.Box.{most_cells};
ghost use Rattle.certificate_lines.specs.Moves.{Fits, FitsNot};
ghost use Rattle.certificate_lines.specs.Sound.{IsSoundStage, pending_of};
ghost use Rattle.certificate_lines.specs.declared.stage.Stage.TheVariants as stages;

use crate::kind::{LineKind, kind_at};
use crate::stage::Stage;
use crate::step::next_stage;
use std::alloc::{AllocError, Global};

/// The lines of a certificate, taken one by one.
#[derive(Drop)]
pub struct Lines {
    /// What the next line has to be.
    pub stage: Stage,
    /// How many lines were taken.
    pub taken: u64,
    /// The numbers of the last line.
    pub numbers: Vec<u32>,
}

impl Lines {
    /// No line so far: the first one is to come.
    pub fn new(alloc: Global) -> Lines
        ensures stage { result.stage ≡ stages.Start }
        ensures taken { result.taken ≡ 0 }
    {
        Lines {
            stage: Stage::Start,
            taken: 0,
            numbers: Vec::new(alloc),
        }
    }

    /// Takes the next line, without its line feed, if it fits: what kind of line it is.
    pub fn take(&mut self, text: &[u8]) -> Result<Option<LineKind>, AllocError>
        requires sound { IsSoundStage self.old.stage }
        requires few { pending_of self.old.stage + most_cells < 2 ^ 128 }
        requires room { self.old.taken + 1 < 2 ^ 64 }
        ensures { IfOk result (λ r. MatchOption r
            (FitsNot text.now self.old.stage self.new.stage self.old.taken self.new.taken)
            (λ kind. Fits text.now kind self.new.numbers.items
            self.old.stage self.new.stage self.old.taken self.new.taken)) }
    {
        let kind = kind_at(self.stage, text);
        let Some(next) = next_stage(self.stage, kind, text, &mut self.numbers)? else {
            return Ok(None);
        };
        self.stage = next;
        self.taken += 1;
        Ok(Some(kind))
    }
}

/// Whether nothing is to come.
pub fn is_done(stage: Stage) -> bool
    ensures { IsTrue result ↔ stage ≡ stages.Done }
{
    match stage {
        Stage::Done => true,
        _ => false,
    }
}
