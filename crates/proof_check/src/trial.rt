//! A certificate that is judged as its bytes come: specs/Tried.antt.
ghost use Rattle.std.specs.Prelude.{◌≡◌, ◌∷◌, [], ◌↔◌, IsTrue, length, IfOk, OnOk, MatchOption};
ghost use Rattle.certificate_lines.specs.declared.kind.LineKind.TheVariants.{Size};
ghost use Rattle.proof_check.specs.Tried.{AgreesOn, Catches, Concludes, HasRoom, HearsAll, HearsTo, IsBehind, Tried};
ghost use Rattle.proof_check.specs.Tried.{torches_on};

use crate::ending::reason_of;
use crate::judge::Judge;
use crate::reason::Reason;
use crate::verdict::Verdict;
use cave_model::World;
use certificate_lines::{LineKind, Pieces};
use std::alloc::{AllocError, Global};

/// A certificate that is judged as its bytes come.
#[derive(Drop)]
pub struct Trial {
    pieces: Pieces,
    judge: Judge,
    /// Whether a line spoke of another box or another rule; nothing is judged from there on.
    differs: bool,
    /// How many torches there are.
    torches: u64,
}

impl Trial {
    /// No byte has come.
    pub fn new(alloc: Global, world: &World) -> Result<Trial, AllocError>
        ensures { IfOk result (Tried world.now []) }
    {
        let judge = Judge::new(alloc, world)?;
        Ok(Trial {
            pieces: Pieces::new(alloc),
            judge,
            differs: false,
            torches: 0,
        })
    }

    /// More of the bytes.
    pub fn push(&mut self, world: &World, piece: &[u8]) -> Result<(), AllocError>
        requires { HasRoom world.now self.old (length piece.now) }
        ensures { OnOk result (HearsAll world.now piece.now self.old self.new) }
    {
        let mut rest = piece;
        while let Some((kind, after)) = self.pieces.line(rest)? {
            self.hear(world, kind)?;
            rest = after;
        }
        Ok(())
    }

    /// The verdict, when all bytes have come.
    pub fn finish(&self, alloc: Global, world: &World) -> Result<Verdict, AllocError>
        requires { HasRoom world.now self.now 1 }
        ensures { IfOk result (Concludes world.now self.now) }
    {
        if let Some(line) = self.pieces.finish() {
            return Ok(Verdict::Rejected(Reason::Syntax { line }));
        }
        if self.differs {
            return Ok(Verdict::Rejected(Reason::WrongBox));
        }
        match reason_of(alloc, world, &self.judge)? {
            Some(reason) => Ok(Verdict::Rejected(reason)),
            None => Ok(Verdict::Accepted {
                torches: self.torches,
            }),
        }
    }

    /// Judges the line that was taken last.
    fn hear(&mut self, world: &World, kind: LineKind) -> Result<(), AllocError>
        requires { IsBehind world.now self.old kind }
        ensures pieces { self.new.pieces ≡ self.old.pieces }
        ensures catches { OnOk result (Catches world.now kind self.old self.new) }
    {
        if self.differs {
            return Ok(());
        }
        let numbers = self.pieces.numbers();
        if !agrees(world, kind, numbers) {
            self.differs = true;
            return Ok(());
        }
        self.torches += torch_count(kind, numbers);
        self.judge.judge_line(kind, numbers, self.pieces.taken())?;
        Ok(())
    }
}

/// How many torches a line has.
fn torch_count(kind: LineKind, numbers: &[u32]) -> u64
    ensures { result ≡ torches_on kind numbers.now }
{
    match kind {
        LineKind::Torches => numbers.len() as u64,
        _ => 0,
    }
}

/// Whether a line speaks of the world's box and rule, or of neither.
fn agrees(world: &World, kind: LineKind, numbers: &[u32]) -> bool
    ensures { IsTrue result ↔ AgreesOn world.now kind numbers.now }
{
    match kind {
        LineKind::Version => is_first(world, numbers),
        LineKind::Size => are_sides(world, numbers),
        LineKind::Headroom => is_just(numbers, world.rule().headroom),
        LineKind::Need => is_just(numbers, world.need()),
        _ => true,
    }
}

/// The first version of the text stands for a need of 1.
fn is_first(world: &World, numbers: &[u32]) -> bool
    ensures { IsTrue result ↔ (numbers.now ≡ 1 ∷ [] → world.now.rule.need ≡ 1) }
{
    if is_just(numbers, 1) {
        world.need() == 1
    } else {
        true
    }
}

/// Whether that is the one number.
fn is_just(numbers: &[u32], number: u8) -> bool
    ensures { IsTrue result ↔ (numbers.now ≡ number ∷ []) }
{
    match numbers {
        [only] => *only == u32::from(number),
        _ => false,
    }
}

/// Whether the numbers are the sides of the box.
fn are_sides(world: &World, numbers: &[u32]) -> bool
    ensures { IsTrue result ↔ AgreesOn world.now Size numbers.now }
{
    let [x, y, z] = world.size();
    match numbers {
        [a, b, c] => are_same(*a, *b, *c, x, y, z),
        _ => false,
    }
}

fn are_same(a: u32, b: u32, c: u32, x: u32, y: u32, z: u32) -> bool
    ensures { IsTrue result ↔ (a ∷ b ∷ c ∷ [] ≡ x ∷ y ∷ z ∷ []) }
{
    if a != x {
        return false;
    }
    if b != y {
        return false;
    }
    c == z
}
