//! The checker's two calls: the verdict on the bytes of a certificate, `IsJudged` of specs/Verdict.antt, in memory or
//! from a reader, `IsReadCheck` of specs/ReadCheck.antt.
ghost use Rattle.std.specs.Prelude.{◌≡◌, ◌≢◌, IfOk, IfErr, option_copied};
ghost use Rattle.cave_base.specs.Answer.{IsAnswer, IsRefusal};
ghost use Rattle.cave_model.specs.RuleOf.{rule_of};
ghost use Rattle.proof_check.specs.ReadCheck.{IsReadCheck};
ghost use Rattle.proof_check.specs.Tried.{IsTheVerdict};
ghost use Rattle.proof_check.specs.Verdict.{IsFaultOfBytes, IsJudged};
ghost use Rattle.proof_check.specs.declared.fault.CheckFault.{CheckFault};
ghost use Rattle.proof_check.specs.declared.verdict.Verdict.{Verdict};

use crate::fault::CheckFault;
use crate::reading::{judge_from, pass_over};
use crate::trial::Trial;
use crate::verdict::Verdict;
use cave_model::{Rule, World};
use cave_reading::read_cave;
use std::alloc::{AllocError, Global};
use std::io::Read;

/// Judges the bytes of a certificate against the cave that the bytes of a structure tell, by the rows of the user's
/// table, where there is one, before the shipped ones. A fault of the structure goes before one of the table, and that
/// before an unknown block.
pub fn check(
    alloc: Global,
    structure: &[u8],
    table: Option<&[u8]>,
    rule: Rule,
    certificate: &[u8],
) -> Result<Verdict, CheckFault>
    // What is answered is the verdict of that cave.
    ensures found { IfOk result
        (IsJudged structure.now (option_copied table.entry) (rule_of rule) certificate.now) }
    // Such a verdict is answered.
    ensures only { (verdict : Verdict) → IsJudged structure.now (option_copied table.entry) (rule_of rule)
        certificate.now verdict → IsAnswer CheckFault.OutOfMemory result (λ x. x ≡ verdict) }
    // A fault is the first of the structure and the table.
    ensures fault { IfErr result (λ e. e ≢ CheckFault.OutOfMemory
        → IsFaultOfBytes structure.now (option_copied table.entry) e) }
    // Such a fault is answered.
    ensures refused { (e : CheckFault) → IsFaultOfBytes structure.now (option_copied table.entry) e
        → IsRefusal CheckFault.OutOfMemory result e }
{
    let world = read_cave(alloc, structure, table, rule)?;
    let verdict = judge_slice(alloc, &world, certificate)?;
    Ok(verdict)
}

/// Judges the certificate that the reader has left, which is at most `limit` bytes, as `check` judges a slice. It is
/// read to its end whatever is found on the way. So a failed read and too many bytes go before any fault of the
/// structure or the table, and before any verdict. One line of the certificate is kept at a time.
pub fn check_from<C: Read>(
    alloc: Global,
    structure: &[u8],
    table: Option<&[u8]>,
    rule: Rule,
    certificate: &mut C,
    limit: u64,
) -> Result<Verdict, CheckFault>
    ensures { IsReadCheck structure.now (option_copied table.entry) (rule_of rule)
        (C.remaining certificate.old) (C.remaining certificate.new) limit result }
{
    match read_cave(alloc, structure, table, rule) {
        Ok(world) => {
            let verdict = judge_from(alloc, &world, certificate, limit)?;
            Ok(verdict)
        }
        Err(fault) => {
            pass_over(certificate, limit)?;
            Err(CheckFault::from(fault))
        }
    }
}

/// The verdict of the bytes of a certificate.
fn judge_slice(alloc: Global, world: &World, certificate: &[u8]) -> Result<Verdict, AllocError>
    ensures { IfOk result (IsTheVerdict world.now certificate.now) }
{
    let mut trial = Trial::new(alloc, world)?;
    trial.push(world, certificate)?;
    let verdict = trial.finish(alloc, world)?;
    Ok(verdict)
}
