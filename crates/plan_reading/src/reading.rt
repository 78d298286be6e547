//! The torches that a plan's text tells: `TellsTorches` of specs/PlanLines.antt.
ghost use Rattle.std.specs.Prelude.{◌≡◌, ◌≢◌, ◌+◌, ◌<◌, ◌^◌, ℕ, List, length, IfErr, IfOk, MatchResult};
ghost use Rattle.cave_base.specs.Answer.{IsAnswer, IsRefusal};
ghost use Rattle.plan_reading.specs.Placed.{IsNoPlan};
ghost use Rattle.plan_reading.specs.PlanLines.{IsFirstMisfit, TellsTorches};
ghost use Rattle.plan_reading.specs.Walked.{Opens, PassesCorner};
ghost use Rattle.plan_reading.specs.declared.fault.TorchesFault.{TorchesFault};
ghost use Rattle.plan_reading.specs.declared.torch.ToldTorch.{ToldTorch};

use crate::fault::TorchesFault;
use crate::lines::{after_corner, after_dark, after_head, after_torch};
use crate::torch::ToldTorch;
use std::alloc::Global;

/// How many lines of a corner a text begins with, and what comes after.
fn past_corner(text: &[u8]) -> (u64, &[u8])
    ensures { PassesCorner text.now result.0 result.1.now }
{
    match after_corner(text) {
        Some(rest) => (1, rest),
        None => (0, text),
    }
}

/// How many torches a plan tells, how many lines come before them, and what comes after these lines; or the first line
/// that doesn't fit.
fn open(text: &[u8]) -> Result<(u32, u64, &[u8]), u64>
    ensures { MatchResult result (λ r. Opens text.now r.0 r.1 r.2.now) (λ line. IsFirstMisfit text.now line) }
{
    let Some((count, rest)) = after_head(text) else {
        return Err(1);
    };
    let Some(rest) = after_dark(rest) else {
        return Err(2);
    };
    let (lines, rest) = past_corner(rest);
    Ok((count, 2 + lines, rest))
}

/// `count` torches from the lines that come next, which stand behind `lines` lines of the text.
fn take_torches(
    alloc: Global,
    _text: &[u8], // for the proof
    count: u32,
    lines: u64,
    start: &[u8],
) -> Result<Vec<ToldTorch>, TorchesFault>
    requires { Opens _text.now count lines start.now }
    ensures found { IfOk result (λ torches. TellsTorches _text.now torches.items) }
    ensures fault { IfErr result (λ e. e ≢ TorchesFault.OutOfMemory → IsNoPlan _text.now e) }
{
    let mut torches = Vec::new(alloc);
    let mut rest = start;
    for index in 0..count {
        let Some((torch, after)) = after_torch(rest) else {
            return Err(TorchesFault::Syntax {
                line: lines + u64::from(index) + 1,
            });
        };
        torches.push(torch)?;
        rest = after;
    }
    Ok(torches)
}

/// The torches that a plan's text tells, in its order, or the first line that no plan has there. What comes after the
/// lines of the torches isn't judged.
pub fn read_torches(alloc: Global, text: &[u8]) -> Result<Vec<ToldTorch>, TorchesFault>
    // What is answered the text tells.
    ensures found { IfOk result (λ torches. TellsTorches text.now torches.items) }
    // What it tells is answered.
    ensures only { (torches : List ToldTorch) → TellsTorches text.now torches
        → IsAnswer TorchesFault.OutOfMemory result (λ v. v.items ≡ torches) }
    // A fault is that of its first line that doesn't fit.
    ensures fault { IfErr result (λ e. e ≢ TorchesFault.OutOfMemory → IsNoPlan text.now e) }
    // Such a fault is answered.
    ensures refused { (e : TorchesFault) → IsNoPlan text.now e → IsRefusal TorchesFault.OutOfMemory result e }
{
    match open(text) {
        Ok((count, lines, rest)) => take_torches(alloc, text, count, lines, rest),
        Err(line) => Err(TorchesFault::Syntax { line }),
    }
}
