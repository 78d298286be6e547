//! Reading a certificate piece by piece, within a limit: specs/Reading.antt.
ghost use Rattle.std.specs.Prelude.{◌≡◌, ◌⊎◌, ◌≤◌, ◌<◌, length, IfOk, IfErr, IfSome, MatchResult};
ghost use Rattle.proof_check.specs.Reading.{Gives, GivesAtMost, GivesNone};
ghost use Rattle.proof_check.specs.Tried.{IsTheVerdict};
ghost use Rattle.proof_check.specs.Verdict.{IsOfReading};
ghost use Rattle.proof_check.specs.declared.fault.CheckFault.{CheckFault};

use crate::fault::CheckFault;
use crate::trial::Trial;
use crate::verdict::Verdict;
use cave_model::World;
use std::alloc::Global;
use std::io::Read;

/// After this number of calls of its reader the reading of an input ends (this project's own).
pub const READ_CALLS: u32 = 134_217_728;

/// How many bytes are asked for at once (this project's own).
pub const READ_SIZE: usize = 8192;

/// The next piece of what the reader has left: how many bytes of the buffer it fills, none at the end. No more than
/// `room` bytes may come.
fn read_piece<C: Read>(reader: &mut C, buffer: &mut [u8], room: u64) -> Result<usize, CheckFault>
    requires some { 0 < length buffer.old }
    ensures { MatchResult result (Gives (C.remaining reader.old) (C.remaining reader.new) room buffer.new)
        (GivesNone (C.remaining reader.old) (C.remaining reader.new) room) }
{
    let Ok(count) = reader.read(buffer) else {
        return Err(CheckFault::ReadFailed);
    };
    if room < count as u64 {
        return Err(CheckFault::TooLong);
    }
    Ok(count)
}

/// Reads to the end of the reader, and keeps nothing.
pub fn pass_over<C: Read>(reader: &mut C, limit: u64) -> Result<(), CheckFault>
    ensures whole { IfOk result (λ _. IfSome (C.remaining reader.old) (λ bytes. length bytes ≤ limit)) }
    ensures too_long { IfErr result (λ e. e ≡ CheckFault.TooLong
        → IfSome (C.remaining reader.old) (λ bytes. limit < length bytes)) }
    ensures before { IfErr result (λ e. e ≡ CheckFault.ReadFailed
        → GivesAtMost limit (C.remaining reader.old) (C.remaining reader.new)) }
    ensures kinds { IfErr result (λ e. (e ≡ CheckFault.ReadFailed) ⊎ (e ≡ CheckFault.TooLong)) }
{
    let mut buffer = [0; READ_SIZE];
    let mut room = limit;
    for _ in 0..READ_CALLS {
        let count = read_piece(reader, &mut buffer, room)?;
        if count == 0 {
            return Ok(());
        }
        room -= count as u64;
    }
    Err(CheckFault::ReadFailed)
}

/// The verdict of what the reader has left. A failed read and too many bytes come before it.
pub fn judge_from<C: Read>(
    alloc: Global,
    world: &World,
    reader: &mut C,
    limit: u64,
) -> Result<Verdict, CheckFault>
    ensures whole { IfOk result (λ v. IfSome (C.remaining reader.old) (λ bytes. IsTheVerdict world.now bytes v)) }
    ensures within { IfOk result (λ _. IfSome (C.remaining reader.old) (λ bytes. length bytes ≤ limit)) }
    ensures too_long { IfErr result (λ e. e ≡ CheckFault.TooLong
        → IfSome (C.remaining reader.old) (λ bytes. limit < length bytes)) }
    ensures before { IfErr result (λ e. e ≡ CheckFault.ReadFailed
        → GivesAtMost limit (C.remaining reader.old) (C.remaining reader.new)) }
    ensures kinds { IfErr result IsOfReading }
{
    let mut trial = Trial::new(alloc, world)?;
    let mut buffer = [0; READ_SIZE];
    let mut room = limit;
    for _ in 0..READ_CALLS {
        let count = read_piece(reader, &mut buffer, room)?;
        if count == 0 {
            let verdict = trial.finish(alloc, world)?;
            return Ok(verdict);
        }
        room -= count as u64;
        trial.push(world, &buffer[..count])?;
    }
    Err(CheckFault::ReadFailed)
}
