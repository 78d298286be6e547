//! Reading an input whole, within its limit of specs/Limits.antt.
ghost use Rattle.std.specs.Prelude.{◌≡◌, ◌≤◌, ◌<◌, ◌⊎◌, length, IfOk, IfErr, IfSome};
ghost use Rattle.cave_runs.specs.Limits.{plan_limit, table_limit};
ghost use Rattle.cave_runs.specs.declared.fault.Input.TheVariants.{PlanInput, TableInput};
ghost use Rattle.cave_runs.specs.declared.fault.RunFault.{RunFault};
ghost use Rattle.proof_check.specs.Reading.{GivesAtMost};

use crate::fault::{Input, RunFault};
use crate::limits::{PLAN_LIMIT, TABLE_LIMIT};
use proof_check::{READ_CALLS, READ_SIZE};
use std::alloc::Global;
use std::io::Read;

/// All that the reader has left, where that is at most `limit` bytes. Any error of a read is `ReadFailed`.
pub fn read_all<R: Read>(
    alloc: Global,
    reader: &mut R,
    limit: usize,
    input: Input,
) -> Result<Vec<u8>, RunFault>
    ensures all { IfOk result (λ v. IfSome (R.remaining reader.old) (λ bytes. v.items ≡ bytes)) }
    ensures within { IfOk result (λ v. length v.items ≤ limit) }
    ensures too_long { IfErr result (λ e. e ≡ RunFault.TooLong input
        → IfSome (R.remaining reader.old) (λ bytes. limit < length bytes)) }
    ensures kinds { IfErr result (λ e. (e ≡ RunFault.ReadFailed) ⊎ (e ≡ RunFault.TooLong input)
        ⊎ (e ≡ RunFault.OutOfMemory)) }
    // A failed read comes before more than the limit was read, and so does the end.
    ensures before { IfErr result (λ e. e ≡ RunFault.ReadFailed
        → GivesAtMost limit (R.remaining reader.old) (R.remaining reader.new)) }
    ensures ended { IfOk result (λ _. GivesAtMost limit (R.remaining reader.old) (R.remaining reader.new)) }
{
    let mut bytes = Vec::new(alloc);
    let mut buffer = [0; READ_SIZE];
    for _ in 0..READ_CALLS {
        let Ok(count) = reader.read(&mut buffer) else {
            return Err(RunFault::ReadFailed);
        };
        if count == 0 {
            return Ok(bytes);
        }
        if limit - bytes.len() < count {
            return Err(RunFault::TooLong(input));
        }
        if bytes.extend_from_slice(&buffer[..count]).is_err() {
            return Err(RunFault::OutOfMemory);
        }
    }
    Err(RunFault::ReadFailed)
}

/// Reads a plan's text to the end of the reader: it has at most 67,108,864 bytes.
pub fn read_plan<R: Read>(alloc: Global, reader: &mut R) -> Result<Vec<u8>, RunFault>
    // What is answered is just what the reader had.
    ensures all { IfOk result (λ v. IfSome (R.remaining reader.old) (λ bytes. v.items ≡ bytes)) }
    ensures within { IfOk result (λ v. length v.items ≤ plan_limit) }
    // It is too long only above the limit.
    ensures too_long { IfErr result (λ e. e ≡ RunFault.TooLong PlanInput
        → IfSome (R.remaining reader.old) (λ bytes. plan_limit < length bytes)) }
    ensures kinds { IfErr result (λ e. (e ≡ RunFault.ReadFailed) ⊎ (e ≡ RunFault.TooLong PlanInput)
        ⊎ (e ≡ RunFault.OutOfMemory)) }
    // A failed read comes before more than the limit was read.
    ensures before { IfErr result (λ e. e ≡ RunFault.ReadFailed
        → GivesAtMost plan_limit (R.remaining reader.old) (R.remaining reader.new)) }
{
    read_all(alloc, reader, PLAN_LIMIT, Input::PlanInput)
}

/// Reads a user's table to the end of the reader: it has at most 1,048,576 bytes.
pub fn read_table<R: Read>(alloc: Global, reader: &mut R) -> Result<Vec<u8>, RunFault>
    // What is answered is just what the reader had.
    ensures all { IfOk result (λ v. IfSome (R.remaining reader.old) (λ bytes. v.items ≡ bytes)) }
    ensures within { IfOk result (λ v. length v.items ≤ table_limit) }
    // It is too long only above the limit.
    ensures too_long { IfErr result (λ e. e ≡ RunFault.TooLong TableInput
        → IfSome (R.remaining reader.old) (λ bytes. table_limit < length bytes)) }
    ensures kinds { IfErr result (λ e. (e ≡ RunFault.ReadFailed) ⊎ (e ≡ RunFault.TooLong TableInput)
        ⊎ (e ≡ RunFault.OutOfMemory)) }
    // A failed read comes before more than the limit was read.
    ensures before { IfErr result (λ e. e ≡ RunFault.ReadFailed
        → GivesAtMost table_limit (R.remaining reader.old) (R.remaining reader.new)) }
{
    read_all(alloc, reader, TABLE_LIMIT, Input::TableInput)
}
