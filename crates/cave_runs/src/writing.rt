//! Writing a text, with the fault of a run.
ghost use Rattle.std.specs.Io.KnownBytes.{Appends};
ghost use Rattle.std.specs.Prelude.{◌≡◌, IfErr, OnOk, OnErr};
ghost use Rattle.cave_runs.specs.declared.fault.RunFault.{RunFault};
ghost use Rattle.certificate_text.specs.Writing.{AppendsFront};

use crate::fault::RunFault;
use std::io::Write;

/// Writes the text, or a beginning of it.
pub fn put_all<W: Write>(writer: &mut W, text: &[u8]) -> Result<(), RunFault>
    ensures ok { OnOk result (Appends (W.contents writer.old) (W.contents writer.new) text.now) }
    ensures err { IfErr result (λ e. e ≡ RunFault.WriteFailed) }
    ensures begun { OnErr result (AppendsFront (W.contents writer.old) (W.contents writer.new) text.now) }
{
    match certificate_text::put_all(writer, text) {
        Ok(()) => Ok(()),
        Err(_) => Err(RunFault::WriteFailed),
    }
}
