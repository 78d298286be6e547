//! Writing a text by single writes, so that a failed one leaves a beginning: specs/Writing.antt.
ghost use Rattle.std.specs.Io.KnownBytes.{Appends};
ghost use Rattle.std.specs.Prelude.{◌≡◌, IfErr, OnOk, OnErr};
ghost use Rattle.certificate_text.specs.Writing.{AppendsFront};
ghost use Rattle.certificate_text.specs.declared.fault.WriteFault.{WriteFault};

use crate::fault::WriteFault;
use std::io::Write;

/// Writes the text, or a beginning of it. A write that takes no byte is a failed one.
pub fn put_all<W: Write>(writer: &mut W, text: &[u8]) -> Result<(), WriteFault>
    ensures ok { OnOk result (Appends (W.contents writer.old) (W.contents writer.new) text.now) }
    ensures err { IfErr result (λ e. e ≡ WriteFault.WriteFailed) }
    ensures begun { OnErr result (AppendsFront (W.contents writer.old) (W.contents writer.new) text.now) }
{
    let mut rest = text;
    while !rest.is_empty() {
        match writer.write(rest) {
            Ok(0) => return Err(WriteFault::WriteFailed),
            Err(_) => return Err(WriteFault::WriteFailed),
            Ok(count) => rest = rest.split_at(count).1,
        }
    }
    Ok(())
}
