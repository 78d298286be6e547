//! The verdict on a certificate, and its words: specs/Verdict.antt and specs/Texts.antt.
use crate::reason::Reason;
use std::fmt;

/// What is said of a certificate.
#[derive(Clone, Copy, Debug, PartialEq, Eq)]
pub enum Verdict {
    /// It proves that its torches, whose number this is, are the fewest.
    Accepted { torches: u64 },
    Rejected(Reason),
}

impl fmt::Display for Verdict {
    ghost use Rattle.std.specs.Prelude.{Some};
    ghost use Rattle.proof_check.specs.Texts.{verdict_text};

    ghost output = { λ verdict. Some (verdict_text verdict) };

    fn fmt<W: fmt::Write>(&self, f: &mut fmt::Formatter<W>) -> fmt::Result {
        match self {
            Verdict::Accepted { torches } => write!(f, "accepted {torches}"),
            Verdict::Rejected(reason) => write!(f, "rejected: {reason}"),
        }
    }
}
