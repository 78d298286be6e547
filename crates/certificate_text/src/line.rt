//! A line of a certificate, put together from words and numbers: specs/Lines.antt.
ghost use Rattle.std.specs.Prelude.{◌≡◌, ◌++◌, ◌∷◌, [], IfOk, string_bytes};
ghost use Rattle.proof_rules.specs.Text.{line};

use std::alloc::{AllocError, Global};

/// A word, and numbers, each after a space, with the line feed that ends the line.
pub fn line_text(alloc: Global, word: &str, numbers: &[u64]) -> Result<String, AllocError>
    ensures { IfOk result (λ s. string_bytes s ≡ line word.now numbers.now ++ 10 ∷ []) }
{
    let mut out = format!(in alloc; "{word}")?;
    for number in numbers {
        let text = format!(in alloc; " {number}")?;
        out.push_str(text.as_str())?;
    }
    out.push_str("\n")?;
    Ok(out)
}
