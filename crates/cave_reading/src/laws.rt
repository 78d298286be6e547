//! Laws over the definitions alone.
ghost use Rattle.std.specs.Prelude.{ℕ, List, Option};
ghost use Rattle.cave_model.specs.Cave.{Cave, IsWorld};
ghost use Rattle.cave_model.specs.Rule.{IsRule, Rule};
ghost use Rattle.cave_reading.specs.Bytes.{IsCaveOfBytes};

/// The cave that bytes tell keeps what every world keeps: each row of a table has a sound class, and a structure's box
/// is small.
pub fn told_caves_are_sound()
    ensures { (bytes : List ℕ) → (table : Option (List ℕ)) → (rule : Rule) → (cave : Cave) → IsRule rule
        → IsCaveOfBytes bytes table rule cave → IsWorld cave }
{}
