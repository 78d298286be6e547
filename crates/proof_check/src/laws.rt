//! Laws over the definitions alone.
ghost use Rattle.std.specs.Prelude.{ℕ, List};
ghost use Rattle.cave_model.specs.Cave.{Cave, IsSound};
ghost use Rattle.proof_check.specs.Accepted.{Accepts, IsBestPlan, Proves};
ghost use Rattle.proof_check.specs.Refused.{IsReasonOf};
ghost use Rattle.proof_check.specs.declared.reason.Reason.{Reason};
ghost use Rattle.proof_rules.specs.Certificate.{Certificate, torches_of};

/// The torches of an accepted certificate are safe, and no safe ones are fewer.
pub fn accepted_is_fewest()
    ensures { (cave : Cave) → (bytes : List ℕ) → (certificate : Certificate) → IsSound cave
        → Accepts cave bytes certificate
        → IsBestPlan cave (torches_of certificate.sections) }
{}

/// A certificate that is refused for a reason doesn't prove its torches the fewest.
pub fn reason_refutes()
    ensures { (cave : Cave) → (certificate : Certificate) → (reason : Reason) → IsReasonOf cave certificate reason
        → ¬ Proves cave certificate }
{}
