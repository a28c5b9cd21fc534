//! That good evidence passes.

ghost use Rattle.std.specs.Prelude.{List, ℕ, None};
ghost use Rattle.kl_attest.specs.Grammar.{Quoted};
ghost use Rattle.kl_appraise.specs.Evidence.{Check};
ghost use Rattle.kl_appraise.specs.QuoteRules.{FindsCause, MeetsRules};
ghost use Rattle.kl_appraise.specs.ListRules.{Case, Outcome, ByPass};
ghost use Rattle.kl_appraise.specs.Outcome.{IsOutcome};
ghost use Rattle.kl_appraise.specs.Genuine.{IsGenuine, AllowsList};

/// A quote that meets every test breaks no rule; and genuine evidence, each entry of which up to the cut the policy
/// allows, has no other outcome than a pass, whatever was accepted before it.
///
/// The function does nothing: its contract is the theorem.
pub fn genuine_passes()
    ensures quote { (k : Check) (t : Quoted) (values : List ℕ) → MeetsRules k t values → FindsCause k None }
    ensures list { (c : Case) (o : Outcome) → IsGenuine c → AllowsList c → IsOutcome c o → ByPass c o }
{}
