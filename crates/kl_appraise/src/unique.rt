//! That the rules decide: what they name is one.

ghost use Rattle.std.specs.Prelude.{◌≡◌, Bool, List, ℕ, Option, Some};
ghost use Rattle.kl_keys.specs.Relations.{Relations};
ghost use Rattle.kl_states.specs.declared.verdict.InvalidCause.{InvalidCause as Cause};
ghost use Rattle.kl_appraise.specs.Evidence.{Check, with_answer};
ghost use Rattle.kl_appraise.specs.QuoteRules.{FindsCause, IsAnswered};
ghost use Rattle.kl_appraise.specs.ListRules.{Case, Outcome};
ghost use Rattle.kl_appraise.specs.Outcome.{IsOutcome};

/// Evidence has one outcome at most under given terms, nonce and answer of the key object, and its quote one cause at most;
/// and a key object that tells its answers gives one answer alone. So where a contract names "the" verdict of a reply, there
/// is no other.
///
/// The function does nothing: its contract is the theorem.
pub fn one_verdict()
    ensures outcome { (c : Case) (first second : Outcome) → IsOutcome c first → IsOutcome c second → first ≡ second }
    ensures cause { (k : Check) (first second : Option Cause) → FindsCause k first → FindsCause k second → first ≡ second }
    ensures answer { (told : Relations) (ak : List ℕ) (k : Check) (first second : Bool)
        → IsAnswered (Some told) ak (with_answer k first) → IsAnswered (Some told) ak (with_answer k second)
        → first ≡ second }
{}
