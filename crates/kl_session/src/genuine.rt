//! That a reply with good evidence passes.

ghost use Rattle.std.specs.Prelude.{◌≡◌, Bool, ℕ};
ghost use Rattle.kl_quote.specs.declared.evidence.Evidence.{Evidence};
ghost use Rattle.kl_appraise.specs.declared.judged.Outcome.{Outcome as Finding};
ghost use Rattle.kl_appraise.specs.declared.judged.Outcome.TheVariants.{Verdict as Judged};
ghost use Rattle.kl_states.specs.declared.verdict.Verdict.TheVariants.{Pass};
ghost use Rattle.kl_appraise.specs.Genuine.{IsGenuine, AllowsList};
ghost use Rattle.kl_appraise.specs.ListRules.{Case};
ghost use Rattle.kl_history.specs.Records.{Past};
ghost use Rattle.kl_history.specs.Legal.{IsCaseOf};
ghost use Rattle.kl_incr.specs.Kept.{TicketFields};
ghost use Rattle.kl_session.specs.Outside.{Outside};
ghost use Rattle.kl_session.specs.Replies.{Finds, Went};

/// A reply to an open poll whose appraisal ends with a finding is a pass, where its evidence is genuine, as the poll's
/// terms and nonce would have it, and the policy allows each entry before the cut.
///
/// The function does nothing: its contract is the theorem.
pub fn genuine_replies()
    ensures passes { (o o' : Outside) (past : Past) (t : TicketFields) (e : Evidence) (signed : Bool) (found : Finding)
        → Went o o' past t e (Finds signed found) → ((k : Case) → IsCaseOf past t.poll e signed k → IsGenuine k × AllowsList k)
        → (cut : ℕ) × (found ≡ Judged (Pass cut)) }
{}
