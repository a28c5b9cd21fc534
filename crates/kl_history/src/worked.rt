//! Worked histories of one agent: what is said of it at each moment. Each function does nothing: its contract is what
//! the definitions give.

ghost use Rattle.std.specs.Prelude.{◌≡◌, ◌∷◌, ℕ, [], List};
ghost use Rattle.kl_entry.specs.Entries.{EntryFields};
ghost use Rattle.kl_entry.specs.Lines.{AreEntries};
ghost use Rattle.kl_states.specs.declared.verdict.FailedCause.{FailedCause};
ghost use Rattle.kl_states.specs.declared.verdict.InvalidCause.{InvalidCause};
ghost use Rattle.kl_states.specs.declared.verdict.Verdict.TheVariants.{Pass, Failed, Invalid};
ghost use Rattle.kl_appraise.specs.Terms.{TermsFields};
ghost use Rattle.kl_appraise.specs.declared.judged.Boot.{Boot};
ghost use Rattle.kl_history.specs.Accepted.{SignsBoot};
ghost use Rattle.kl_history.specs.Worked.{
  Given,
  Reply,
  IsFound,
  FirstPass,
  PassWithoutShare,
  LatePass,
  LateFailure,
  InvalidQuote,
  SecondFailure,
  AddedAgain,
  FiveLosses,
  ReleasedAndReplaced,
  Undelivered,
  Rebooted,
  Continued,
  Stopped,
  OfTwo,
};

/// A first pass, with a share V and without; a pass and a failure that come after a replacement; a quote that proves nothing; a second failure; and a pass
/// that comes after the agent was removed and added again.
pub fn worked_polls()
    ensures first_pass { (x : Given) (r : Reply) → IsFound x.terms (x.nonce 1) r (Pass 2) → FirstPass x r }
    ensures without_v { (t : TermsFields) (nonce : List ℕ) (at : ℕ) (r : Reply) → PassWithoutShare t nonce at r }
    ensures late_pass { (x : Given) (r : Reply) → IsFound x.terms (x.nonce 1) r (Pass 2) → LatePass x r }
    ensures late_failure { (x : Given) (r : Reply) (why : FailedCause)
        → IsFound x.terms (x.nonce 1) r (Failed why) → LateFailure x r why }
    ensures invalid_quote { (x : Given) (r : Reply) (why : InvalidCause)
        → IsFound x.terms (x.nonce 1) r (Invalid why) → InvalidQuote x r why }
    ensures second_failure { (x : Given) (r q : Reply) (why because : FailedCause)
        → IsFound x.terms (x.nonce 1) r (Failed why) → IsFound x.others (x.nonce 2) q (Failed because)
        → SecondFailure x r q why because }
    ensures added_again { (x : Given) (r : Reply) → IsFound x.terms (x.nonce 1) r (Pass 2) → AddedAgain x r }
{}

/// Whose records are whose, where those of two agents stand one among another.
pub fn worked_agents()
    ensures { (x : Given) (r : Reply) → OfTwo x r }
{}

/// Five losses in a row, and a stop.
pub fn worked_ends()
    ensures five_losses { (x : Given) (r : Reply) → FiveLosses x r }
    ensures stopped { (x : Given) (r : Reply) → IsFound x.terms (x.nonce 1) r (Pass 2) → Stopped x r }
{}

/// V that arrives after a replacement, and five deliveries in a row that are missed.
pub fn worked_deliveries()
    ensures late_arrival { (x : Given) (r q : Reply)
        → IsFound x.terms (x.nonce 1) r (Pass 2) → IsFound x.others (x.nonce 2) q (Pass 2) → ReleasedAndReplaced x r q }
    ensures undelivered { (x : Given) (r : Reply) → IsFound x.terms (x.nonce 1) r (Pass 2) → Undelivered x r }
{}

/// A reboot, found as such or by a whole list that passes; and a list that is continued.
pub fn worked_lists()
    ensures rebooted { (x : Given) (r q : Reply) (es fs : List EntryFields) (first second : Boot)
        → IsFound x.terms (x.nonce 1) r (Pass 2)
        → AreEntries r.evidence.list es → SignsBoot r.evidence first
        → AreEntries q.evidence.list fs → q.evidence.start ≡ 0 → SignsBoot q.evidence second
        → Rebooted x r q es fs first second }
    ensures continued { (x : Given) (r q : Reply) (d0 d1 d2 d3 : EntryFields) (first second : Boot)
        → AreEntries r.evidence.list (d0 ∷ d1 ∷ d2 ∷ []) → SignsBoot r.evidence first
        → AreEntries q.evidence.list (d3 ∷ []) → q.evidence.start ≡ 2 → SignsBoot q.evidence second
        → Continued x r q d0 d1 d3 first second }
{}
