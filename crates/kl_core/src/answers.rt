//! That the answers of a desk are functions of the call and of the records that it found.

ghost use Rattle.std.specs.Prelude.{List, ℕ};
ghost use Rattle.kl_policy.specs.PolicyFields.{PolicyFields};
ghost use Rattle.kl_appraise.specs.Terms.{TermsFields};
ghost use Rattle.kl_incr.specs.Kept.{TicketFields};
ghost use Rattle.kl_incr.specs.Appraisal.{AppraisedFields};
ghost use Rattle.kl_states.specs.declared.outcome.DropWhy.{DropWhy};
ghost use Rattle.kl_states.specs.declared.outcome.LostWhy.{LostWhy};
ghost use Rattle.kl_states.specs.declared.outcome.Outcome.{Outcome};
ghost use Rattle.kl_history.specs.Records.{History, Past, past_of};
ghost use Rattle.kl_history.specs.Legal.{Legal};
ghost use Rattle.kl_core.specs.Installs.{Adds, Replaces, Reactivates};
ghost use Rattle.kl_core.specs.Endings.{Stops, Removes};
ghost use Rattle.kl_core.specs.Begins.{BeginAnswers};
ghost use Rattle.kl_core.specs.Closes.{OwnFinishes, Finishes, OwnLoses, Loses, OwnDrops, Drops};
ghost use Rattle.kl_core.specs.Shares.{ShareFields, Releases, OwnSettles, Settles};
ghost use Rattle.kl_core.specs.Books.{BookFields};
ghost use Rattle.kl_core.specs.States.{StateAnswers};
ghost use Rattle.kl_core.specs.Picks.{PickAnswers};
ghost use Rattle.kl_core.specs.Notices.{NoticeAnswers, MarkAnswers};
ghost use Rattle.kl_core.specs.Answers.{IsAmple, IsAmpleWith, IsAny, IsOneAnswer};

/// Behind given records each call has one answer at most that is not want of memory. Of the reasons to refuse it the
/// first that applies is one; a number that is drawn, a ticket, a share, how a poll was closed, how a release was settled and how an
/// agent stands follow from the records, which agent is picked and which notice is next too. That the poll of an agent that is open
/// is one, and the release of it that is not settled, holds of legal histories; the rest of any records.
///
/// The function does nothing: its contract is the theorem.
pub fn single_answers()
    ensures adds { (past : Past) (a : List ℕ) (t : TermsFields) → IsOneAnswer IsAmpleWith (Adds a t) past }
    ensures replaces { (past : Past) (a : List ℕ) (p : PolicyFields) → IsOneAnswer IsAmpleWith (Replaces a p) past }
    ensures reactivates { (past : Past) (a : List ℕ) → IsOneAnswer IsAmple (Reactivates a) past }
    ensures stops { (past : Past) (a : List ℕ) → IsOneAnswer IsAmple (Stops a) past }
    ensures removes { (past : Past) (a : List ℕ) → IsOneAnswer IsAmple (Removes a) past }
    ensures begins { (H : History) (a n : List ℕ) (at : ℕ) → Legal H → IsOneAnswer IsAmple (BeginAnswers a n at) (past_of H) }
    ensures releases { (H : History) (a : List ℕ) → Legal H → IsOneAnswer IsAmple (Releases a) (past_of H) }
    ensures finishes { (past : Past) (a : AppraisedFields) → IsOneAnswer IsAny (Finishes a) past }
    ensures own_finishes { (past : Past) (a : AppraisedFields) → IsOneAnswer IsAny (OwnFinishes a) past }
    ensures loses { (past : Past) (t : TicketFields) (why : LostWhy) → IsOneAnswer IsAny (Loses t why) past }
    ensures own_loses { (past : Past) (t : TicketFields) (why : LostWhy) → IsOneAnswer IsAny (OwnLoses t why) past }
    ensures drops { (past : Past) (t : TicketFields) (why : DropWhy) → IsOneAnswer IsAny (Drops t why) past }
    ensures own_drops { (past : Past) (t : TicketFields) (why : DropWhy) → IsOneAnswer IsAny (OwnDrops t why) past }
    ensures state { (past : Past) (a : List ℕ) → IsOneAnswer IsAny (StateAnswers a) past }
    ensures picks { (past : Past) (now : ℕ) → IsOneAnswer IsAny (PickAnswers now) past }
    ensures notices { (found : BookFields) → IsOneAnswer IsAny NoticeAnswers found }
    ensures marks { (found : BookFields) (number : ℕ) → IsOneAnswer IsAny (MarkAnswers number) found }
    ensures settles { (past : Past) (s : ShareFields) (o : Outcome) → IsOneAnswer IsAny (Settles s o) past }
    ensures own_settles { (past : Past) (s : ShareFields) (o : Outcome) → IsOneAnswer IsAny (OwnSettles s o) past }
{}
