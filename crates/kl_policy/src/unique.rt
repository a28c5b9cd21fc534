//! That a text has one reading.

ghost use Rattle.std.specs.Prelude.{◌≡◌, List, ℕ, true};
ghost use Rattle.kl_exclude.specs.Told.{MakerTold};
ghost use Rattle.kl_policy.specs.Making.{is_settled, IsNoPolicy};
ghost use Rattle.kl_policy.specs.PolicyFields.{PolicyFields};
ghost use Rattle.kl_policy.specs.Reading.{IsPolicy};
ghost use Rattle.kl_policy.specs.Texts.{named_text};
ghost use Rattle.kl_policy.specs.declared.fault.PolicyFault.{PolicyFault as Fault};
ghost use Rattle.kl_states.specs.declared.policy_kind.PolicyKind.{PolicyKind as Kind};

/// In each form a text is one policy at most, and a text that is one has no fault that the text alone settles. Two such faults of
/// a text have the same name, whatever was asked of what makes patterns. So where a contract names "the" policy of a
/// text or "the" reason against it, there is no other. Left open are want of memory, and which pattern is refused as too large.
///
/// The function does nothing: its contract is the theorem.
pub fn one_reading()
    ensures policy { (kind : Kind) (text : List ℕ) (first second : PolicyFields) → IsPolicy kind text first → IsPolicy kind text second → first ≡ second }
    ensures either { (kind : Kind) (text : List ℕ) (old new : MakerTold) (policy : PolicyFields) (fault : Fault)
        → IsPolicy kind text policy → IsNoPolicy kind text old new fault → ¬ (is_settled fault ≡ true) }
    ensures fault { (kind : Kind) (text : List ℕ) (old new before after : MakerTold) (first second : Fault)
        → IsNoPolicy kind text old new first → IsNoPolicy kind text before after second
        → is_settled first ≡ true → is_settled second ≡ true → named_text first ≡ named_text second }
{}
