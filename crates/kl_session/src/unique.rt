//! That what a session does follows from its commands.

ghost use Rattle.std.specs.Prelude.{◌≡◌, ◌++◌, List, ℕ, Some};
ghost use Rattle.kl_keys.specs.Relations.{Relations};
ghost use Rattle.kl_script.specs.Commands.{CommandFields};
ghost use Rattle.kl_session.specs.declared.stop.Stop.TheVariants.{NoNonce};
ghost use Rattle.kl_session.specs.Outside.{Outside};
ghost use Rattle.kl_session.specs.Calls.{SessionFields};
ghost use Rattle.kl_session.specs.Session.{Does, Follows};
ghost use Rattle.kl_session.specs.Stopped.{IsStopped};
ghost use Rattle.kl_session.specs.Unique.{LacksNothing, IsFaultless, GoesOn, Grows, Steps, Runs, GoesThrough, IsDry};

/// Where the key object tells the relations that it answers by, and the words tell what is left of them, and neither
/// meets a fault, and no poll is dropped for want of memory, then a session's next state, its line and the words that
/// are left follow from the session and the command, and so do those of commands one after the other. A command that
/// is answered is none for whose nonce too few words are left. A run of more commands goes through the session that a
/// run of the first of them ends in.
///
/// The function does nothing: its contract is the theorem.
pub fn single_steps()
    ensures step { (r : Relations) (words : List ℕ) (s : SessionFields) (c : CommandFields) (x y : SessionFields) (l m v u : List ℕ)
        → Steps r words s c x l v → Steps r words s c y m u → (x ≡ y) × (l ≡ m) × (v ≡ u) }
    ensures answered { (r : Relations) (words : List ℕ) (s : SessionFields) (c : CommandFields) (x y : SessionFields) (l v u : List ℕ)
        → Steps r words s c x l v → ¬ (IsDry r words s c y u) }
    ensures dry { (r : Relations) (words : List ℕ) (s : SessionFields) (c : CommandFields) (x : SessionFields) (rest : List ℕ)
        → IsDry r words s c x rest → (x ≡ s) × (rest ≡ words) }
    ensures run { (r : Relations) (words : List ℕ) (s : SessionFields) (commands : List CommandFields) (x y : SessionFields)
        (ls ms : List (List ℕ)) (v u : List ℕ)
        → Runs r words s commands x ls v → Runs r words s commands y ms u → (x ≡ y) × (ls ≡ ms) × (v ≡ u) }
    ensures longer { (r : Relations) (words : List ℕ) (s : SessionFields) (commands more : List CommandFields) (x y : SessionFields)
        (ls ms : List (List ℕ)) (v u : List ℕ)
        → Runs r words s commands x ls v → Runs r words s (commands ++ more) y ms u → GoesThrough r x v more y ls ms u }
{}

/// From one moment of a session to a later one the key object keeps its relations, no count of faults falls, it stays
/// known which words are left, and the history grows. What is faultless from one moment to another is so up to each
/// moment between them and from there on. Where nothing was wanting at the end, nothing was before.
///
/// The function does nothing: its contract is the theorem.
pub fn later_moments()
    ensures does { (o o' : Outside) (s : SessionFields) (c : CommandFields) (s' : SessionFields) (line : List ℕ)
        → Does o o' s c s' line → GoesOn o o' × Grows s s' }
    ensures follows { (o o' : Outside) (s : SessionFields) (commands : List CommandFields) (lines : List (List ℕ)) (last : SessionFields)
        → Follows o o' s commands lines last → GoesOn o o' × Grows s last }
    ensures dry { (o o' : Outside) (s : SessionFields) (c : CommandFields) (s' : SessionFields)
        → IsStopped NoNonce o o' s c s' → GoesOn o o' }
    ensures both { (o then o' : Outside) → GoesOn o then → GoesOn then o' → GoesOn o o' }
    ensures front { (r : Relations) (words : List ℕ) (o then o' : Outside)
        → IsFaultless r words o o' → GoesOn then o' → IsFaultless r words o then }
    ensures rest { (r : Relations) (words left : List ℕ) (o then o' : Outside)
        → IsFaultless r words o o' → GoesOn o then → then.words.left ≡ Some left → IsFaultless r left then o' }
    ensures unwanting { (s s' : SessionFields) → Grows s s' → LacksNothing s'.verifier.history → LacksNothing s.verifier.history }
{}
