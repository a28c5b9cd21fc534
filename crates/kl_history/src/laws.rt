//! What holds of every legal history. Each function does nothing: its contract is a theorem.

ghost use Rattle.std.specs.Prelude.{ℕ, List, take};
ghost use Rattle.kl_history.specs.Records.{History, Past, past_of};
ghost use Rattle.kl_history.specs.Legal.{Legal};
ghost use Rattle.kl_history.specs.Laws.{
  NumbersAreDrawnOnce,
  EndsAreOne,
  AreAppraised,
  AreReleasedOnPasses,
  AreReleasedOnce,
  TellFailures,
  CountForNothing,
  BeginAnew,
  AreOne,
  AreCounted,
};
ghost use Rattle.kl_history.specs.Since.{AreToldAgain};

/// A beginning of a legal history is legal. So what holds of every legal history held at each place of it.
pub fn each_beginning()
    ensures { (H : History) (n : ℕ) → Legal H → Legal (take n H) }
{}

/// Generations, polls and releases are each numbered from 1 without gaps: each number that was drawn has exactly one Install,
/// Begin or Release.
pub fn drawn_numbers()
    ensures { (H : History) → Legal H → NumbersAreDrawnOnce H }
{}

/// A poll has one close at most, a release is settled at most once, and no two polls of one agent and generation are open at
/// once.
pub fn single_ends()
    ensures { (H : History) → Legal H → EndsAreOne H }
{}

/// Each recorded verdict, current or stale, is that of appraising the agent's whole list since boot, with that poll's quote and
/// nonce, under the one generation that the poll named; and so is each finding that a machine booted anew.
pub fn recorded_verdicts()
    ensures { (H : History) → Legal H → AreAppraised H }
{}

/// The key share V of an agent is released only after a pass of it under the generation then installed, which is its last
/// finding.
pub fn released_shares()
    ensures { (H : History) → Legal H → AreReleasedOnPasses H }
{}

/// The key share V of an agent is never released while an earlier release of it is open, and at most once for one boot that it
/// reached. A release from before the agent was last added counts for neither.
pub fn released_once()
    ensures { (H : History) → Legal H → AreReleasedOnce H }
{}

/// Each failure has exactly one notice, in order, and no stale record is a failure.
pub fn told_failures()
    ensures { (H : History) → TellFailures H }
{}

/// A close that is stale, or that drops its poll, changes nothing of how any agent stands; of a delivery's stale end only an
/// arrival counts, and only for the boot that it reached. No record changes how another agent stands.
pub fn stale_records()
    ensures { (past : Past) (a : List ℕ) → CountForNothing past a }
{}

/// An Install leaves nothing of what was accepted, lost, missed, passed or over before it, and a Remove nothing of what was
/// accepted.
pub fn new_beginnings()
    ensures { (past : Past) (a : List ℕ) → BeginAnew past a }
{}

/// What is accepted of an agent is one list of one boot, and its state is one.
pub fn single_standing()
    ensures { (own : Past) → AreOne own }
{}

/// The numbers of installed agents, open polls and open releases are what they are said to be, though each is told as a
/// difference of two counts; and at most 1,024 agents are installed.
pub fn open_counts()
    ensures { (H : History) → Legal H → AreCounted (past_of H) }
{}

/// What is looked back for in an agent's records is what the last record that decides it says, and what came after that: each
/// look-back is told in a second way, and the two agree.
pub fn looked_back()
    ensures { (own : Past) → AreToldAgain own }
{}
