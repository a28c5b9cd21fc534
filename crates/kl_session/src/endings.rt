//! Agents are stopped and removed.

ghost use Rattle.std.specs.Prelude.{◌≡◌, IfOk, IfErr, Some, string_bytes};
ghost use Rattle.kl_session.specs.Endings.{DoesStop, DoesRemove, says_done};
ghost use Rattle.kl_session.specs.Inner.Stopping.{IsShort};
ghost use Rattle.kl_session.specs.Texts.{done_line};

use crate::refusals::say_refused;
use crate::stop::Stop;
use crate::texts::done_line;
use crate::verifier::Verifier;
use kl_core::Refusal;
use kl_states::AgentId;
use std::alloc::Global;

/// What is said where this was to be done to an agent.
fn say_done(
    alloc: Global,
    what: &str,
    agent: AgentId,
    answer: Result<(), Refusal>,
) -> Result<String, Stop>
    ensures line { IfOk result (λ line. says_done (done_line what.now agent) answer ≡ Some (string_bytes line)) }
    ensures short { IfErr result (λ stop. stop ≡ Stop.Memory) }
{
    match answer {
        Ok(()) => Ok(done_line(alloc, what, agent)?),
        Err(why) => say_refused(alloc, why),
    }
}

impl Verifier {
    /// Stops an agent.
    pub(crate) fn stop(&mut self, alloc: Global, agent: AgentId) -> Result<String, Stop>
        ensures done { IfOk result (λ line. DoesStop agent self.old self.new (string_bytes line)) }
        ensures short { IfErr result (λ stop. IsShort stop self.old self.new (DoesStop agent self.old self.new)) }
    {
        let answer = self.book.stop(alloc, &agent);
        let _len = self.book.len();
        say_done(alloc, "stopped", agent, answer)
    }

    /// Removes an agent.
    pub(crate) fn remove(&mut self, alloc: Global, agent: AgentId) -> Result<String, Stop>
        ensures done { IfOk result (λ line. DoesRemove agent self.old self.new (string_bytes line)) }
        ensures short { IfErr result (λ stop. IsShort stop self.old self.new (DoesRemove agent self.old self.new)) }
    {
        let answer = self.book.remove(alloc, &agent);
        let _len = self.book.len();
        say_done(alloc, "removed", agent, answer)
    }
}
