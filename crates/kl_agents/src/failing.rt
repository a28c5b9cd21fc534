//! That agents failed is told.

ghost use Rattle.std.specs.Prelude.{◌≡◌, ◌≤◌, ◌+◌};
ghost use Rattle.kl_history.specs.Notices.{with_failure};
ghost use Rattle.kl_agents.specs.Failing.{failure_of};

use crate::entry::Entry;
use kl_notice::{FailWhy, Outbox};
use kl_states::AgentId;

/// Posts that an agent failed, where what is kept of it from now on says so. It takes no memory.
pub fn post_if(outbox: &mut Outbox, agent: AgentId, noted: Option<Entry>, why: Option<FailWhy>)
    requires { 1 ≤ outbox.old.spare }
    ensures posted { outbox.new.posted ≡ with_failure outbox.old.posted (failure_of agent noted why) }
    ensures marks { outbox.new.marks ≡ outbox.old.marks }
    ensures spare { outbox.old.spare ≤ outbox.new.spare + 1 }
{
    match (noted, why) {
        (Some(entry), Some(why)) => if entry.has_failed() {
            outbox.push(agent, entry.generation, why);
        },
        _ => {},
    }
}
