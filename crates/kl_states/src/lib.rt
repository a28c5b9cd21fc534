//! Plain values that the other crates share: an agent's name, a nonce, texts and bytes that are
//! compared by what they hold, the form of a policy, and the verdict of an appraisal with its causes.
#![tactic(auto)]

mod agent_id;
mod blob;
mod name;
mod nonce;
mod op;
mod outcome;
mod policy_kind;
mod text;
mod verdict;

pub use agent_id::AgentId;
pub use blob::Blob;
pub use nonce::Nonce;
pub use op::{Op, State, may_begin, may_release};
pub use outcome::{DropWhy, LostWhy, Outcome};
pub use policy_kind::PolicyKind;
pub use text::Text;
pub use verdict::{AttestCause, EntryCause, FailedCause, InvalidCause, LineCause, Verdict};
