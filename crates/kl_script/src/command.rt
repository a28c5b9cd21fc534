//! The commands of a script.

ghost use Rattle.std.specs.Prelude.{◌≡◌};
ghost use Rattle.kl_script.specs.Deliveries.{outcome_of};

use kl_bank::Bank;
use kl_pcr::Statics;
use kl_quote::Evidence;
use kl_states::{AgentId, Blob, Nonce, Outcome, PolicyKind, Text};

/// What a line of a script asks for.
#[derive(Drop)]
pub enum Command {
    /// Nothing: an empty line, or a comment, which begins with `#`.
    Nothing,
    /// A call of the verifier.
    Verifier(VerifierCommand),
    /// A call of the registrar.
    Registrar(RegistrarCommand),
}

/// What is asked of the verifier.
#[derive(Drop)]
pub enum VerifierCommand {
    /// `add`, see [`Add`].
    Add(Add),
    /// `replace`, see [`Replace`].
    Replace(Replace),
    /// Makes an agent live again under the terms that it has: `reactivate <agent>`.
    Reactivate(AgentId),
    /// Stops polling an agent: `stop <agent>`.
    Stop(AgentId),
    /// Takes an agent out: `remove <agent>`.
    Remove(AgentId),
    /// Sets the moment, in milliseconds: `now <moment>`.
    Now(u64),
    /// `begin`, see [`Begin`].
    Begin(Begin),
    /// `reply`, see [`Reply`].
    Reply(Reply),
    /// Asks how an agent stands: `state <agent>`.
    State(AgentId),
    /// Ends an open poll since nothing came back: `lose <poll>`.
    Lose(u64),
    /// Asks which agent is polled next: `pick`.
    Pick,
    /// Hands V of an agent out: `release <agent>`.
    Release(AgentId),
    /// `settle`, see [`Settle`].
    Settle(Settle),
    /// Asks for the first notice that is not delivered: `notice`.
    Notice,
    /// Says that the notice of this number is delivered: `noticed <number>`.
    Noticed(u64),
}

/// What is asked of the registrar.
#[derive(Drop)]
pub enum RegistrarCommand {
    /// `register`, see [`Register`].
    Register(Register),
    /// `activate`, see [`Activate`].
    Activate(Activate),
    /// Asks for the record of an agent that is active: `record <agent>`.
    Record(AgentId),
    /// Asks which agents are active: `records`.
    Records,
    /// Takes an agent's record out: `forget <agent>`.
    Forget(AgentId),
}

/// Makes an agent known: `add <agent> <contact> <bank> <mask> <statics> <ak> <v> <kind> <policy>`.
#[derive(Drop)]
pub struct Add {
    /// The agent's name.
    pub agent: AgentId,
    /// Where the agent is reached.
    pub contact: Text,
    /// The PCR bank that its quotes are to be of.
    pub bank: Bank,
    /// The PCRs that its quotes are to show, bit n for PCR n.
    pub mask: u32,
    /// The PCRs whose values are fixed, in the order of the line.
    pub statics: Statics,
    /// The public part of its attestation key.
    pub ak: Blob,
    /// The verifier's share V of the key of the agent's payload, where there is one.
    pub v: Option<[u8; 32]>,
    /// The form of its runtime policy.
    pub kind: PolicyKind,
    /// The text of its runtime policy, in that form.
    pub policy: Text,
}

/// Gives an agent another runtime policy: `replace <agent> <kind> <policy>`.
#[derive(Drop)]
pub struct Replace {
    /// The agent's name.
    pub agent: AgentId,
    /// The form of its new runtime policy.
    pub kind: PolicyKind,
    /// The text of its new runtime policy, in that form.
    pub policy: Text,
}

/// Begins a poll of an agent: `begin <agent> <nonce>`, or `begin <agent>`, whose nonce is drawn.
#[derive(Drop)]
pub struct Begin {
    /// The agent's name.
    pub agent: AgentId,
    /// What the agent's quote has to carry; None where it is to be drawn.
    pub nonce: Option<Nonce>,
}

/// Ends an open poll by what the agent answered:
/// `reply <poll> <bank> <start> <public key> <quote> <measurement list>`.
#[derive(Drop)]
pub struct Reply {
    /// The number of the poll.
    pub poll: u64,
    /// What the agent answered.
    pub evidence: Evidence,
}

/// Says how the delivery of V ended that a release handed out: `settle <number> <delivery>`.
#[derive(Clone, Copy, Debug, PartialEq, Eq)]
pub struct Settle {
    /// The number of the release.
    pub number: u64,
    /// How its delivery ended.
    pub delivery: Delivery,
}

/// How a delivery ended that was tried.
#[derive(Clone, Copy, Debug, PartialEq, Eq)]
pub enum Delivery {
    /// The agent has V: `arrived`.
    Arrived,
    /// The agent has not said that it has it: `missed`.
    Missed,
}

impl Delivery {
    /// The outcome of the release.
    pub fn outcome(self) -> Outcome
        ensures { result ≡ outcome_of self }
    {
        match self {
            Delivery::Arrived => Outcome::Arrived,
            Delivery::Missed => Outcome::Missed,
        }
    }
}

/// Registers an agent's keys: `register <agent> <ek> <ak> <contact>`.
#[derive(Drop)]
pub struct Register {
    /// The agent's name.
    pub agent: AgentId,
    /// The public part of the endorsement key of its TPM.
    pub ek: Blob,
    /// The public part of its attestation key.
    pub ak: Blob,
    /// Where the agent is reached.
    pub contact: Text,
}

/// Makes an agent's record active: `activate <agent> <tag>`.
#[derive(Drop)]
pub struct Activate {
    /// The agent's name.
    pub agent: AgentId,
    /// What is said to be the agent's tag under the secret that it was sent.
    pub tag: Text,
}
