//! Polls begin.

ghost use Rattle.std.specs.Prelude.{◌≡◌, IfOk, IfErr, IfSome, None, ℕ, string_bytes};
ghost use Rattle.kl_session.specs.Outside.{outside};
ghost use Rattle.kl_session.specs.Polls.{HasNonce, BeginsWith, DoesBegin};
ghost use Rattle.kl_session.specs.Drawing.{DrawsNone};
ghost use Rattle.kl_session.specs.Texts.{polled_line};
ghost use Rattle.kl_session.specs.Inner.Stopping.{IsShort, IsUnbegun};
ghost use Rattle.kl_exclude.specs.Told.{MakerTold};
ghost use Rattle.kl_keys.specs.Told.{KeysTold};
ghost use Rattle.hex.specs.Hex.{encode_lower};

use crate::drawing::draw;
use crate::refusals::say_refused;
use crate::stop::Stop;
use crate::texts::polled_line;
use crate::verifier::Verifier;
use kl_incr::Ticket;
use kl_io::Words;
use kl_script::Begin;
use kl_states::{AgentId, Nonce};
use std::alloc::Global;

/// The nonce of 16 drawn bytes: their hexadecimal digits.
fn nonce_from(drawn: &[u8; 16]) -> Nonce
    ensures { result ≡ encode_lower drawn.now }
{
    let mut digits = [0; 32];
    let written = hex::encode_to_slice(drawn, &mut digits);
    match Nonce::from_bytes(&digits) {
        Some(nonce) => nonce,
        None => unreachable!(),
    }
}

/// The nonce that a begin names, or one that is drawn: 16 bytes in hexadecimal digits.
fn nonce_of<N: Words>(named: Option<Nonce>, nonces: &mut N) -> Option<Nonce>
    ensures some { IfSome result (λ nonce. (keys : KeysTold) (maker : MakerTold) (steps : ℕ) → HasNonce (outside keys (N.told nonces.old) maker steps)
        (outside keys (N.told nonces.new) maker steps) named nonce) }
    ensures none { result ≡ None → (named ≡ None) × ((keys : KeysTold) (maker : MakerTold) (steps : ℕ) → DrawsNone 16 (outside keys (N.told nonces.old) maker steps)
        (outside keys (N.told nonces.new) maker steps)) }
{
    match named {
        Some(nonce) => Some(nonce),
        None => {
            match draw(nonces) {
                Some(drawn) => Some(nonce_from(&drawn)),
                None => None,
            }
        },
    }
}

/// What is said of a poll that begins.
fn say_polled(alloc: Global, ticket: &Ticket) -> Result<String, Stop>
    ensures line { IfOk result (λ line. string_bytes line ≡ polled_line ticket.now) }
    ensures short { IfErr result (λ stop. stop ≡ Stop.Memory) }
{
    Ok(polled_line(alloc, ticket)?)
}

impl Verifier {
    /// Begins a poll of an agent.
    pub(crate) fn begin<N: Words>(
        &mut self,
        alloc: Global,
        begin: Begin,
        nonces: &mut N,
    ) -> Result<String, Stop>
        ensures done { IfOk result (λ line. (keys : KeysTold) (maker : MakerTold) (steps : ℕ) → DoesBegin (outside keys (N.told nonces.old) maker steps)
            (outside keys (N.told nonces.new) maker steps) begin self.old self.new (string_bytes line)) }
        ensures stopped { IfErr result (λ stop. (keys : KeysTold) (maker : MakerTold) (steps : ℕ) → IsUnbegun stop (outside keys (N.told nonces.old) maker steps)
            (outside keys (N.told nonces.new) maker steps) self.old begin self.new) }
    {
        let Some(nonce) = nonce_of(begin.nonce, nonces) else {
            return Err(Stop::NoNonce);
        };
        self.begin_with(alloc, begin.agent, nonce)
    }

    /// Begins a poll of an agent with this nonce.
    fn begin_with(&mut self, alloc: Global, agent: AgentId, nonce: Nonce) -> Result<String, Stop>
        ensures done { IfOk result (λ line. BeginsWith agent nonce self.old self.new (string_bytes line)) }
        ensures short { IfErr result (λ stop. IsShort stop self.old self.new (BeginsWith agent nonce self.old self.new)) }
    {
        self.tickets.reserve(1)?;
        let answer = self.book.begin(alloc, &agent, nonce, self.moment);
        let _len = self.book.len();
        match answer {
            Ok(ticket) => {
                let line = say_polled(alloc, &ticket);
                self.tickets.push_reserved(ticket);
                line
            },
            Err(why) => say_refused(alloc, why),
        }
    }
}
