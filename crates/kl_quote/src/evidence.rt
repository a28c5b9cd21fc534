//! What an agent answers to a challenge.
ghost use Rattle.std.specs.Prelude.{◌≡◌, ◌<◌, ◌≤◌, IfSome, IfNone};
ghost use Rattle.std.specs.String.{string_bytes};
ghost use Rattle.kl_quote.specs.Size.{evidence_limit, total_bytes};

use kl_states::Text;

/// The most bytes that the four texts of an [`Evidence`] have together.
pub const EVIDENCE_LIMIT: usize = 16_777_216;

/// An agent's answer to a challenge: a quote, and what is needed to appraise it. Its four texts
/// have at most [`EVIDENCE_LIMIT`] bytes together.
#[derive(Debug, Drop)]
pub struct Evidence {
    /// The name of the hash algorithm of the quoted PCR bank.
    pub bank: Text,
    /// How many entries of the agent's measurement list stand before the first of `list`.
    pub start: u64,
    /// The public part of the key that the agent binds to its attestation key by the quote.
    pub public: Text,
    /// The text of the quote, which [`read_quote`](crate::read_quote) reads.
    pub quote: Text,
    /// The lines of the agent's IMA measurement list from entry `start` on.
    pub list: Text,
    pub ghost bounded: { total_bytes bank public quote list ≤ evidence_limit },
}

impl Evidence {
    /// The evidence of these fields, or `None` where its four texts have more than
    /// [`EVIDENCE_LIMIT`] bytes together.
    pub fn new(
        bank: String,
        start: u64,
        public: String,
        quote: String,
        list: String,
    ) -> Option<Self>
        ensures bank { IfSome result (λ e. e.bank ≡ string_bytes bank) }
        ensures start { IfSome result (λ e. e.start ≡ start) }
        ensures public { IfSome result (λ e. e.public ≡ string_bytes public) }
        ensures quote { IfSome result (λ e. e.quote ≡ string_bytes quote) }
        ensures list { IfSome result (λ e. e.list ≡ string_bytes list) }
        ensures none { IfNone result (evidence_limit < total_bytes (string_bytes bank) (string_bytes public) (string_bytes quote) (string_bytes list)) }
    {
        let (bank, public) = (Text::new(bank), Text::new(public));
        let (quote, list) = (Text::new(quote), Text::new(list));
        let total = bank
            .len()
            .checked_add(public.len())?
            .checked_add(quote.len())?
            .checked_add(list.len())?;
        if total > EVIDENCE_LIMIT {
            return None;
        }
        Some(Evidence {
            bank,
            start,
            public,
            quote,
            list,
        })
    }
}
