//! Tags of agents.

ghost use Rattle.std.specs.Prelude.{◌≡◌, ◌↔◌, IsTrue};
ghost use Rattle.kl_keys.specs.Tags.{tag_of, SpellsTag};

use crate::hmac::hmac384;
use hex::FromHex;
use kl_states::AgentId;

/// The tag of an agent under a key: the HMAC-SHA-384 value of the id's bytes.
pub fn tag(key: &[u8], id: &AgentId) -> [u8; 48]
    ensures { result ≡ tag_of key.now id.now }
{
    hmac384(key, id.as_str().as_bytes())
}

/// Whether the text is the tag's hexadecimal form, in either case of letters.
pub fn tag_matches(key: &[u8], id: &AgentId, text: &str) -> bool
    ensures { IsTrue result ↔ SpellsTag key.now id.now text.now }
{
    match <[u8; 48] as FromHex>::from_hex(text) {
        Ok(spelled) => spelled == tag(key, id),
        Err(_) => false,
    }
}
