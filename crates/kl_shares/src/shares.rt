//! The shares of a key, and the key that they make.

ghost use Rattle.std.specs.Prelude.{◌≡◌, ℕ, List, IfSome, IfNone, length};
ghost use Rattle.kl_keys.specs.Tags.{SpellsTag};
ghost use Rattle.kl_keys.specs.Xor.{xor_of};

use kl_keys::tag_matches;
use kl_states::AgentId;

/// How many bytes a key and each of its shares have.
const KEY_LEN: usize = 32;

fn xor(bytes: &[u8; KEY_LEN], pad: &[u8; KEY_LEN]) -> [u8; KEY_LEN]
    ensures { result ≡ xor_of bytes.now pad.now }
{
    let mut masked = *bytes;
    for i in 0..KEY_LEN {
        masked[i] ^= pad[i];
    }
    masked
}

/// The share U of a key whose other share is V: the exclusive or of the two, byte by byte.
pub fn split(key: &[u8; KEY_LEN], v: &[u8; KEY_LEN]) -> [u8; KEY_LEN]
    ensures { result ≡ xor_of key.now v.now }
{
    xor(key, v)
}

/// The key whose shares are U and V: the exclusive or of the two, byte by byte.
pub fn join(u: &[u8; KEY_LEN], v: &[u8; KEY_LEN]) -> [u8; KEY_LEN]
    ensures { result ≡ xor_of u.now v.now }
{
    xor(u, v)
}

/// The key whose shares are U and V, None where the text is not the tag of the agent under it.
pub fn opens(u: &[u8; KEY_LEN], v: &[u8; KEY_LEN], id: &AgentId, tag: &str) -> Option<[u8; KEY_LEN]>
    ensures some { IfSome result (λ key. key ≡ xor_of u.now v.now) }
    ensures matches { IfSome result (λ key. SpellsTag key id.now tag.now) }
    ensures none { IfNone result (¬ (SpellsTag (xor_of u.now v.now) id.now tag.now)) }
{
    let key = join(u, v);
    if tag_matches(&key, id, tag) {
        Some(key)
    } else {
        None
    }
}

/// A key that was split is joined again from its two shares.
pub fn split_keys()
    ensures { (key v : List ℕ) → length key ≡ 32 → length v ≡ 32 → xor_of (xor_of key v) v ≡ key }
{}
