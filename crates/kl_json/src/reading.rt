//! A text is read.

ghost use Rattle.std.specs.Prelude.{◌≡◌, ◌⊎◌, IfOk, IfErr, Err};
ghost use Rattle.serde_json.specs.View.{view};
ghost use Rattle.kl_json.specs.Reading.{Reads, IsNotJson};

use crate::fault::JsonFault;
use serde_json::Value;
use std::alloc::Global;

/// The value that a text in UTF-8 is. Arrays and objects may nest up to 127 deep; of two members of one name the last
/// one counts.
///
/// # Errors
/// [`JsonFault::NotJson`] where the text is no JSON or nests deeper, [`JsonFault::Memory`] where there is no memory
/// for the value.
pub fn parse(alloc: Global, text: &[u8]) -> Result<Value, JsonFault>
    ensures read { IfOk result (λ value. Reads text.now (view value)) }
    ensures not_json { result ≡ Err JsonFault.NotJson → IsNotJson text.now }
    ensures only { IfErr result (λ fault. (fault ≡ JsonFault.NotJson) ⊎ (fault ≡ JsonFault.Memory)) }
{
    match Value::from_slice(alloc, text) {
        Ok(value) => Ok(value),
        Err(refused) if refused.is_memory() => Err(JsonFault::Memory),
        Err(_) => Err(JsonFault::NotJson),
    }
}
