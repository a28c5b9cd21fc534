//! The text of a reply.

ghost use Rattle.std.specs.Prelude.{◌≡◌, IfOk, false, string_bytes};
ghost use Rattle.serde_json.specs.View.{view};
ghost use Rattle.serde_json.specs.Written.{has_float, compact_text};
ghost use Rattle.kl_json.specs.Reply.{reply};

use kl_base::Memory;
use serde_json::{Value, json};
use std::alloc::Global;

fn reply_value(alloc: Global, code: u16, status: &str, results: Value) -> Result<Value, Memory>
    ensures { IfOk result (λ value. view value ≡ reply code (view results) status.now) }
{
    Ok(json!(in alloc; {"code": code, "results": results, "status": status})?)
}

/// The text of the object with the members `code`, `results` and `status`, in this order and with no space.
///
/// # Errors
/// [`Memory`] where there is none for the text.
pub fn reply_text(alloc: Global, code: u16, status: &str, results: Value) -> Result<String, Memory>
    requires { has_float (view results) ≡ false }
    ensures { IfOk result (λ text. string_bytes text ≡ compact_text (reply code (view results) status.now)) }
{
    Ok(reply_value(alloc, code, status, results)?.to_string(alloc)?)
}
