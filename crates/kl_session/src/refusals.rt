//! What is said where the desk refused a call.

ghost use Rattle.std.specs.Prelude.{◌≡◌, IfOk, IfErr, Some, string_bytes};
ghost use Rattle.kl_session.specs.Texts.{says_refused};

use crate::stop::Stop;
use crate::texts::refused_line;
use kl_core::Refusal;
use std::alloc::Global;

/// The line of a refusal. Want of memory has none: it ends a session.
pub fn say_refused(alloc: Global, why: Refusal) -> Result<String, Stop>
    ensures line { IfOk result (λ line. says_refused why ≡ Some (string_bytes line)) }
    ensures short { IfErr result (λ stop. stop ≡ Stop.Memory) }
{
    match why {
        Refusal::Memory => Err(Stop::Memory),
        why => Ok(refused_line(alloc, why)?),
    }
}
