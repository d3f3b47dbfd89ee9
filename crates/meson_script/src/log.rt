//! The undo log of a session.

ghost use Rattle.std.specs.Prelude.{◌≡◌, ◌≢◌, Err, IfErr, IfOk, Ok, Some};
ghost use Rattle.meson_json.specs.Log.{log_of, logged};
ghost use Rattle.meson_json.specs.declared.fault.ScriptFault.TheVariants.{OutOfMemory};

use crate::session::Session;
use meson_json::{ScriptFault, history_text};
use std::alloc::Global;

/// The log of a session's history. Reading it gives that history.
///
/// # Errors
/// The bytes of a splice are not UTF-8, or out of memory.
pub fn log_text(alloc: Global, session: &Session) -> Result<Vec<u8>, ScriptFault>
    ensures text { IfOk result (λ b. log_of session.now.history ≡ Ok b.items) }
    ensures refused { IfErr result (λ e. e ≢ OutOfMemory → log_of session.now.history ≡ Err e) }
    ensures reads_back { IfOk result (λ b. logged b.items ≡ Some session.now.history) }
{
    history_text(alloc, &session.history)
}
