//! What is written for values that are given.

ghost use Rattle.std.specs.Prelude.{◌≡◌, IfErr, IfOk};
ghost use Rattle.meson_calls.specs.declared.refusal.Refusal.TheVariants.{OutOfMemory};
ghost use Rattle.meson_places.specs.Values.{given_bytes, switch_text};

use meson_calls::Refusal;
use meson_splice::{Bytes, Text};
use meson_steps::given::Given;
use meson_steps::literals::written_text;
use std::alloc::Global;

/// The word of a truth value.
pub(crate) fn switch_text(yes: bool) -> &'static str
    ensures { result.now ≡ switch_text yes }
{
    if yes { "true" } else { "false" }
}

/// The bytes that are written for a value.
///
/// # Errors
/// Out of memory.
pub fn given_bytes(alloc: Global, given: &Given) -> Result<Bytes, Refusal>
    ensures done { IfOk result (λ b. b ≡ given_bytes given.now) }
    ensures refused { IfErr result (λ e. e ≡ OutOfMemory) }
{
    match given {
        Given::Text(text) => written_text(alloc, text),
        Given::Switch(yes) => {
            let word = switch_text(*yes);
            Ok(Bytes::of(Vec::from_slice(alloc, word.as_bytes())?))
        }
        Given::Code(code) => Ok(Bytes::of(Vec::from_slice(alloc, code.get().as_bytes())?)),
    }
}
