//! Keyword arguments that are reported may be there once only.

ghost use Rattle.std.specs.Prelude.{◌≡◌, IfOk, Ok, option_map};
ghost use Rattle.meson_syntax.specs.View.{arg_view, list_view};
ghost use Rattle.meson_calls.specs.ChosenNotes.{Source, call_with};
ghost use Rattle.meson_calls.specs.Refusals.{RefusedAs};
ghost use Rattle.meson_details.specs.Once.{call_told, key_told, name_in};

use meson_calls::arguments::at_most_once;
use meson_calls::keys::is_key;
use meson_calls::roles::text_of;
use meson_calls::{Refusal, Role};
use meson_syntax::{Arg, List};
use std::alloc::Global;

/// The name of an argument.
fn name_of<'s>(source: &'s [u8], arg: &Arg) -> Option<&'s [u8]>
    ensures { option_map (λ name. name.now) result ≡ name_in (arg_view source.entry.now arg.now) }
{
    match arg {
        Arg::Named {
            span: _,
            name,
            value: _,
        } => Some(text_of(source, *name)),
        Arg::Plain(_) => None,
        Arg::Pair {
            span: _,
            key: _,
            value: _,
        } => None,
    }
}

/// Refuses a call in which a keyword argument that commands change is there twice.
///
/// # Errors
/// It is, or out of memory.
fn key_told(
    alloc: Global,
    source: &[u8],
    arguments: &List,
    role: Role,
    key: &[u8],
) -> Result<(), Refusal>
    ensures told { (function : Source) → IfOk result (λ u. key_told role (call_with function (list_view source.now arguments.now)) key.now ≡ Ok u) }
    ensures refused { (function : Source) → RefusedAs result (key_told role (call_with function (list_view source.now arguments.now)) key.now) }
{
    if is_key(role, key) {
        at_most_once(alloc, source, arguments, key)
    } else {
        Ok(())
    }
}

/// Refuses a call in which any keyword argument that commands change is there twice.
///
/// # Errors
/// One is, the first such in the call's order; or out of memory.
pub fn call_told(alloc: Global, source: &[u8], arguments: &List, role: Role) -> Result<(), Refusal>
    ensures told { (function : Source) → IfOk result (λ u. call_told role (call_with function (list_view source.now arguments.now)) ≡ Ok u) }
    ensures refused { (function : Source) → RefusedAs result (call_told role (call_with function (list_view source.now arguments.now))) }
{
    let args = arguments.items.get();
    for i in 0..args.len() {
        match name_of(source, &args[i]) {
            Some(key) => key_told(alloc, source, arguments, role, key)?,
            None => {}
        }
    }
    Ok(())
}
