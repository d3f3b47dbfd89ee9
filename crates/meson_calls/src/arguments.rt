//! What the arguments of a call hold, in order.

ghost use Rattle.std.specs.Prelude.{◌≡◌, ◌<◌, ◌≤◌, [], MatchOption, None, OnOk, drop, is_some, length};
ghost use Rattle.std.specs.Str.{IsUtf8};
ghost use Rattle.meson_syntax.specs.View.{arg_view};
ghost use Rattle.meson_calls.specs.ChosenNotes.{Source};
ghost use Rattle.meson_calls.specs.Calls.{value_without_name, value_with_name};
ghost use Rattle.meson_calls.specs.NamedArguments.{rest, kept_args, number_behind, IsFirstNamed};
ghost use Rattle.meson_calls.specs.Refusals.{IfRefused};

use crate::refusal::Refusal;
use crate::roles::{text_of, text_of_name};
use meson_syntax::{Arg, List};
use std::alloc::Global;

/// Whether an argument has this name.
fn has_name(source: &[u8], arg: &Arg, key: &[u8]) -> bool
    ensures { result ≡ is_some (value_with_name key.now (arg_view source.now arg.now)) }
{
    match arg {
        Arg::Named { name, .. } => text_of(source, *name) == key,
        _ => false,
    }
}

/// How many arguments have this name.
pub fn count_named(source: &[u8], args: &[Arg], key: &[u8]) -> usize
    ensures { result ≡ length (kept_args source.now (value_with_name key.now) 0 args.now) }
{
    let mut count = 0;
    for i in 0..args.len() {
        if has_name(source, &args[i], key) {
            count += 1;
        }
    }
    count
}

/// Refuses a call that has more than one argument of this name.
///
/// # Errors
/// It has, or out of memory.
pub fn at_most_once(
    alloc: Global,
    source: &[u8],
    arguments: &List,
    key: &[u8],
) -> Result<(), Refusal>
    requires { IsUtf8 key.now }
    ensures few { OnOk result (length (kept_args source.now (value_with_name key.now) 0 arguments.now.items) ≤ 1) }
    ensures twice { IfRefused result (λ e. (e ≡ Refusal.DuplicateKeyword key.now)
        × (1 < length (kept_args source.now (value_with_name key.now) 0 arguments.now.items))) }
{
    if count_named(source, arguments.items.get(), key) > 1 {
        let key = text_of_name(alloc, key)?;
        return Err(Refusal::DuplicateKeyword(key));
    }
    Ok(())
}

/// The number of the first argument that has this name.
pub fn first_named(source: &[u8], args: &[Arg], key: &[u8]) -> Option<usize>
    ensures { MatchOption result (kept_args source.now (value_with_name key.now) 0 args.now ≡ [])
        (IsFirstNamed source.now key.now args.now) }
{
    for i in 0..args.len() {
        if has_name(source, &args[i], key) {
            return Some(i);
        }
    }
    None
}

/// Whether an argument has no name.
pub fn is_plain(arg: &Arg) -> bool
    ensures { (source : Source) → result ≡ is_some (value_without_name (arg_view source arg.now)) }
{
    match arg {
        Arg::Plain(_) => true,
        _ => false,
    }
}

/// The number after that of the first argument without a name, or the number of arguments if each has a name.
pub fn behind_first(args: &[Arg]) -> usize
    ensures number { (source : Source) → result ≡ number_behind (length args.now) (kept_args source value_without_name 0 args.now) }
    ensures others { (source : Source) → rest (kept_args source value_without_name 0 args.now)
        ≡ kept_args source value_without_name result (drop result args.now) }
{
    for i in 0..args.len() {
        if is_plain(&args[i]) {
            return i + 1;
        }
    }
    args.len()
}
