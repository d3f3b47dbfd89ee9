//! The texts at spans, and which calls a command may be about.

ghost use Rattle.std.specs.Prelude.{◌≡◌, None, Some, MatchOption, IfOk};
ghost use Rattle.std.specs.Str.{IsUtf8};
ghost use Rattle.meson_lex.specs.Kinds.{IsIdentifier};
ghost use Rattle.meson_syntax.specs.View.{text_at, expr_view, arg_view, list_view};
ghost use Rattle.meson_calls.specs.Calls.{first_argument, value_without_name};
ghost use Rattle.meson_calls.specs.Roles.{one_of, target_functions, has_role};
ghost use Rattle.meson_calls.specs.Notes.{what_view};
ghost use Rattle.meson_calls.specs.Setters.{is_among};
ghost use Rattle.meson_calls.specs.ChosenNotes.{Source, call_with, note_has_role};

use crate::call::Role;
use crate::note::What;
use meson_lex::Span;
use meson_splice::Text;
use meson_syntax::{Arg, Expr, List};
use std::alloc::{AllocError, Global};
use std::str;

/// The bytes of a span, or the part of them that exists.
pub fn text_of(source: &[u8], span: Span) -> &[u8]
    ensures { result.now ≡ text_at source.now span }
{
    let to = span.to.min(source.len());
    let from = span.from.min(to);
    &source[from..to]
}

/// Whether a name is one of these.
pub fn is_among(names: &[&[u8]], name: &[u8]) -> bool
    ensures { result ≡ is_among names.now name.now }
{
    for i in 0..names.len() {
        if names[i] == name {
            return true;
        }
    }
    false
}

/// The text of an identifier, which has ASCII characters alone.
pub fn identifier_text(name: &[u8]) -> &str
    requires { IsIdentifier name.now }
    ensures { result.now ≡ name.now }
{
    match str::from_utf8(name) {
        Ok(text) => text,
        Err(_) => unreachable!(),
    }
}

/// A text of these bytes. They are UTF-8, as all bytes of a source are.
pub fn text_of_name(alloc: Global, name: &[u8]) -> Result<Text, AllocError>
    requires { IsUtf8 name.now }
    ensures { IfOk result (λ t. t ≡ name.now) }
{
    match str::from_utf8(name) {
        Ok(name) => {
            let text = String::from_str(alloc, name)?;
            Ok(Text::of(text))
        }
        Err(_) => unreachable!(),
    }
}

/// The functions that make targets.
pub fn makes_target(function: &[u8]) -> bool
    ensures { result ≡ one_of target_functions function.now }
{
    b"executable".as_slice() == function
        || b"static_library".as_slice() == function
        || b"shared_library".as_slice() == function
        || b"shared_module".as_slice() == function
        || b"both_libraries".as_slice() == function
        || b"library".as_slice() == function
        || b"jar".as_slice() == function
        || b"build_target".as_slice() == function
}

/// The value of an argument without a name.
fn value_without_name(arg: &Arg) -> Option<&Expr>
    ensures { (source : Source) → MatchOption result (value_without_name (arg_view source arg.now) ≡ None)
        (λ e. value_without_name (arg_view source arg.now) ≡ Some (expr_view source e.now)) }
{
    match arg {
        Arg::Plain(value) => Some(value),
        _ => None,
    }
}

/// The first argument without a name.
pub fn first_argument(arguments: &List) -> Option<&Expr>
    ensures { (source function : Source) → MatchOption result (first_argument (call_with function (list_view source arguments.now)) ≡ None)
        (λ e. first_argument (call_with function (list_view source arguments.now)) ≡ Some (expr_view source e.now)) }
{
    let args = arguments.items.get();
    for i in 0..args.len() {
        if let Some(value) = value_without_name(&args[i]) {
            return Some(value);
        }
    }
    None
}

/// Whether a call has a role.
pub(crate) fn has_role(role: Role, function: &[u8], arguments: &List) -> bool
    ensures { (source : Source) → result ≡ has_role role (call_with function.now (list_view source arguments.now)) }
{
    match role {
        Role::Target => makes_target(function) && first_argument(arguments).is_some(),
        Role::Dependency => {
            function == b"dependency".as_slice() && first_argument(arguments).is_some()
        }
        Role::Project => function == b"project".as_slice(),
    }
}

/// Whether a note is one of a call of a role.
pub fn note_has_role(role: Role, source: &[u8], what: What<'_>) -> bool
    ensures { result ≡ note_has_role role (what_view source.now what.entry) }
{
    match what {
        What::Call {
            function,
            arguments,
        } => has_role(role, text_of(source, function), arguments),
        _ => false,
    }
}
