//! Whether what is noted of a file is what a name finds.

ghost use Rattle.std.specs.Prelude.{◌≡◌, IfOk, not};
ghost use Rattle.meson_syntax.specs.View.{expr_view, list_view, text_at};
ghost use Rattle.meson_syntax.specs.Grammar.{expression_words, listing_words};
ghost use Rattle.meson_calls.specs.Calls.{call_of, first_literal, is};
ghost use Rattle.meson_calls.specs.ChosenNotes.{Source, call_with};
ghost use Rattle.meson_calls.specs.Naming.{project_ids};
ghost use Rattle.meson_calls.specs.Notes.{note_view};
ghost use Rattle.meson_calls.specs.Roles.{one_of};
ghost use Rattle.meson_calls.specs.Strings.{AreGood, note_words};
ghost use Rattle.meson_places.specs.Names.{calls_callee, calls_other, is_named, named_place, sets_named};

use meson_calls::literals::first_literal;
use meson_calls::note::{Note, What};
use meson_calls::place::{child_place, place_of};
use meson_calls::roles::{note_has_role, text_of};
use meson_calls::{CallRef, Role};
use meson_lex::Span;
use meson_splice::Text;
use meson_steps::argument::{Callee, PlaceName};
use meson_syntax::{Bracket, Expr, List};
use std::alloc::{AllocError, Global};

/// Whether a call is one of the function.
fn calls_callee(source: &[u8], callee: &Callee, function: Span, arguments: &List) -> bool
    ensures { result ≡ calls_callee callee.now (call_with (text_at source.now function) (list_view source.now arguments.now)) }
{
    match callee {
        Callee::Target => {
            let call = What::Call {
                function,
                arguments,
            };
            note_has_role(Role::Target, source, call)
        }
        Callee::Function(name) => text_of(source, function) == name.get().as_bytes(),
    }
}

/// Whether the first argument without a name is a literal of this text.
fn has_text(alloc: Global, source: &[u8], arguments: &List, text: &Text) -> Result<bool, AllocError>
    requires { AreGood (listing_words (list_view source.now arguments.now) Bracket.Round) }
    ensures { (function : Source) → IfOk result (λ b. b ≡ is text.now (first_literal (call_with function (list_view source.now arguments.now)))) }
{
    match first_literal(alloc, source, arguments)? {
        Some(found) => Ok(text.get() == found.as_str()),
        None => Ok(false),
    }
}

/// Whether a call is another one than that of a name, where it may have that name.
fn is_other(named: bool) -> bool
    ensures { result ≡ not named }
{
    !named
}

/// Whether an expression is a call of the function whose first argument without a name is not a literal of this text.
fn calls_other(
    alloc: Global,
    source: &[u8],
    callee: &Callee,
    id: &Text,
    value: &Expr,
) -> Result<bool, AllocError>
    requires { AreGood (expression_words (expr_view source.now value.now)) }
    ensures { IfOk result (λ b. b ≡ calls_other callee.now id.now (call_of (expr_view source.now value.now))) }
{
    match value {
        Expr::Call {
            name,
            arguments,
            ..
        } => {
            if calls_callee(source, callee, *name, arguments) {
                let named = has_text(alloc, source, arguments, id)?;
                Ok(is_other(named))
            } else {
                Ok(false)
            }
        }
        _ => Ok(false),
    }
}

/// Whether an id names the project.
fn names_project(id: &Text) -> bool
    ensures { result ≡ one_of project_ids id.now }
{
    "/" == id.get() || "//" == id.get()
}

/// Whether a note is one of the call that is named.
fn is_named(alloc: Global, name: &PlaceName, note: &Note<'_, '_>) -> Result<bool, AllocError>
    requires { AreGood (note_words (note_view note.now).it) }
    ensures { IfOk result (λ b. b ≡ is_named name.now (note_view note.now).it) }
{
    let What::Call {
        function,
        arguments,
    } = note.what
    else {
        return Ok(false);
    };
    let source = note.source;
    match name {
        PlaceName::Project(id) => {
            Ok(names_project(id) && text_of(source, function) == b"project".as_slice())
        }
        PlaceName::Call { callee, id } => {
            if calls_callee(source, callee, function, arguments) {
                has_text(alloc, source, arguments, id)
            } else {
                Ok(false)
            }
        }
        PlaceName::Variable(_) => Ok(false),
        PlaceName::Line { .. } => Ok(false),
    }
}

/// Whether a note is one of an assignment with `=` of the value that is named.
fn sets_named(alloc: Global, name: &PlaceName, note: &Note<'_, '_>) -> Result<bool, AllocError>
    requires { AreGood (note_words (note_view note.now).it) }
    ensures { IfOk result (λ b. b ≡ sets_named name.now (note_view note.now).it) }
{
    let What::Assign {
        name: variable,
        sets,
        value,
    } = note.what
    else {
        return Ok(false);
    };
    let source = note.source;
    match name {
        PlaceName::Project(_) => Ok(false),
        PlaceName::Call { callee, id } => {
            if !sets || text_of(source, variable) != id.get().as_bytes() {
                return Ok(false);
            }
            calls_other(alloc, source, callee, id, value)
        }
        PlaceName::Variable(id) => Ok(sets && text_of(source, variable) == id.get().as_bytes()),
        PlaceName::Line { .. } => Ok(false),
    }
}

/// The place of what a note is about, if it is named.
pub(crate) fn named_place(
    alloc: Global,
    name: &PlaceName,
    note: &Note<'_, '_>,
) -> Result<Option<CallRef>, AllocError>
    requires { AreGood (note_words (note_view note.now).it) }
    ensures { IfOk result (λ place. place ≡ named_place name.now (note_view note.now)) }
{
    if is_named(alloc, name, note)? {
        let place = place_of(alloc, note.place.file, note.place.path)?;
        return Ok(Some(place));
    }
    if sets_named(alloc, name, note)? {
        let place = child_place(alloc, note.place, 0)?;
        return Ok(Some(place));
    }
    Ok(None)
}
