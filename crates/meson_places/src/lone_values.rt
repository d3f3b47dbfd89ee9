//! A literal or an identifier that becomes the array of it and further values.

ghost use Rattle.std.specs.Prelude.{◌≡◌, ◌≢◌, ◌++◌, ◌∷◌, [], Err, IfErr, IfOk, List, MatchResult, map, option_map};
ghost use Rattle.meson_edit.specs.Edits.{Replace, Written};
ghost use Rattle.meson_splice.specs.Files.{bytes_at};
ghost use Rattle.meson_syntax.specs.Grammar.{expression_words};
ghost use Rattle.meson_syntax.specs.Tree.{Expression, Nowhere};
ghost use Rattle.meson_syntax.specs.View.{expr_view};
ghost use Rattle.meson_calls.specs.declared.refusal.Refusal.TheVariants.{OutOfMemory};
ghost use Rattle.meson_calls.specs.Loading.{AreParsed};
ghost use Rattle.meson_calls.specs.Strings.{AreGood};
ghost use Rattle.meson_steps.specs.Meanings.{AreMeant};
ghost use Rattle.meson_steps.specs.Steps.{step_in};
ghost use Rattle.meson_steps.specs.WrittenTexts.{comma_between};
ghost use Rattle.meson_places.specs.Names.{loaded_in};
ghost use Rattle.meson_places.specs.NewElements.{add_to_lone, array_with, beside, lone_token};
ghost use Rattle.meson_places.specs.Room.{if_room};
ghost use Rattle.meson_places.specs.Several.{AllMayBeGiven};
ghost use Rattle.meson_places.specs.Values.{given_bytes};
ghost use Rattle.meson_places.specs.inside.Found.{IsArrayValue, LoneStands};

use crate::changes::{is_literal, push_edit};
use crate::known::{Known, fresh};
use crate::name::Sources;
use crate::room::has_room_for;
use crate::several::Held;
use crate::values::given_bytes;
use meson_calls::Refusal;
use meson_calls::roles::text_of;
use meson_splice::Bytes;
use meson_steps::given::Given;
use meson_steps::step::{ListEdit, ListStep};
use meson_syntax::Expr;
use std::alloc::{AllocError, Global};

/// The text that is written for the array of a value, by its text, and others.
pub(crate) fn beside_bytes(alloc: Global, old: &[u8], values: &[&Given]) -> Result<Bytes, Refusal>
    ensures done { IfOk result (λ b. b ≡ 91 ∷ (comma_between (old.now ∷ map given_bytes (map (λ x. x.now) values.now)) ++ 93 ∷ [])) }
    ensures refused { IfErr result (λ e. e ≡ OutOfMemory) }
{
    let mut out = Vec::new(alloc);
    out.extend_from_slice(b"[")?;
    out.extend_from_slice(old)?;
    for i in 0..values.len() {
        out.extend_from_slice(b", ")?;
        let value = given_bytes(alloc, values[i])?;
        out.extend_from_slice(value.get())?;
    }
    out.extend_from_slice(b"]")?;
    Ok(Bytes::of(out))
}

/// The text of a literal or an identifier.
pub(crate) fn lone_token<'s>(
    alloc: Global,
    source: &'s [u8],
    value: &Expr,
) -> Result<Option<&'s [u8]>, AllocError>
    requires { AreGood (expression_words (expr_view source.now value.now)) }
    ensures { IfOk result (λ token. option_map (λ x. x.now) token ≡ lone_token (expr_view source.entry.now value.now)) }
{
    match value {
        Expr::Identifier(span) => Ok(Some(text_of(source, *span))),
        Expr::String { span, .. } => {
            if is_literal(alloc, source, value)? {
                Ok(Some(text_of(source, *span)))
            } else {
                Ok(None)
            }
        }
        _ => Ok(None),
    }
}

/// The steps that replace a value by the array of it, by its text, and others.
///
/// # Errors
/// The file would nest too deep, or out of memory.
fn become_array(
    alloc: Global,
    sources: Sources<'_>,
    held: Held<'_>,
    token: &[u8],
    new: &[&Given],
) -> Result<Vec<ListStep>, Refusal>
    requires { AreParsed sources.files.now sources.trees.now }
    ensures made { (old : Written (Expression Nowhere)) (ws : List (Written (Expression Nowhere))) → old.bytes ≡ token.now
        → map (λ w. w.bytes) ws ≡ map given_bytes (map (λ x. x.now) new.now) → IsArrayValue old ws → let list = held.entry.list.now in
        let meant = if_room (loaded_in sources.entry) list (array_with old ws).node (step_in list (Replace list.path.steps held.entry.number (array_with old ws)) ∷ []) in
        MatchResult result (λ steps. AreMeant meant steps.items) (λ e. e ≢ OutOfMemory → meant ≡ Err e) }
{
    let array = beside_bytes(alloc, token, new)?;
    if !has_room_for(alloc, sources, held.list, array.get())? {
        return Err(Refusal::TooDeep);
    }
    let mut steps = Vec::new(alloc);
    let edit = ListEdit::Replace(held.number, array);
    push_edit(alloc, held.list, edit, &mut steps)?;
    Ok(steps)
}

/// The same, if there are any others.
///
/// # Errors
/// The faults of `become_array`.
fn add_beside(
    alloc: Global,
    sources: Sources<'_>,
    held: Held<'_>,
    token: &[u8],
    new: &[&Given],
) -> Result<Vec<ListStep>, Refusal>
    requires { AreParsed sources.files.now sources.trees.now }
    ensures made { (old : Written (Expression Nowhere)) (ws : List (Written (Expression Nowhere))) → old.bytes ≡ token.now
        → map (λ w. w.bytes) ws ≡ map given_bytes (map (λ x. x.now) new.now) → IsArrayValue old ws
        → let meant = beside (loaded_in sources.entry) held.entry.list.now held.entry.number old ws in
        MatchResult result (λ steps. AreMeant meant steps.items) (λ e. e ≢ OutOfMemory → meant ≡ Err e) }
{
    if new.is_empty() {
        return Ok(Vec::new(alloc));
    }
    become_array(alloc, sources, held, token, new)
}

/// The steps that add values to a literal or an identifier, which becomes the array of it and of those that it does not say.
///
/// # Errors
/// It is another expression; the file would nest too deep; or out of memory.
pub(crate) fn add_to_lone(
    alloc: Global,
    sources: Sources<'_>,
    values: &[Given],
    held: Held<'_>,
) -> Result<Vec<ListStep>, Refusal>
    requires parsed { AreParsed sources.files.now sources.trees.now }
    requires good { AreGood (expression_words (expr_view held.source.now held.child.value.now)) }
    requires source { held.source.now ≡ bytes_at held.list.now.file sources.files.now }
    ensures made { (may : AllMayBeGiven values.now) → let h = held.entry in let e = expr_view h.source.now h.child.value.now in LoneStands e
        → let meant = add_to_lone (loaded_in sources.entry) values.now may h.key.now h.list.now h.number e (lone_token e) in
        MatchResult result (λ steps. AreMeant meant steps.items) (λ e. e ≢ OutOfMemory → meant ≡ Err e) }
{
    match lone_token(alloc, held.source, held.child.value)? {
        Some(token) => {
            let known = Known::Value(held.child.value);
            let new = fresh(alloc, held.source, known, values)?;
            add_beside(alloc, sources, held, token, new.as_slice())
        }
        None => Err(Refusal::NotLiteral(held.key.clone()?)),
    }
}
