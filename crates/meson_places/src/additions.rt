//! The steps that set a value where none is there: a keyword argument or an entry is added.

ghost use Rattle.std.specs.Prelude.{◌≡◌, ◌++◌, ◌∷◌, [], IfOk};
ghost use Rattle.meson_edit.specs.Edits.{Written};
ghost use Rattle.meson_splice.specs.Files.{bytes_at};
ghost use Rattle.meson_syntax.specs.Tree.{Argument, Expression, Nowhere};
ghost use Rattle.meson_places.specs.Colons.{colon_text, ends_in_file};
ghost use Rattle.meson_calls.specs.Loading.{AreParsed, project};
ghost use Rattle.meson_calls.specs.Project.{expression_at};
ghost use Rattle.meson_steps.specs.ListSteps.{AreBare};
ghost use Rattle.meson_steps.specs.Meanings.{AreMeant};
ghost use Rattle.meson_places.specs.Changes.{added_by_kind, added_entry, added_keyword, added_there, added_to, behind_all, keyword_behind};
ghost use Rattle.meson_calls.specs.Refusals.{RefusedAs};
ghost use Rattle.meson_places.specs.Names.{loaded_in};

use crate::changes::push_edit;
use crate::colon::is_spaced_in;
use crate::elements::{ListKind, list_kind};
use crate::name::Sources;
use crate::slots::elements_in;
use meson_calls::{CallRef, Refusal};
use meson_lex::is_identifier;
use meson_splice::{Bytes, Text};
use meson_steps::literals::push_literal;
use meson_steps::step::{ListEdit, ListStep};
use std::alloc::{AllocError, Global};

/// The steps that add an element at the end of a list with this number of elements.
fn behind_all(
    alloc: Global,
    list: &CallRef,
    many: usize,
    new: Bytes,
) -> Result<Vec<ListStep>, AllocError>
    ensures { (w : Written (Argument Nowhere)) → w.bytes ≡ new → IfOk result (λ steps. AreBare (behind_all list.now many w ∷ []) steps.items) }
{
    let mut steps = Vec::new(alloc);
    let edit = if many == 0 {
        ListEdit::First(new)
    } else {
        ListEdit::After(many - 1, new)
    };
    push_edit(alloc, list, edit, &mut steps)?;
    Ok(steps)
}

/// What is written for a key, a colon and a value.
fn keyed(front: Vec<u8>, spaced: bool, value: &Bytes) -> Result<Bytes, AllocError>
    ensures { IfOk result (λ b. b ≡ front.items ++ (colon_text spaced ++ value.now)) }
{
    let mut all = front;
    let colon = if spaced { " : " } else { ": " };
    all.extend_from_slice(colon.as_bytes())?;
    all.extend_from_slice(value.get())?;
    Ok(Bytes::of(all))
}

/// A call or a dictionary to which an element is added: its place, the number of its elements, and whether a blank is before the new colon.
#[derive(Clone, Copy)]
struct Receiver<'t> {
    list: &'t CallRef,
    many: usize,
    spaced: bool,
}

/// The steps that add an argument whose name is this key.
///
/// # Errors
/// Out of memory.
fn keyword_behind(
    alloc: Global,
    receiver: Receiver<'_>,
    value: &Bytes,
    key: &Text,
) -> Result<Vec<ListStep>, Refusal>
    ensures meant { (w : Written (Expression Nowhere)) → w.bytes ≡ value.now → let r = receiver.entry in
        IfOk result (λ steps. AreMeant (keyword_behind r.spaced w key.now r.list.now r.many) steps.items) }
    ensures refused { (w : Written (Expression Nowhere)) → let r = receiver.entry in
        RefusedAs result (keyword_behind r.spaced w key.now r.list.now r.many) }
{
    let mut front = Vec::new(alloc);
    front.extend_from_slice(key.get().as_bytes())?;
    let new = keyed(front, receiver.spaced, value)?;
    Ok(behind_all(alloc, receiver.list, receiver.many, new)?)
}

/// The steps that add a keyword argument.
///
/// # Errors
/// The key is not an identifier, or out of memory.
fn keyword_steps(
    alloc: Global,
    receiver: Receiver<'_>,
    value: &Bytes,
    key: &Text,
) -> Result<Vec<ListStep>, Refusal>
    ensures meant { (w : Written (Expression Nowhere)) → w.bytes ≡ value.now → let r = receiver.entry in
        IfOk result (λ steps. AreMeant (added_keyword r.spaced w key.now r.list.now r.many) steps.items) }
    ensures refused { (w : Written (Expression Nowhere)) → let r = receiver.entry in
        RefusedAs result (added_keyword r.spaced w key.now r.list.now r.many) }
{
    if !is_identifier(key.get()) {
        return Err(Refusal::BadName);
    }
    keyword_behind(alloc, receiver, value, key)
}

/// The steps that add an entry.
///
/// # Errors
/// Out of memory.
fn entry_steps(
    alloc: Global,
    receiver: Receiver<'_>,
    value: &Bytes,
    key: &Text,
) -> Result<Vec<ListStep>, Refusal>
    ensures meant { (w : Written (Expression Nowhere)) → w.bytes ≡ value.now → let r = receiver.entry in
        IfOk result (λ steps. AreMeant (added_entry r.spaced w key.now r.list.now r.many) steps.items) }
    ensures refused { (w : Written (Expression Nowhere)) → let r = receiver.entry in
        RefusedAs result (added_entry r.spaced w key.now r.list.now r.many) }
{
    let mut front = Vec::new(alloc);
    push_literal(alloc, &mut front, key.get())?;
    let new = keyed(front, receiver.spaced, value)?;
    Ok(behind_all(alloc, receiver.list, receiver.many, new)?)
}

/// The steps that add an argument or an entry to a list of this kind.
///
/// # Errors
/// It is the list of an array, the key of a keyword argument is not an identifier, or out of memory.
fn added_by_kind(
    alloc: Global,
    receiver: Receiver<'_>,
    kind: ListKind,
    value: &Bytes,
    key: &Text,
) -> Result<Vec<ListStep>, Refusal>
    ensures meant { (w : Written (Expression Nowhere)) → w.bytes ≡ value.now → let r = receiver.entry in
        IfOk result (λ steps. AreMeant (added_by_kind r.spaced w key.now r.list.now kind r.many) steps.items) }
    ensures refused { (w : Written (Expression Nowhere)) → let r = receiver.entry in
        RefusedAs result (added_by_kind r.spaced w key.now r.list.now kind r.many) }
{
    match kind {
        ListKind::Call => keyword_steps(alloc, receiver, value, key),
        ListKind::Dictionary => entry_steps(alloc, receiver, value, key),
        ListKind::Array => Err(Refusal::NotLiteral(key.clone()?)),
    }
}

/// The same, if there is a list at all.
///
/// # Errors
/// There is none, or the faults of `added_by_kind`.
fn added_there(
    alloc: Global,
    receiver: Receiver<'_>,
    kind: Option<ListKind>,
    value: &Bytes,
    key: &Text,
) -> Result<Vec<ListStep>, Refusal>
    ensures meant { (w : Written (Expression Nowhere)) → w.bytes ≡ value.now → let r = receiver.entry in
        IfOk result (λ steps. AreMeant (added_there r.spaced w key.now r.list.now kind r.many) steps.items) }
    ensures refused { (w : Written (Expression Nowhere)) → let r = receiver.entry in
        RefusedAs result (added_there r.spaced w key.now r.list.now kind r.many) }
{
    match kind {
        Some(kind) => added_by_kind(alloc, receiver, kind, value, key),
        None => Err(Refusal::NotLiteral(key.clone()?)),
    }
}

/// The steps that set a value at a key which the call or dictionary at a place does not have.
///
/// # Errors
/// No call and no dictionary is there, the key of a keyword argument is not an identifier, or out of memory.
pub(crate) fn added_to(
    alloc: Global,
    sources: Sources<'_>,
    value: &Bytes,
    key: &Text,
    list: &CallRef,
) -> Result<Vec<ListStep>, Refusal>
    requires { AreParsed sources.files.now sources.trees.now }
    ensures meant { (w : Written (Expression Nowhere)) → w.bytes ≡ value.now → let l = loaded_in sources.entry in
        IfOk result (λ steps. AreMeant (added_to (bytes_at list.now.file l.files) (ends_in_file l list.now.file) w key.now list.now (expression_at (project l) list.now)) steps.items) }
    ensures refused { (w : Written (Expression Nowhere)) → let l = loaded_in sources.entry in
        RefusedAs result (added_to (bytes_at list.now.file l.files) (ends_in_file l list.now.file) w key.now list.now (expression_at (project l) list.now)) }
{
    if list.file >= sources.trees.len() {
        return Err(Refusal::NoSuchValue(key.clone()?));
    }
    match sources.trees[list.file].expr_at(&list.path) {
        Some(held) => {
            let source = sources.files.bytes(list.file);
            let spaced = is_spaced_in(alloc, sources, list.file, source, held)?;
            let receiver = Receiver {
                list,
                many: elements_in(held).len(),
                spaced,
            };
            added_there(alloc, receiver, list_kind(held), value, key)
        }
        None => Err(Refusal::NoSuchValue(key.clone()?)),
    }
}
