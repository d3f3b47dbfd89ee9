//! The steps that set or delete the value of a slot.

ghost use Rattle.std.specs.Prelude.{◌≡◌, ◌+◌, ◌<◌, ◌^◌, ◌++◌, ◌∷◌, [], IfOk, MatchOption, OnOk, Some, is_some, length, map, option_map};
ghost use Rattle.std.specs.List.{list_all};
ghost use Rattle.meson_edit.specs.Edits.{Written};
ghost use Rattle.meson_splice.specs.Files.{bytes_at};
ghost use Rattle.meson_syntax.specs.Grammar.{argument_words, expression_words};
ghost use Rattle.meson_syntax.specs.Tree.{Expression, Nowhere};
ghost use Rattle.meson_syntax.specs.View.{arg_view, args_view, expr_view};
ghost use Rattle.meson_calls.specs.Calls.{literal_of};
ghost use Rattle.meson_calls.specs.ChosenNotes.{Source};
ghost use Rattle.meson_calls.specs.GoodLists.{GoodArgs};
ghost use Rattle.meson_calls.specs.Loading.{AreParsed, project};
ghost use Rattle.meson_calls.specs.Strings.{AreGood};
ghost use Rattle.meson_steps.specs.ListSteps.{AreBare, bare};
ghost use Rattle.meson_steps.specs.Meanings.{AreMeant};
ghost use Rattle.meson_calls.specs.Project.{expression_at};
ghost use Rattle.meson_places.specs.Changes.{alone_in_array, delete_steps, element_child, replaces_texts, rest_removed, set_assigned, set_steps, set_there, set_whole};
ghost use Rattle.meson_calls.specs.Refusals.{RefusedAs};
ghost use Rattle.meson_places.specs.Names.{loaded_in};
ghost use Rattle.meson_steps.specs.GivenWords.{MayBeGiven};
ghost use Rattle.meson_places.specs.Values.{are_texts, is_array, is_text, keeps_kind, written_given};
ghost use Rattle.meson_places.specs.inside.Wanted.{child_view};

use crate::additions::added_to;
use crate::assigned::{assign_steps, is_assigned};
use crate::name::Sources;
use crate::slots::{ChildValue, Slot, elements_in, nth_child};
use crate::values::given_bytes;
use meson_calls::literals::literal;
use meson_calls::place::{child_place, copy_place};
use meson_calls::{CallRef, Refusal};
use meson_splice::{Bytes, Text};
use meson_steps::given::Given;
use meson_steps::step::{ListEdit, ListStep, push_step};
use meson_syntax::{Arg, Expr};
use std::alloc::{AllocError, Global};

/// Adds the step of an edit of the list at a place.
pub(crate) fn push_edit(
    alloc: Global,
    list: &CallRef,
    edit: ListEdit,
    steps: &mut Vec<ListStep>,
) -> Result<(), AllocError>
    ensures { OnOk result (steps.new.items ≡ steps.old.items ++ record { list = list.now; edit = edit } ∷ []) }
{
    let list = copy_place(alloc, list)?;
    push_step(steps, list, edit)
}

/// The steps that delete the value of a slot: its argument, entry or element is removed. What is absent stays so.
///
/// # Errors
/// The slot is an assigned value or a list itself, or out of memory.
pub fn delete_steps(alloc: Global, slot: &Slot) -> Result<Vec<ListStep>, Refusal>
    ensures meant { IfOk result (λ steps. AreMeant (delete_steps slot.now) steps.items) }
    ensures refused { RefusedAs result (delete_steps slot.now) }
{
    let mut steps = Vec::new(alloc);
    match slot {
        Slot::Element { list, number } => {
            push_edit(alloc, list, ListEdit::Remove(*number), &mut steps)?;
            Ok(steps)
        }
        Slot::Absent { .. } => Ok(steps),
        Slot::Whole(_) => Err(Refusal::NotRemovable),
    }
}

/// Whether an expression is a literal.
pub(crate) fn is_literal(alloc: Global, source: &[u8], value: &Expr) -> Result<bool, AllocError>
    requires { AreGood (expression_words (expr_view source.now value.now)) }
    ensures { IfOk result (λ b. b ≡ is_some (literal_of (expr_view source.now value.now))) }
{
    Ok(literal(alloc, source, value)?.is_some())
}

/// Whether an element is a literal without a name.
fn is_text(alloc: Global, source: &[u8], element: &Arg) -> Result<bool, AllocError>
    requires { AreGood (argument_words (arg_view source.now element.now)) }
    ensures { IfOk result (λ b. b ≡ is_text (arg_view source.now element.now)) }
{
    match element {
        Arg::Plain(value) => is_literal(alloc, source, value),
        Arg::Named { .. } => Ok(false),
        Arg::Pair { .. } => Ok(false),
    }
}

/// Whether all elements are literals without a name.
fn all_texts(alloc: Global, source: &[u8], elements: &[Arg]) -> Result<bool, AllocError>
    requires { GoodArgs source.now elements.now }
    ensures { IfOk result (λ b. b ≡ list_all is_text (args_view source.now elements.now)) }
{
    for i in 0..elements.len() {
        if !is_text(alloc, source, &elements[i])? {
            return Ok(false);
        }
    }
    Ok(true)
}

/// Whether an expression is an array.
pub(crate) fn is_array(value: &Expr) -> bool
    ensures { (source : Source) → result ≡ is_array (expr_view source value.now) }
{
    matches!(value, Expr::Array(_))
}

/// Whether an expression is an array of texts.
pub(crate) fn are_texts(alloc: Global, source: &[u8], value: &Expr) -> Result<bool, AllocError>
    requires { AreGood (expression_words (expr_view source.now value.now)) }
    ensures { IfOk result (λ b. b ≡ are_texts (expr_view source.now value.now)) }
{
    if !is_array(value) {
        return Ok(false);
    }
    all_texts(alloc, source, elements_in(value))
}

/// Whether a value may replace another one of its own kind.
fn keeps_kind(alloc: Global, source: &[u8], given: &Given, value: &Expr) -> Result<bool, AllocError>
    requires { AreGood (expression_words (expr_view source.now value.now)) }
    ensures { IfOk result (λ b. b ≡ keeps_kind given.now (expr_view source.now value.now)) }
{
    match given {
        Given::Text(_) => is_literal(alloc, source, value),
        Given::Switch(_) => Ok(matches!(value, Expr::Boolean { .. })),
        Given::Code(_) => Ok(true),
    }
}

/// Whether a value is a text that may be the only element of an array of texts.
fn replaces_texts(
    alloc: Global,
    source: &[u8],
    given: &Given,
    value: &Expr,
) -> Result<bool, AllocError>
    requires { AreGood (expression_words (expr_view source.now value.now)) }
    ensures { IfOk result (λ b. b ≡ replaces_texts given.now (expr_view source.now value.now)) }
{
    match given {
        Given::Text(_) => are_texts(alloc, source, value),
        Given::Switch(_) => Ok(false),
        Given::Code(_) => Ok(false),
    }
}

/// Adds the steps that remove this many elements from a number on, the last one first.
pub(crate) fn remove_rest(
    alloc: Global,
    list: &CallRef,
    from: usize,
    many: usize,
    steps: &mut Vec<ListStep>,
) -> Result<(), AllocError>
    requires { from + many < 2 ^ 64 }
    ensures { OnOk result (map Some steps.new.items ≡ map Some steps.old.items ++ map bare (rest_removed list.now from many)) }
{
    let mut left = many;
    while left > 0 {
        left -= 1;
        push_edit(alloc, list, ListEdit::Remove(from + left), steps)?;
    }
    Ok(())
}

/// The steps after which an array with this number of elements has one element, in the place of the first one.
fn alone_in_array(
    alloc: Global,
    list: &CallRef,
    many: usize,
    new: Bytes,
) -> Result<Vec<ListStep>, AllocError>
    ensures { (w : Written (Expression Nowhere)) → w.bytes ≡ new → IfOk result (λ steps. AreBare (alone_in_array list.now many w) steps.items) }
{
    let mut steps = Vec::new(alloc);
    if many == 0 {
        push_edit(alloc, list, ListEdit::First(new), &mut steps)?;
        return Ok(steps);
    }
    push_edit(alloc, list, ListEdit::Replace(0, new), &mut steps)?;
    remove_rest(alloc, list, 1, many - 1, &mut steps)?;
    Ok(steps)
}

/// The value of an element of the list at a place.
pub(crate) fn element_child<'p>(
    sources: Sources<'p>,
    list: &CallRef,
    number: usize,
) -> Option<ChildValue<'p>>
    requires { AreParsed sources.files.now sources.trees.now }
    ensures child { option_map (child_view (bytes_at list.now.file sources.entry.files.now)) result
        ≡ element_child (project (loaded_in sources.entry)) list.now number }
    ensures good { MatchOption result (Unit {0}) (λ c. AreGood (expression_words (expr_view (bytes_at list.now.file sources.entry.files.now) c.value.now))) }
    ensures file { MatchOption result (Unit {0}) (λ c. list.now.file < length sources.entry.files.now) }
{
    if list.file >= sources.trees.len() {
        return None;
    }
    match sources.trees[list.file].expr_at(&list.path) {
        Some(value) => nth_child(elements_in(value), number),
        None => None,
    }
}

/// The steps that set a value that is there.
///
/// # Errors
/// The value would not keep its kind, or out of memory.
fn replace_steps(
    alloc: Global,
    source: &[u8],
    given: &Given,
    key: &Text,
    element: (&CallRef, usize),
    child: ChildValue<'_>,
) -> Result<Vec<ListStep>, Refusal>
    requires { AreGood (expression_words (expr_view source.now child.value.now)) }
    ensures meant { (may : MayBeGiven given.now) → let w = written_given given.now may in let there = Some (child_view source.now child.entry) in
        IfOk result (λ steps. AreMeant (set_there given.now w key.now element.entry.0.now element.entry.1 there) steps.items) }
    ensures refused { (w : Written (Expression Nowhere)) → let there = Some (child_view source.now child.entry) in
        RefusedAs result (set_there given.now w key.now element.entry.0.now element.entry.1 there) }
{
    let (list, number) = element;
    if keeps_kind(alloc, source, given, child.value)? {
        let mut steps = Vec::new(alloc);
        let new = given_bytes(alloc, given)?;
        push_edit(alloc, list, ListEdit::Replace(number, new), &mut steps)?;
        return Ok(steps);
    }
    if replaces_texts(alloc, source, given, child.value)? {
        let inner = child_place(alloc, list.as_place(), child.number)?;
        let many = elements_in(child.value).len();
        let new = given_bytes(alloc, given)?;
        return Ok(alone_in_array(alloc, &inner, many, new)?);
    }
    Err(Refusal::OtherKind(key.clone()?))
}

/// The steps that set an assigned value.
///
/// # Errors
/// The value would not keep its kind, it is code of more than one line, or out of memory.
fn set_assigned(
    alloc: Global,
    source: &[u8],
    given: &Given,
    key: &Text,
    place: &CallRef,
    value: &Expr,
) -> Result<Vec<ListStep>, Refusal>
    requires { AreGood (expression_words (expr_view source.now value.now)) }
    ensures meant { (may : MayBeGiven given.now) → let w = written_given given.now may in
        IfOk result (λ steps. AreMeant (set_assigned given.now w key.now place.now (expr_view source.now value.now)) steps.items) }
    ensures refused { (w : Written (Expression Nowhere)) → RefusedAs result (set_assigned given.now w key.now place.now (expr_view source.now value.now)) }
{
    if keeps_kind(alloc, source, given, value)? {
        return assign_steps(alloc, place, given, key);
    }
    if replaces_texts(alloc, source, given, value)? {
        let many = elements_in(value).len();
        let new = given_bytes(alloc, given)?;
        return Ok(alone_in_array(alloc, place, many, new)?);
    }
    Err(Refusal::OtherKind(key.clone()?))
}

/// The steps that set the expression at a place, if an assignment assigns it.
///
/// # Errors
/// The expression is no assigned value, or the faults of `set_assigned`.
fn set_whole(
    alloc: Global,
    sources: Sources<'_>,
    given: &Given,
    key: &Text,
    place: &CallRef,
) -> Result<Vec<ListStep>, Refusal>
    requires { AreParsed sources.files.now sources.trees.now }
    ensures meant { (may : MayBeGiven given.now) → let w = written_given given.now may in let l = loaded_in sources.entry in
        IfOk result (λ steps. AreMeant (set_whole l given.now w key.now place.now (expression_at (project l) place.now)) steps.items) }
    ensures refused { (w : Written (Expression Nowhere)) → let l = loaded_in sources.entry in
        RefusedAs result (set_whole l given.now w key.now place.now (expression_at (project l) place.now)) }
{
    if place.file >= sources.trees.len() {
        return Err(Refusal::NoSuchValue(key.clone()?));
    }
    match sources.trees[place.file].expr_at(&place.path) {
        Some(value) => {
            if !is_assigned(alloc, sources, place)? {
                return Err(Refusal::NotLiteral(key.clone()?));
            }
            let source = sources.files.bytes(place.file);
            set_assigned(alloc, source, given, key, place, value)
        }
        None => Err(Refusal::NoSuchValue(key.clone()?)),
    }
}

/// The steps that set the value of a slot. A text or a truth value replaces one of its own kind; a text becomes the only element of an array of texts; code
/// replaces any value. Where the key is absent, it is added with the value behind the last argument or entry.
///
/// # Errors
/// The value would not keep its kind; the key of a keyword argument is not an identifier; the slot is a call or a list itself; code for an assigned value is of
/// more than one line; or out of memory.
pub fn set_steps(
    alloc: Global,
    sources: Sources<'_>,
    given: &Given,
    key: &Text,
    slot: &Slot,
) -> Result<Vec<ListStep>, Refusal>
    requires { AreParsed sources.files.now sources.trees.now }
    ensures meant { (may : MayBeGiven given.now) → let w = written_given given.now may in
        IfOk result (λ steps. AreMeant (set_steps (loaded_in sources.entry) given.now w key.now slot.now) steps.items) }
    ensures refused { (w : Written (Expression Nowhere)) → RefusedAs result (set_steps (loaded_in sources.entry) given.now w key.now slot.now) }
{
    match slot {
        Slot::Element { list, number } => match element_child(sources, list, *number) {
            Some(child) => {
                let source = sources.files.bytes(list.file);
                replace_steps(alloc, source, given, key, (list, *number), child)
            }
            None => Err(Refusal::NoSuchValue(key.clone()?)),
        },
        Slot::Absent { list, key } => {
            let value = given_bytes(alloc, given)?;
            added_to(alloc, sources, &value, key, list)
        }
        Slot::Whole(place) => set_whole(alloc, sources, given, key, place),
    }
}
