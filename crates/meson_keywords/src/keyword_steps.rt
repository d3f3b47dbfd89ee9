//! The steps that change the keyword arguments of a call.

ghost use Rattle.std.specs.Prelude.{◌≡◌, ◌<◌, ◌^◌, ◌++◌, ◌∷◌, [], IfErr, IfOk, OnOk, Some, map};
ghost use Rattle.std.specs.Str.{IsUtf8};
ghost use Rattle.meson_edit.specs.Edits.{Written};
ghost use Rattle.meson_syntax.specs.Tree.{Argument, Nowhere};
ghost use Rattle.meson_syntax.specs.Grammar.{expression_words};
ghost use Rattle.meson_syntax.specs.View.{args_view, expr_view};
ghost use Rattle.meson_calls.specs.GoodLists.{GoodArgs};
ghost use Rattle.meson_calls.specs.Refusals.{RefusedAs};
ghost use Rattle.meson_keywords.specs.KeywordEdits.{add_by_shape, add_to_lone, all_behind, all_of_kind, behind_all, passing, remove_by_shape, remove_equal, removed_from, says, value_shape, text_in};
ghost use Rattle.meson_keywords.specs.ValueKinds.{written_element};
ghost use Rattle.meson_steps.specs.ListSteps.{bare};
ghost use Rattle.meson_steps.specs.inside.WrittenValues.{WrittenFor, value_written};
ghost use Rattle.meson_calls.specs.Strings.{AreGood};
ghost use Rattle.meson_steps.specs.Meanings.{AreBehind, AreMeant};
ghost use Rattle.meson_keywords.specs.inside.Tasking.{args_of, held_value};
ghost use Rattle.meson_keywords.specs.Tasks as changes;
ghost use Rattle.meson_keywords.specs.TaskSteps.{task_steps};

use crate::elements::{
    NumberedValue, Subject, Test, all_known, array_in, is_element, new_values, other_values,
    passing, says, the_value,
};
use crate::value_kinds::ElementKind;
use crate::writing::{written_element, written_list, written_named};
use meson_calls::place::{copy_place, value_place};
use meson_calls::roles::text_of_name;
use meson_calls::{CallRef, Refusal};
use meson_splice::{Bytes, Text};
use meson_steps::step::{ListEdit, ListStep, push_step};
use meson_syntax::Arg;
use std::alloc::{AllocError, Global};

/// Adds the step of an edit of a list.
pub(crate) fn push_edit(
    alloc: Global,
    list: &CallRef,
    edit: ListEdit,
    steps: &mut Vec<ListStep>,
) -> Result<(), AllocError>
    ensures { OnOk result (steps.new.items ≡ steps.old.items ++ record { list = list.now; edit = edit } ∷ []) }
{
    let list = copy_place(alloc, list)?;
    push_step(steps, list, edit)
}

/// Adds an element at the end of a list with this number of elements.
pub(crate) fn put_behind(
    alloc: Global,
    list: &CallRef,
    many: usize,
    new: Bytes,
    steps: &mut Vec<ListStep>,
) -> Result<(), AllocError>
    ensures { (w : Written (Argument Nowhere)) → w.bytes ≡ new →
        OnOk result (map Some steps.new.items ≡ map Some steps.old.items ++ bare (behind_all list.now many w) ∷ []) }
{
    let edit = if many == 0 {
        ListEdit::First(new)
    } else {
        ListEdit::After(many - 1, new)
    };
    push_edit(alloc, list, edit, steps)
}

/// Adds elements at the end of a list with this number of elements, in order.
fn put_all_behind(
    alloc: Global,
    list: &CallRef,
    many: usize,
    kind: ElementKind,
    texts: &[&Text],
    steps: &mut Vec<ListStep>,
) -> Result<(), Refusal>
    requires { many < 2 ^ 63 }
    ensures done { let new = map (written_element kind) (map (λ x. x.now) texts.now) in
        OnOk result (map Some steps.new.items ≡ map Some steps.old.items ++ map bare (all_behind list.now many new)) }
    ensures refused { IfErr result (λ e. e ≡ Refusal.OutOfMemory) }
{
    for i in 0..texts.len() {
        let new = written_element(alloc, kind, texts[i])?;
        put_behind(alloc, list, many + i, new, steps)?;
    }
    Ok(())
}

/// Removes the elements of these numbers, the least first.
pub(crate) fn remove_all(
    alloc: Global,
    list: &CallRef,
    numbers: &[usize],
    steps: &mut Vec<ListStep>,
) -> Result<(), AllocError>
    ensures { OnOk result (map Some steps.new.items ≡ map Some steps.old.items ++ map bare (removed_from list.now 0 numbers.now)) }
{
    for i in 0..numbers.len() {
        let number = numbers[i].saturating_sub(i);
        push_edit(alloc, list, ListEdit::Remove(number), steps)?;
    }
    Ok(())
}

/// The refusal of a value that can't be changed.
pub(crate) fn not_literal(alloc: Global, key: &[u8]) -> Result<Refusal, AllocError>
    requires { IsUtf8 key.now }
    ensures { IfOk result (λ refusal. refusal ≡ Refusal.NotLiteral key.now) }
{
    Ok(Refusal::NotLiteral(text_of_name(alloc, key)?))
}

/// The steps that set a keyword argument.
///
/// # Errors
/// It is there twice, or out of memory.
pub(crate) fn set_steps(
    alloc: Global,
    subject: Subject<'_>,
    key: &Text,
    new: Bytes,
) -> Result<Vec<ListStep>, Refusal>
    requires { GoodArgs subject.source.now subject.args.now }
    ensures meant { let args = args_of subject.entry in (w : WrittenFor new) →
        IfOk result (λ steps. AreMeant (task_steps (changes.set key.now (value_written new w)) subject.entry.call.now args) steps.items) }
    ensures refused { let args = args_of subject.entry in (w : WrittenFor new) →
        RefusedAs result (task_steps (changes.set key.now (value_written new w)) subject.entry.call.now args) }
{
    let key = key.get().as_bytes();
    let found = the_value(alloc, subject, key)?;
    let mut steps = Vec::new(alloc);
    match found {
        Some(found) => {
            let edit = ListEdit::Replace(found.number, new);
            push_edit(alloc, subject.call, edit, &mut steps)?;
        }
        None => {
            let new = written_named(alloc, key, &new)?;
            put_behind(alloc, subject.call, subject.args.len(), new, &mut steps)?;
        }
    }
    Ok(steps)
}

/// The steps that delete a keyword argument.
///
/// # Errors
/// It is there twice, or out of memory.
pub(crate) fn delete_steps(
    alloc: Global,
    subject: Subject<'_>,
    key: &Text,
) -> Result<Vec<ListStep>, Refusal>
    requires { GoodArgs subject.source.now subject.args.now }
    ensures meant { IfOk result (λ steps. AreMeant (task_steps (changes.delete key.now) subject.entry.call.now (args_of subject.entry)) steps.items) }
    ensures refused { RefusedAs result (task_steps (changes.delete key.now) subject.entry.call.now (args_of subject.entry)) }
{
    let found = the_value(alloc, subject, key.get().as_bytes())?;
    let mut steps = Vec::new(alloc);
    if let Some(found) = found {
        let edit = ListEdit::Remove(found.number);
        push_edit(alloc, subject.call, edit, &mut steps)?;
    }
    Ok(steps)
}

/// No steps: it only checks that the keyword argument is there at most once.
///
/// # Errors
/// It is there twice, or out of memory.
pub(crate) fn once_steps(
    alloc: Global,
    subject: Subject<'_>,
    key: &Text,
) -> Result<Vec<ListStep>, Refusal>
    requires { GoodArgs subject.source.now subject.args.now }
    ensures meant { IfOk result (λ steps. AreMeant (task_steps (changes.once key.now) subject.entry.call.now (args_of subject.entry)) steps.items) }
    ensures refused { RefusedAs result (task_steps (changes.once key.now) subject.entry.call.now (args_of subject.entry)) }
{
    the_value(alloc, subject, key.get().as_bytes())?;
    Ok(Vec::new(alloc))
}

/// Wraps a lone element into an array, and adds values to it.
///
/// # Errors
/// It is not an element of the kind, or out of memory.
fn add_to_lone(
    alloc: Global,
    subject: Subject<'_>,
    found: NumberedValue<'_>,
    key: &[u8],
    kind: ElementKind,
    values: &[&Text],
    steps: &mut Vec<ListStep>,
) -> Result<(), Refusal>
    requires good { AreGood (expression_words (expr_view subject.source.now found.value.now)) }
    requires utf8 { IsUtf8 key.now }
    ensures done { let held = held_value subject.entry found.entry in let texts = map (λ x. x.now) values.now in OnOk result (AreBehind
        (add_to_lone subject.entry.call.now found.entry.number key.now kind texts (text_in kind held)) steps.old.items steps.new.items) }
    ensures refused { let held = held_value subject.entry found.entry in let texts = map (λ x. x.now) values.now in
        RefusedAs result (add_to_lone subject.entry.call.now found.entry.number key.now kind texts (text_in kind held)) }
{
    let NumberedValue { number, value } = found;
    if !is_element(alloc, subject.source, kind, value)? {
        return Err(not_literal(alloc, key)?);
    }
    let new = other_values(alloc, subject.source, kind, value, values)?;
    let list = value_place(alloc, subject.call, number)?;
    push_edit(alloc, subject.call, ListEdit::Wrap(number), steps)?;
    put_all_behind(alloc, &list, 1, kind, new.as_slice(), steps)
}

/// Adds values to the value of an argument: to an array, or to the array of a lone element.
///
/// # Errors
/// It is neither, or out of memory.
fn add_to_value(
    alloc: Global,
    subject: Subject<'_>,
    found: NumberedValue<'_>,
    key: &[u8],
    kind: ElementKind,
    values: &[&Text],
    steps: &mut Vec<ListStep>,
) -> Result<(), Refusal>
    requires good { AreGood (expression_words (expr_view subject.source.now found.value.now)) }
    requires utf8 { IsUtf8 key.now }
    ensures done { let held = held_value subject.entry found.entry in let texts = map (λ x. x.now) values.now in OnOk result (AreBehind
        (add_by_shape subject.entry.call.now found.entry.number key.now kind texts (text_in kind held) (value_shape held)) steps.old.items steps.new.items) }
    ensures refused { let held = held_value subject.entry found.entry in let texts = map (λ x. x.now) values.now in
        RefusedAs result (add_by_shape subject.entry.call.now found.entry.number key.now kind texts (text_in kind held) (value_shape held)) }
{
    match array_in(found.value) {
        Some(elements) => {
            let new = new_values(alloc, subject.source, kind, elements, values)?;
            let list = value_place(alloc, subject.call, found.number)?;
            put_all_behind(alloc, &list, elements.len(), kind, new.as_slice(), steps)
        }
        None => add_to_lone(alloc, subject, found, key, kind, values, steps),
    }
}

/// The steps that add values to a keyword argument.
///
/// # Errors
/// It is there twice, or its value can't be changed, or out of memory.
pub(crate) fn add_steps(
    alloc: Global,
    subject: Subject<'_>,
    key: &Text,
    kind: ElementKind,
    values: &[&Text],
) -> Result<Vec<ListStep>, Refusal>
    requires { GoodArgs subject.source.now subject.args.now }
    ensures meant { let args = args_of subject.entry in let texts = map (λ x. x.now) values.now in
        IfOk result (λ steps. AreMeant (task_steps (changes.add key.now kind texts) subject.entry.call.now args) steps.items) }
    ensures refused { let args = args_of subject.entry in let texts = map (λ x. x.now) values.now in
        RefusedAs result (task_steps (changes.add key.now kind texts) subject.entry.call.now args) }
{
    let key = key.get().as_bytes();
    let found = the_value(alloc, subject, key)?;
    let mut steps = Vec::new(alloc);
    match found {
        Some(found) => add_to_value(alloc, subject, found, key, kind, values, &mut steps)?,
        None => {
            let list = written_list(alloc, kind, values)?;
            let new = written_named(alloc, key, &list)?;
            put_behind(alloc, subject.call, subject.args.len(), new, &mut steps)?;
        }
    }
    Ok(steps)
}

/// Removes the equal elements of an array.
///
/// # Errors
/// None is equal, and some element is not of the kind; or out of memory.
fn remove_from_array(
    alloc: Global,
    source: &[u8],
    list: &CallRef,
    elements: &[Arg],
    key: &[u8],
    kind: ElementKind,
    value: &Text,
    steps: &mut Vec<ListStep>,
) -> Result<(), Refusal>
    requires good { GoodArgs source.now elements.now }
    requires utf8 { IsUtf8 key.now }
    ensures done { let args = args_view source.now elements.now in let equal = passing (says kind value.now) 0 args in
        OnOk result (AreBehind (remove_equal list.now key.now (all_of_kind kind args) equal) steps.old.items steps.new.items) }
    ensures refused { let args = args_view source.now elements.now in let equal = passing (says kind value.now) 0 args in
        RefusedAs result (remove_equal list.now key.now (all_of_kind kind args) equal) }
{
    let equal = passing(alloc, source, Test::Says(kind, value), elements)?;
    if equal.as_slice().is_empty() && !all_known(alloc, source, kind, elements)? {
        return Err(not_literal(alloc, key)?);
    }
    remove_all(alloc, list, equal.as_slice(), steps)?;
    Ok(())
}

/// Removes a value from the value of an argument: from an array, or the argument of a lone equal element.
///
/// # Errors
/// It is neither, and may hold the value; or out of memory.
fn remove_from_value(
    alloc: Global,
    subject: Subject<'_>,
    found: NumberedValue<'_>,
    key: &[u8],
    kind: ElementKind,
    text: &Text,
    steps: &mut Vec<ListStep>,
) -> Result<(), Refusal>
    requires good { AreGood (expression_words (expr_view subject.source.now found.value.now)) }
    requires utf8 { IsUtf8 key.now }
    ensures done { let held = held_value subject.entry found.entry in let call = subject.entry.call.now in OnOk result (AreBehind
        (remove_by_shape call found.entry.number key.now kind text.now (text_in kind held) (value_shape held)) steps.old.items steps.new.items) }
    ensures refused { let held = held_value subject.entry found.entry in let call = subject.entry.call.now in
        RefusedAs result (remove_by_shape call found.entry.number key.now kind text.now (text_in kind held) (value_shape held)) }
{
    let NumberedValue { number, value } = found;
    let source = subject.source;
    match array_in(value) {
        Some(elements) => {
            let list = value_place(alloc, subject.call, number)?;
            remove_from_array(alloc, source, &list, elements, key, kind, text, steps)
        }
        None => {
            if !is_element(alloc, source, kind, value)? {
                return Err(not_literal(alloc, key)?);
            }
            if says(alloc, source, kind, text, value)? {
                push_edit(alloc, subject.call, ListEdit::Remove(number), steps)?;
            }
            Ok(())
        }
    }
}

/// The steps that remove a value from a keyword argument.
///
/// # Errors
/// It is there twice, or its value may hold the value unseen, or out of memory.
pub(crate) fn remove_steps(
    alloc: Global,
    subject: Subject<'_>,
    key: &Text,
    kind: ElementKind,
    value: &Text,
) -> Result<Vec<ListStep>, Refusal>
    requires { GoodArgs subject.source.now subject.args.now }
    ensures meant { IfOk result (λ steps.
        AreMeant (task_steps (changes.remove key.now kind value.now) subject.entry.call.now (args_of subject.entry)) steps.items) }
    ensures refused { RefusedAs result (task_steps (changes.remove key.now kind value.now) subject.entry.call.now (args_of subject.entry)) }
{
    let key = key.get().as_bytes();
    let found = the_value(alloc, subject, key)?;
    let mut steps = Vec::new(alloc);
    if let Some(found) = found {
        remove_from_value(alloc, subject, found, key, kind, value, &mut steps)?;
    }
    Ok(steps)
}
