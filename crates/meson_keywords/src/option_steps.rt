//! The steps that set and delete default options.

ghost use Rattle.std.specs.Prelude.{◌≡◌, ◌++◌, ◌∷◌, [], IfErr, IfOk, OnOk, Some, false, length, map, true};
ghost use Rattle.meson_syntax.specs.Grammar.{expression_words};
ghost use Rattle.meson_syntax.specs.View.{args_view, expr_view};
ghost use Rattle.meson_calls.specs.Calls.{literal_of};
ghost use Rattle.meson_calls.specs.GoodLists.{GoodArgs};
ghost use Rattle.meson_calls.specs.Project.{child};
ghost use Rattle.meson_calls.specs.Refusals.{IfRefused, RefusedAs};
ghost use Rattle.meson_keywords.specs.KeywordEdits.{all_of_kind, passing, removed_from, value_shape};
ghost use Rattle.meson_keywords.specs.ValueKinds.{written_list, written_named};
ghost use Rattle.meson_steps.specs.ListSteps.{bare};
ghost use Rattle.meson_keywords.specs.Options.{delete_by_shape, delete_by_value, entries, has_key, keys_known};
ghost use Rattle.meson_keywords.specs.Options.{is_entry, is_entry_element, option_text, options_key};
ghost use Rattle.meson_keywords.specs.Options.{set_by_shape, set_by_value, set_in_dictionary, set_in_list, set_in_lone};
ghost use Rattle.meson_calls.specs.Strings.{AreGood};
ghost use Rattle.meson_steps.specs.Meanings.{AreBehind, AreMeant};
ghost use Rattle.meson_keywords.specs.inside.Tasking.{args_of, held_value, test_of};
ghost use Rattle.meson_keywords.specs.Tasks as changes;
ghost use Rattle.meson_keywords.specs.TaskSteps.{task_steps};

use crate::elements::{
    NumberedValue, Subject, Test, all_known, array_in, entries_in, is_element, is_entry,
    keys_known, passing, the_value,
};
use crate::keyword_steps::{not_literal, push_edit, put_behind, remove_all};
use crate::value_kinds::ElementKind;
use crate::writing::{written_element, written_list, written_literal, written_named, written_pair};
use meson_calls::place::value_place;
use meson_calls::{CallRef, Refusal};
use meson_splice::{Bytes, Text};
use meson_steps::step::{ListEdit, ListStep};
use meson_syntax::Arg;
use std::alloc::{AllocError, Global};

/// The name of the argument that holds the options.
const OPTIONS: &str = "default_options";

/// `NAME=VALUE`.
fn option_text(alloc: Global, name: &Text, value: &str) -> Result<Text, AllocError>
    ensures { IfOk result (λ t. t ≡ option_text name.now value.now) }
{
    let mut text = String::new(alloc);
    text.push_str(name.get())?;
    text.push_str("=")?;
    text.push_str(value)?;
    Ok(Text::of(text))
}

/// `default_options: ['NAME=VALUE']`.
fn written_options(alloc: Global, name: &Text, value: &str) -> Result<Bytes, Refusal>
    ensures done { let entries = option_text name.now value.now ∷ [] in
        IfOk result (λ b. b ≡ (written_named options_key (written_list ElementKind.Text entries)).bytes) }
    ensures refused { IfErr result (λ e. e ≡ Refusal.OutOfMemory) }
{
    let entry = option_text(alloc, name, value)?;
    let list = written_list(alloc, ElementKind::Text, &[&entry])?;
    Ok(written_named(alloc, OPTIONS.as_bytes(), &list)?)
}

/// The first entry of the option in a list becomes the new one and later ones are removed. Without one, it is added at the end.
fn set_in_list(
    alloc: Global,
    source: &[u8],
    list: &CallRef,
    elements: &[Arg],
    name: &Text,
    entry: &Text,
    steps: &mut Vec<ListStep>,
) -> Result<(), Refusal>
    requires { GoodArgs source.now elements.now }
    ensures done { let same = passing (is_entry_element name.now) 0 (args_view source.now elements.now) in
        OnOk result (map Some steps.new.items ≡ map Some steps.old.items ++ map bare (set_in_list list.now (length elements.now) entry.now same)) }
    ensures refused { IfErr result (λ e. e ≡ Refusal.OutOfMemory) }
{
    let entries = passing(alloc, source, Test::IsEntry(name), elements)?;
    let new = written_element(alloc, ElementKind::Text, entry)?;
    let entries = entries.as_slice();
    if entries.is_empty() {
        put_behind(alloc, list, elements.len(), new, steps)?;
        return Ok(());
    }
    push_edit(alloc, list, ListEdit::Replace(entries[0], new), steps)?;
    remove_all(alloc, list, &entries[1..], steps)?;
    Ok(())
}

/// A lone entry of the option becomes the new one; any other value is first wrapped into an array.
fn set_in_lone(
    alloc: Global,
    subject: Subject<'_>,
    found: NumberedValue<'_>,
    name: &Text,
    entry: &Text,
    steps: &mut Vec<ListStep>,
) -> Result<(), Refusal>
    requires { AreGood (expression_words (expr_view subject.source.now found.value.now)) }
    ensures done { let same = is_entry name.now (literal_of (held_value subject.entry found.entry)) in let call = subject.entry.call.now in
        OnOk result (map Some steps.new.items ≡ map Some steps.old.items ++ map bare (set_in_lone call found.entry.number entry.now same)) }
    ensures refused { IfErr result (λ e. e ≡ Refusal.OutOfMemory) }
{
    let NumberedValue { number, value } = found;
    let new = written_element(alloc, ElementKind::Text, entry)?;
    if is_entry(alloc, subject.source, name, value)? {
        push_edit(alloc, subject.call, ListEdit::Replace(number, new), steps)?;
        return Ok(());
    }
    push_edit(alloc, subject.call, ListEdit::Wrap(number), steps)?;
    let list = value_place(alloc, subject.call, number)?;
    put_behind(alloc, &list, 1, new, steps)?;
    Ok(())
}

/// Refuses a list that holds anything but literals.
///
/// # Errors
/// It does, or out of memory.
fn only_literals(alloc: Global, source: &[u8], elements: &[Arg]) -> Result<(), Refusal>
    requires { GoodArgs source.now elements.now }
    ensures all { OnOk result (all_of_kind ElementKind.Text (args_view source.now elements.now) ≡ true) }
    ensures refused { let args = args_view source.now elements.now in
        IfRefused result (λ e. (e ≡ Refusal.NotLiteral options_key) × (all_of_kind ElementKind.Text args ≡ false)) }
{
    if !all_known(alloc, source, ElementKind::Text, elements)? {
        return Err(not_literal(alloc, OPTIONS.as_bytes())?);
    }
    Ok(())
}

/// The value of the first entry of the option in a dictionary becomes the new one and later entries are removed. Without one, a new entry is added at the end.
fn set_in_dictionary(
    alloc: Global,
    source: &[u8],
    list: &CallRef,
    pairs: &[Arg],
    name: &Text,
    value: &str,
    steps: &mut Vec<ListStep>,
) -> Result<(), Refusal>
    requires { GoodArgs source.now pairs.now }
    ensures done { let same = passing (has_key name.now) 0 (args_view source.now pairs.now) in OnOk result
        (map Some steps.new.items ≡ map Some steps.old.items ++ map bare (set_in_dictionary list.now (length pairs.now) name.now value.now same)) }
    ensures refused { IfErr result (λ e. e ≡ Refusal.OutOfMemory) }
{
    let same = passing(alloc, source, Test::HasKey(name), pairs)?;
    let same = same.as_slice();
    if same.is_empty() {
        let new = written_pair(alloc, name, value)?;
        put_behind(alloc, list, pairs.len(), new, steps)?;
        return Ok(());
    }
    let new = written_literal(alloc, value)?;
    push_edit(alloc, list, ListEdit::Replace(same[0], new), steps)?;
    remove_all(alloc, list, &same[1..], steps)?;
    Ok(())
}

/// Refuses a dictionary with a key that is not a literal.
///
/// # Errors
/// It has one, or out of memory.
fn only_literal_keys(alloc: Global, source: &[u8], pairs: &[Arg]) -> Result<(), Refusal>
    requires { GoodArgs source.now pairs.now }
    ensures all { OnOk result (keys_known (args_view source.now pairs.now) ≡ true) }
    ensures refused { let args = args_view source.now pairs.now in
        IfRefused result (λ e. (e ≡ Refusal.NotLiteral options_key) × (keys_known args ≡ false)) }
{
    if !keys_known(alloc, source, pairs)? {
        return Err(not_literal(alloc, OPTIONS.as_bytes())?);
    }
    Ok(())
}

/// Sets an option in the value of `default_options:`, which is not a dictionary.
///
/// # Errors
/// It is neither a literal nor a list of literals, or out of memory.
fn set_in_value(
    alloc: Global,
    subject: Subject<'_>,
    found: NumberedValue<'_>,
    name: &Text,
    entry: &Text,
    steps: &mut Vec<ListStep>,
) -> Result<(), Refusal>
    requires { AreGood (expression_words (expr_view subject.source.now found.value.now)) }
    ensures done { let held = held_value subject.entry found.entry in let call = subject.entry.call.now in OnOk result (AreBehind
        (set_by_shape call found.entry.number name.now entry.now (literal_of held) (value_shape held)) steps.old.items steps.new.items) }
    ensures refused { let held = held_value subject.entry found.entry in let call = subject.entry.call.now in
        RefusedAs result (set_by_shape call found.entry.number name.now entry.now (literal_of held) (value_shape held)) }
{
    let source = subject.source;
    match array_in(found.value) {
        Some(elements) => {
            only_literals(alloc, source, elements)?;
            let list = value_place(alloc, subject.call, found.number)?;
            set_in_list(alloc, source, &list, elements, name, entry, steps)
        }
        None => {
            if !is_element(alloc, source, ElementKind::Text, found.value)? {
                return Err(not_literal(alloc, OPTIONS.as_bytes())?);
            }
            set_in_lone(alloc, subject, found, name, entry, steps)
        }
    }
}

/// Sets an option in the value of `default_options:`.
///
/// # Errors
/// It is neither a literal, nor a list of literals, nor a dictionary with literals as its keys, or out of memory.
fn set_by_value(
    alloc: Global,
    subject: Subject<'_>,
    found: NumberedValue<'_>,
    name: &Text,
    value: &str,
    steps: &mut Vec<ListStep>,
) -> Result<(), Refusal>
    requires { AreGood (expression_words (expr_view subject.source.now found.value.now)) }
    ensures done { let held = held_value subject.entry found.entry in let call = subject.entry.call.now in
        OnOk result (AreBehind (set_by_value call found.entry.number name.now value.now held (entries held)) steps.old.items steps.new.items) }
    ensures refused { let held = held_value subject.entry found.entry in
        RefusedAs result (set_by_value subject.entry.call.now found.entry.number name.now value.now held (entries held)) }
{
    match entries_in(found.value) {
        Some(pairs) => {
            only_literal_keys(alloc, subject.source, pairs)?;
            let list = value_place(alloc, subject.call, found.number)?;
            set_in_dictionary(alloc, subject.source, &list, pairs, name, value, steps)
        }
        None => {
            let entry = option_text(alloc, name, value)?;
            set_in_value(alloc, subject, found, name, &entry, steps)
        }
    }
}

/// The steps that set a default option.
///
/// # Errors
/// `default_options:` is there twice, or its value can't be changed, or out of memory.
pub(crate) fn set_option_steps(
    alloc: Global,
    subject: Subject<'_>,
    name: &Text,
    value: &str,
) -> Result<Vec<ListStep>, Refusal>
    requires { GoodArgs subject.source.now subject.args.now }
    ensures meant { IfOk result (λ steps.
        AreMeant (task_steps (changes.set_option name.now value.now) subject.entry.call.now (args_of subject.entry)) steps.items) }
    ensures refused { RefusedAs result (task_steps (changes.set_option name.now value.now) subject.entry.call.now (args_of subject.entry)) }
{
    let found = the_value(alloc, subject, OPTIONS.as_bytes())?;
    let mut steps = Vec::new(alloc);
    match found {
        Some(found) => set_by_value(alloc, subject, found, name, value, &mut steps)?,
        None => {
            let new = written_options(alloc, name, value)?;
            put_behind(alloc, subject.call, subject.args.len(), new, &mut steps)?;
        }
    }
    Ok(steps)
}

/// Removes those elements of a list in an argument that pass.
fn remove_passing(
    alloc: Global,
    subject: Subject<'_>,
    number: usize,
    elements: &[Arg],
    test: Test<'_>,
    steps: &mut Vec<ListStep>,
) -> Result<(), AllocError>
    requires { GoodArgs subject.source.now elements.now }
    ensures { let gone = passing (test_of test.entry) 0 (args_view subject.entry.source.now elements.now) in
        OnOk result (map Some steps.new.items ≡ map Some steps.old.items ++ map bare (removed_from (child subject.entry.call.now number) 0 gone)) }
{
    let gone = passing(alloc, subject.source, test, elements)?;
    let list = value_place(alloc, subject.call, number)?;
    remove_all(alloc, &list, gone.as_slice(), steps)?;
    Ok(())
}

/// Deletes an option from the value of `default_options:`, which is not a dictionary.
///
/// # Errors
/// It is neither a literal nor a list of literals, or out of memory.
fn delete_in_value(
    alloc: Global,
    subject: Subject<'_>,
    found: NumberedValue<'_>,
    name: &Text,
    steps: &mut Vec<ListStep>,
) -> Result<(), Refusal>
    requires { AreGood (expression_words (expr_view subject.source.now found.value.now)) }
    ensures done { let held = held_value subject.entry found.entry in let call = subject.entry.call.now in
        OnOk result (AreBehind (delete_by_shape call found.entry.number name.now (literal_of held) (value_shape held)) steps.old.items steps.new.items) }
    ensures refused { let held = held_value subject.entry found.entry in
        RefusedAs result (delete_by_shape subject.entry.call.now found.entry.number name.now (literal_of held) (value_shape held)) }
{
    let NumberedValue { number, value } = found;
    let source = subject.source;
    match array_in(value) {
        Some(elements) => {
            only_literals(alloc, source, elements)?;
            remove_passing(alloc, subject, number, elements, Test::IsEntry(name), steps)?;
        }
        None => {
            if !is_element(alloc, source, ElementKind::Text, value)? {
                return Err(not_literal(alloc, OPTIONS.as_bytes())?);
            }
            if is_entry(alloc, source, name, value)? {
                push_edit(alloc, subject.call, ListEdit::Remove(number), steps)?;
            }
        }
    }
    Ok(())
}

/// Deletes an option from the value of `default_options:`.
///
/// # Errors
/// It is neither a literal, nor a list of literals, nor a dictionary with literals as its keys, or out of memory.
fn delete_by_value(
    alloc: Global,
    subject: Subject<'_>,
    found: NumberedValue<'_>,
    name: &Text,
    steps: &mut Vec<ListStep>,
) -> Result<(), Refusal>
    requires { AreGood (expression_words (expr_view subject.source.now found.value.now)) }
    ensures done { let held = held_value subject.entry found.entry in
        OnOk result (AreBehind (delete_by_value subject.entry.call.now found.entry.number name.now held (entries held)) steps.old.items steps.new.items) }
    ensures refused { let held = held_value subject.entry found.entry in
        RefusedAs result (delete_by_value subject.entry.call.now found.entry.number name.now held (entries held)) }
{
    match entries_in(found.value) {
        Some(pairs) => {
            only_literal_keys(alloc, subject.source, pairs)?;
            let test = Test::HasKey(name);
            remove_passing(alloc, subject, found.number, pairs, test, steps)?;
            Ok(())
        }
        None => delete_in_value(alloc, subject, found, name, steps),
    }
}

/// The steps that delete a default option.
///
/// # Errors
/// `default_options:` is there twice, or its value can't be changed, or out of memory.
pub(crate) fn delete_option_steps(
    alloc: Global,
    subject: Subject<'_>,
    name: &Text,
) -> Result<Vec<ListStep>, Refusal>
    requires { GoodArgs subject.source.now subject.args.now }
    ensures meant { IfOk result (λ steps. AreMeant (task_steps (changes.delete_option name.now) subject.entry.call.now (args_of subject.entry)) steps.items) }
    ensures refused { RefusedAs result (task_steps (changes.delete_option name.now) subject.entry.call.now (args_of subject.entry)) }
{
    let found = the_value(alloc, subject, OPTIONS.as_bytes())?;
    let mut steps = Vec::new(alloc);
    if let Some(found) = found {
        delete_by_value(alloc, subject, found, name, &mut steps)?;
    }
    Ok(steps)
}
