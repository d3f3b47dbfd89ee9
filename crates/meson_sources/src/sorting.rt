//! Sources that are added to a target, each in its place if their list is in order.

ghost use Rattle.std.specs.Prelude.{◌≡◌, ◌+◌, ◌<◌, ◌^◌, ◌++◌, [], All, IfErr, IfOk, OnOk, Some, length, map};
ghost use Rattle.std.specs.Str.{IsUtf8};
ghost use Rattle.meson_calls.specs.ChosenNotes.{Source, placed_call};
ghost use Rattle.meson_calls.specs.GoodLists.{GoodListing};
ghost use Rattle.meson_calls.specs.Loading.{AreParsed};
ghost use Rattle.meson_calls.specs.NotedProjects.{IsNotedFor, loaded_in, project_in};
ghost use Rattle.meson_calls.specs.Refusals.{RefusedAs};
ghost use Rattle.meson_calls.specs.Searching.{name_at};
ghost use Rattle.meson_sources.specs.SourceEdits.{plain_len};
ghost use Rattle.meson_sources.specs.Sorting.{added_text, first_sorted, ordered_in, sorted_in, sources_sorted};
ghost use Rattle.meson_sources.specs.Targeted.{sorted_steps};
ghost use Rattle.meson_steps.specs.ListSteps.{bare};
ghost use Rattle.meson_steps.specs.Meanings.{AreMeant};
ghost use Rattle.meson_steps.specs.OrderedLists.{IsOrderedList, Ordered, all_put, ordered, point_in, put_one, put_steps};
ghost use Rattle.meson_steps.specs.Plans.{ArePlanned};
ghost use Rattle.meson_syntax.specs.View.{list_view};
ghost use Rattle.meson_variables.specs.CodeVariables.{AreVariables, project_of};

use crate::editing::{addition_of, plain_len};
use meson_calls::finding::{list_of_call, the_call};
use meson_calls::noted::Noted;
use meson_calls::{BorrowedName, CallRef, Refusal, Role};
use meson_splice::{Many, Text};
use meson_steps::literals::written_text;
use meson_steps::order::SortKey;
use meson_steps::ordered_list::OrderedList;
use meson_steps::step::ListStep;
use meson_syntax::List;
use meson_variables::variables::Variables;
use std::alloc::{AllocError, Global};

/// The number of the first element of a list that is sorted: after the name of the target, in its own call.
fn first_sorted(call: &CallRef, list: &CallRef) -> usize
    ensures is { result ≡ first_sorted call.now list.now }
    ensures small { result < 2 }
{
    if list.file == call.file && list.path.steps.get() == call.path.steps.get() {
        1
    } else {
        0
    }
}

/// A list of no elements, as it gets some.
fn without_elements(alloc: Global, from: usize, end: usize) -> OrderedList
    ensures { (source : Source) → IsOrderedList result (ordered source from end []) }
{
    OrderedList {
        from,
        end,
        keys: Vec::new(alloc),
        first: None,
    }
}

/// The list at a place, as it gets sources.
///
/// # Errors
/// Out of memory.
fn ordered_at(
    variables: &Variables<'_>,
    call: &CallRef,
    list: &CallRef,
) -> Result<OrderedList, AllocError>
    requires { AreParsed variables.now.files.now variables.now.trees.now }
    ensures is { IfOk result (λ l. IsOrderedList l (ordered_in variables.now.files.now (project_of variables.now) call.now list.now)) }
    ensures end { IfOk result (λ l. l.end ≡ plain_len (project_of variables.now) list.now) }
    ensures small { IfOk result (λ l. (l.from < 2) × (l.end < 2 ^ 63)) }
{
    let alloc = variables.alloc;
    let from = first_sorted(call, list);
    let end = plain_len(variables, list);
    let trees = variables.trees;
    if list.file >= trees.len() {
        return Ok(without_elements(alloc, from, end));
    }
    match trees[list.file].list_at(&list.path) {
        Some(found) => {
            let source = variables.files.bytes(list.file);
            OrderedList::of(alloc, source, found.items.get(), from, end)
        }
        None => Ok(without_elements(alloc, from, end)),
    }
}

/// Adds the steps that put a name into a list.
///
/// # Errors
/// Out of memory.
fn put_name(
    alloc: Global,
    list: &CallRef,
    into: &mut OrderedList,
    name: &Text,
    steps: &mut Vec<ListStep>,
) -> Result<(), Refusal>
    requires from { into.old.from < 2 ^ 63 }
    requires end { into.old.end + 1 < 2 ^ 64 }
    ensures from { into.new.from ≡ into.old.from }
    ensures end { OnOk result (into.new.end ≡ into.old.end + 1) }
    ensures list { (o : Ordered) → IsOrderedList into.old o → let a = added_text name.now in
        OnOk result (IsOrderedList into.new (put_one o (point_in o a.key) a.key a.written)) }
    ensures steps { (o : Ordered) → IsOrderedList into.old o → let a = added_text name.now in
        OnOk result (map Some steps.new.items ≡ map Some steps.old.items ++ map bare (put_steps list.now o (point_in o a.key) a.written)) }
    ensures refused { IfErr result (λ e. e ≡ Refusal.OutOfMemory) }
{
    let key = SortKey::Text(name.clone()?);
    let new = written_text(alloc, name)?;
    into.put(alloc, list, key, new.get(), steps)?;
    Ok(())
}

/// The steps that put names into a list, one after another.
///
/// # Errors
/// Out of memory.
fn put_names(
    alloc: Global,
    list: &CallRef,
    into: &mut OrderedList,
    names: &[&Text],
) -> Result<Vec<ListStep>, Refusal>
    requires from { into.old.from < 2 }
    requires end { into.old.end < 2 ^ 63 }
    ensures end { OnOk result (into.new.end ≡ into.old.end + length names.now) }
    ensures steps { (o : Ordered) → IsOrderedList into.old o → IfOk result (λ steps. map Some steps.items
        ≡ map bare (all_put list.now o (map added_text (map (λ x. x.now) names.now)))) }
    ensures refused { IfErr result (λ e. e ≡ Refusal.OutOfMemory) }
{
    let mut steps = Vec::new(alloc);
    for i in 0..names.len() {
        put_name(alloc, list, into, names[i], &mut steps)?;
    }
    Ok(steps)
}

/// The steps that put names into a list, each in its place if the list is in order.
///
/// # Errors
/// Out of memory.
fn sorted_insertions(
    variables: &Variables<'_>,
    call: &CallRef,
    list: &CallRef,
    names: &[&Text],
) -> Result<Vec<ListStep>, Refusal>
    requires { AreParsed variables.now.files.now variables.now.trees.now }
    ensures done { IfOk result (λ steps. map Some steps.items
        ≡ map bare (sorted_in variables.now.files.now (project_of variables.now) call.now list.now (map (λ x. x.now) names.now))) }
    ensures refused { IfErr result (λ e. e ≡ Refusal.OutOfMemory) }
{
    let mut into = ordered_at(variables, call, list)?;
    put_names(variables.alloc, list, &mut into, names)
}

/// The steps that add sources, each in its place if the list that gets them is in order.
///
/// # Errors
/// A name is empty, `sources:` is there twice, or out of memory.
fn sources_sorted<'t>(
    variables: &Variables<'t>,
    call: &CallRef,
    source: &'t [u8],
    arguments: &'t List,
    names: &[Text],
) -> Result<Vec<ListStep>, Refusal>
    requires holds { AreVariables variables.now }
    requires parsed { AreParsed variables.now.files.now variables.now.trees.now }
    requires good { GoodListing (list_view source.now arguments.now) }
    ensures meant { (function : Source) → IfOk result (λ steps. AreMeant (sources_sorted variables.now.files.now (project_of variables.now)
        (placed_call call.now function source.entry.now arguments.entry.now) names.now) steps.items) }
    ensures refused { (function : Source) → RefusedAs result (sources_sorted variables.now.files.now (project_of variables.now)
        (placed_call call.now function source.entry.now arguments.entry.now) names.now) }
    ensures utf8 { IfOk result (λ steps. All IsUtf8 names.now) }
{
    let addition = addition_of(variables, call, source, arguments, names)?;
    sorted_insertions(variables, call, &addition.list, addition.new.as_slice())
}

/// The steps that add sources to a target, each in its place if their list is in order.
///
/// # Errors
/// There is no such target or more than one, or the sources can't be added, or out of memory.
fn sorted_steps(
    alloc: Global,
    noted: &Noted<'_>,
    target: BorrowedName<'_>,
    names: &[Text],
) -> Result<Vec<ListStep>, Refusal>
    requires { IsNotedFor Role.Target target.id.now noted.now }
    ensures meant { IfOk result (λ steps.
        AreMeant (sorted_steps noted.now.files.now (project_in noted.now) (name_at target.entry) names.now) steps.items) }
    ensures refused { RefusedAs result (sorted_steps noted.now.files.now (project_in noted.now) (name_at target.entry) names.now) }
    ensures utf8 { IfOk result (λ steps. All IsUtf8 names.now) }
{
    let call = the_call(alloc, Role::Target, target, noted.files, noted.notes)?;
    let arguments = list_of_call(noted.trees, &call);
    let source = noted.files.bytes(call.file);
    let variables = Variables::near_noted(alloc, noted, &call)?;
    sources_sorted(&variables, &call, source, arguments, names)
}

/// Adds sources to a target, each in its place if their list is in order.
///
/// # Errors
/// Why it is refused, or out of memory.
pub fn sort_sources(
    alloc: Global,
    noted: &Noted<'_>,
    target: BorrowedName<'_>,
    names: &Many<Text>,
) -> Result<Vec<ListStep>, Refusal>
    requires { IsNotedFor Role.Target target.id.now noted.now }
    ensures plan { IfOk result (λ steps.
        ArePlanned (loaded_in noted.now) (sorted_steps noted.now.files.now (project_in noted.now) (name_at target.entry) names.now) steps.items) }
    ensures refused { RefusedAs result (sorted_steps noted.now.files.now (project_in noted.now) (name_at target.entry) names.now) }
{
    sorted_steps(alloc, noted, target, names.get())
}
