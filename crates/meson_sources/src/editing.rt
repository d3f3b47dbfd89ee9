//! The steps of commands on the sources of a target.

ghost use Rattle.std.specs.Prelude.{◌≡◌, ◌<◌, ◌^◌, All, IfErr, IfOk, Some, length, map};
ghost use Rattle.std.specs.Str.{IsUtf8};
ghost use Rattle.std.specs.List.{filter};
ghost use Rattle.meson_syntax.specs.View.{args_view, list_view};
ghost use Rattle.meson_calls.specs.GoodLists.{GoodListing};
ghost use Rattle.meson_calls.specs.Loading.{AreParsed};
ghost use Rattle.meson_variables.specs.CodeVariables.{AreVariables, project_of};
ghost use Rattle.meson_variables.specs.TargetSources.{or_call, or_option};
ghost use Rattle.meson_calls.specs.ChosenNotes.{Source, placed_call};
ghost use Rattle.meson_calls.specs.Refusals.{RefusedAs};
ghost use Rattle.meson_sources.specs.SourceEdits.{insertion_steps, is_plain, plain_len, sources_added, sources_removed};
ghost use Rattle.meson_steps.specs.ListSteps.{bare};
ghost use Rattle.meson_steps.specs.Meanings.{AreMeant};
ghost use Rattle.meson_sources.specs.inside.Additions.{MayAdd, Steps, if_may_add};

use crate::inserting::{insert, new_names, places_of};
use crate::removing::names_removed;
use meson_calls::arguments::{at_most_once, is_plain};
use meson_calls::{CallRef, Refusal};
use meson_splice::Text;
use meson_steps::names::checked_names;
use meson_steps::step::ListStep;
use meson_syntax::{Arg, List};
use meson_variables::call_sources::{MAX_FOLLOWED, home_of, met};
use meson_variables::marks::Marks;
use meson_variables::variables::Variables;
use std::alloc::{AllocError, Global};

/// The number of arguments without a name.
pub fn count_plain(args: &[Arg]) -> usize
    ensures small { result < 2 ^ 63 }
    ensures counted { (source : Source) → result ≡ length (filter is_plain (args_view source args.now)) }
{
    let mut count = 0;
    for i in 0..args.len() {
        if is_plain(&args[i]) {
            count += 1;
        }
    }
    count
}

/// The number of elements without a name in the list at a place.
pub(crate) fn plain_len(variables: &Variables<'_>, list: &CallRef) -> usize
    requires { AreParsed variables.now.files.now variables.now.trees.now }
    ensures small { result < 2 ^ 63 }
    ensures counted { result ≡ plain_len (project_of variables.now) list.now }
{
    let trees = variables.trees;
    if list.file >= trees.len() {
        return 0;
    }
    match trees[list.file].list_at(&list.path) {
        Some(list) => count_plain(list.items.get()),
        None => 0,
    }
}

/// The steps that add names to a list, after its elements without a name.
///
/// # Errors
/// Out of memory.
pub(crate) fn insertions(
    variables: &Variables<'_>,
    list: &CallRef,
    names: &[&Text],
) -> Result<Vec<ListStep>, Refusal>
    requires { AreParsed variables.now.files.now variables.now.trees.now }
    ensures done { IfOk result (λ steps. map Some steps.items
        ≡ map bare (insertion_steps list.now (plain_len (project_of variables.now) list.now) (map (λ x. x.now) names.now))) }
    ensures refused { IfErr result (λ e. e ≡ Refusal.OutOfMemory) }
{
    let mut steps = Vec::new(variables.alloc);
    let from = plain_len(variables, list);
    insert(variables.alloc, list, from, names, &mut steps)?;
    Ok(steps)
}

/// Names that are added to the sources of a call: the list that gets them, and those that are not sources yet, each once.
#[derive(Drop)]
pub(crate) struct Addition<'n> {
    pub list: CallRef,
    pub new: Vec<&'n Text>,
}

/// The list that gets further sources: that of the first one that is in a list, else the first empty list, else the call.
fn home_in(alloc: Global, call: &CallRef, marks: Marks<'_>) -> Result<CallRef, AllocError>
    ensures { IfOk result (λ list. list ≡ or_call call.now (or_option marks.entry.list marks.entry.vacant)) }
{
    let (list, vacant) = places_of(marks);
    home_of(alloc, call, list, vacant)
}

/// How names are added: to the list of the first source that is in one.
///
/// # Errors
/// A name is empty, `sources:` is there twice, or out of memory.
pub(crate) fn addition_of<'t, 'n>(
    variables: &Variables<'t>,
    call: &CallRef,
    source: &'t [u8],
    arguments: &'t List,
    names: &'n [Text],
) -> Result<Addition<'n>, Refusal>
    requires holds { AreVariables variables.now }
    requires good { GoodListing (list_view source.now arguments.now) }
    ensures may { (function : Source) → IfOk result (λ a. MayAdd (project_of variables.now)
        (placed_call call.now function source.entry.now arguments.entry.now) names.entry.now a.list (map (λ x. x.now) a.new.items)) }
    ensures refused { (function : Source) (steps : Steps) →
        RefusedAs result (if_may_add (placed_call call.now function source.entry.now arguments.entry.now) names.entry.now steps) }
    ensures utf8 { IfOk result (λ _. All IsUtf8 names.entry.now) }
{
    let alloc = variables.alloc;
    checked_names(names)?;
    at_most_once(alloc, source, arguments, b"sources".as_slice())?;
    let marks = met(variables, MAX_FOLLOWED, call, source, arguments.items.get())?;
    let new = new_names(alloc, marks.items.as_slice(), names)?;
    let list = home_in(alloc, call, marks)?;
    Ok(Addition { list, new })
}

/// The steps that add sources: to the list of the first of its sources that is in one.
///
/// # Errors
/// A name is empty, `sources:` is there twice, or out of memory.
pub(crate) fn sources_added<'t>(
    variables: &Variables<'t>,
    call: &CallRef,
    source: &'t [u8],
    arguments: &'t List,
    names: &[Text],
) -> Result<Vec<ListStep>, Refusal>
    requires holds { AreVariables variables.now }
    requires parsed { AreParsed variables.now.files.now variables.now.trees.now }
    requires good { GoodListing (list_view source.now arguments.now) }
    ensures meant { (function : Source) → IfOk result (λ steps.
        AreMeant (sources_added (project_of variables.now) (placed_call call.now function source.entry.now arguments.entry.now) names.now) steps.items) }
    ensures refused { (function : Source) →
        RefusedAs result (sources_added (project_of variables.now) (placed_call call.now function source.entry.now arguments.entry.now) names.now) }
    ensures utf8 { IfOk result (λ steps. All IsUtf8 names.now) }
{
    let addition = addition_of(variables, call, source, arguments, names)?;
    insertions(variables, &addition.list, addition.new.as_slice())
}

/// The steps that remove sources, in whatever list they are.
///
/// # Errors
/// A name is empty, `sources:` is there twice, or out of memory. Or a name is not one of the sources, or is one that is in no list.
pub(crate) fn sources_removed<'t>(
    variables: &Variables<'t>,
    call: &CallRef,
    source: &'t [u8],
    arguments: &'t List,
    names: &[Text],
) -> Result<Vec<ListStep>, Refusal>
    requires holds { AreVariables variables.now }
    requires good { GoodListing (list_view source.now arguments.now) }
    ensures meant { (function : Source) → IfOk result (λ steps.
        AreMeant (sources_removed (project_of variables.now) (placed_call call.now function source.entry.now arguments.entry.now) names.now) steps.items) }
    ensures refused { (function : Source) →
        RefusedAs result (sources_removed (project_of variables.now) (placed_call call.now function source.entry.now arguments.entry.now) names.now) }
    ensures utf8 { IfOk result (λ steps. All IsUtf8 names.now) }
{
    let alloc = variables.alloc;
    checked_names(names)?;
    at_most_once(alloc, source, arguments, b"sources".as_slice())?;
    let marks = met(variables, MAX_FOLLOWED, call, source, arguments.items.get())?;
    let steps = names_removed(alloc, &marks, names)?;
    Ok(steps)
}
