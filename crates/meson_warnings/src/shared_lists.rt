//! Other targets that use a list that `target add`, `rm` or `rename` changes.

ghost use Rattle.std.specs.Prelude.{◌≡◌, ◌++◌, IfOk, OnOk, find, flat_map, map, option_map, take};
ghost use Rattle.std.specs.List.{list_any};
ghost use Rattle.meson_warnings.specs.Reads.{reads};
ghost use Rattle.meson_warnings.specs.SharedLists.{few_sharers, grown, is_in_list, is_same, is_sharer, lost_from, reads_one};
ghost use Rattle.meson_warnings.specs.SharedLists.{shared_by_adding, shared_by_removing, sharer_notes, sharers, sharers_at, shrunk, variable_in};
ghost use Rattle.meson_calls.specs.Searching.{name_at};

use crate::additions::has_new;
use crate::reads::{add_reads, is_inside};
use meson_calls::{BorrowedName, Reading};
use meson_explaining::calls::{add_further, call_note};
use meson_explaining::removals::is_one_of;
use meson_explaining::sources::sources_at;
use meson_explaining::{Note, Spot};
use meson_inventory::holdings::{HeldCall, calls_named, holdings_of};
use meson_plan::{Project, Role};
use meson_splice::Text;
use meson_steps::names::distinct;
use meson_variables::SourceItem;
use std::alloc::{AllocError, Global};

/// The most targets that are reported.
const MOST_TOLD: usize = 5;
/// The most targets, and the most places where variables are read, that are compared.
const MOST_COMPARED: usize = 5000;

/// Adds the variable that was followed to a source, if one was.
pub(crate) fn add_variable(variables: &mut Vec<Text>, item: &SourceItem) -> Result<(), AllocError>
    ensures { OnOk result (variables.new.items ≡ variables.old.items ++ variable_in item.now) }
{
    match &item.variable {
        Some(name) => {
            variables.push(name.clone()?)?;
            Ok(())
        }
        None => Ok(()),
    }
}

/// The first source that is in a list.
fn first_in_list(items: &[SourceItem]) -> Option<&SourceItem>
    ensures { option_map (λ i. i.now) result ≡ find is_in_list items.entry.now }
{
    for i in 0..items.len() {
        if items[i].list.is_some() {
            return Some(&items[i]);
        }
    }
    None
}

/// The variable whose list gets a new source, if one of the names is new.
fn grown(alloc: Global, items: &[SourceItem], names: &[Text]) -> Result<Vec<Text>, AllocError>
    ensures { IfOk result (λ variables. variables.items ≡ grown items.now names.now) }
{
    let mut variables = Vec::new(alloc);
    if !has_new(names, items) {
        return Ok(variables);
    }
    match first_in_list(items) {
        Some(item) => {
            add_variable(&mut variables, item)?;
            Ok(variables)
        }
        None => Ok(variables),
    }
}

/// Adds the variable that was followed to a source, if it has one of the names.
fn add_lost_from(
    variables: &mut Vec<Text>,
    names: &[Text],
    item: &SourceItem,
) -> Result<(), AllocError>
    ensures { OnOk result (variables.new.items ≡ variables.old.items ++ lost_from names.now item.now) }
{
    if !is_one_of(names, item.value.get()) {
        return Ok(());
    }
    add_variable(variables, item)
}

/// The variables whose lists lose sources of these names.
fn shrunk(alloc: Global, items: &[SourceItem], names: &[Text]) -> Result<Vec<Text>, AllocError>
    ensures { IfOk result (λ variables. variables.items ≡ shrunk items.now names.now) }
{
    let mut variables = Vec::new(alloc);
    for item in items {
        add_lost_from(&mut variables, names, item)?;
    }
    Ok(variables)
}

/// The places where one of the variables is read.
fn all_reads(alloc: Global, project: &Project, names: &[&Text]) -> Result<Vec<Spot>, AllocError>
    ensures { IfOk result (λ spots. spots.items ≡ flat_map (reads project.now) (map (λ x. x.now) names.now)) }
{
    let mut spots = Vec::new(alloc);
    for i in 0..names.len() {
        add_reads(alloc, &mut spots, project, names[i].get())?;
    }
    Ok(spots)
}

/// Whether two calls are one.
fn is_same(a: &HeldCall, b: &HeldCall) -> bool
    ensures { result ≡ is_same a.now b.now }
{
    a.file == b.file && a.head.at == b.head.at
}

/// The calls that are named, and the places where variables are read.
#[derive(Clone, Copy)]
struct Shared<'s> {
    named: &'s [HeldCall],
    reads: &'s [Spot],
}

/// Whether one of the places is in a call.
fn reads_one(spots: &[Spot], call: &HeldCall) -> bool
    ensures { result ≡ reads_one spots.now call.now }
{
    spots.iter().any(|spot| is_inside(call, spot))
}

/// Whether a call is one of some calls.
fn is_among(calls: &[HeldCall], call: &HeldCall) -> bool
    ensures { result ≡ list_any (λ n. is_same n call.now) calls.now }
{
    calls.iter().any(|one| is_same(one, call))
}

/// Whether a call reads one of the variables and is not one that is named.
fn is_sharer(shared: Shared<'_>, call: &HeldCall) -> bool
    ensures { result ≡ is_sharer shared.entry.named.now shared.entry.reads.now call.now }
{
    reads_one(shared.reads, call) && !is_among(shared.named, call)
}

/// Adds the warning of such a call.
fn add_sharer(
    alloc: Global,
    notes: &mut Vec<Note>,
    shared: Shared<'_>,
    call: &HeldCall,
) -> Result<(), AllocError>
    ensures { OnOk result (notes.new.items ≡ notes.old.items ++ sharer_notes shared.entry.named.now shared.entry.reads.now call.now) }
{
    if !is_sharer(shared, call) {
        return Ok(());
    }
    notes.push(call_note(alloc, ": it uses the list that is changed too", call)?)?;
    Ok(())
}

/// The warnings of such calls.
fn all_sharers(
    alloc: Global,
    shared: Shared<'_>,
    calls: &[HeldCall],
) -> Result<Vec<Note>, AllocError>
    ensures { IfOk result (λ notes. notes.items ≡ flat_map (sharer_notes shared.entry.named.now shared.entry.reads.now) calls.now) }
{
    let mut notes = Vec::new(alloc);
    for call in calls {
        add_sharer(alloc, &mut notes, shared, call)?;
    }
    Ok(notes)
}

/// The first of some warnings, and how many others there are.
fn few_sharers(alloc: Global, all: Vec<Note>) -> Result<Vec<Note>, AllocError>
    ensures { IfOk result (λ few. few.items ≡ few_sharers all.items) }
{
    let mut notes = all;
    let others = notes.len().saturating_sub(MOST_TOLD);
    notes.truncate(MOST_TOLD);
    add_further(
        alloc,
        &mut notes,
        "further targets that use the list that is changed",
        others,
    )?;
    Ok(notes)
}

/// The first of some calls.
fn first(calls: &[HeldCall]) -> &[HeldCall]
    ensures { result.now ≡ take 5000 calls.now }
{
    if calls.len() <= MOST_COMPARED {
        return calls;
    }
    &calls[..MOST_COMPARED]
}

/// The warnings of other targets that have one of the places in their calls.
fn sharers_at(
    alloc: Global,
    project: &Project,
    target: BorrowedName<'_>,
    reads: &[Spot],
) -> Result<Vec<Note>, AllocError>
    ensures { IfOk result (λ notes. notes.items ≡ sharers_at project.now (name_at target.entry) reads.now) }
{
    let named = calls_named(alloc, project, Role::Target, target)?;
    let held = holdings_of(alloc, Reading::Written, project)?;
    let shared = Shared {
        named: named.get(),
        reads,
    };
    let notes = all_sharers(alloc, shared, first(held.targets.get()))?;
    few_sharers(alloc, notes)
}

/// The warnings of other targets that read one of the variables.
fn sharers(
    alloc: Global,
    project: &Project,
    target: BorrowedName<'_>,
    variables: &[Text],
) -> Result<Vec<Note>, AllocError>
    ensures { IfOk result (λ notes. notes.items ≡ sharers project.now (name_at target.entry) variables.now) }
{
    if variables.is_empty() {
        return Ok(Vec::new(alloc));
    }
    let names = distinct(alloc, variables)?;
    let mut reads = all_reads(alloc, project, names.as_slice())?;
    reads.truncate(MOST_COMPARED);
    sharers_at(alloc, project, target, reads.as_slice())
}

/// The warnings of other targets that use the list to which `target add` adds a source.
pub(crate) fn shared_by_adding(
    alloc: Global,
    project: &Project,
    target: BorrowedName<'_>,
    names: &[Text],
) -> Result<Vec<Note>, AllocError>
    ensures { IfOk result (λ notes. notes.items ≡ shared_by_adding project.now (name_at target.entry) names.now) }
{
    let items = sources_at(alloc, project, target)?;
    let variables = grown(alloc, items.get(), names)?;
    sharers(alloc, project, target, variables.as_slice())
}

/// The warnings of other targets that use a list from which `target rm` removes a source.
pub(crate) fn shared_by_removing(
    alloc: Global,
    project: &Project,
    target: BorrowedName<'_>,
    names: &[Text],
) -> Result<Vec<Note>, AllocError>
    ensures { IfOk result (λ notes. notes.items ≡ shared_by_removing project.now (name_at target.entry) names.now) }
{
    let items = sources_at(alloc, project, target)?;
    let variables = shrunk(alloc, items.get(), names)?;
    sharers(alloc, project, target, variables.as_slice())
}
