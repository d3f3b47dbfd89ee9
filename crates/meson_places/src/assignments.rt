//! The assignments of a variable.

ghost use Rattle.std.specs.Prelude.{◌≡◌, ◌∷◌, IfOk, Ok, Some, option_map};
ghost use Rattle.std.specs.List.{list_all};
ghost use Rattle.meson_calls.specs.Loading.{AreParsed, IsProject, project};
ghost use Rattle.meson_calls.specs.Notes.{note_view, note_views, notes};
ghost use Rattle.meson_calls.specs.Refusals.{RefusedAs};
ghost use Rattle.meson_places.specs.Assignments.{added_beside, added_value, added_values, assigned_value, changed_slot, changed_value, whole_variable};
ghost use Rattle.meson_places.specs.Behind.{first_that, has_lists, or_first, says_all_at};
ghost use Rattle.meson_places.specs.Names.{is_searched, loaded_in};

use crate::list_search::{first_list, first_with_all, first_with_one};
use crate::lookup::{is_searched, searched};
use crate::name::Sources;
use crate::operands::followed_slot;
use crate::slots::Slot;
use meson_calls::note::{Note, What};
use meson_calls::notes::notes_of;
use meson_calls::place::{child_place, copy_place};
use meson_calls::roles::text_of;
use meson_calls::{CallRef, Refusal};
use meson_splice::Text;
use meson_steps::argument::{PlaceName, ValueChange, ValueName};
use meson_steps::given::Given;
use std::alloc::{AllocError, Global};
use std::slice;

/// The place of the value that a note adds to a variable by `+=`.
fn added_value(
    alloc: Global,
    note: &Note<'_, '_>,
    name: &[u8],
) -> Result<Option<CallRef>, AllocError>
    ensures { IfOk result (λ o. o ≡ added_value name.now (note_view note.now)) }
{
    match note.what {
        What::Assign {
            name: variable,
            sets,
            ..
        } => {
            if !sets && text_of(note.source, variable) == name {
                Ok(Some(child_place(alloc, note.place, 0)?))
            } else {
                Ok(None)
            }
        }
        What::Call { .. } => Ok(None),
        What::Loop { .. } => Ok(None),
    }
}

/// The places of all values that are added to a variable.
fn added_values(
    alloc: Global,
    notes: &[Note<'_, '_>],
    name: &[u8],
) -> Result<Vec<CallRef>, AllocError>
    ensures { IfOk result (λ found. found.items ≡ added_values name.now (note_views notes.now)) }
{
    let mut found = Vec::new(alloc);
    for i in 0..notes.len() {
        if let Some(place) = added_value(alloc, &notes[i], name)? {
            found.push(place)?;
        }
    }
    Ok(found)
}

/// Whether all places are in files that are searched.
fn are_searched(within: Option<usize>, places: &[CallRef]) -> bool
    ensures { result ≡ list_all (is_searched within) places.now }
{
    places.iter().all(|place| is_searched(within, place))
}

/// Those of some places that are in the file of another one. Unless a folder is given, there may be no others.
///
/// # Errors
/// There are others, or out of memory.
fn added_beside(
    alloc: Global,
    folder: &Option<Text>,
    place: &CallRef,
    added: Vec<CallRef>,
) -> Result<Vec<CallRef>, Refusal>
    ensures found { IfOk result (λ found. added_beside folder.now place.now added.items ≡ Ok found.items) }
    ensures refused { RefusedAs result (added_beside folder.now place.now added.items) }
{
    let within = Some(place.file);
    match folder {
        Some(_) => Ok(searched(alloc, within, added)?),
        None => {
            if are_searched(within, added.as_slice()) {
                Ok(added)
            } else {
                Err(Refusal::Ambiguous)
            }
        }
    }
}

/// The first of some places whose value has all of some values; else the first whose value has a list.
fn gaining_value(
    alloc: Global,
    sources: Sources<'_>,
    values: &[Given],
    places: &[CallRef],
) -> Result<Option<CallRef>, AllocError>
    requires { AreParsed sources.files.now sources.trees.now }
    ensures { let p = project (loaded_in sources.entry) in let all = first_that (says_all_at sources.entry.files.now p values.now) places.now in
        IfOk result (λ o. o ≡ or_first all (first_that (has_lists p) places.now)) }
{
    match first_with_all(alloc, sources, values, places)? {
        Some(place) => Ok(Some(place)),
        None => first_list(alloc, sources, places),
    }
}

/// Which of some values a change is made to, if it is made to a list.
fn changed_value(
    alloc: Global,
    sources: Sources<'_>,
    change: &ValueChange,
    places: &[CallRef],
) -> Result<Option<CallRef>, AllocError>
    requires { AreParsed sources.files.now sources.trees.now }
    ensures { IfOk result (λ o. o ≡ changed_value sources.entry.files.now (project (loaded_in sources.entry)) change.now places.now) }
{
    match change {
        ValueChange::Add(values) | ValueChange::AddSorted(values) => {
            gaining_value(alloc, sources, values.get(), places)
        }
        ValueChange::AddAfter { after, .. } => {
            first_with_one(alloc, sources, slice::from_ref(after), places)
        }
        _ => Ok(None),
    }
}

/// The places of the values that are added to a variable beside the assignment at a place.
///
/// # Errors
/// Others are in other files, and no folder is given; or out of memory.
pub(crate) fn others_of(
    alloc: Global,
    sources: Sources<'_>,
    folder: &Option<Text>,
    name: &Text,
    place: &CallRef,
) -> Result<Vec<CallRef>, Refusal>
    requires { AreParsed sources.files.now sources.trees.now }
    ensures found { let added = added_values name.now (notes (project (loaded_in sources.entry))) in
        IfOk result (λ found. added_beside folder.now place.now added ≡ Ok found.items) }
    ensures refused { let added = added_values name.now (notes (project (loaded_in sources.entry))) in RefusedAs result (added_beside folder.now place.now added) }
{
    let taken = notes_of(alloc, sources.files, sources.trees)?;
    let notes = taken.all(alloc)?;
    let added = added_values(alloc, notes.as_slice(), name.get().as_bytes())?;
    added_beside(alloc, folder, place, added)
}

/// The name of the variable whose whole value is named, and the place of what `=` assigns.
pub fn whole_variable<'n>(name: &'n ValueName, slot: &'n Slot) -> Option<(&'n Text, &'n CallRef)>
    ensures { option_map (λ v. (v.0.now, v.1.now)) result ≡ whole_variable name.entry.now.place.name name.entry.now.keys slot.entry.now }
{
    if !name.keys.get().is_empty() {
        return None;
    }
    match &name.place.name {
        PlaceName::Variable(variable) => match slot {
            Slot::Whole(place) => Some((variable, place)),
            _ => None,
        },
        _ => None,
    }
}

/// A place, followed by others.
pub(crate) fn with_others(
    alloc: Global,
    place: &CallRef,
    others: Vec<CallRef>,
) -> Result<Vec<CallRef>, AllocError>
    ensures { IfOk result (λ all. all.items ≡ place.now ∷ others.items) }
{
    let mut others = others;
    let mut all = Vec::new(alloc);
    all.push(copy_place(alloc, place)?)?;
    all.append(&mut others)?;
    Ok(all)
}

/// The place of the value that a change is made to, of those that are assigned to a variable.
///
/// # Errors
/// Another file adds to the variable, and no folder is given; or out of memory.
fn assigned_value(
    alloc: Global,
    sources: Sources<'_>,
    folder: &Option<Text>,
    change: &ValueChange,
    variable: (&Text, &CallRef),
) -> Result<Option<CallRef>, Refusal>
    requires { AreParsed sources.files.now sources.trees.now }
    ensures found { let v = Some (variable.entry.0.now, variable.entry.1.now) in
        IfOk result (λ o. assigned_value sources.entry.files.now (project (loaded_in sources.entry)) folder.now change.now v ≡ Ok o) }
    ensures refused { let v = Some (variable.entry.0.now, variable.entry.1.now) in
        RefusedAs result (assigned_value sources.entry.files.now (project (loaded_in sources.entry)) folder.now change.now v) }
{
    let (name, place) = variable;
    let others = others_of(alloc, sources, folder, name, place)?;
    let places = with_others(alloc, place, others)?;
    Ok(changed_value(alloc, sources, change, places.as_slice())?)
}

/// The slot whose value a change is made to, of the one that is named: for the whole value of a variable, that of the assignment which has the list; for a
/// variable, that of what it is set to.
///
/// # Errors
/// Another file adds to the variable, and no folder is given; an element of the list of a variable which something else reads would be removed or replaced; or out
/// of memory.
pub(crate) fn changed_slot(
    alloc: Global,
    sources: Sources<'_>,
    name: &ValueName,
    change: &ValueChange,
    slot: Slot,
) -> Result<Slot, Refusal>
    requires { IsProject (loaded_in sources) }
    ensures found { IfOk result (λ s. changed_slot sources.entry.files.now (project (loaded_in sources.entry)) name.now change.now slot ≡ Ok s) }
    ensures refused { RefusedAs result (changed_slot sources.entry.files.now (project (loaded_in sources.entry)) name.now change.now slot) }
{
    if let Some(variable) = whole_variable(name, &slot) {
        let folder = &name.place.folder;
        if let Some(place) = assigned_value(alloc, sources, folder, change, variable)? {
            return Ok(Slot::Whole(place));
        }
    }
    followed_slot(alloc, sources, change, slot)
}
