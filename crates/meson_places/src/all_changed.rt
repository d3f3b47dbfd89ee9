//! The steps that remove or replace elements in all values that are assigned to a variable.

ghost use Rattle.std.specs.Prelude.{◌≡◌, ◌≢◌, ◌∷◌, [], List, Err, IfErr, IfOk, MatchOption, MatchResult, None, Result};
ghost use Rattle.meson_splice.specs.Files.{bytes_at};
ghost use Rattle.meson_calls.specs.declared.refusal.Refusal.{Refusal as TheRefusal};
ghost use Rattle.meson_calls.specs.declared.refusal.Refusal.TheVariants.{OutOfMemory};
ghost use Rattle.meson_calls.specs.Loading.{AreParsed, project};
ghost use Rattle.meson_steps.specs.GivenWords.{MayBeGiven};
ghost use Rattle.meson_steps.specs.ListSteps.{AreBare};
ghost use Rattle.meson_steps.specs.Meanings.{AreMeant};
ghost use Rattle.meson_steps.specs.Steps.{Step};
ghost use Rattle.meson_places.specs.AllAssigned.{each_edited, remove_each, remove_from_all, replace_among, replace_each, replace_in_all};
ghost use Rattle.meson_places.specs.Behind.{lists_at};
ghost use Rattle.meson_places.specs.Names.{loaded_in};
ghost use Rattle.meson_places.specs.Replacements.{exchange};
ghost use Rattle.meson_places.specs.SaidElements.{lists_edited, says_one};

use crate::all_assigned::{all_assigned, all_said, any_alone, said_among, said_at};
use crate::name::Sources;
use crate::replacements::{Pair, replace_whole};
use crate::said_elements::{Said, edit_lists};
use crate::slots::Slot;
use crate::value_lists::lists_of;
use crate::variables::find_value;
use meson_calls::{CallRef, Refusal};
use meson_splice::Text;
use meson_steps::argument::ValueName;
use meson_steps::given::Given;
use meson_steps::step::ListStep;
use std::alloc::Global;
use std::slice;

/// The edits that remove those elements of the lists of the value at a place that say one of some values.
fn edit_at(
    alloc: Global,
    sources: Sources<'_>,
    values: &[Given],
    place: &CallRef,
) -> Result<Vec<ListStep>, Refusal>
    requires { AreParsed sources.files.now sources.trees.now }
    ensures done { let l = loaded_in sources.entry in let test = says_one (bytes_at place.now.file l.files) values.now in
        IfOk result (λ steps. AreBare (lists_edited None test (lists_at (project l) place.now)) steps.items) }
    ensures refused { IfErr result (λ e. e ≡ OutOfMemory) }
{
    match find_value(sources, place) {
        Some(found) => {
            let lists = lists_of(alloc, found.source, place, found.value)?;
            edit_lists(
                alloc,
                found.source,
                lists.as_slice(),
                Said { values, new: None },
            )
        }
        None => Ok(Vec::new(alloc)),
    }
}

/// The same for the values at some places, one after another.
fn edit_each(
    alloc: Global,
    sources: Sources<'_>,
    values: &[Given],
    places: &[CallRef],
) -> Result<Vec<ListStep>, Refusal>
    requires { AreParsed sources.files.now sources.trees.now }
    ensures done { IfOk result (λ steps. AreBare (each_edited (loaded_in sources.entry) values.now places.now) steps.items) }
    ensures refused { IfErr result (λ e. e ≡ OutOfMemory) }
{
    let mut steps = Vec::new(alloc);
    for i in 0..places.len() {
        let mut edits = edit_at(alloc, sources, values, &places[i])?;
        steps.append(&mut edits)?;
    }
    Ok(steps)
}

/// The steps that remove elements of all lists of the values at some places.
///
/// # Errors
/// Nothing says one of the values, or a value without a list says one of them; or out of memory.
pub fn remove_each(
    alloc: Global,
    sources: Sources<'_>,
    values: &[Given],
    key: &Text,
    places: &[CallRef],
) -> Result<Vec<ListStep>, Refusal>
    requires { AreParsed sources.files.now sources.trees.now }
    ensures made { let meant = remove_each (loaded_in sources.entry) key.now values.now places.now in
        MatchResult result (λ steps. AreMeant meant steps.items) (λ e. e ≢ OutOfMemory → meant ≡ Err e) }
{
    if !all_said(alloc, sources, places, values)? {
        return Err(Refusal::NoSuchValue(key.clone()?));
    }
    if any_alone(alloc, sources, values, places)? {
        return Err(Refusal::NotRemovable);
    }
    edit_each(alloc, sources, values, places)
}

/// The steps that replace what says a value, in those of the values at some places that say it.
///
/// # Errors
/// The faults of `replace_whole`.
fn replace_among(
    alloc: Global,
    sources: Sources<'_>,
    pair: Pair<'_>,
    key: &Text,
    places: &[CallRef],
) -> Result<Vec<ListStep>, Refusal>
    requires { AreParsed sources.files.now sources.trees.now }
    ensures made { (may : MayBeGiven pair.entry.new.now) → let p = pair.entry in
        let meant = replace_among (loaded_in sources.entry) key.now (exchange p.old.now p.new.now may) places.now in
        MatchResult result (λ steps. AreMeant meant steps.items) (λ e. e ≢ OutOfMemory → meant ≡ Err e) }
{
    let mut steps = Vec::new(alloc);
    for i in 0..places.len() {
        if said_at(alloc, sources, pair.old, &places[i])? {
            let mut edits = replace_whole(alloc, sources, pair, key, &places[i])?;
            steps.append(&mut edits)?;
        }
    }
    Ok(steps)
}

/// The steps that replace what says a value, in those of the values at some places that say it. None of these values may say the new one.
///
/// # Errors
/// One does; a value that says the old one can't become the new one; or out of memory.
pub fn replace_each(
    alloc: Global,
    sources: Sources<'_>,
    pair: Pair<'_>,
    key: &Text,
    places: &[CallRef],
) -> Result<Vec<ListStep>, Refusal>
    requires { AreParsed sources.files.now sources.trees.now }
    ensures made { (may : MayBeGiven pair.entry.new.now) → let p = pair.entry in
        let meant = replace_each (loaded_in sources.entry) key.now (exchange p.old.now p.new.now may) places.now in
        MatchResult result (λ steps. AreMeant meant steps.items) (λ e. e ≢ OutOfMemory → meant ≡ Err e) }
{
    if said_among(alloc, sources, places, pair.new)? {
        return Err(Refusal::ThereAlready);
    }
    replace_among(alloc, sources, pair, key, places)
}

/// The steps that remove elements of the lists of all values that are assigned to the variable that is named. Nothing where there is only one, or where none of
/// them says one of the values.
///
/// # Errors
/// Another file adds to the variable, and no folder is given; or the faults of `remove_each`.
pub(crate) fn remove_from_all(
    alloc: Global,
    sources: Sources<'_>,
    name: &ValueName,
    values: &[Given],
    key: &Text,
    slot: &Slot,
) -> Result<Option<Vec<ListStep>>, Refusal>
    requires { AreParsed sources.files.now sources.trees.now }
    ensures made { (one : Result (List Step) TheRefusal) → let meant = remove_from_all (loaded_in sources.entry) name.now key.now values.now slot.now one in
        MatchResult result (λ o. MatchOption o (meant ≡ one) (λ steps. AreMeant meant steps.items)) (λ e. e ≢ OutOfMemory → meant ≡ Err e) }
{
    match all_assigned(alloc, sources, name, values, slot)? {
        Some(places) => {
            let steps = remove_each(alloc, sources, values, key, places.as_slice())?;
            Ok(Some(steps))
        }
        None => Ok(None),
    }
}

/// The steps that replace what says a value, in all values that are assigned to the variable that is named. Nothing where there is only one, or where none of
/// them says the value.
///
/// # Errors
/// Another file adds to the variable, and no folder is given; or the faults of `replace_each`.
pub(crate) fn replace_in_all(
    alloc: Global,
    sources: Sources<'_>,
    name: &ValueName,
    pair: Pair<'_>,
    key: &Text,
    slot: &Slot,
) -> Result<Option<Vec<ListStep>>, Refusal>
    requires { AreParsed sources.files.now sources.trees.now }
    ensures made { (may : MayBeGiven pair.entry.new.now) (one : Result (List Step) TheRefusal) → let p = pair.entry in
        let meant = replace_in_all (loaded_in sources.entry) name.now key.now (exchange p.old.now p.new.now may) slot.now one in
        MatchResult result (λ o. MatchOption o (meant ≡ one) (λ steps. AreMeant meant steps.items)) (λ e. e ≢ OutOfMemory → meant ≡ Err e) }
{
    match all_assigned(alloc, sources, name, slice::from_ref(pair.old), slot)? {
        Some(places) => {
            let steps = replace_each(alloc, sources, pair, key, places.as_slice())?;
            Ok(Some(steps))
        }
        None => Ok(None),
    }
}
