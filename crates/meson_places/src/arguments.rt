//! Changes of one value, which is named by a place and keys.

ghost use Rattle.std.specs.Prelude.{◌≡◌, ◌≢◌, All, Err, IfOk, List, MatchOption, MatchResult, Result};
ghost use Rattle.std.specs.Str.{IsUtf8};
ghost use Rattle.meson_calls.specs.declared.refusal.Refusal.{Refusal as TheRefusal};
ghost use Rattle.meson_calls.specs.declared.refusal.Refusal.TheVariants.{OutOfMemory};
ghost use Rattle.meson_calls.specs.Loading.{AreParsed, IsProject};
ghost use Rattle.meson_calls.specs.Refusals.{RefusedAs};
ghost use Rattle.meson_steps.specs.Meanings.{AreMeant};
ghost use Rattle.meson_steps.specs.Plans.{ArePlanned};
ghost use Rattle.meson_steps.specs.Steps.{Step};
ghost use Rattle.meson_places.specs.Arguments.{MayBeMade, argument_steps, changed_by, changed_steps, last_key, one_changed, room_at, set_within, slot_steps};
ghost use Rattle.meson_places.specs.Names.{loaded_in};
ghost use Rattle.meson_places.specs.Several.{AllMayBeGiven};
ghost use Rattle.meson_steps.specs.GivenWords.{MayBeGiven};
ghost use Rattle.meson_places.specs.Values.{given_node, written_given};

use crate::all_changed::{remove_from_all, replace_in_all};
use crate::assigned::assigned_room;
use crate::assigned_arrays::{added_steps, set_all_steps};
use crate::assignments::changed_slot;
use crate::changes::{delete_steps, set_steps};
use crate::insertions::{Insertion, insert_steps};
use crate::lookup::find_place;
use crate::name::Sources;
use crate::removals::remove_steps;
use crate::replacements::{Pair, replace_steps};
use crate::room::has_room;
use crate::slots::{Slot, find_slot};
use crate::sorted_additions::sorted_steps;
use crate::target_names::checked_name;
use meson_calls::Refusal;
use meson_splice::Text;
use meson_steps::argument::{ValueChange, ValueName};
use meson_steps::given::Given;
use meson_steps::step::ListStep;
use std::alloc::{AllocError, Global};

/// Does nothing. That a value may be given is true of each; this tells it to callers.
fn reads(given: &Given)
    ensures { MayBeGiven given.now }
{
    match given {
        Given::Text(text) => {
            let _ = text.get();
        }
        Given::Switch(_) => {}
        Given::Code(code) => {
            let _ = code.get();
        }
    }
}

/// The same for some values.
fn reads_all(values: &[Given])
    ensures { AllMayBeGiven values.now }
{
    for i in 0..values.len() {
        reads(&values[i]);
    }
}

/// Does nothing. That the values which a change writes may be given is true of each; this tells it to callers.
pub fn reads_change(change: &ValueChange)
    ensures { MayBeMade change.now }
{
    match change {
        ValueChange::Set(given) => reads(given),
        ValueChange::SetAll(values) => reads_all(values.get()),
        ValueChange::Add(values) | ValueChange::AddSorted(values) => reads_all(values.get()),
        ValueChange::AddAfter { values, .. } => reads_all(values.get()),
        ValueChange::Remove(_) => {}
        ValueChange::Replace { new, .. } => reads(new),
        ValueChange::Delete => {}
    }
}

/// The key that a refusal names: the last one, or `.` without keys.
///
/// # Errors
/// Out of memory.
pub fn last_key(alloc: Global, keys: &[Text]) -> Result<Text, AllocError>
    ensures last { IfOk result (λ key. key ≡ last_key keys.now) }
    ensures texts { All IsUtf8 keys.now }
{
    let mut last = ".";
    for i in 0..keys.len() {
        last = keys[i].get();
    }
    Ok(Text::of(String::from_str(alloc, last)?))
}

/// Whether there is room for a value in its list or its assignment.
fn room_at(
    alloc: Global,
    sources: Sources<'_>,
    slot: &Slot,
    given: &Given,
) -> Result<bool, AllocError>
    requires { AreParsed sources.files.now sources.trees.now }
    ensures { (may : MayBeGiven given.now) → IfOk result (λ b. b ≡ room_at (loaded_in sources.entry) slot.now (given_node given.now may)) }
{
    match slot {
        Slot::Element { list, .. } => has_room(alloc, sources, list, given),
        Slot::Absent { list, .. } => has_room(alloc, sources, list, given),
        Slot::Whole(place) => assigned_room(alloc, place, given),
    }
}

/// The steps that set the value of a slot, if its list or its assignment has room for it.
///
/// # Errors
/// The faults of `set_steps`, or the file with the value would nest too deep.
fn set_within(
    alloc: Global,
    sources: Sources<'_>,
    given: &Given,
    key: &Text,
    slot: &Slot,
) -> Result<Vec<ListStep>, Refusal>
    requires { AreParsed sources.files.now sources.trees.now }
    ensures meant { (may : MayBeGiven given.now) → let w = written_given given.now may in
        IfOk result (λ steps. AreMeant (set_within (loaded_in sources.entry) given.now w key.now slot.now) steps.items) }
    ensures refused { (may : MayBeGiven given.now) → let w = written_given given.now may in
        RefusedAs result (set_within (loaded_in sources.entry) given.now w key.now slot.now) }
{
    let steps = set_steps(alloc, sources, given, key, slot)?;
    if !room_at(alloc, sources, slot, given)? {
        return Err(Refusal::TooDeep);
    }
    Ok(steps)
}

/// The steps that change the value of a slot.
///
/// # Errors
/// The change does not suit the value of the slot, the file would nest too deep, or out of memory.
pub fn slot_steps(
    alloc: Global,
    sources: Sources<'_>,
    key: &Text,
    change: &ValueChange,
    slot: &Slot,
) -> Result<Vec<ListStep>, Refusal>
    requires { AreParsed sources.files.now sources.trees.now }
    ensures meant { (may : MayBeMade change.now) →
        IfOk result (λ steps. AreMeant (slot_steps (loaded_in sources.entry) key.now change.now may slot.now) steps.items) }
    ensures refused { (may : MayBeMade change.now) → RefusedAs result (slot_steps (loaded_in sources.entry) key.now change.now may slot.now) }
{
    match change {
        ValueChange::Set(given) => set_within(alloc, sources, given, key, slot),
        ValueChange::SetAll(values) => set_all_steps(alloc, sources, values.get(), key, slot),
        ValueChange::Add(values) => added_steps(alloc, sources, values.get(), key, slot),
        ValueChange::AddAfter { after, values } => {
            let values = values.get();
            insert_steps(alloc, sources, Insertion { after, values }, key, slot)
        }
        ValueChange::AddSorted(values) => sorted_steps(alloc, sources, values.get(), key, slot),
        ValueChange::Remove(values) => remove_steps(alloc, sources, values.get(), key, slot),
        ValueChange::Replace { old, new } => {
            replace_steps(alloc, sources, Pair { old, new }, key, slot)
        }
        ValueChange::Delete => delete_steps(alloc, slot),
    }
}

/// The steps that change the value of a slot that is named, or that of the slot to which it leads.
///
/// # Errors
/// The faults of `changed_slot` or `slot_steps`.
fn one_changed(
    alloc: Global,
    sources: Sources<'_>,
    name: &ValueName,
    key: &Text,
    change: &ValueChange,
    slot: Slot,
) -> Result<Vec<ListStep>, Refusal>
    requires { IsProject (loaded_in sources) }
    ensures meant { (may : MayBeMade change.now) →
        IfOk result (λ steps. AreMeant (one_changed (loaded_in sources.entry) name.now key.now change.now may slot) steps.items) }
    ensures refused { (may : MayBeMade change.now) → RefusedAs result (one_changed (loaded_in sources.entry) name.now key.now change.now may slot) }
{
    let changed = changed_slot(alloc, sources, name, change, slot)?;
    slot_steps(alloc, sources, key, change, &changed)
}

/// The steps that remove or replace elements of all values that are assigned to the variable that is named. Nothing for another change, or where one value
/// alone may be changed.
///
/// # Errors
/// The faults of `remove_from_all` or `replace_in_all`.
fn all_changed(
    alloc: Global,
    sources: Sources<'_>,
    name: &ValueName,
    key: &Text,
    change: &ValueChange,
    slot: &Slot,
) -> Result<Option<Vec<ListStep>>, Refusal>
    requires { AreParsed sources.files.now sources.trees.now }
    ensures made { (may : MayBeMade change.now) (one : Result (List Step) TheRefusal) →
        let meant = changed_by (loaded_in sources.entry) name.now key.now change.now may slot.now one in
        MatchResult result (λ o. MatchOption o (meant ≡ one) (λ steps. AreMeant meant steps.items)) (λ e. e ≢ OutOfMemory → meant ≡ Err e) }
{
    match change {
        ValueChange::Remove(values) => {
            remove_from_all(alloc, sources, name, values.get(), key, slot)
        }
        ValueChange::Replace { old, new } => {
            replace_in_all(alloc, sources, name, Pair { old, new }, key, slot)
        }
        _ => Ok(None),
    }
}

/// The steps that change the value of a slot that a name names: all values that are assigned to the variable that is named, or one value.
///
/// # Errors
/// Another file adds to the variable that is named; the value is that of a variable which something else reads; the change does not suit the value; the file
/// would nest too deep; or out of memory.
pub fn changed_steps(
    alloc: Global,
    sources: Sources<'_>,
    name: &ValueName,
    key: &Text,
    change: &ValueChange,
    slot: Slot,
) -> Result<Vec<ListStep>, Refusal>
    requires { IsProject (loaded_in sources) }
    ensures meant { (may : MayBeMade change.now) →
        IfOk result (λ steps. AreMeant (changed_steps (loaded_in sources.entry) name.now key.now change.now may slot) steps.items) }
    ensures refused { (may : MayBeMade change.now) → RefusedAs result (changed_steps (loaded_in sources.entry) name.now key.now change.now may slot) }
{
    match all_changed(alloc, sources, name, key, change, &slot)? {
        Some(steps) => Ok(steps),
        None => one_changed(alloc, sources, name, key, change, slot),
    }
}

/// The steps that change the value of a name. They may be done one after another on the project.
///
/// # Errors
/// The place or the value is not found; another file adds to the variable that is named; another target has the name that a target gets; the value is that of
/// a variable which something else reads; the change does not suit the value; the file would nest too deep; or out of memory.
pub fn argument_steps(
    alloc: Global,
    sources: Sources<'_>,
    name: &ValueName,
    change: &ValueChange,
) -> Result<Vec<ListStep>, Refusal>
    requires { IsProject (loaded_in sources) }
    ensures may { MayBeMade change.now }
    ensures plan { (may : MayBeMade change.now) → let old = loaded_in sources.entry in
        IfOk result (λ steps. ArePlanned old (argument_steps old name.now change.now may) steps.items) }
    ensures refused { (may : MayBeMade change.now) → RefusedAs result (argument_steps (loaded_in sources.entry) name.now change.now may) }
{
    reads_change(change);
    let place = find_place(alloc, sources, &name.place)?;
    let keys = name.keys.get();
    let slot = find_slot(alloc, sources, &place, keys)?;
    let key = last_key(alloc, keys)?;
    checked_name(alloc, sources, &key, change, &slot)?;
    changed_steps(alloc, sources, name, &key, change, slot)
}
