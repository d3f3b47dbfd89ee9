//! The name that a change gives a target.

ghost use Rattle.std.specs.Prelude.{◌≡◌, IfOk, Ok, not};
ghost use Rattle.std.specs.List.{list_any};
ghost use Rattle.meson_calls.specs.Loading.{AreParsed, project};
ghost use Rattle.meson_calls.specs.Refusals.{RefusedAs};
ghost use Rattle.meson_places.specs.Names.{loaded_in};
ghost use Rattle.meson_places.specs.Slots.{number_of};
ghost use Rattle.meson_places.specs.TargetNames.{checked_given, checked_name, checked_text, is_first, is_same, is_taken};

use crate::keys::number_of;
use crate::name::Sources;
use crate::slots::Slot;
use meson_calls::looking::is_target;
use meson_calls::naming::with_name;
use meson_calls::notes::notes_of;
use meson_calls::{CallRef, Refusal, Role};
use meson_splice::Text;
use meson_steps::argument::ValueChange;
use meson_steps::given::Given;
use std::alloc::{AllocError, Global};

/// Whether a key is that of the first argument without a name.
fn is_first(key: &str) -> bool
    ensures { result ≡ is_first (number_of key.now) }
{
    match number_of(key) {
        Some(number) => number == 0,
        None => false,
    }
}

/// Whether two places are the same.
pub fn is_same(one: &CallRef, other: &CallRef) -> bool
    ensures { result ≡ is_same one.now other.now }
{
    one.file == other.file && one.path.steps.get() == other.path.steps.get()
}

/// Whether one of some places is another one.
fn has_other(places: &[CallRef], place: &CallRef) -> bool
    ensures { result ≡ list_any (λ d. not (is_same d place.now)) places.now }
{
    places.iter().any(|other| !is_same(other, place))
}

/// Whether another call than that at a place is one of a target of this name.
fn is_taken(
    alloc: Global,
    sources: Sources<'_>,
    place: &CallRef,
    name: &str,
) -> Result<bool, AllocError>
    requires { AreParsed sources.files.now sources.trees.now }
    ensures { IfOk result (λ b. b ≡ is_taken (project (loaded_in sources.entry)) place.now name.now) }
{
    let taken = notes_of(alloc, sources.files, sources.trees)?;
    let notes = taken.all(alloc)?;
    let named = with_name(alloc, Role::Target, name, notes.as_slice())?;
    Ok(has_other(named.as_slice(), place))
}

/// Refuses a text for the first argument of the call of a target, if another target has that name.
///
/// # Errors
/// It does, or out of memory.
fn checked_text(
    alloc: Global,
    sources: Sources<'_>,
    key: &Text,
    text: &Text,
    place: &CallRef,
) -> Result<(), Refusal>
    requires { AreParsed sources.files.now sources.trees.now }
    ensures checked { IfOk result (λ u. checked_text (project (loaded_in sources.entry)) key.now text.now place.now ≡ Ok tt) }
    ensures refused { RefusedAs result (checked_text (project (loaded_in sources.entry)) key.now text.now place.now) }
{
    if !is_first(key.get()) || !is_target(sources.files, sources.trees, place) {
        return Ok(());
    }
    if is_taken(alloc, sources, place, text.get())? {
        return Err(Refusal::NameTaken);
    }
    Ok(())
}

/// Refuses a value for a slot, if it gives a target the name of another one.
///
/// # Errors
/// It does, or out of memory.
fn checked_given(
    alloc: Global,
    sources: Sources<'_>,
    key: &Text,
    given: &Given,
    slot: &Slot,
) -> Result<(), Refusal>
    requires { AreParsed sources.files.now sources.trees.now }
    ensures checked { IfOk result (λ u. checked_given (project (loaded_in sources.entry)) key.now given.now slot.now ≡ Ok tt) }
    ensures refused { RefusedAs result (checked_given (project (loaded_in sources.entry)) key.now given.now slot.now) }
{
    match given {
        Given::Text(text) => match slot {
            Slot::Element { list, .. } => checked_text(alloc, sources, key, text, list),
            _ => Ok(()),
        },
        _ => Ok(()),
    }
}

/// Refuses a name that a change gives a target, if another target has it.
///
/// # Errors
/// It does, or out of memory.
pub fn checked_name(
    alloc: Global,
    sources: Sources<'_>,
    key: &Text,
    change: &ValueChange,
    slot: &Slot,
) -> Result<(), Refusal>
    requires { AreParsed sources.files.now sources.trees.now }
    ensures checked { IfOk result (λ u. checked_name (project (loaded_in sources.entry)) key.now change.now slot.now ≡ Ok tt) }
    ensures refused { RefusedAs result (checked_name (project (loaded_in sources.entry)) key.now change.now slot.now) }
{
    match change {
        ValueChange::Set(given) => checked_given(alloc, sources, key, given, slot),
        ValueChange::Replace { new, .. } => checked_given(alloc, sources, key, new, slot),
        _ => Ok(()),
    }
}
