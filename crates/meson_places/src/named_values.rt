//! The place of the value that a name names.

ghost use Rattle.std.specs.Prelude.{◌≡◌, IfOk, Ok};
ghost use Rattle.meson_calls.specs.Loading.{AreParsed, project};
ghost use Rattle.meson_calls.specs.Refusals.{RefusedAs};
ghost use Rattle.meson_places.specs.Changes.{slot_place};
ghost use Rattle.meson_places.specs.NamedValues.{value_place};
ghost use Rattle.meson_places.specs.Names.{loaded_in};

use crate::arguments::last_key;
use crate::changes::element_child;
use crate::lookup::find_place;
use crate::name::Sources;
use crate::slots::{Slot, find_slot};
use meson_calls::place::{child_place, copy_place};
use meson_calls::{CallRef, Refusal};
use meson_steps::argument::ValueName;
use std::alloc::{AllocError, Global};

/// The place of the value of a slot, if a value is there.
///
/// # Errors
/// Out of memory.
pub fn slot_place(
    alloc: Global,
    sources: Sources<'_>,
    slot: &Slot,
) -> Result<Option<CallRef>, AllocError>
    requires { AreParsed sources.files.now sources.trees.now }
    ensures { IfOk result (λ place. place ≡ slot_place (project (loaded_in sources.entry)) slot.now) }
{
    match slot {
        Slot::Element { list, number } => match element_child(sources, list, *number) {
            Some(child) => Ok(Some(child_place(alloc, list.as_place(), child.number)?)),
            None => Ok(None),
        },
        Slot::Absent { .. } => Ok(None),
        Slot::Whole(place) => Ok(Some(copy_place(alloc, place)?)),
    }
}

/// The place of the value that a name names.
///
/// # Errors
/// The place or the value is not found, or out of memory.
pub fn find_value_place(
    alloc: Global,
    sources: Sources<'_>,
    name: &ValueName,
) -> Result<CallRef, Refusal>
    requires { AreParsed sources.files.now sources.trees.now }
    ensures found { IfOk result (λ place. value_place (loaded_in sources.entry) name.now ≡ Ok place) }
    ensures refused { RefusedAs result (value_place (loaded_in sources.entry) name.now) }
{
    let place = find_place(alloc, sources, &name.place)?;
    let keys = name.keys.get();
    let slot = find_slot(alloc, sources, &place, keys)?;
    match slot_place(alloc, sources, &slot)? {
        Some(value) => Ok(value),
        None => Err(Refusal::NoSuchValue(last_key(alloc, keys)?)),
    }
}
