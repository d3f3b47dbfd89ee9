//! Changes of one value, which is named by a place and keys, where variables are followed.

ghost use Rattle.std.specs.Prelude.{◌≡◌, IfOk, Ok};
ghost use Rattle.meson_calls.specs.Loading.{IsProject, project};
ghost use Rattle.meson_calls.specs.Refusals.{RefusedAs};
ghost use Rattle.meson_steps.specs.GivenWords.{MayBeGiven};
ghost use Rattle.meson_steps.specs.Meanings.{AreMeant};
ghost use Rattle.meson_steps.specs.Plans.{ArePlanned};
ghost use Rattle.meson_places.specs.Arguments.{MayBeMade};
ghost use Rattle.meson_places.specs.Names as places;
ghost use Rattle.meson_places.specs.Several.{AllMayBeGiven};
ghost use Rattle.meson_followed_values.specs.CodeFollower.{loaded_in};
ghost use Rattle.meson_followed_values.specs.Followed.{followed_steps, gaining, inserted_for, losing, removed_for, replaced_for, slot_at, slot_first, steps_in, steps_of};

use crate::choices::gaining_at;
use crate::losing::losing_at;
use meson_calls::place::copy_place;
use meson_calls::{CallRef, Refusal};
use meson_following::Follower;
use meson_places::all_changed::{remove_each, replace_each};
use meson_places::arguments::{changed_steps, last_key, reads_change};
use meson_places::assigned_arrays::added_steps;
use meson_places::insertions::{Insertion, insert_steps};
use meson_places::lookup::find_place;
use meson_places::named_values::slot_place;
use meson_places::removals::remove_steps;
use meson_places::replacements::{Pair, replace_steps};
use meson_places::slots::find_slot;
use meson_places::sorted_additions::sorted_steps;
use meson_places::target_names::checked_name;
use meson_places::{Slot, Sources};
use meson_splice::Text;
use meson_steps::argument::{ValueChange, ValueName};
use meson_steps::given::Given;
use meson_steps::step::ListStep;
use std::alloc::{AllocError, Global};
use std::slice;

/// The place of the value of a variable that gains what is added to the value of a slot, if there is one.
fn gaining(
    follower: &Follower<'_>,
    values: &[Given],
    slot: &Slot,
) -> Result<Option<CallRef>, AllocError>
    requires { IsProject (loaded_in follower.now) }
    ensures { let l = loaded_in follower.now in IfOk result (λ o. o ≡ gaining l.files (project l) values.now slot.now) }
{
    let sources = Sources {
        files: follower.files,
        trees: follower.trees,
    };
    match slot_place(follower.alloc, sources, slot)? {
        Some(place) => gaining_at(follower, values, &place),
        None => Ok(None),
    }
}

/// The places of the values of variables in which elements of the value of a slot are removed or replaced, or get values after them.
///
/// # Errors
/// One of them is seen elsewhere, or out of memory.
fn losing(follower: &Follower<'_>, values: &[Given], slot: &Slot) -> Result<Vec<CallRef>, Refusal>
    requires { IsProject (loaded_in follower.now) }
    ensures found { let l = loaded_in follower.now in IfOk result (λ found. losing l.files (project l) values.now slot.now ≡ Ok found.items) }
    ensures refused { let l = loaded_in follower.now in RefusedAs result (losing l.files (project l) values.now slot.now) }
{
    let sources = Sources {
        files: follower.files,
        trees: follower.trees,
    };
    match slot_place(follower.alloc, sources, slot)? {
        Some(place) => losing_at(follower, values, &place),
        None => Ok(Vec::new(follower.alloc)),
    }
}

/// The slot of the value at a place, or the one that is named.
fn slot_at(slot: Slot, place: Option<CallRef>) -> Slot
    ensures { result ≡ slot_at slot place }
{
    match place {
        Some(place) => Slot::Whole(place),
        None => slot,
    }
}

/// The slot of the first of the values at some places, or the one that is named.
fn slot_first(alloc: Global, slot: Slot, places: &[CallRef]) -> Result<Slot, AllocError>
    ensures { IfOk result (λ s. s ≡ slot_first slot places.now) }
{
    match places.first() {
        Some(place) => Ok(Slot::Whole(copy_place(alloc, place)?)),
        None => Ok(slot),
    }
}

/// The slot to whose value values are added: that of the value of a variable, or the one that is named.
fn gaining_slot(follower: &Follower<'_>, values: &[Given], slot: Slot) -> Result<Slot, AllocError>
    requires { IsProject (loaded_in follower.now) }
    ensures { let l = loaded_in follower.now in IfOk result (λ s. s ≡ slot_at slot (gaining l.files (project l) values.now slot)) }
{
    let place = gaining(follower, values, &slot)?;
    Ok(slot_at(slot, place))
}

/// The steps that put values after the first element that says a value: in the value of a variable, or in that of the slot that is named.
///
/// # Errors
/// The faults of `losing` or `insert_steps`.
fn insert_followed(
    follower: &Follower<'_>,
    new: Insertion<'_>,
    key: &Text,
    slot: Slot,
) -> Result<Vec<ListStep>, Refusal>
    requires { IsProject (loaded_in follower.now) }
    ensures meant { (may : AllMayBeGiven new.entry.values.now) →
        IfOk result (λ steps. AreMeant (inserted_for (loaded_in follower.now) key.now new.entry.after.now new.entry.values.now may slot) steps.items) }
    ensures refused { (may : AllMayBeGiven new.entry.values.now) →
        RefusedAs result (inserted_for (loaded_in follower.now) key.now new.entry.after.now new.entry.values.now may slot) }
{
    let sources = Sources {
        files: follower.files,
        trees: follower.trees,
    };
    let places = losing(follower, slice::from_ref(new.after), &slot)?;
    let slot = slot_first(follower.alloc, slot, places.as_slice())?;
    insert_steps(follower.alloc, sources, new, key, &slot)
}

/// The steps that remove what says one of some values: elements of the values of variables, or what is in the slot that is named.
///
/// # Errors
/// The faults of `losing`, `remove_each` or `remove_steps`.
fn remove_followed(
    follower: &Follower<'_>,
    values: &[Given],
    key: &Text,
    slot: &Slot,
) -> Result<Vec<ListStep>, Refusal>
    requires { IsProject (loaded_in follower.now) }
    ensures meant { IfOk result (λ steps. AreMeant (removed_for (loaded_in follower.now) key.now values.now slot.now) steps.items) }
    ensures refused { RefusedAs result (removed_for (loaded_in follower.now) key.now values.now slot.now) }
{
    let sources = Sources {
        files: follower.files,
        trees: follower.trees,
    };
    let places = losing(follower, values, slot)?;
    if places.is_empty() {
        return remove_steps(follower.alloc, sources, values, key, slot);
    }
    remove_each(follower.alloc, sources, values, key, places.as_slice())
}

/// The steps that replace what says a value: in the values of variables, or in the slot that is named.
///
/// # Errors
/// The faults of `losing`, `replace_each` or `replace_steps`.
fn replace_followed(
    follower: &Follower<'_>,
    pair: Pair<'_>,
    key: &Text,
    slot: &Slot,
) -> Result<Vec<ListStep>, Refusal>
    requires { IsProject (loaded_in follower.now) }
    ensures meant { (may : MayBeGiven pair.entry.new.now) → let p = pair.entry in
        IfOk result (λ steps. AreMeant (replaced_for (loaded_in follower.now) key.now p.old.now p.new.now may slot.now) steps.items) }
    ensures refused { (may : MayBeGiven pair.entry.new.now) → let p = pair.entry in
        RefusedAs result (replaced_for (loaded_in follower.now) key.now p.old.now p.new.now may slot.now) }
{
    let sources = Sources {
        files: follower.files,
        trees: follower.trees,
    };
    let places = losing(follower, slice::from_ref(pair.old), slot)?;
    if places.is_empty() {
        return replace_steps(follower.alloc, sources, pair, key, slot);
    }
    replace_each(follower.alloc, sources, pair, key, places.as_slice())
}

/// The steps that change the value of a slot, or those of the variables that it has.
///
/// # Errors
/// The faults of `insert_followed`, `remove_followed` or `replace_followed`, or those of the change without following.
fn steps_in(
    follower: &Follower<'_>,
    name: &ValueName,
    key: &Text,
    change: &ValueChange,
    slot: Slot,
) -> Result<Vec<ListStep>, Refusal>
    requires { IsProject (loaded_in follower.now) }
    ensures meant { (may : MayBeMade change.now) → IfOk result (λ steps. AreMeant (steps_in (loaded_in follower.now) key.now name.now change.now may slot) steps.items) }
    ensures refused { (may : MayBeMade change.now) → RefusedAs result (steps_in (loaded_in follower.now) key.now name.now change.now may slot) }
{
    let alloc = follower.alloc;
    let sources = Sources {
        files: follower.files,
        trees: follower.trees,
    };
    match change {
        ValueChange::Add(values) => {
            let values = values.get();
            let slot = gaining_slot(follower, values, slot)?;
            added_steps(alloc, sources, values, key, &slot)
        }
        ValueChange::AddSorted(values) => {
            let values = values.get();
            let slot = gaining_slot(follower, values, slot)?;
            sorted_steps(alloc, sources, values, key, &slot)
        }
        ValueChange::AddAfter { after, values } => {
            let values = values.get();
            insert_followed(follower, Insertion { after, values }, key, slot)
        }
        ValueChange::Remove(values) => remove_followed(follower, values.get(), key, &slot),
        ValueChange::Replace { old, new } => {
            replace_followed(follower, Pair { old, new }, key, &slot)
        }
        ValueChange::Set(_) => changed_steps(alloc, sources, name, key, change, slot),
        ValueChange::SetAll(_) => changed_steps(alloc, sources, name, key, change, slot),
        ValueChange::Delete => changed_steps(alloc, sources, name, key, change, slot),
    }
}

/// The same, but that an assigned value or a call itself is changed as without following.
///
/// # Errors
/// The faults of `steps_in`.
fn steps_of(
    follower: &Follower<'_>,
    name: &ValueName,
    key: &Text,
    change: &ValueChange,
    slot: Slot,
) -> Result<Vec<ListStep>, Refusal>
    requires { IsProject (loaded_in follower.now) }
    ensures meant { (may : MayBeMade change.now) → IfOk result (λ steps. AreMeant (steps_of (loaded_in follower.now) key.now name.now change.now may slot) steps.items) }
    ensures refused { (may : MayBeMade change.now) → RefusedAs result (steps_of (loaded_in follower.now) key.now name.now change.now may slot) }
{
    match slot {
        Slot::Whole(place) => {
            let alloc = follower.alloc;
            let sources = Sources {
                files: follower.files,
                trees: follower.trees,
            };
            changed_steps(alloc, sources, name, key, change, Slot::Whole(place))
        }
        slot => steps_in(follower, name, key, change, slot),
    }
}

/// The steps that change the value of a name, where variables are followed. They may be done one after another on the project.
///
/// # Errors
/// The place or the value is not found; another target has the name that a target gets; the value is that of a variable which something else reads too; the
/// change does not suit the value; the file would nest too deep; or out of memory.
pub fn followed_steps(
    alloc: Global,
    sources: Sources<'_>,
    name: &ValueName,
    change: &ValueChange,
) -> Result<Vec<ListStep>, Refusal>
    requires { IsProject (places.loaded_in sources) }
    ensures may { MayBeMade change.now }
    ensures plan { (may : MayBeMade change.now) → let old = places.loaded_in sources.entry in
        IfOk result (λ steps. ArePlanned old (followed_steps old name.now change.now may) steps.items) }
    ensures refused { (may : MayBeMade change.now) → RefusedAs result (followed_steps (places.loaded_in sources.entry) name.now change.now may) }
{
    reads_change(change);
    let place = find_place(alloc, sources, &name.place)?;
    let keys = name.keys.get();
    let slot = find_slot(alloc, sources, &place, keys)?;
    let key = last_key(alloc, keys)?;
    checked_name(alloc, sources, &key, change, &slot)?;
    let follower = Follower {
        alloc,
        files: sources.files,
        trees: sources.trees,
    };
    steps_of(&follower, name, &key, change, slot)
}
