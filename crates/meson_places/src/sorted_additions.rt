//! The steps that add values to the lists of a value, each in its place where the list is in order.

ghost use Rattle.std.specs.Prelude.{◌≡◌, ◌≢◌, ◌<◌, ◌^◌, Err, IfErr, IfOk, List, MatchOption, MatchResult, Result, Some, map};
ghost use Rattle.meson_calls.specs.declared.refusal.Refusal.{Refusal as TheRefusal};
ghost use Rattle.meson_calls.specs.declared.refusal.Refusal.TheVariants.{OutOfMemory};
ghost use Rattle.meson_calls.specs.GoodLists.{GoodArgs};
ghost use Rattle.meson_calls.specs.Loading.{AreParsed, project};
ghost use Rattle.meson_calls.specs.Project.{placed};
ghost use Rattle.meson_steps.specs.ListSteps.{AreBare};
ghost use Rattle.meson_steps.specs.Meanings.{AreMeant};
ghost use Rattle.meson_steps.specs.OrderedLists.{Added, IsOrderedList, Ordered, all_put};
ghost use Rattle.meson_steps.specs.Steps.{Step};
ghost use Rattle.meson_places.specs.Behind.{placed_value};
ghost use Rattle.meson_places.specs.Equality.{lists_say};
ghost use Rattle.meson_places.specs.Names.{loaded_in};
ghost use Rattle.meson_places.specs.Several.{AllMayBeGiven};
ghost use Rattle.meson_places.specs.SortedAdditions.{given_key, name_key, sort_into_list, sort_into_value, sorted_steps};
ghost use Rattle.meson_places.specs.Values.{given_bytes};
ghost use Rattle.meson_places.specs.inside.Behind.{IsFoundAt, found_value};
ghost use Rattle.meson_places.specs.inside.Found.{AreGoodLists, found_list, found_lists};

use crate::assigned_arrays::added_steps;
use crate::known::{Known, fresh};
use crate::name::Sources;
use crate::named_values::slot_place;
use crate::several::has_room_for_all;
use crate::slots::Slot;
use crate::value_lists::{FoundList, last_list, lists_of};
use crate::values::given_bytes;
use crate::variables::{FoundValue, find_value};
use meson_calls::{CallRef, Refusal};
use meson_lex::is_identifier;
use meson_splice::{Bytes, Text};
use meson_steps::given::Given;
use meson_steps::order::SortKey;
use meson_steps::ordered_list::OrderedList;
use meson_steps::step::ListStep;
use std::alloc::{AllocError, Global};

/// By what code is ordered: one identifier by its name.
fn name_key(alloc: Global, code: &str) -> Result<SortKey, AllocError>
    ensures { IfOk result (λ k. k ≡ name_key code.now) }
{
    if !is_identifier(code) {
        return Ok(SortKey::Other);
    }
    let name = Vec::from_slice(alloc, code.as_bytes())?;
    Ok(SortKey::Name(Bytes::of(name)))
}

/// By what a value is ordered.
fn given_key(alloc: Global, given: &Given) -> Result<SortKey, AllocError>
    ensures { IfOk result (λ k. k ≡ given_key given.now) }
{
    match given {
        Given::Text(text) => Ok(SortKey::Text(text.clone()?)),
        Given::Switch(_) => Ok(SortKey::Other),
        Given::Code(code) => name_key(alloc, code.get()),
    }
}

/// The steps that put values in their places in the list at a place, one after another.
fn put_sorted(
    alloc: Global,
    list: &CallRef,
    into: OrderedList,
    values: &[&Given],
) -> Result<Vec<ListStep>, Refusal>
    requires from { into.from < 2 ^ 63 }
    requires end { into.end < 2 ^ 63 }
    ensures done { (o : Ordered) → IsOrderedList into o → (new : List Added) → let gs = map (λ x. x.now) values.now in
        map (λ a. a.key) new ≡ map given_key gs → map (λ a. a.written.bytes) new ≡ map given_bytes gs
        → IfOk result (λ steps. AreBare (all_put list.now o new) steps.items) }
    ensures refused { IfErr result (λ e. e ≡ OutOfMemory) }
{
    let mut into = into;
    let mut steps = Vec::new(alloc);
    for i in 0..values.len() {
        let value = values[i];
        let new = given_bytes(alloc, value)?;
        let key = given_key(alloc, value)?;
        into.put(alloc, list, key, new.get(), &mut steps)?;
    }
    Ok(steps)
}

/// The steps that put the values that no list says already in their places in a list.
///
/// # Errors
/// The file would nest too deep, or out of memory.
fn sort_into_list(
    alloc: Global,
    sources: Sources<'_>,
    source: &[u8],
    lists: &[FoundList<'_>],
    list: &FoundList<'_>,
    values: &[Given],
) -> Result<Vec<ListStep>, Refusal>
    requires parsed { AreParsed sources.files.now sources.trees.now }
    requires good { AreGoodLists source.now lists.now }
    requires elements { GoodArgs source.now list.now.elements.now }
    ensures made { (may : AllMayBeGiven values.now) → let known = lists_say source.now (found_lists source.now lists.now) in
        let meant = sort_into_list (loaded_in sources.entry) source.now known values.now may (found_list source.now list.now) in
        MatchResult result (λ steps. AreMeant meant steps.items) (λ e. e ≢ OutOfMemory → meant ≡ Err e) }
{
    if !has_room_for_all(alloc, sources, &list.place, values)? {
        return Err(Refusal::TooDeep);
    }
    let new = fresh(alloc, source, Known::Lists(lists), values)?;
    let into = OrderedList::of(alloc, source, list.elements, 0, list.elements.len())?;
    put_sorted(alloc, &list.place, into, new.as_slice())
}

/// The steps that put values in their places in the last list of the value at a place, if it has one.
///
/// # Errors
/// The faults of `sort_into_list`.
fn sort_into_value(
    alloc: Global,
    sources: Sources<'_>,
    values: &[Given],
    place: &CallRef,
    found: FoundValue<'_>,
) -> Result<Option<Vec<ListStep>>, Refusal>
    requires parsed { AreParsed sources.files.now sources.trees.now }
    requires found { IsFoundAt sources.files.now place.now found }
    ensures made { (may : AllMayBeGiven values.now) (otherwise : Result (List Step) TheRefusal) → let v = Some (placed place.now (found_value found.entry)) in
        let meant = sort_into_value (loaded_in sources.entry) values.now may otherwise v in
        MatchResult result (λ o. MatchOption o (meant ≡ otherwise) (λ steps. AreMeant meant steps.items)) (λ e. e ≢ OutOfMemory → meant ≡ Err e) }
{
    let FoundValue { source, value } = found;
    let lists = lists_of(alloc, source, place, value)?;
    let all = lists.as_slice();
    match last_list(all) {
        Some(list) => {
            let steps = sort_into_list(alloc, sources, source, all, list, values)?;
            Ok(Some(steps))
        }
        None => Ok(None),
    }
}

/// The steps that put values in their places in the last list of the value of a slot, if it has one: each that no list of it says.
///
/// # Errors
/// The faults of `sort_into_list`.
fn sort_into_slot(
    alloc: Global,
    sources: Sources<'_>,
    values: &[Given],
    slot: &Slot,
) -> Result<Option<Vec<ListStep>>, Refusal>
    requires { AreParsed sources.files.now sources.trees.now }
    ensures made { (may : AllMayBeGiven values.now) (otherwise : Result (List Step) TheRefusal) → let l = loaded_in sources.entry in
        let meant = sort_into_value l values.now may otherwise (placed_value (project l) slot.now) in
        MatchResult result (λ o. MatchOption o (meant ≡ otherwise) (λ steps. AreMeant meant steps.items)) (λ e. e ≢ OutOfMemory → meant ≡ Err e) }
{
    match slot_place(alloc, sources, slot)? {
        Some(place) => match find_value(sources, &place) {
            Some(found) => sort_into_value(alloc, sources, values, &place, found),
            None => Ok(None),
        },
        None => Ok(None),
    }
}

/// The steps that put values in their places in the last list of the value of a slot. Where it has no list, they are added as without an order.
///
/// # Errors
/// The faults of `added_steps`.
pub fn sorted_steps(
    alloc: Global,
    sources: Sources<'_>,
    values: &[Given],
    key: &Text,
    slot: &Slot,
) -> Result<Vec<ListStep>, Refusal>
    requires { AreParsed sources.files.now sources.trees.now }
    ensures made { (may : AllMayBeGiven values.now) → let meant = sorted_steps (loaded_in sources.entry) values.now may key.now slot.now in
        MatchResult result (λ steps. AreMeant meant steps.items) (λ e. e ≢ OutOfMemory → meant ≡ Err e) }
{
    match sort_into_slot(alloc, sources, values, slot)? {
        Some(steps) => Ok(steps),
        None => added_steps(alloc, sources, values, key, slot),
    }
}
