//! The steps that put values after an element.

ghost use Rattle.std.specs.Prelude.{◌≡◌, ◌≢◌, ◌+◌, ◌<◌, ◌^◌, ℕ, Err, IfOk, IfSome, List, MatchResult, Some};
ghost use Rattle.meson_syntax.specs.View.{args_view};
ghost use Rattle.meson_calls.specs.GoodLists.{GoodArgs};
ghost use Rattle.meson_calls.specs.declared.refusal.Refusal.TheVariants.{OutOfMemory};
ghost use Rattle.meson_calls.specs.Loading.{AreParsed};
ghost use Rattle.meson_calls.specs.Project.{placed};
ghost use Rattle.meson_steps.specs.Meanings.{AreMeant};
ghost use Rattle.meson_places.specs.Equality.{lists_say};
ghost use Rattle.meson_places.specs.Insertions.{find_mark, insert_at, insert_by, insert_into, insert_steps, number_saying};
ghost use Rattle.meson_places.specs.Names.{loaded_in};
ghost use Rattle.meson_places.specs.Several.{AllMayBeGiven};
ghost use Rattle.meson_places.specs.inside.Behind.{IsFoundAt, found_value};
ghost use Rattle.meson_places.specs.inside.Found.{AreGoodLists, found_lists};

use crate::equality::element_says;
use crate::known::{Known, fresh};
use crate::name::Sources;
use crate::named_values::slot_place;
use crate::new_elements::put_behind;
use crate::removals::{Keyed, says_other};
use crate::several::has_room_for_all;
use crate::slots::Slot;
use crate::value_lists::{FoundList, lists_of};
use crate::variables::{FoundValue, find_value};
use meson_calls::place::copy_place;
use meson_calls::{CallRef, Refusal};
use meson_splice::Text;
use meson_steps::given::Given;
use meson_steps::step::ListStep;
use meson_syntax::Arg;
use std::alloc::{AllocError, Global};

/// An element: the place of its list, and its number.
#[derive(Drop)]
pub(crate) struct Mark {
    pub list: CallRef,
    pub number: usize,
}

/// Values, and the one after which they are put.
#[derive(Clone, Copy)]
pub struct Insertion<'v> {
    pub after: &'v Given,
    pub values: &'v [Given],
}

/// The number of the first element that says a value.
fn number_saying(
    alloc: Global,
    source: &[u8],
    given: &Given,
    elements: &[Arg],
) -> Result<Option<usize>, AllocError>
    requires { GoodArgs source.now elements.now }
    ensures found { IfOk result (λ o. o ≡ number_saying source.now given.now 0 (args_view source.now elements.now)) }
    ensures small { IfOk result (λ o. IfSome o (λ n. n + 1 < 2 ^ 63)) }
{
    for i in 0..elements.len() {
        if element_says(alloc, source, given, &elements[i])? {
            return Ok(Some(i));
        }
    }
    Ok(None)
}

/// The first element of some lists that says a value.
fn find_mark(
    alloc: Global,
    source: &[u8],
    given: &Given,
    lists: &[FoundList<'_>],
) -> Result<Option<Mark>, AllocError>
    requires { AreGoodLists source.now lists.now }
    ensures found { IfOk result (λ o. o ≡ find_mark source.now given.now (found_lists source.now lists.now)) }
    ensures small { IfOk result (λ o. IfSome o (λ m. m.number + 1 < 2 ^ 63)) }
{
    for i in 0..lists.len() {
        if let Some(number) = number_saying(alloc, source, given, lists[i].elements)? {
            let list = copy_place(alloc, &lists[i].place)?;
            return Ok(Some(Mark { list, number }));
        }
    }
    Ok(None)
}

/// The steps that put the values that no list says already after an element.
///
/// # Errors
/// The file would nest too deep, or out of memory.
fn insert_at(
    alloc: Global,
    sources: Sources<'_>,
    source: &[u8],
    lists: &[FoundList<'_>],
    values: &[Given],
    mark: &Mark,
) -> Result<Vec<ListStep>, Refusal>
    requires parsed { AreParsed sources.files.now sources.trees.now }
    requires good { AreGoodLists source.now lists.now }
    requires small { mark.now.number + 1 < 2 ^ 63 }
    ensures made { (may : AllMayBeGiven values.now) (key : List ℕ) → let known = lists_say source.now (found_lists source.now lists.now) in
        let meant = insert_at (loaded_in sources.entry) key known values.now may (Some mark.now) in
        MatchResult result (λ steps. AreMeant meant steps.items) (λ e. e ≢ OutOfMemory → meant ≡ Err e) }
{
    if !has_room_for_all(alloc, sources, &mark.list, values)? {
        return Err(Refusal::TooDeep);
    }
    let new = fresh(alloc, source, Known::Lists(lists), values)?;
    put_behind(alloc, &mark.list, mark.number + 1, new.as_slice())
}

/// The steps that put values after the first element of some lists that says a value.
///
/// # Errors
/// No element says it; the file would nest too deep; or out of memory.
fn insert_among(
    alloc: Global,
    sources: Sources<'_>,
    keyed: Keyed<'_>,
    new: Insertion<'_>,
    lists: &[FoundList<'_>],
) -> Result<Vec<ListStep>, Refusal>
    requires parsed { AreParsed sources.files.now sources.trees.now }
    requires good { AreGoodLists keyed.source.now lists.now }
    ensures made { (may : AllMayBeGiven new.entry.values.now) → let k = keyed.entry in let ls = found_lists k.source.now lists.now in let n = new.entry in
        let meant = insert_at (loaded_in sources.entry) k.key.now (lists_say k.source.now ls) n.values.now may (find_mark k.source.now n.after.now ls) in
        MatchResult result (λ steps. AreMeant meant steps.items) (λ e. e ≢ OutOfMemory → meant ≡ Err e) }
{
    match find_mark(alloc, keyed.source, new.after, lists)? {
        Some(mark) => insert_at(alloc, sources, keyed.source, lists, new.values, &mark),
        None => Err(Refusal::NoSuchValue(keyed.key.clone()?)),
    }
}

/// The steps that put values after the first element that says a value, of the lists of the value at a place.
///
/// # Errors
/// It has no list, or the faults of `insert_among`.
fn insert_into(
    alloc: Global,
    sources: Sources<'_>,
    new: Insertion<'_>,
    key: &Text,
    place: &CallRef,
    found: FoundValue<'_>,
) -> Result<Vec<ListStep>, Refusal>
    requires parsed { AreParsed sources.files.now sources.trees.now }
    requires found { IsFoundAt sources.files.now place.now found }
    ensures made { (may : AllMayBeGiven new.entry.values.now) → let n = new.entry in let v = Some (placed place.now (found_value found.entry)) in
        let meant = insert_into (loaded_in sources.entry) key.now n.after.now n.values.now may v in
        MatchResult result (λ steps. AreMeant meant steps.items) (λ e. e ≢ OutOfMemory → meant ≡ Err e) }
{
    let FoundValue { source, value } = found;
    let keyed = Keyed { key, source, value };
    let lists = lists_of(alloc, source, place, value)?;
    if lists.is_empty() {
        return Err(says_other(alloc, keyed)?);
    }
    insert_among(alloc, sources, keyed, new, lists.as_slice())
}

/// The steps that put values after the first element that says a value, of the lists of the value of a slot: each that no list of it says.
///
/// # Errors
/// The slot is absent, or no element says the value; the value has no list; the file would nest too deep; or out of memory.
pub fn insert_steps(
    alloc: Global,
    sources: Sources<'_>,
    new: Insertion<'_>,
    key: &Text,
    slot: &Slot,
) -> Result<Vec<ListStep>, Refusal>
    requires { AreParsed sources.files.now sources.trees.now }
    ensures made { (may : AllMayBeGiven new.entry.values.now) → let n = new.entry in
        let meant = insert_steps (loaded_in sources.entry) n.after.now n.values.now may key.now slot.now in
        MatchResult result (λ steps. AreMeant meant steps.items) (λ e. e ≢ OutOfMemory → meant ≡ Err e) }
{
    match slot_place(alloc, sources, slot)? {
        Some(place) => match find_value(sources, &place) {
            Some(found) => insert_into(alloc, sources, new, key, &place, found),
            None => Err(Refusal::NoSuchValue(key.clone()?)),
        },
        None => Err(Refusal::NoSuchValue(key.clone()?)),
    }
}
