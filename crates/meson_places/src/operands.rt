//! Values that are sums: the values of those operands that are variables.

ghost use Rattle.std.specs.Prelude.{◌≡◌, ◌-◌, IfOk, IfSome, Ok, Some, length, option_map, slice_get};
ghost use Rattle.std.specs.List.{filter_map};
ghost use Rattle.meson_lex.specs.Kinds.{IsIdentifier};
ghost use Rattle.meson_syntax.specs.View.{expr_view};
ghost use Rattle.meson_calls.specs.ChosenNotes.{Source};
ghost use Rattle.meson_calls.specs.Loading.{AreParsed, IsProject, project};
ghost use Rattle.meson_calls.specs.Refusals.{RefusedAs};
ghost use Rattle.meson_places.specs.Behind.{first_that};
ghost use Rattle.meson_places.specs.Names.{loaded_in};
ghost use Rattle.meson_places.specs.Operands.{behind_at, children_from, followed_slot, gaining_among, gaining_at, losing_at, operand_count, operand_value, operand_value_at, operands_at, own_value, owned_value, says_behind};
ghost use Rattle.meson_places.specs.inside.Behind.{behind_view};

use crate::list_search::{first_with_all, has_lists};
use crate::name::Sources;
use crate::named_values::slot_place;
use crate::slots::Slot;
use crate::uses::is_read_once;
use crate::value_lists::are_plus;
use crate::variables::{
    Variable, behind_value, find_value, has_own_lists, says_one_at, slot_behind,
};
use meson_calls::place::{child_place, copy_place};
use meson_calls::roles::identifier_text;
use meson_calls::{CallRef, Refusal};
use meson_splice::Text;
use meson_steps::argument::ValueChange;
use meson_steps::given::Given;
use meson_syntax::Expr;
use std::alloc::{AllocError, Global};
use std::slice;

/// How many operands a sum has. No other expression has any.
fn operand_count(value: &Expr) -> usize
    ensures { (source : Source) → result ≡ operand_count (expr_view source value.now) }
{
    match value {
        Expr::Row { rest, .. } => {
            let rest = rest.get();
            if are_plus(rest) { rest.len() + 1 } else { 0 }
        }
        _ => 0,
    }
}

/// The places of the first children of what is at a place.
fn first_children(alloc: Global, place: &CallRef, many: usize) -> Result<Vec<CallRef>, AllocError>
    ensures { IfOk result (λ found. found.items ≡ children_from place.now 0 many) }
{
    let mut places = Vec::new(alloc);
    for i in 0..many {
        let child = child_place(alloc, place.as_place(), i)?;
        places.push(child)?;
    }
    Ok(places)
}

/// The places of the operands of the sum at a place, from left to right.
///
/// # Errors
/// Out of memory.
pub fn operands_at(
    alloc: Global,
    sources: Sources<'_>,
    place: &CallRef,
) -> Result<Vec<CallRef>, AllocError>
    requires { AreParsed sources.files.now sources.trees.now }
    ensures { IfOk result (λ found. found.items ≡ operands_at (project (loaded_in sources.entry)) place.now) }
{
    match find_value(sources, place) {
        Some(found) => first_children(alloc, place, operand_count(found.value)),
        None => Ok(Vec::new(alloc)),
    }
}

/// The variable at a place, if it is set to one value; unless it says one of some values itself.
fn behind_at<'p>(
    alloc: Global,
    sources: Sources<'p>,
    values: &[Given],
    place: &CallRef,
) -> Result<Option<Variable<'p>>, AllocError>
    requires { IsProject (loaded_in sources) }
    ensures behind { IfOk result (λ o. option_map behind_view o ≡ behind_at sources.entry.files.now (project (loaded_in sources.entry)) values.now place.now) }
    ensures named { IfOk result (λ o. IfSome o (λ v. IsIdentifier v.name.now)) }
{
    match find_value(sources, place) {
        Some(found) => behind_value(alloc, sources, values, place, found),
        None => Ok(None),
    }
}

/// The place of the value of the variable at a place, if that value has a list and nothing else reads the variable.
fn own_value(
    alloc: Global,
    sources: Sources<'_>,
    values: &[Given],
    place: &CallRef,
) -> Result<Option<CallRef>, AllocError>
    requires { IsProject (loaded_in sources) }
    ensures { IfOk result (λ o. o ≡ own_value sources.entry.files.now (project (loaded_in sources.entry)) values.now place.now) }
{
    match behind_at(alloc, sources, values, place)? {
        Some(variable) => {
            if has_own_lists(alloc, sources, &variable)? {
                Ok(Some(variable.value_at))
            } else {
                Ok(None)
            }
        }
        None => Ok(None),
    }
}

/// The places of those values of the variables at some places that have a list, where nothing else reads the variable.
fn own_values(
    alloc: Global,
    sources: Sources<'_>,
    values: &[Given],
    places: &[CallRef],
) -> Result<Vec<CallRef>, AllocError>
    requires { IsProject (loaded_in sources) }
    ensures { IfOk result (λ found. found.items ≡ filter_map (own_value sources.entry.files.now (project (loaded_in sources.entry)) values.now) places.now) }
{
    let mut found = Vec::new(alloc);
    for i in 0..places.len() {
        if let Some(value) = own_value(alloc, sources, values, &places[i])? {
            found.push(value)?;
        }
    }
    Ok(found)
}

/// The last of some places.
fn last_place(alloc: Global, places: &[CallRef]) -> Result<Option<CallRef>, AllocError>
    ensures { IfOk result (λ o. o ≡ slice_get places.now (length places.now - 1)) }
{
    match places.last() {
        Some(place) => Ok(Some(copy_place(alloc, place)?)),
        None => Ok(None),
    }
}

/// The first of some places whose value has all of some values; else the last place.
///
/// # Errors
/// Out of memory.
pub fn gaining_among(
    alloc: Global,
    sources: Sources<'_>,
    values: &[Given],
    places: &[CallRef],
) -> Result<Option<CallRef>, AllocError>
    requires { AreParsed sources.files.now sources.trees.now }
    ensures { IfOk result (λ o. o ≡ gaining_among sources.entry.files.now (project (loaded_in sources.entry)) values.now places.now) }
{
    match first_with_all(alloc, sources, values, places)? {
        Some(place) => Ok(Some(place)),
        None => last_place(alloc, places),
    }
}

/// The place of the value to which values are added, for the sum at a place: of an operand that is a variable which nothing else reads. None where the sum has
/// a list itself.
fn gaining_at(
    alloc: Global,
    sources: Sources<'_>,
    values: &[Given],
    place: &CallRef,
) -> Result<Option<CallRef>, AllocError>
    requires { IsProject (loaded_in sources) }
    ensures { IfOk result (λ o. o ≡ gaining_at sources.entry.files.now (project (loaded_in sources.entry)) values.now place.now) }
{
    if has_lists(alloc, sources, place)? {
        return Ok(None);
    }
    let operands = operands_at(alloc, sources, place)?;
    let found = own_values(alloc, sources, values, operands.as_slice())?;
    gaining_among(alloc, sources, values, found.as_slice())
}

/// The first variable at one of some places whose value has an element that says one of some values.
fn first_behind<'p>(
    alloc: Global,
    sources: Sources<'p>,
    values: &[Given],
    places: &[CallRef],
) -> Result<Option<Variable<'p>>, AllocError>
    requires { IsProject (loaded_in sources) }
    ensures behind { let fs = sources.entry.files.now in let p = project (loaded_in sources.entry) in
        IfOk result (λ o. option_map behind_view o ≡ first_that (says_behind fs p values.now) (filter_map (behind_at fs p values.now) places.now)) }
    ensures named { IfOk result (λ o. IfSome o (λ v. IsIdentifier v.name.now)) }
{
    for i in 0..places.len() {
        if let Some(variable) = behind_at(alloc, sources, values, &places[i])? {
            if says_one_at(alloc, sources, values, &variable.value_at)? {
                return Ok(Some(variable));
            }
        }
    }
    Ok(None)
}

/// The place of the value of a variable, if nothing else reads it.
///
/// # Errors
/// Something does, or out of memory.
fn owned_value(
    alloc: Global,
    sources: Sources<'_>,
    variable: Variable<'_>,
) -> Result<Option<CallRef>, Refusal>
    requires parsed { AreParsed sources.files.now sources.trees.now }
    requires named { IsIdentifier variable.name.now }
    ensures found { let b = Some (behind_view variable.entry) in
        IfOk result (λ o. owned_value sources.entry.files.now (project (loaded_in sources.entry)) b ≡ Ok o) }
    ensures refused { let b = Some (behind_view variable.entry) in
        RefusedAs result (owned_value sources.entry.files.now (project (loaded_in sources.entry)) b) }
{
    if is_read_once(alloc, sources, variable.name, &variable.read_at)? {
        return Ok(Some(variable.value_at));
    }
    let name = String::from_str(alloc, identifier_text(variable.name))?;
    Err(Refusal::Shared(Text::of(name)))
}

/// The place of the value in which elements are removed or replaced, for the sum at a place: of the first operand that is a variable whose value has one. None
/// where the sum has one itself.
///
/// # Errors
/// Something else reads the variable, or out of memory.
fn losing_at(
    alloc: Global,
    sources: Sources<'_>,
    values: &[Given],
    place: &CallRef,
) -> Result<Option<CallRef>, Refusal>
    requires { IsProject (loaded_in sources) }
    ensures found { IfOk result (λ o. losing_at sources.entry.files.now (project (loaded_in sources.entry)) values.now place.now ≡ Ok o) }
    ensures refused { RefusedAs result (losing_at sources.entry.files.now (project (loaded_in sources.entry)) values.now place.now) }
{
    if says_one_at(alloc, sources, values, place)? {
        return Ok(None);
    }
    let operands = operands_at(alloc, sources, place)?;
    match first_behind(alloc, sources, values, operands.as_slice())? {
        Some(variable) => owned_value(alloc, sources, variable),
        None => Ok(None),
    }
}

/// The place of the value that a change of the sum at a place is made to, if that is the value of an operand.
///
/// # Errors
/// The faults of `losing_at`.
fn operand_value_at(
    alloc: Global,
    sources: Sources<'_>,
    change: &ValueChange,
    place: &CallRef,
) -> Result<Option<CallRef>, Refusal>
    requires { IsProject (loaded_in sources) }
    ensures found { IfOk result (λ o. operand_value_at sources.entry.files.now (project (loaded_in sources.entry)) change.now place.now ≡ Ok o) }
    ensures refused { RefusedAs result (operand_value_at sources.entry.files.now (project (loaded_in sources.entry)) change.now place.now) }
{
    match change {
        ValueChange::Add(values) | ValueChange::AddSorted(values) => {
            Ok(gaining_at(alloc, sources, values.get(), place)?)
        }
        ValueChange::AddAfter { after, .. } => {
            losing_at(alloc, sources, slice::from_ref(after), place)
        }
        ValueChange::Remove(values) => losing_at(alloc, sources, values.get(), place),
        ValueChange::Replace { old, .. } => {
            losing_at(alloc, sources, slice::from_ref(old), place)
        }
        _ => Ok(None),
    }
}

/// The same of a slot.
///
/// # Errors
/// The faults of `losing_at`.
fn operand_value(
    alloc: Global,
    sources: Sources<'_>,
    change: &ValueChange,
    slot: &Slot,
) -> Result<Option<CallRef>, Refusal>
    requires { IsProject (loaded_in sources) }
    ensures found { IfOk result (λ o. operand_value sources.entry.files.now (project (loaded_in sources.entry)) change.now slot.now ≡ Ok o) }
    ensures refused { RefusedAs result (operand_value sources.entry.files.now (project (loaded_in sources.entry)) change.now slot.now) }
{
    match slot_place(alloc, sources, slot)? {
        Some(place) => operand_value_at(alloc, sources, change, &place),
        None => Ok(None),
    }
}

/// The slot whose value a change is made to: that of the value of a variable, which is the slot's value or an operand of it; else the slot itself.
///
/// # Errors
/// A value would be set, or an element of a list removed or replaced, that is the value of a variable which something else reads. Or out of memory.
pub(crate) fn followed_slot(
    alloc: Global,
    sources: Sources<'_>,
    change: &ValueChange,
    slot: Slot,
) -> Result<Slot, Refusal>
    requires { IsProject (loaded_in sources) }
    ensures found { IfOk result (λ s. followed_slot sources.entry.files.now (project (loaded_in sources.entry)) change.now slot ≡ Ok s) }
    ensures refused { RefusedAs result (followed_slot sources.entry.files.now (project (loaded_in sources.entry)) change.now slot) }
{
    match operand_value(alloc, sources, change, &slot)? {
        Some(place) => Ok(Slot::Whole(place)),
        None => slot_behind(alloc, sources, change, slot),
    }
}
