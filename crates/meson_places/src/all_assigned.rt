//! The values that are assigned to a variable, where one of them says what is sought.

ghost use Rattle.std.specs.Prelude.{◌≡◌, IfOk, Ok, Some, option_map};
ghost use Rattle.std.specs.List.{list_all, list_any};
ghost use Rattle.meson_syntax.specs.Grammar.{expression_words};
ghost use Rattle.meson_syntax.specs.View.{expr_view};
ghost use Rattle.meson_calls.specs.Loading.{AreParsed, project};
ghost use Rattle.meson_calls.specs.Refusals.{RefusedAs};
ghost use Rattle.meson_calls.specs.Strings.{AreGood};
ghost use Rattle.meson_places.specs.AllAssigned.{all_assigned, alone_at, assigned_saying, said_among, said_at, says_by, several_saying};
ghost use Rattle.meson_places.specs.Names.{loaded_in};
ghost use Rattle.meson_places.specs.inside.Found.{AreGoodLists, found_lists};

use crate::assignments::{others_of, whole_variable, with_others};
use crate::equality::{lists_say, says};
use crate::known::{Known, any_known};
use crate::name::Sources;
use crate::slots::Slot;
use crate::value_lists::{FoundList, lists_of};
use crate::variables::find_value;
use meson_calls::{CallRef, Refusal};
use meson_splice::Text;
use meson_steps::argument::ValueName;
use meson_steps::given::Given;
use meson_syntax::Expr;
use std::alloc::{AllocError, Global};

/// Whether a value says another one: an element of its lists does, or the value itself, where it has no list.
fn says_by(
    alloc: Global,
    source: &[u8],
    given: &Given,
    value: &Expr,
    lists: &[FoundList<'_>],
) -> Result<bool, AllocError>
    requires good { AreGood (expression_words (expr_view source.now value.now)) }
    requires lists { AreGoodLists source.now lists.now }
    ensures { IfOk result (λ b. b ≡ says_by source.now given.now (expr_view source.now value.now) (found_lists source.now lists.now)) }
{
    if lists.is_empty() {
        return says(alloc, source, given, value);
    }
    lists_say(alloc, source, given, lists)
}

/// Whether the value at a place says another one: an element of its lists does, or the value itself, where it has no list.
///
/// # Errors
/// Out of memory.
pub fn said_at(
    alloc: Global,
    sources: Sources<'_>,
    given: &Given,
    place: &CallRef,
) -> Result<bool, AllocError>
    requires { AreParsed sources.files.now sources.trees.now }
    ensures { IfOk result (λ b. b ≡ said_at sources.entry.files.now (project (loaded_in sources.entry)) given.now place.now) }
{
    match find_value(sources, place) {
        Some(found) => {
            let lists = lists_of(alloc, found.source, place, found.value)?;
            says_by(alloc, found.source, given, found.value, lists.as_slice())
        }
        None => Ok(false),
    }
}

/// Whether one of the values at some places says another one.
///
/// # Errors
/// Out of memory.
pub fn said_among(
    alloc: Global,
    sources: Sources<'_>,
    places: &[CallRef],
    given: &Given,
) -> Result<bool, AllocError>
    requires { AreParsed sources.files.now sources.trees.now }
    ensures { IfOk result (λ b. b ≡ said_among sources.entry.files.now (project (loaded_in sources.entry)) places.now given.now) }
{
    for i in 0..places.len() {
        if said_at(alloc, sources, given, &places[i])? {
            return Ok(true);
        }
    }
    Ok(false)
}

/// Whether each of some values is said by one of the values at some places.
///
/// # Errors
/// Out of memory.
pub fn all_said(
    alloc: Global,
    sources: Sources<'_>,
    places: &[CallRef],
    values: &[Given],
) -> Result<bool, AllocError>
    requires { AreParsed sources.files.now sources.trees.now }
    ensures { IfOk result (λ b. b ≡ list_all (said_among sources.entry.files.now (project (loaded_in sources.entry)) places.now) values.now) }
{
    for i in 0..values.len() {
        if !said_among(alloc, sources, places, &values[i])? {
            return Ok(false);
        }
    }
    Ok(true)
}

/// Whether one of some values is said by one of the values at some places.
fn any_said(
    alloc: Global,
    sources: Sources<'_>,
    places: &[CallRef],
    values: &[Given],
) -> Result<bool, AllocError>
    requires { AreParsed sources.files.now sources.trees.now }
    ensures { IfOk result (λ b. b ≡ list_any (said_among sources.entry.files.now (project (loaded_in sources.entry)) places.now) values.now) }
{
    for i in 0..values.len() {
        if said_among(alloc, sources, places, &values[i])? {
            return Ok(true);
        }
    }
    Ok(false)
}

/// Whether the value at a place has no list and says one of some values itself.
fn alone_at(
    alloc: Global,
    sources: Sources<'_>,
    values: &[Given],
    place: &CallRef,
) -> Result<bool, AllocError>
    requires { AreParsed sources.files.now sources.trees.now }
    ensures { IfOk result (λ b. b ≡ alone_at sources.entry.files.now (project (loaded_in sources.entry)) values.now place.now) }
{
    match find_value(sources, place) {
        Some(found) => {
            let lists = lists_of(alloc, found.source, place, found.value)?;
            if lists.is_empty() {
                any_known(alloc, found.source, Known::Value(found.value), values)
            } else {
                Ok(false)
            }
        }
        None => Ok(false),
    }
}

/// Whether one of the values at some places has no list and says one of some values itself.
pub(crate) fn any_alone(
    alloc: Global,
    sources: Sources<'_>,
    values: &[Given],
    places: &[CallRef],
) -> Result<bool, AllocError>
    requires { AreParsed sources.files.now sources.trees.now }
    ensures { IfOk result (λ b. b ≡ list_any (alone_at sources.entry.files.now (project (loaded_in sources.entry)) values.now) places.now) }
{
    for i in 0..places.len() {
        if alone_at(alloc, sources, values, &places[i])? {
            return Ok(true);
        }
    }
    Ok(false)
}

/// Some places, where there are several and one of the values there says one of those that are sought.
fn several_saying(
    alloc: Global,
    sources: Sources<'_>,
    values: &[Given],
    places: Vec<CallRef>,
) -> Result<Option<Vec<CallRef>>, AllocError>
    requires { AreParsed sources.files.now sources.trees.now }
    ensures { let meant = several_saying sources.entry.files.now (project (loaded_in sources.entry)) values.now places.items in
        IfOk result (λ o. option_map (λ v. v.items) o ≡ meant) }
{
    if places.len() > 1 && any_said(alloc, sources, places.as_slice(), values)? {
        Ok(Some(places))
    } else {
        Ok(None)
    }
}

/// The places of the values that are assigned to a variable, where there are several and one of the values there says one of those that are sought.
///
/// # Errors
/// Another file adds to the variable, and no folder is given; or out of memory.
fn assigned_saying(
    alloc: Global,
    sources: Sources<'_>,
    folder: &Option<Text>,
    values: &[Given],
    variable: (&Text, &CallRef),
) -> Result<Option<Vec<CallRef>>, Refusal>
    requires { AreParsed sources.files.now sources.trees.now }
    ensures found { let v = Some (variable.entry.0.now, variable.entry.1.now) in
        let meant = assigned_saying sources.entry.files.now (project (loaded_in sources.entry)) folder.now values.now v in
        IfOk result (λ o. meant ≡ Ok (option_map (λ v. v.items) o)) }
    ensures refused { let v = Some (variable.entry.0.now, variable.entry.1.now) in
        RefusedAs result (assigned_saying sources.entry.files.now (project (loaded_in sources.entry)) folder.now values.now v) }
{
    let (name, place) = variable;
    let others = others_of(alloc, sources, folder, name, place)?;
    let places = with_others(alloc, place, others)?;
    Ok(several_saying(alloc, sources, values, places)?)
}

/// The places of all values that are assigned to the variable whose whole value is named, where there are several and one of the values there says one of those
/// that are sought.
///
/// # Errors
/// Another file adds to the variable, and no folder is given; or out of memory.
pub(crate) fn all_assigned(
    alloc: Global,
    sources: Sources<'_>,
    name: &ValueName,
    values: &[Given],
    slot: &Slot,
) -> Result<Option<Vec<CallRef>>, Refusal>
    requires { AreParsed sources.files.now sources.trees.now }
    ensures found { let meant = all_assigned sources.entry.files.now (project (loaded_in sources.entry)) name.now values.now slot.now in
        IfOk result (λ o. meant ≡ Ok (option_map (λ v. v.items) o)) }
    ensures refused { RefusedAs result (all_assigned sources.entry.files.now (project (loaded_in sources.entry)) name.now values.now slot.now) }
{
    match whole_variable(name, slot) {
        Some(variable) => assigned_saying(alloc, sources, &name.place.folder, values, variable),
        None => Ok(None),
    }
}
