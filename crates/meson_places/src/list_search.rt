//! Which of some places has a list, or one with elements that say some values.

ghost use Rattle.std.specs.Prelude.{◌≡◌, IfOk};
ghost use Rattle.meson_calls.specs.Loading.{AreParsed, project};
ghost use Rattle.meson_places.specs.Behind.{first_that, has_lists, says_all_at, says_one_at};
ghost use Rattle.meson_places.specs.Names.{loaded_in};

use crate::known::{Known, are_known};
use crate::name::Sources;
use crate::value_lists::lists_of;
use crate::variables::{find_value, lists_at, says_one_at};
use meson_calls::CallRef;
use meson_calls::place::copy_place;
use meson_steps::given::Given;
use std::alloc::{AllocError, Global};

/// Whether the value at a place has a list.
///
/// # Errors
/// Out of memory.
pub fn has_lists(alloc: Global, sources: Sources<'_>, place: &CallRef) -> Result<bool, AllocError>
    requires { AreParsed sources.files.now sources.trees.now }
    ensures { IfOk result (λ b. b ≡ has_lists (project (loaded_in sources.entry)) place.now) }
{
    Ok(!lists_at(alloc, sources, place)?.is_empty())
}

/// Whether elements of the lists of the value at a place say each of some values.
///
/// # Errors
/// Out of memory.
pub fn says_all_at(
    alloc: Global,
    sources: Sources<'_>,
    values: &[Given],
    place: &CallRef,
) -> Result<bool, AllocError>
    requires { AreParsed sources.files.now sources.trees.now }
    ensures { IfOk result (λ b. b ≡ says_all_at sources.entry.files.now (project (loaded_in sources.entry)) values.now place.now) }
{
    match find_value(sources, place) {
        Some(found) => {
            let lists = lists_of(alloc, found.source, place, found.value)?;
            are_known(alloc, found.source, Known::Lists(lists.as_slice()), values)
        }
        None => Ok(false),
    }
}

/// The first of some places whose value has a list.
pub(crate) fn first_list(
    alloc: Global,
    sources: Sources<'_>,
    places: &[CallRef],
) -> Result<Option<CallRef>, AllocError>
    requires { AreParsed sources.files.now sources.trees.now }
    ensures { IfOk result (λ o. o ≡ first_that (has_lists (project (loaded_in sources.entry))) places.now) }
{
    for i in 0..places.len() {
        if has_lists(alloc, sources, &places[i])? {
            return Ok(Some(copy_place(alloc, &places[i])?));
        }
    }
    Ok(None)
}

/// The first of some places whose value has all of some values.
///
/// # Errors
/// Out of memory.
pub fn first_with_all(
    alloc: Global,
    sources: Sources<'_>,
    values: &[Given],
    places: &[CallRef],
) -> Result<Option<CallRef>, AllocError>
    requires { AreParsed sources.files.now sources.trees.now }
    ensures { IfOk result (λ o. o ≡ first_that (says_all_at sources.entry.files.now (project (loaded_in sources.entry)) values.now) places.now) }
{
    for i in 0..places.len() {
        if says_all_at(alloc, sources, values, &places[i])? {
            return Ok(Some(copy_place(alloc, &places[i])?));
        }
    }
    Ok(None)
}

/// The first of some places whose value has one of some values.
pub(crate) fn first_with_one(
    alloc: Global,
    sources: Sources<'_>,
    values: &[Given],
    places: &[CallRef],
) -> Result<Option<CallRef>, AllocError>
    requires { AreParsed sources.files.now sources.trees.now }
    ensures { IfOk result (λ o. o ≡ first_that (says_one_at sources.entry.files.now (project (loaded_in sources.entry)) values.now) places.now) }
{
    for i in 0..places.len() {
        if says_one_at(alloc, sources, values, &places[i])? {
            return Ok(Some(copy_place(alloc, &places[i])?));
        }
    }
    Ok(None)
}
