//! The values in which elements are removed or replaced, or get values after them.

ghost use Rattle.std.specs.Prelude.{◌≡◌, [], IfOk, Ok, map};
ghost use Rattle.std.specs.List.{filter_map, list_all};
ghost use Rattle.meson_calls.specs.Loading.{IsProject, project};
ghost use Rattle.meson_calls.specs.Refusals.{RefusedAs};
ghost use Rattle.meson_following.specs.CodeMakers.{maker_view};
ghost use Rattle.meson_followed_values.specs.Choices.{all_owned, each_once, losing_at, owned_values, said, saying_values, says_one};
ghost use Rattle.meson_followed_values.specs.CodeFollower.{loaded_in};
ghost use Rattle.meson_followed_values.specs.Makers.{is_read_here};

use crate::makers::{is_read_here, makers_of};
use crate::variables::{Variable, variables_at};
use meson_calls::place::copy_place;
use meson_calls::{CallRef, Refusal};
use meson_following::makers::is_one_of;
use meson_following::{Follower, Maker};
use meson_places::Sources;
use meson_places::all_assigned::said_at;
use meson_places::variables::says_one_at;
use meson_steps::given::Given;
use std::alloc::{AllocError, Global};

/// Whether the value at a place says one of some values.
fn says_one(follower: &Follower<'_>, values: &[Given], place: &CallRef) -> Result<bool, AllocError>
    requires { IsProject (loaded_in follower.now) }
    ensures { let l = loaded_in follower.now in IfOk result (λ b. b ≡ says_one l.files (project l) values.now place.now) }
{
    let sources = Sources {
        files: follower.files,
        trees: follower.trees,
    };
    for i in 0..values.len() {
        if said_at(follower.alloc, sources, &values[i], place)? {
            return Ok(true);
        }
    }
    Ok(false)
}

/// The place of the value of a maker, if it says one of some values.
fn said(
    follower: &Follower<'_>,
    values: &[Given],
    maker: &Maker<'_>,
) -> Result<Option<CallRef>, AllocError>
    requires { IsProject (loaded_in follower.now) }
    ensures { let l = loaded_in follower.now in IfOk result (λ o. o ≡ said l.files (project l) values.now (maker_view maker.now)) }
{
    if says_one(follower, values, &maker.place)? {
        Ok(Some(copy_place(follower.alloc, &maker.place)?))
    } else {
        Ok(None)
    }
}

/// The same of some makers.
fn said_by(
    follower: &Follower<'_>,
    values: &[Given],
    makers: &[Maker<'_>],
) -> Result<Vec<CallRef>, AllocError>
    requires { IsProject (loaded_in follower.now) }
    ensures { let l = loaded_in follower.now in
        IfOk result (λ found. found.items ≡ filter_map (said l.files (project l) values.now) (map maker_view makers.now)) }
{
    let mut found = Vec::new(follower.alloc);
    for i in 0..makers.len() {
        if let Some(place) = said(follower, values, &makers[i])? {
            found.push(place)?;
        }
    }
    Ok(found)
}

/// The places of those values of a variable's makers that say one of some values.
fn saying_values(
    follower: &Follower<'_>,
    values: &[Given],
    variable: &Variable,
) -> Result<Vec<CallRef>, AllocError>
    requires { IsProject (loaded_in follower.now) }
    ensures { let l = loaded_in follower.now in IfOk result (λ found. found.items ≡ saying_values l.files (project l) values.now variable.now) }
{
    let makers = makers_of(follower, variable)?;
    said_by(follower, values, makers.as_slice())
}

/// Whether no other read of a variable may see the value at one of some places.
fn are_read_here(
    follower: &Follower<'_>,
    variable: &Variable,
    places: &[CallRef],
) -> Result<bool, AllocError>
    requires { IsProject (loaded_in follower.now) }
    ensures { IfOk result (λ b. b ≡ list_all (is_read_here (project (loaded_in follower.now)) variable.now) places.now) }
{
    for i in 0..places.len() {
        if !is_read_here(follower, variable, &places[i])? {
            return Ok(false);
        }
    }
    Ok(true)
}

/// The same places as `saying_values`, if the values there are seen where the variable is read and nowhere else.
///
/// # Errors
/// One is seen elsewhere, or out of memory.
fn owned_values(
    follower: &Follower<'_>,
    values: &[Given],
    variable: &Variable,
) -> Result<Vec<CallRef>, Refusal>
    requires { IsProject (loaded_in follower.now) }
    ensures found { let l = loaded_in follower.now in IfOk result (λ found. owned_values l.files (project l) values.now variable.now ≡ Ok found.items) }
    ensures refused { let l = loaded_in follower.now in RefusedAs result (owned_values l.files (project l) values.now variable.now) }
{
    let found = saying_values(follower, values, variable)?;
    if !are_read_here(follower, variable, found.as_slice())? {
        return Err(Refusal::Shared(variable.name.clone()?));
    }
    Ok(found)
}

/// The same of some variables, one after another.
///
/// # Errors
/// The faults of `owned_values`.
fn all_owned(
    follower: &Follower<'_>,
    values: &[Given],
    variables: &[Variable],
) -> Result<Vec<CallRef>, Refusal>
    requires { IsProject (loaded_in follower.now) }
    ensures found { let l = loaded_in follower.now in IfOk result (λ found. all_owned l.files (project l) values.now variables.now ≡ Ok found.items) }
    ensures refused { let l = loaded_in follower.now in RefusedAs result (all_owned l.files (project l) values.now variables.now) }
{
    let mut all = Vec::new(follower.alloc);
    for i in 0..variables.len() {
        let mut found = owned_values(follower, values, &variables[i])?;
        all.append(&mut found)?;
    }
    Ok(all)
}

/// Each of some places once.
fn each_once(alloc: Global, places: &[CallRef]) -> Result<Vec<CallRef>, AllocError>
    ensures { IfOk result (λ once. once.items ≡ each_once [] places.now) }
{
    let mut once = Vec::new(alloc);
    for i in 0..places.len() {
        if !is_one_of(once.as_slice(), &places[i]) {
            once.push(copy_place(alloc, &places[i])?)?;
        }
    }
    Ok(once)
}

/// The places of the values of variables in which elements of the value at a place are removed or replaced, or get values after them. None where that has
/// such an element itself.
///
/// # Errors
/// One of them is seen elsewhere, or out of memory.
pub(crate) fn losing_at(
    follower: &Follower<'_>,
    values: &[Given],
    place: &CallRef,
) -> Result<Vec<CallRef>, Refusal>
    requires { IsProject (loaded_in follower.now) }
    ensures found { let l = loaded_in follower.now in IfOk result (λ found. losing_at l.files (project l) values.now place.now ≡ Ok found.items) }
    ensures refused { let l = loaded_in follower.now in RefusedAs result (losing_at l.files (project l) values.now place.now) }
{
    let sources = Sources {
        files: follower.files,
        trees: follower.trees,
    };
    if says_one_at(follower.alloc, sources, values, place)? {
        return Ok(Vec::new(follower.alloc));
    }
    let variables = variables_at(follower, values, place)?;
    let found = all_owned(follower, values, variables.as_slice())?;
    Ok(each_once(follower.alloc, found.as_slice())?)
}
