//! The values to which values are added.

ghost use Rattle.std.specs.Prelude.{◌≡◌, IfOk, map};
ghost use Rattle.std.specs.List.{filter_map};
ghost use Rattle.meson_calls.specs.Loading.{IsProject, project};
ghost use Rattle.meson_following.specs.CodeMakers.{maker_view};
ghost use Rattle.meson_followed_values.specs.Choices.{first_of, gained, gaining_at, gaining_value, gaining_values, gains};
ghost use Rattle.meson_followed_values.specs.CodeFollower.{loaded_in};

use crate::makers::{is_read_here, makers_of};
use crate::variables::{Variable, variables_at};
use meson_calls::CallRef;
use meson_calls::place::copy_place;
use meson_following::{Follower, Maker};
use meson_places::Sources;
use meson_places::list_search::{first_with_all, has_lists};
use meson_places::operands::gaining_among;
use meson_steps::given::Given;
use std::alloc::{AllocError, Global};

/// Whether the value of a maker has a list, is part of the variable in each evaluation, and is seen where the variable is read and nowhere else.
fn gains(
    follower: &Follower<'_>,
    variable: &Variable,
    maker: &Maker<'_>,
) -> Result<bool, AllocError>
    requires { IsProject (loaded_in follower.now) }
    ensures { IfOk result (λ b. b ≡ gains (project (loaded_in follower.now)) variable.now (maker_view maker.now)) }
{
    let sources = Sources {
        files: follower.files,
        trees: follower.trees,
    };
    if !maker.sure || !has_lists(follower.alloc, sources, &maker.place)? {
        return Ok(false);
    }
    is_read_here(follower, variable, &maker.place)
}

/// The place of the value of a maker, if it gains what is added to the variable.
fn gained(
    follower: &Follower<'_>,
    variable: &Variable,
    maker: &Maker<'_>,
) -> Result<Option<CallRef>, AllocError>
    requires { IsProject (loaded_in follower.now) }
    ensures { IfOk result (λ o. o ≡ gained (project (loaded_in follower.now)) variable.now (maker_view maker.now)) }
{
    if gains(follower, variable, maker)? {
        Ok(Some(copy_place(follower.alloc, &maker.place)?))
    } else {
        Ok(None)
    }
}

/// The same of some makers.
fn gained_by(
    follower: &Follower<'_>,
    variable: &Variable,
    makers: &[Maker<'_>],
) -> Result<Vec<CallRef>, AllocError>
    requires { IsProject (loaded_in follower.now) }
    ensures { IfOk result (λ found. found.items ≡ filter_map (gained (project (loaded_in follower.now)) variable.now) (map maker_view makers.now)) }
{
    let mut found = Vec::new(follower.alloc);
    for i in 0..makers.len() {
        if let Some(place) = gained(follower, variable, &makers[i])? {
            found.push(place)?;
        }
    }
    Ok(found)
}

/// The places of the values of those makers of a variable that gain what is added to it.
fn gaining_values(follower: &Follower<'_>, variable: &Variable) -> Result<Vec<CallRef>, AllocError>
    requires { IsProject (loaded_in follower.now) }
    ensures { IfOk result (λ found. found.items ≡ gaining_values (project (loaded_in follower.now)) variable.now) }
{
    let makers = makers_of(follower, variable)?;
    gained_by(follower, variable, makers.as_slice())
}

/// The first of some places.
fn first_of(alloc: Global, places: &[CallRef]) -> Result<Option<CallRef>, AllocError>
    ensures { IfOk result (λ o. o ≡ first_of places.now) }
{
    match places.first() {
        Some(place) => Ok(Some(copy_place(alloc, place)?)),
        None => Ok(None),
    }
}

/// The place of the value that gains what is added to a variable: the first one, unless another one has all of some values.
fn gaining_value(
    follower: &Follower<'_>,
    values: &[Given],
    variable: &Variable,
) -> Result<Option<CallRef>, AllocError>
    requires { IsProject (loaded_in follower.now) }
    ensures { let l = loaded_in follower.now in IfOk result (λ o. o ≡ gaining_value l.files (project l) values.now variable.now) }
{
    let sources = Sources {
        files: follower.files,
        trees: follower.trees,
    };
    let found = gaining_values(follower, variable)?;
    match first_with_all(follower.alloc, sources, values, found.as_slice())? {
        Some(place) => Ok(Some(place)),
        None => first_of(follower.alloc, found.as_slice()),
    }
}

/// The places of the values that gain what is added to some variables.
fn values_of_all(
    follower: &Follower<'_>,
    values: &[Given],
    variables: &[Variable],
) -> Result<Vec<CallRef>, AllocError>
    requires { IsProject (loaded_in follower.now) }
    ensures { let l = loaded_in follower.now in IfOk result (λ found. found.items ≡ filter_map (gaining_value l.files (project l) values.now) variables.now) }
{
    let mut found = Vec::new(follower.alloc);
    for i in 0..variables.len() {
        if let Some(place) = gaining_value(follower, values, &variables[i])? {
            found.push(place)?;
        }
    }
    Ok(found)
}

/// The place of the value of a variable that gains what is added to the value at a place. None where that has a list itself, or where no variable gains it.
pub(crate) fn gaining_at(
    follower: &Follower<'_>,
    values: &[Given],
    place: &CallRef,
) -> Result<Option<CallRef>, AllocError>
    requires { IsProject (loaded_in follower.now) }
    ensures { let l = loaded_in follower.now in IfOk result (λ o. o ≡ gaining_at l.files (project l) values.now place.now) }
{
    let sources = Sources {
        files: follower.files,
        trees: follower.trees,
    };
    if has_lists(follower.alloc, sources, place)? {
        return Ok(None);
    }
    let variables = variables_at(follower, values, place)?;
    let found = values_of_all(follower, values, variables.as_slice())?;
    gaining_among(follower.alloc, sources, values, found.as_slice())
}
