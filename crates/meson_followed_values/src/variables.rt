//! The variables of a value: the value itself, or the operands of the sum that it is.

ghost use Rattle.std.specs.Prelude.{◌≡◌, IfOk, option_map};
ghost use Rattle.std.specs.List.{filter_map};
ghost use Rattle.meson_syntax.specs.Grammar.{expression_words};
ghost use Rattle.meson_calls.specs.Strings.{AreGood};
ghost use Rattle.meson_calls.specs.Loading.{IsProject, project};
ghost use Rattle.meson_calls.specs.Project.{placed};
ghost use Rattle.meson_places.specs.inside.Behind.{IsFoundAt, found_value};
ghost use Rattle.meson_followed_values.specs.CodeFollower.{loaded_in};
ghost use Rattle.meson_followed_values.specs.Makers.{read_at, variable_at, variable_in, variables_at};
ghost use Rattle.meson_places.specs.Behind.{variable_of};

use meson_calls::CallRef;
use meson_calls::place::copy_place;
use meson_calls::roles::{identifier_text, text_of};
use meson_following::Follower;
use meson_places::Sources;
use meson_places::known::{Known, any_known};
use meson_places::operands::operands_at;
use meson_places::variables::{FoundValue, find_value};
use meson_splice::Text;
use meson_steps::given::Given;
use meson_syntax::Expr;
use std::alloc::{AllocError, Global};

/// A variable, and the place where it is read.
#[derive(Drop)]
pub(crate) struct Variable {
    pub name: Text,
    pub read_at: CallRef,
}

/// The variable that the value at a place is.
fn variable_of(
    alloc: Global,
    place: &CallRef,
    found: FoundValue<'_>,
) -> Result<Option<Variable>, AllocError>
    requires { AreGood (expression_words (found_value found)) }
    ensures { IfOk result (λ o. o ≡ option_map (read_at place.now) (variable_of (found_value found.entry))) }
{
    match found.value {
        Expr::Identifier(name) => {
            let name = String::from_str(alloc, identifier_text(text_of(found.source, *name)))?;
            Ok(Some(Variable {
                name: Text::of(name),
                read_at: copy_place(alloc, place)?,
            }))
        }
        _ => Ok(None),
    }
}

/// The same, unless the value says one of some values itself.
fn variable_in(
    follower: &Follower<'_>,
    values: &[Given],
    place: &CallRef,
    found: FoundValue<'_>,
) -> Result<Option<Variable>, AllocError>
    requires { IsFoundAt follower.now.files.now place.now found }
    ensures { IfOk result (λ o. o ≡ variable_in follower.now.files.now values.now (placed place.now (found_value found.entry))) }
{
    let value = Known::Value(found.value);
    if any_known(follower.alloc, found.source, value, values)? {
        return Ok(None);
    }
    variable_of(follower.alloc, place, found)
}

/// The variable at a place, unless it says one of some values itself.
fn variable_at(
    follower: &Follower<'_>,
    values: &[Given],
    place: &CallRef,
) -> Result<Option<Variable>, AllocError>
    requires { IsProject (loaded_in follower.now) }
    ensures { let l = loaded_in follower.now in IfOk result (λ o. o ≡ variable_at l.files (project l) values.now place.now) }
{
    let sources = Sources {
        files: follower.files,
        trees: follower.trees,
    };
    match find_value(sources, place) {
        Some(found) => variable_in(follower, values, place, found),
        None => Ok(None),
    }
}

/// The variables at some places that say none of some values themselves.
fn variables_among(
    follower: &Follower<'_>,
    values: &[Given],
    places: &[CallRef],
) -> Result<Vec<Variable>, AllocError>
    requires { IsProject (loaded_in follower.now) }
    ensures { let l = loaded_in follower.now in IfOk result (λ vs. vs.items ≡ filter_map (variable_at l.files (project l) values.now) places.now) }
{
    let mut variables = Vec::new(follower.alloc);
    for i in 0..places.len() {
        if let Some(variable) = variable_at(follower, values, &places[i])? {
            variables.push(variable)?;
        }
    }
    Ok(variables)
}

/// The variables of the value at a place that say none of some values themselves, from left to right.
pub(crate) fn variables_at(
    follower: &Follower<'_>,
    values: &[Given],
    place: &CallRef,
) -> Result<Vec<Variable>, AllocError>
    requires { IsProject (loaded_in follower.now) }
    ensures { let l = loaded_in follower.now in IfOk result (λ vs. vs.items ≡ variables_at l.files (project l) values.now place.now) }
{
    let alloc = follower.alloc;
    let sources = Sources {
        files: follower.files,
        trees: follower.trees,
    };
    let mut operands = operands_at(alloc, sources, place)?;
    let mut places = Vec::new(alloc);
    places.push(copy_place(alloc, place)?)?;
    places.append(&mut operands)?;
    variables_among(follower, values, places.as_slice())
}
