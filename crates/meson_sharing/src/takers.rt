//! Which values are made of the values of assignments.

ghost use Rattle.std.specs.Prelude.{◌≡◌, ◌&&◌, ◌∷◌, ◌++◌, [], if◌then◌else◌, not, IfOk, OnOk};
ghost use Rattle.std.specs.List.{list_any};
ghost use Rattle.meson_calls.specs.ChosenNotes.{Source, placed_call};
ghost use Rattle.meson_calls.specs.Loading.{IsProject, loaded_from};
ghost use Rattle.meson_following.specs.CodeFollowing.{followed_project};
ghost use Rattle.meson_sharing.specs.CodeWays.{is_way_in};
ghost use Rattle.meson_following.specs.Following.{one_of_places};
ghost use Rattle.meson_sharing.specs.Sharing.{is_way_of_makers, takers_of, takes_at, ways_at, ways_of_target};

use crate::ways::Ways;
use meson_calls::CallRef;
use meson_calls::arguments::behind_first;
use meson_calls::place::copy_place;
use meson_following::Follower;
use meson_following::makers::is_one_of;
use meson_syntax::List;
use std::alloc::{AllocError, Global};

/// Whether one of some places is one of others.
fn has_one_of(places: &[CallRef], others: &[CallRef]) -> bool
    ensures { result ≡ list_any (one_of_places others.now) places.now }
{
    for place in places {
        if is_one_of(others, place) {
            return true;
        }
    }
    false
}

/// Keeps a place, if so.
fn keep_if(
    alloc: Global,
    keeps: bool,
    place: &CallRef,
    kept: &mut Vec<CallRef>,
) -> Result<(), AllocError>
    ensures { OnOk result (kept.new.items ≡ kept.old.items ++ (if keeps then place.now ∷ [] else [])) }
{
    if keeps {
        kept.push(copy_place(alloc, place)?)?;
    }
    Ok(())
}

/// The ways of the expression at a place.
pub(crate) fn ways_at(follower: &Follower<'_>, place: &CallRef) -> Result<Vec<CallRef>, AllocError>
    requires { IsProject (loaded_from follower.now.files.now follower.now.trees.now) }
    ensures { IfOk result (λ ways. ways.items ≡ ways_at (followed_project follower.now) place.now) }
{
    let mut found = Vec::new(follower.alloc);
    let Some(value) = follower.value_at(place) else {
        return Ok(found);
    };
    let ways = Ways {
        alloc: follower.alloc,
        file: place.file,
        source: value.source,
    };
    let mut path = Vec::from_slice(follower.alloc, place.path.steps.get())?;
    ways.in_expr(value.expr, &mut path, &mut found)?;
    Ok(found)
}

/// The ways of the sources of the target whose call at a place has these arguments.
///
/// # Errors
/// Out of memory.
pub fn ways_of_sources(
    alloc: Global,
    call: &CallRef,
    source: &[u8],
    arguments: &List,
) -> Result<Vec<CallRef>, AllocError>
    ensures { (function : Source) → IfOk result (λ ways. ways.items ≡ ways_of_target (placed_call call.now function source.now arguments.now)) }
{
    let args = arguments.items.get();
    let ways = Ways {
        alloc,
        file: call.file,
        source,
    };
    let mut path = Vec::from_slice(alloc, call.path.steps.get())?;
    let mut found = Vec::new(alloc);
    ways.in_arguments(None, behind_first(args), args, &mut path, &mut found)?;
    ways.in_arguments(Some(b"sources".as_slice()), 0, args, &mut path, &mut found)?;
    Ok(found)
}

/// Whether a way of the value at a place is at one of these places.
fn takes_at(follower: &Follower<'_>, seen: &[CallRef], value: &CallRef) -> Result<bool, AllocError>
    requires { IsProject (loaded_from follower.now.files.now follower.now.trees.now) }
    ensures { IfOk result (λ is. is ≡ takes_at (followed_project follower.now) seen.now value.now) }
{
    let ways = ways_at(follower, value)?;
    Ok(has_one_of(seen, ways.as_slice()))
}

/// Whether a value is not among the makers and takes the value of one of them, which may be read at the places `seen`.
fn is_taker(
    follower: &Follower<'_>,
    makers: &[CallRef],
    seen: &[CallRef],
    value: &CallRef,
) -> Result<bool, AllocError>
    requires { IsProject (loaded_from follower.now.files.now follower.now.trees.now) }
    ensures { IfOk result (λ is. is ≡ (not (one_of_places makers.now value.now) && takes_at (followed_project follower.now) seen.now value.now)) }
{
    if is_one_of(makers, value) {
        return Ok(false);
    }
    takes_at(follower, seen, value)
}

/// Of all these values, those that are not among the makers and take the value of one of them.
pub(crate) fn takers_of(
    follower: &Follower<'_>,
    all: &[CallRef],
    makers: &[CallRef],
    seen: &[CallRef],
) -> Result<Vec<CallRef>, AllocError>
    requires { IsProject (loaded_from follower.now.files.now follower.now.trees.now) }
    ensures { IfOk result (λ takers. takers.items ≡ takers_of (followed_project follower.now) all.now makers.now seen.now) }
{
    let mut takers = Vec::new(follower.alloc);
    for value in all {
        let takes = is_taker(follower, makers, seen, value)?;
        keep_if(follower.alloc, takes, value, &mut takers)?;
    }
    Ok(takers)
}

/// Whether a place is a way of the value at one of these places.
fn is_way_of_makers(
    follower: &Follower<'_>,
    makers: &[CallRef],
    place: &CallRef,
) -> Result<bool, AllocError>
    requires { IsProject (loaded_from follower.now.files.now follower.now.trees.now) }
    ensures { IfOk result (λ is. is ≡ is_way_of_makers (followed_project follower.now) makers.now place.now) }
{
    for maker in makers {
        let ways = ways_at(follower, maker)?;
        if is_one_of(ways.as_slice(), place) {
            return Ok(true);
        }
    }
    Ok(false)
}

/// Whether a place is one of these ways of a call, or a way of the value at one of these places.
pub(crate) fn is_way(
    follower: &Follower<'_>,
    ways: &[CallRef],
    makers: &[CallRef],
    place: &CallRef,
) -> Result<bool, AllocError>
    requires { IsProject (loaded_from follower.now.files.now follower.now.trees.now) }
    ensures { IfOk result (λ is. is ≡ is_way_in (followed_project follower.now) ways.now makers.now place.now) }
{
    if is_one_of(ways, place) {
        return Ok(true);
    }
    is_way_of_makers(follower, makers, place)
}
