//! Sources removed from a target, where variables are followed.

ghost use Rattle.std.specs.Prelude.{◌≡◌, [], All, IfOk, Ok, Some, map};
ghost use Rattle.std.specs.List.{list_any};
ghost use Rattle.std.specs.Str.{IsUtf8};
ghost use Rattle.meson_syntax.specs.View.{list_view};
ghost use Rattle.meson_calls.specs.ChosenNotes.{Source, placed_call};
ghost use Rattle.meson_calls.specs.GoodLists.{GoodListing};
ghost use Rattle.meson_calls.specs.Loading.{IsProject, loaded_from};
ghost use Rattle.meson_calls.specs.Refusals.{RefusedAs};
ghost use Rattle.meson_following.specs.CodeFollowing.{followed_project};
ghost use Rattle.meson_following.specs.Following.{follow_marks};
ghost use Rattle.meson_sources.specs.Effects.{same_spot};
ghost use Rattle.meson_sources.specs.inside.CodeSpots.{spot_view};
ghost use Rattle.meson_steps.specs.ListSteps.{bare};
ghost use Rattle.meson_steps.specs.Meanings.{AreMeant};
ghost use Rattle.meson_followed.specs.CodeEdits.{asked};
ghost use Rattle.meson_followed.specs.CodeRemovals.{all_pass, pass_if_kept, removal_view};
ghost use Rattle.meson_followed.specs.FollowedEdits.{each_once, followed_removed, maker_name, removed_from, removed_steps};

use crate::asking::Asking;
use crate::removals::{Removal, removals_named};
use meson_calls::arguments::at_most_once;
use meson_calls::{CallRef, Refusal};
use meson_following::Follower;
use meson_sharing::{variable_text, ways_of_sources};
use meson_sources::removing::{ElementSpot, removals};
use meson_splice::Text;
use meson_steps::names::checked_names;
use meson_steps::source_change::SharedLists;
use meson_steps::step::ListStep;
use meson_syntax::List;
use std::alloc::{AllocError, Global};

/// The name of the variable to which the value of a maker is assigned; the empty text if it is assigned to no variable.
fn maker_name(follower: &Follower<'_>, maker: &Option<CallRef>) -> Result<Text, AllocError>
    requires { IsProject (loaded_from follower.now.files.now follower.now.trees.now) }
    ensures { IfOk result (λ name. name ≡ maker_name (followed_project follower.now) maker.now) }
{
    if let Some(maker) = maker {
        if let Some(name) = variable_text(follower, maker)? {
            return Ok(name);
        }
    }
    Ok(Text::of(String::new(follower.alloc)))
}

/// Checks that each of these elements is in the call itself, or in a list that is read for it alone.
///
/// # Errors
/// One is in another list, or out of memory.
fn check_each(asking: &Asking<'_>, removals: &[Removal]) -> Result<(), Refusal>
    requires { IsProject (loaded_from asking.now.follower.files.now asking.now.follower.trees.now) }
    ensures pass { IfOk result (λ _. all_pass (followed_project asking.now.follower) (asked asking.now) (map removal_view removals.now) ≡ Ok tt) }
    ensures refused { RefusedAs result (all_pass (followed_project asking.now.follower) (asked asking.now) (map removal_view removals.now)) }
{
    let mut last = None;
    for i in 0..removals.len() {
        let removal = &removals[i];
        if !asking.ask(&removal.maker, &mut last)? {
            let name = maker_name(&asking.follower, &removal.maker)?;
            return Err(Refusal::Shared(name));
        }
    }
    Ok(())
}

/// The same, if shared lists are kept.
pub(crate) fn check_if_kept(
    asking: &Asking<'_>,
    shared: SharedLists,
    removals: &[Removal],
) -> Result<(), Refusal>
    requires { IsProject (loaded_from asking.now.follower.files.now asking.now.follower.trees.now) }
    ensures pass { IfOk result (λ _. pass_if_kept (followed_project asking.now.follower) (asked asking.now) shared (map removal_view removals.now) ≡ Ok tt) }
    ensures refused { RefusedAs result (pass_if_kept (followed_project asking.now.follower) (asked asking.now) shared (map removal_view removals.now)) }
{
    match shared {
        SharedLists::Kept => check_each(asking, removals),
        SharedLists::Changed => Ok(()),
    }
}

/// Whether two spots are one element.
fn is_same_spot(spot: &ElementSpot, other: &ElementSpot) -> bool
    ensures { result ≡ same_spot (spot_view spot.now) (spot_view other.now) }
{
    spot.file == other.file && (spot.list == other.list && spot.number == other.number)
}

/// Whether a spot is one of these.
fn has_spot(spots: &[ElementSpot], spot: &ElementSpot) -> bool
    ensures { result ≡ list_any (same_spot (spot_view spot.now)) (map spot_view spots.now) }
{
    for other in spots {
        if is_same_spot(spot, other) {
            return true;
        }
    }
    false
}

/// The elements that are removed, each once.
fn spots_of(alloc: Global, found: Vec<Removal>) -> Result<Vec<ElementSpot>, AllocError>
    ensures { IfOk result (λ spots. map spot_view spots.items ≡ each_once [] (map (λ r. r.spot) (map removal_view found.items))) }
{
    let mut spots = Vec::new(alloc);
    for removal in found {
        if !has_spot(spots.as_slice(), &removal.spot) {
            spots.push(removal.spot)?;
        }
    }
    Ok(spots)
}

/// The steps that remove elements one after the other, each from its place at that time.
fn removed_steps(alloc: Global, found: Vec<Removal>) -> Result<Vec<ListStep>, AllocError>
    ensures { IfOk result (λ steps. map Some steps.items ≡ map bare (removed_steps (map removal_view found.items))) }
{
    let spots = spots_of(alloc, found)?;
    removals(alloc, spots.as_slice())
}

/// The steps that remove the sources at the paths of names from the target whose call at a place has these arguments.
fn removed_from<'t>(
    follower: &Follower<'t>,
    call: &CallRef,
    source: &'t [u8],
    arguments: &List,
    shared: SharedLists,
    names: &[Text],
) -> Result<Vec<ListStep>, Refusal>
    requires project { IsProject (loaded_from follower.now.files.now follower.now.trees.now) }
    requires good { GoodListing (list_view source.now arguments.now) }
    ensures meant { (function : Source) → IfOk result (λ steps. AreMeant (removed_from (followed_project follower.now)
        (placed_call call.now function source.entry.now arguments.now) shared
        (follow_marks (followed_project follower.now) (placed_call call.now function source.entry.now arguments.now)) names.now) steps.items) }
    ensures refused { (function : Source) → RefusedAs result (removed_from (followed_project follower.now)
        (placed_call call.now function source.entry.now arguments.now) shared
        (follow_marks (followed_project follower.now) (placed_call call.now function source.entry.now arguments.now)) names.now) }
{
    let met = follower.follow_call(call, source, arguments)?;
    let ways = ways_of_sources(follower.alloc, call, source, arguments)?;
    let found = removals_named(follower, call.file, met.marks.as_slice(), names)?;
    let asking = Asking {
        follower: *follower,
        with_uses: true,
        followed: met.followed.as_slice(),
        ways: ways.as_slice(),
    };
    check_if_kept(&asking, shared, found.as_slice())?;
    let steps = removed_steps(follower.alloc, found)?;
    Ok(steps)
}

/// The steps that remove sources from the target whose call at a place has these arguments, in whatever list they are.
///
/// # Errors
/// A name is empty, `sources:` is there twice, or out of memory. Or a name is not one of the sources, or is one that is in no list, or in one that another target
/// gets too.
pub fn sources_removed<'t>(
    follower: &Follower<'t>,
    call: &CallRef,
    source: &'t [u8],
    arguments: &List,
    shared: SharedLists,
    names: &[Text],
) -> Result<Vec<ListStep>, Refusal>
    requires project { IsProject (loaded_from follower.now.files.now follower.now.trees.now) }
    requires good { GoodListing (list_view source.now arguments.now) }
    ensures meant { (function : Source) → IfOk result (λ steps. AreMeant (followed_removed (followed_project follower.now)
        (placed_call call.now function source.entry.now arguments.now) shared names.now) steps.items) }
    ensures refused { (function : Source) → RefusedAs result (followed_removed (followed_project follower.now)
        (placed_call call.now function source.entry.now arguments.now) shared names.now) }
    ensures utf8 { IfOk result (λ steps. All IsUtf8 names.now) }
{
    checked_names(names)?;
    at_most_once(follower.alloc, source, arguments, b"sources".as_slice())?;
    removed_from(follower, call, source, arguments, shared, names)
}
