//! Sources that get another name, where variables are followed.

ghost use Rattle.std.specs.Prelude.{◌≡◌, ◌≢◌, ◌++◌, ◌∷◌, [], All, IfErr, IfOk, OnOk, Ok, Some, false, map, true};
ghost use Rattle.std.specs.List.{list_any};
ghost use Rattle.std.specs.Str.{IsUtf8};
ghost use Rattle.meson_syntax.specs.View.{list_view};
ghost use Rattle.meson_calls.specs.ChosenNotes.{Source, placed_call};
ghost use Rattle.meson_calls.specs.GoodLists.{GoodListing};
ghost use Rattle.meson_calls.specs.Loading.{IsProject, loaded_from};
ghost use Rattle.meson_calls.specs.Refusals.{RefusedAs};
ghost use Rattle.meson_following.specs.CodeFollowing.{followed_project, mark_view};
ghost use Rattle.meson_following.specs.Following.{follow_marks};
ghost use Rattle.meson_sources.specs.SourceEdits.{renaming};
ghost use Rattle.meson_sources.specs.inside.CodeSpots.{spot_view};
ghost use Rattle.meson_steps.specs.ListSteps.{bare};
ghost use Rattle.meson_steps.specs.Meanings.{AreMeant};
ghost use Rattle.meson_steps.specs.Names.{checked_names};
ghost use Rattle.meson_followed.specs.CodeEdits.{met_view};
ghost use Rattle.meson_followed.specs.CodeRemovals.{removal_view};
ghost use Rattle.meson_followed.specs.CodeRenamings.{written_for, written_names};
ghost use Rattle.meson_followed.specs.Renaming.{followed_renamed, if_fresh, renamed_from, renamed_steps};
ghost use Rattle.meson_followed.specs.Sources.{has_path, named_path, sources_of};

use crate::asking::Asking;
use crate::removals::{Removal, removals_named};
use crate::removing::check_if_kept;
use crate::sources::{MetSource, name_for, path_in, sources_of};
use meson_calls::arguments::at_most_once;
use meson_calls::place::place_of;
use meson_calls::{CallRef, Refusal};
use meson_following::{Follower, Mark};
use meson_sharing::ways_of_sources;
use meson_sources::removing::ElementSpot;
use meson_sources::renaming::Renaming;
use meson_splice::Text;
use meson_steps::literals::written_text;
use meson_steps::names::checked_names;
use meson_steps::source_change::SharedLists;
use meson_steps::step::{ListEdit, ListStep, push_step};
use meson_syntax::List;
use std::alloc::Global;
use std::slice;

/// Refuses an empty name.
///
/// # Errors
/// A name is empty.
fn check_names(names: Renaming<'_>) -> Result<(), Refusal>
    ensures { result ≡ checked_names (names.entry.old.now ∷ names.entry.new.now ∷ []) }
{
    checked_names(slice::from_ref(names.old))?;
    checked_names(slice::from_ref(names.new))
}

/// Adds the step that writes a name in the place of an element.
///
/// # Errors
/// Out of memory.
fn push_renaming(
    alloc: Global,
    spot: &ElementSpot,
    name: &Text,
    steps: &mut Vec<ListStep>,
) -> Result<(), Refusal>
    ensures done { OnOk result (map Some steps.new.items ≡ map Some steps.old.items ++ bare (renaming name.now (spot_view spot.now)) ∷ []) }
    ensures utf8 { OnOk result (IsUtf8 name.now) }
    ensures refused { IfErr result (λ e. e ≡ Refusal.OutOfMemory) }
{
    let list = place_of(alloc, spot.file, spot.list.as_slice())?;
    let new = written_text(alloc, name)?;
    push_step(steps, list, ListEdit::Replace(spot.number, new))?;
    Ok(())
}

/// The steps that write a name in the place of each of these elements: the one that means there what this name means in the file of this number.
///
/// # Errors
/// Out of memory.
fn renamed_steps(
    follower: &Follower<'_>,
    number: usize,
    new: &Text,
    found: &[Removal],
) -> Result<Vec<ListStep>, Refusal>
    requires { IsProject (loaded_from follower.now.files.now follower.now.trees.now) }
    ensures done { IfOk result (λ steps. map Some steps.items
        ≡ map bare (renamed_steps (followed_project follower.now) number new.now (map removal_view found.now))) }
    ensures utf8 { IfOk result (λ steps. All IsUtf8 (written_for (followed_project follower.now) number new.now (map removal_view found.now))) }
    ensures refused { IfErr result (λ e. e ≡ Refusal.OutOfMemory) }
{
    let mut steps = Vec::new(follower.alloc);
    for i in 0..found.len() {
        let element = &found[i];
        let name = name_for(follower, number, new, element.base)?;
        push_renaming(follower.alloc, &element.spot, &name, &mut steps)?;
    }
    Ok(steps)
}

/// Whether a source has this path.
fn has_source_at(sources: &[MetSource<'_>], path: &Text) -> bool
    ensures { result ≡ list_any (has_path path.now) (map met_view sources.now) }
{
    for i in 0..sources.len() {
        if sources[i].path == *path {
            return true;
        }
    }
    false
}

/// Refuses a name that means the path of a source, of those that a target in the file of this number meets.
///
/// # Errors
/// A source has its path, or out of memory.
fn refuse_known(
    follower: &Follower<'_>,
    number: usize,
    marks: &[Mark],
    new: &Text,
) -> Result<(), Refusal>
    requires { IsProject (loaded_from follower.now.files.now follower.now.trees.now) }
    ensures fresh { OnOk result (list_any (has_path (named_path (followed_project follower.now) number new.now))
        (sources_of (followed_project follower.now) number (map mark_view marks.now)) ≡ false) }
    ensures taken { IfErr result (λ e. e ≢ Refusal.OutOfMemory → (e ≡ Refusal.ThereAlready)
        × (list_any (has_path (named_path (followed_project follower.now) number new.now))
        (sources_of (followed_project follower.now) number (map mark_view marks.now)) ≡ true)) }
{
    let sources = sources_of(follower, number, marks)?;
    let path = path_in(follower, number, new.get())?;
    if has_source_at(sources.as_slice(), &path) {
        return Err(Refusal::ThereAlready);
    }
    Ok(())
}

/// The steps that rename the sources at the path of a name, of the target whose call at a place has these arguments.
fn renamed_from<'t>(
    follower: &Follower<'t>,
    call: &CallRef,
    source: &'t [u8],
    arguments: &List,
    shared: SharedLists,
    names: Renaming<'_>,
) -> Result<Vec<ListStep>, Refusal>
    requires project { IsProject (loaded_from follower.now.files.now follower.now.trees.now) }
    requires good { GoodListing (list_view source.now arguments.now) }
    ensures meant { (function : Source) → IfOk result (λ steps. AreMeant (renamed_from (followed_project follower.now)
        (placed_call call.now function source.entry.now arguments.now) shared
        (follow_marks (followed_project follower.now) (placed_call call.now function source.entry.now arguments.now))
        names.entry.old.now names.entry.new.now) steps.items) }
    ensures refused { (function : Source) → RefusedAs result (renamed_from (followed_project follower.now)
        (placed_call call.now function source.entry.now arguments.now) shared
        (follow_marks (followed_project follower.now) (placed_call call.now function source.entry.now arguments.now))
        names.entry.old.now names.entry.new.now) }
    ensures utf8 { (function : Source) → IfOk result (λ steps. All IsUtf8 (written_names (followed_project follower.now)
        (placed_call call.now function source.entry.now arguments.now) names.entry.old.now names.entry.new.now)) }
{
    let met = follower.follow_call(call, source, arguments)?;
    let ways = ways_of_sources(follower.alloc, call, source, arguments)?;
    let marks = met.marks.as_slice();
    let found = removals_named(follower, call.file, marks, slice::from_ref(names.old))?;
    let asking = Asking {
        follower: *follower,
        with_uses: true,
        followed: met.followed.as_slice(),
        ways: ways.as_slice(),
    };
    check_if_kept(&asking, shared, found.as_slice())?;
    refuse_known(follower, call.file, marks, names.new)?;
    renamed_steps(follower, call.file, names.new, found.as_slice())
}

/// The steps that rename sources of the target whose call at a place has these arguments, in whatever list they are.
///
/// # Errors
/// A name is empty, `sources:` is there twice, or out of memory. Or the old name is not one of the sources, or is one that is in no list, or in one that another
/// target gets too; or the new name is that of a source.
pub fn sources_renamed<'t>(
    follower: &Follower<'t>,
    call: &CallRef,
    source: &'t [u8],
    arguments: &List,
    shared: SharedLists,
    names: Renaming<'_>,
) -> Result<Vec<ListStep>, Refusal>
    requires project { IsProject (loaded_from follower.now.files.now follower.now.trees.now) }
    requires good { GoodListing (list_view source.now arguments.now) }
    ensures meant { (function : Source) → IfOk result (λ steps. AreMeant (followed_renamed (followed_project follower.now)
        (placed_call call.now function source.entry.now arguments.now) shared names.entry.old.now names.entry.new.now) steps.items) }
    ensures refused { (function : Source) → RefusedAs result (followed_renamed (followed_project follower.now)
        (placed_call call.now function source.entry.now arguments.now) shared names.entry.old.now names.entry.new.now) }
    ensures utf8 { (function : Source) → IfOk result (λ steps. All IsUtf8 (written_names (followed_project follower.now)
        (placed_call call.now function source.entry.now arguments.now) names.entry.old.now names.entry.new.now)) }
{
    check_names(names)?;
    at_most_once(follower.alloc, source, arguments, b"sources".as_slice())?;
    renamed_from(follower, call, source, arguments, shared, names)
}
