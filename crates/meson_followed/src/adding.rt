//! Sources added to a target, where variables are followed.

ghost use Rattle.std.specs.Prelude.{◌≡◌, ◌<◌, ◌^◌, All, IfErr, IfOk, Some, false, map, true};
ghost use Rattle.std.specs.Str.{IsUtf8};
ghost use Rattle.meson_syntax.specs.View.{list_view};
ghost use Rattle.meson_calls.specs.ChosenNotes.{Source, placed_call};
ghost use Rattle.meson_calls.specs.GoodLists.{GoodListing};
ghost use Rattle.meson_calls.specs.Loading.{IsProject, loaded_from};
ghost use Rattle.meson_calls.specs.Refusals.{RefusedAs};
ghost use Rattle.meson_following.specs.CodeFollowing.{followed_project, mark_view};
ghost use Rattle.meson_sharing.specs.CodeOwning.{is_closed_by};
ghost use Rattle.meson_sources.specs.SourceEdits.{inserted_in, plain_len};
ghost use Rattle.meson_steps.specs.ListSteps.{bare};
ghost use Rattle.meson_steps.specs.Meanings.{AreMeant};
ghost use Rattle.meson_followed.specs.CodeEdits.{IsAddition};
ghost use Rattle.meson_followed.specs.FollowedEdits.{followed_added};
ghost use Rattle.meson_followed.specs.Homes.{home_by, homes_of};

use crate::asking::{Asking, any_home};
use crate::homes::homes_of;
use crate::named::new_sources;
use crate::sources::sources_of;
use meson_calls::arguments::at_most_once;
use meson_calls::place::copy_place;
use meson_calls::{CallRef, Refusal};
use meson_following::{Follower, Mark};
use meson_sharing::ways_of_sources;
use meson_sources::editing::count_plain;
use meson_sources::inserting::insert;
use meson_splice::Text;
use meson_steps::names::checked_names;
use meson_steps::source_change::SharedLists;
use meson_steps::step::ListStep;
use meson_syntax::List;
use std::alloc::AllocError;

/// Names that are added to the sources of a target: the list that gets them, if there are any, and those that are not there yet in each evaluation, each path once.
#[derive(Drop)]
pub(crate) struct Addition<'n> {
    pub list: CallRef,
    pub new: Vec<&'n Text>,
}

/// The number of elements without a name in the list at a place.
fn plain_len(follower: &Follower<'_>, list: &CallRef) -> usize
    requires { IsProject (loaded_from follower.now.files.now follower.now.trees.now) }
    ensures small { result < 2 ^ 63 }
    ensures counted { result ≡ plain_len (followed_project follower.now) list.now }
{
    let trees = follower.trees;
    if list.file >= trees.len() {
        return 0;
    }
    match trees[list.file].list_at(&list.path) {
        Some(list) => count_plain(list.items.get()),
        None => 0,
    }
}

/// The steps that add names to a list, after its elements without a name.
fn insertions(
    follower: &Follower<'_>,
    list: &CallRef,
    names: &[&Text],
) -> Result<Vec<ListStep>, Refusal>
    requires { IsProject (loaded_from follower.now.files.now follower.now.trees.now) }
    ensures done { IfOk result (λ steps. map Some steps.items
        ≡ map bare (inserted_in (followed_project follower.now) list.now (map (λ x. x.now) names.now))) }
    ensures refused { IfErr result (λ e. e ≡ Refusal.OutOfMemory) }
{
    let mut steps = Vec::new(follower.alloc);
    let from = plain_len(follower, list);
    insert(follower.alloc, list, from, names, &mut steps)?;
    Ok(steps)
}

/// The list that gets further sources, of those that are met in the sources of a call which follows these values and has these ways.
fn find_home(
    follower: &Follower<'_>,
    call: &CallRef,
    followed: &[CallRef],
    ways: &[CallRef],
    shared: SharedLists,
    marks: &[Mark],
) -> Result<CallRef, AllocError>
    requires { IsProject (loaded_from follower.now.files.now follower.now.trees.now) }
    ensures { IfOk result (λ list. list ≡ home_by (is_closed_by (followed_project follower.now) false followed.now ways.now)
        (is_closed_by (followed_project follower.now) true followed.now ways.now) shared call.now (homes_of call.now.file (map mark_view marks.now))) }
{
    let homes = homes_of(follower.alloc, call.file, marks)?;
    let own = Asking {
        follower: *follower,
        with_uses: false,
        followed,
        ways,
    };
    if let Some(list) = own.best_home(&homes)? {
        return Ok(list);
    }
    let unshared = Asking {
        follower: *follower,
        with_uses: true,
        followed,
        ways,
    };
    if let Some(list) = unshared.best_home(&homes)? {
        return Ok(list);
    }
    if let Some(list) = any_home(follower.alloc, shared, &homes)? {
        return Ok(list);
    }
    copy_place(follower.alloc, call)
}

/// How names are added to the sources of the target whose call at a place has these arguments. The list is not looked for where no name is new.
fn addition_of<'t, 'n>(
    follower: &Follower<'t>,
    call: &CallRef,
    source: &'t [u8],
    arguments: &List,
    shared: SharedLists,
    names: &'n [Text],
) -> Result<Addition<'n>, AllocError>
    requires project { IsProject (loaded_from follower.now.files.now follower.now.trees.now) }
    requires good { GoodListing (list_view source.now arguments.now) }
    ensures { (function : Source) → IfOk result (λ a. IsAddition (followed_project follower.now)
        (placed_call call.now function source.entry.now arguments.now) shared names.entry.now a) }
{
    let found = follower.follow_call(call, source, arguments)?;
    let marks = found.marks.as_slice();
    let sources = sources_of(follower, call.file, marks)?;
    let new = new_sources(follower, call.file, sources.as_slice(), names)?;
    if new.is_empty() {
        let list = copy_place(follower.alloc, call)?;
        return Ok(Addition { list, new });
    }
    let ways = ways_of_sources(follower.alloc, call, source, arguments)?;
    let followed = found.followed.as_slice();
    let list = find_home(follower, call, followed, ways.as_slice(), shared, marks)?;
    Ok(Addition { list, new })
}

/// The steps that add sources to the target whose call at a place has these arguments.
///
/// # Errors
/// A name is empty, `sources:` is there twice, or out of memory.
pub fn sources_added<'t>(
    follower: &Follower<'t>,
    call: &CallRef,
    source: &'t [u8],
    arguments: &List,
    shared: SharedLists,
    names: &[Text],
) -> Result<Vec<ListStep>, Refusal>
    requires project { IsProject (loaded_from follower.now.files.now follower.now.trees.now) }
    requires good { GoodListing (list_view source.now arguments.now) }
    ensures meant { (function : Source) → IfOk result (λ steps. AreMeant (followed_added (followed_project follower.now)
        (placed_call call.now function source.entry.now arguments.now) shared names.now) steps.items) }
    ensures refused { (function : Source) → RefusedAs result (followed_added (followed_project follower.now)
        (placed_call call.now function source.entry.now arguments.now) shared names.now) }
    ensures utf8 { IfOk result (λ steps. All IsUtf8 names.now) }
{
    checked_names(names)?;
    at_most_once(follower.alloc, source, arguments, b"sources".as_slice())?;
    let addition = addition_of(follower, call, source, arguments, shared, names)?;
    insertions(follower, &addition.list, addition.new.as_slice())
}
