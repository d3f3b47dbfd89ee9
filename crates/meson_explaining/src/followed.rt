//! The sources of a target where variables are followed, and names that it does not have.

ghost use Rattle.std.specs.Prelude.{◌≡◌, IfOk, Some, filter, find, map, option_map};
ghost use Rattle.meson_calls.specs.CallPlaces.{call_at};
ghost use Rattle.meson_calls.specs.ChosenNotes.{Source, placed_call};
ghost use Rattle.meson_calls.specs.GoodLists.{GoodListing};
ghost use Rattle.meson_calls.specs.Loading.{IsProject, loaded_from};
ghost use Rattle.meson_calls.specs.Searching.{name_at};
ghost use Rattle.meson_explaining.specs.Followed.{absent_notes, followed_items, is_absent, is_absent_in, is_gone, is_memory, item_of, place_of};
ghost use Rattle.meson_explaining.specs.Sources.{missing_note};
ghost use Rattle.meson_followed.specs.Sources.{list_around};
ghost use Rattle.meson_following.specs.CodeFollowing.{followed_project};
ghost use Rattle.meson_sharing.specs.CodeTold.{told_item_view};
ghost use Rattle.meson_syntax.specs.View.{list_view};

use crate::explanation::Note;
use crate::sources::{few_missing, missing_note};
use meson_calls::place::place_of as place_in;
use meson_calls::{BorrowedName, CallRef, Refusal};
use meson_followed::sources_removed;
use meson_following::Follower;
use meson_plan::{Project, Role, told_sources};
use meson_sharing::ToldItem;
use meson_splice::{Many, Text};
use meson_steps::source_change::SharedLists;
use meson_syntax::{Expr, List};
use meson_variables::SourceItem;
use std::alloc::{AllocError, Global};
use std::slice;

/// The place of the one target that is named, if it is one.
///
/// # Errors
/// Out of memory.
pub fn place_of(
    alloc: Global,
    project: &Project,
    name: BorrowedName<'_>,
) -> Result<Option<CallRef>, AllocError>
    ensures { IfOk result (λ place. place ≡ place_of project.now (name_at name.entry)) }
{
    match project.find_one(alloc, Role::Target, name) {
        Ok(target) => Ok(Some(target)),
        Err(Refusal::OutOfMemory) => Err(AllocError),
        Err(_) => Ok(None),
    }
}

/// The place of the list around an element.
fn list_around(alloc: Global, place: &CallRef) -> Result<CallRef, AllocError>
    ensures { IfOk result (λ list. list ≡ list_around place.now) }
{
    let steps = place.path.steps.get();
    place_in(alloc, place.file, &steps[..steps.len().saturating_sub(1)])
}

/// The place of the list of which an item is an element, if it is one.
///
/// # Errors
/// Out of memory.
pub fn list_of(alloc: Global, told: &ToldItem) -> Result<Option<CallRef>, AllocError>
    ensures { IfOk result (λ list. list ≡ (item_of (told_item_view told.now)).list) }
{
    if told.item.listed {
        let list = list_around(alloc, &told.item.place)?;
        Ok(Some(list))
    } else {
        Ok(None)
    }
}

/// The same item as one of those that are known without following.
fn item_of(alloc: Global, told: ToldItem) -> Result<SourceItem, AllocError>
    ensures { IfOk result (λ item. item ≡ item_of (told_item_view told)) }
{
    let list = list_of(alloc, &told)?;
    let ToldItem { item, variable, .. } = told;
    Ok(SourceItem {
        value: item.text,
        file: item.place.file,
        span: item.span,
        list,
        variable,
    })
}

/// The same items.
fn items_of(alloc: Global, told: Vec<ToldItem>) -> Result<Many<SourceItem>, AllocError>
    ensures { IfOk result (λ items. items ≡ map item_of (map told_item_view told.items)) }
{
    let mut items = Vec::new(alloc);
    for one in told {
        items.push(item_of(alloc, one)?)?;
    }
    Ok(Many::of(items))
}

/// The sources of the target at a place; no source where no target stands there.
#[tactic(auto, unfolding(crate::specs::Followed::followed_items))]
pub(crate) fn followed_items(
    alloc: Global,
    project: &Project,
    target: &Option<CallRef>,
) -> Result<Many<SourceItem>, AllocError>
    ensures { IfOk result (λ items. items ≡ followed_items project.now target.now) }
{
    match target {
        Some(place) => {
            let told = told_sources(alloc, project, place)?;
            items_of(alloc, told.items)
        }
        None => Ok(Many::new(alloc)),
    }
}

/// Whether something is refused since it is out of memory.
pub fn is_memory(refusal: &Refusal) -> bool
    ensures { result ≡ is_memory refusal.now }
{
    matches!(refusal, Refusal::OutOfMemory)
}

/// Whether something is refused since no source is there.
fn is_gone(refusal: &Refusal) -> bool
    ensures { result ≡ is_gone refusal.now }
{
    matches!(refusal, Refusal::SourceNotFound | Refusal::Unresolved)
}

/// Whether a name means none of the sources of the target whose call at a place has these arguments.
#[tactic(auto, unfolding(crate::specs::Followed::is_absent_in))]
fn is_absent_of<'t>(
    follower: &Follower<'t>,
    call: &CallRef,
    source: &'t [u8],
    arguments: &List,
    name: &Text,
) -> Result<bool, AllocError>
    requires project { IsProject (loaded_from follower.now.files.now follower.now.trees.now) }
    requires good { GoodListing (list_view source.now arguments.now) }
    ensures { (function : Source) → IfOk result (λ absent.
        absent ≡ is_absent_in (followed_project follower.now) (Some (placed_call call.now function source.now arguments.now)) name.now) }
{
    match sources_removed(
        follower,
        call,
        source,
        arguments,
        SharedLists::Changed,
        slice::from_ref(name),
    ) {
        Ok(_) => Ok(false),
        Err(refusal) => {
            if is_memory(&refusal) {
                return Err(AllocError);
            }
            Ok(is_gone(&refusal))
        }
    }
}

/// Whether a name means none of the sources of the target whose call is at a place. It does not where no call stands there.
#[tactic(auto, unfolding(crate::specs::Followed::is_absent_in))]
fn is_absent_at(follower: &Follower<'_>, call: &CallRef, name: &Text) -> Result<bool, AllocError>
    requires { IsProject (loaded_from follower.now.files.now follower.now.trees.now) }
    ensures { let p = followed_project follower.now in IfOk result (λ absent. absent ≡ is_absent_in p (call_at p call.now) name.now) }
{
    let Some(value) = follower.value_at(call) else {
        return Ok(false);
    };
    match value.expr {
        Expr::Call { arguments, .. } => {
            let absent = is_absent_of(follower, call, value.source, arguments, name)?;
            Ok(absent)
        }
        _ => Ok(false),
    }
}

/// Whether a name means none of the sources of the target at a place, as far as they are known.
fn is_absent(
    alloc: Global,
    project: &Project,
    target: &Option<CallRef>,
    name: &Text,
) -> Result<bool, AllocError>
    ensures { IfOk result (λ absent. absent ≡ is_absent project.now target.now name.now) }
{
    let Some(call) = target else {
        return Ok(false);
    };
    project.reads();
    let follower = Follower {
        alloc,
        files: project.files(),
        trees: project.trees(),
    };
    is_absent_at(&follower, call, name)
}

/// The first name that means none of the sources of the target at a place.
pub(crate) fn first_absent<'n>(
    alloc: Global,
    project: &Project,
    target: &Option<CallRef>,
    names: &'n [Text],
) -> Result<Option<&'n str>, AllocError>
    ensures { IfOk result (λ name. option_map (λ n. n.now) name ≡ find (is_absent project.now target.now) names.entry.now) }
{
    for i in 0..names.len() {
        if is_absent(alloc, project, target, &names[i])? {
            return Ok(Some(names[i].get()));
        }
    }
    Ok(None)
}

/// The notes of the names that mean none of the sources of the target at a place.
fn all_absent(
    alloc: Global,
    project: &Project,
    target: &Option<CallRef>,
    names: &[Text],
) -> Result<Vec<Note>, AllocError>
    ensures { IfOk result (λ notes. notes.items ≡ map missing_note (filter (is_absent project.now target.now) names.now)) }
{
    let mut notes = Vec::new(alloc);
    for i in 0..names.len() {
        if is_absent(alloc, project, target, &names[i])? {
            notes.push(missing_note(alloc, names[i].get())?)?;
        }
    }
    Ok(notes)
}

/// The notes of the first of them, and of how many others there are.
pub(crate) fn absent_notes(
    alloc: Global,
    project: &Project,
    target: &Option<CallRef>,
    names: &[Text],
) -> Result<Vec<Note>, AllocError>
    ensures { IfOk result (λ notes. notes.items ≡ absent_notes project.now target.now names.now) }
{
    let notes = all_absent(alloc, project, target, names)?;
    few_missing(alloc, notes)
}
