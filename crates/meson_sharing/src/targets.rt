//! The targets of a project, with what their sources hold.

ghost use Rattle.std.specs.Prelude.{◌≡◌, ◌&&◌, ◌++◌, [], IfOk, OnOk, map, not};
ghost use Rattle.std.specs.List.{cons_option, list_any};
ghost use Rattle.meson_syntax.specs.Grammar.{listing_words};
ghost use Rattle.meson_syntax.specs.View.{list_view};
ghost use Rattle.meson_syntax.specs.declared.operator.Bracket.TheVariants as bracket;
ghost use Rattle.meson_calls.specs.ChosenNotes.{Source, placed_call};
ghost use Rattle.meson_calls.specs.Loading.{IsProject, loaded_from};
ghost use Rattle.meson_calls.specs.Notes.{note_view};
ghost use Rattle.meson_calls.specs.Strings.{AreGood, note_words};
ghost use Rattle.meson_following.specs.CodeFollowing.{followed_project, mark_view};
ghost use Rattle.meson_following.specs.Flows.{is_in};
ghost use Rattle.meson_following.specs.Makers.{is_same_place};
ghost use Rattle.meson_sharing.specs.CodeTargets.{all_targets, sharing_name, sharing_names, target_of, target_view, targets_of_note};
ghost use Rattle.meson_sharing.specs.Sharing.{is_item_in};

use meson_calls::CallRef;
use meson_calls::call::Role;
use meson_calls::literals::first_literal;
use meson_calls::note::{Note, What};
use meson_calls::notes::notes_of;
use meson_calls::place::place_of;
use meson_calls::roles::note_has_role;
use meson_following::makers::is_same_place;
use meson_following::{Follower, Mark};
use meson_splice::Text;
use meson_syntax::List;
use std::alloc::{AllocError, Global};

/// A target: the place of its call, its name, if that is a literal, and what is met in its sources.
#[derive(Debug, Drop)]
pub(crate) struct Target {
    pub place: CallRef,
    pub name: Option<Text>,
    pub marks: Vec<Mark>,
}

/// The target that the call at a place makes, which has these arguments.
fn target_of<'t>(
    follower: &Follower<'t>,
    place: CallRef,
    source: &'t [u8],
    arguments: &List,
) -> Result<Target, AllocError>
    requires project { IsProject (loaded_from follower.now.files.now follower.now.trees.now) }
    requires good { AreGood (listing_words (list_view source.now arguments.now) bracket.Round) }
    ensures { (function : Source) → IfOk result (λ t.
        target_view t ≡ target_of (followed_project follower.now) (placed_call place function source.now arguments.now)) }
{
    let marks = follower.marks_of(&place, source, arguments)?;
    let name = match first_literal(follower.alloc, source, arguments)? {
        Some(text) => Some(Text::of(text)),
        None => None,
    };
    Ok(Target { place, name, marks })
}

/// Takes the target that a note makes, if it is the call of one.
fn take_target<'t>(
    follower: &Follower<'t>,
    note: &Note<'_, 't>,
    found: &mut Vec<Target>,
) -> Result<(), AllocError>
    requires project { IsProject (loaded_from follower.now.files.now follower.now.trees.now) }
    requires good { AreGood (note_words (note_view note.now).it) }
    ensures { OnOk result (map target_view found.new.items
        ≡ map target_view found.old.items ++ targets_of_note (followed_project follower.now) (note_view note.now)) }
{
    if !note_has_role(Role::Target, note.source, note.what) {
        return Ok(());
    }
    match note.what {
        What::Call { arguments, .. } => {
            let place = place_of(follower.alloc, note.place.file, note.place.path)?;
            found.push(target_of(follower, place, note.source, arguments)?)?;
            Ok(())
        }
        _ => Ok(()),
    }
}

/// The targets of a project, in file order and source order.
pub(crate) fn targets_of(follower: &Follower<'_>) -> Result<Vec<Target>, AllocError>
    requires { IsProject (loaded_from follower.now.files.now follower.now.trees.now) }
    ensures { IfOk result (λ found. map target_view found.items ≡ all_targets (followed_project follower.now)) }
{
    let taken = notes_of(follower.alloc, follower.files, follower.trees)?;
    let notes = taken.all(follower.alloc)?;
    let mut found = Vec::new(follower.alloc);
    for i in 0..notes.len() {
        take_target(follower, &notes[i], &mut found)?;
    }
    Ok(found)
}

/// Whether a place is in what is at the other one, or is the same.
fn is_in(place: &CallRef, other: &CallRef) -> bool
    ensures { result ≡ is_in place.now other.now }
{
    place.file == other.file && place.path.steps.get().starts_with(other.path.steps.get())
}

/// Whether what is met is an item in the value of a maker.
fn is_item_in(maker: &CallRef, mark: &Mark) -> bool
    ensures { result ≡ is_item_in maker.now (mark_view mark.now) }
{
    match mark {
        Mark::Known(item) => is_in(&item.place, maker),
        _ => false,
    }
}

/// Whether an item that is in the value of a maker is among what is met.
fn has_item_in(marks: &[Mark], maker: &CallRef) -> bool
    ensures { result ≡ list_any (is_item_in maker.now) (map mark_view marks.now) }
{
    for mark in marks {
        if is_item_in(maker, mark) {
            return true;
        }
    }
    false
}

/// Whether a target is another one than that of the call and gets an item that is in the value of a maker.
fn shares(target: &Target, call: &CallRef, maker: &CallRef) -> bool
    ensures { result ≡ (not (is_same_place target.now.place call.now) && list_any (is_item_in maker.now) (map mark_view target.now.marks.items)) }
{
    !is_same_place(&target.place, call) && has_item_in(target.marks.as_slice(), maker)
}

/// Takes the name of a target, if it has one, is another target than that of the call, and gets an item that is in the value of a maker.
fn take_name(
    target: &Target,
    call: &CallRef,
    maker: &CallRef,
    names: &mut Vec<Text>,
) -> Result<(), AllocError>
    ensures { OnOk result (names.new.items ≡ names.old.items ++ cons_option (sharing_name call.now maker.now (target_view target.now)) []) }
{
    if !shares(target, call, maker) {
        return Ok(());
    }
    match &target.name {
        Some(name) => {
            names.push(name.clone()?)?;
            Ok(())
        }
        None => Ok(()),
    }
}

/// The names of the targets that get an item in the value of a maker, without that of the call.
pub(crate) fn sharing_names(
    alloc: Global,
    targets: &[Target],
    call: &CallRef,
    maker: &CallRef,
) -> Result<Vec<Text>, AllocError>
    ensures { IfOk result (λ names. names.items ≡ sharing_names call.now maker.now (map target_view targets.now)) }
{
    let mut names = Vec::new(alloc);
    for target in targets {
        take_name(target, call, maker, &mut names)?;
    }
    Ok(names)
}
