//! The one call that an id names, and its arguments.

ghost use Rattle.std.specs.Prelude.{◌≡◌, IfOk, Ok};
ghost use Rattle.meson_splice.specs.Files.{bytes_at};
ghost use Rattle.meson_syntax.specs.View.{list_view};
ghost use Rattle.meson_calls.specs.Notes.{note_views};
ghost use Rattle.meson_calls.specs.ChosenNotes.{found_places};
ghost use Rattle.meson_calls.specs.Finding.{only_one};
ghost use Rattle.meson_calls.specs.OnePlace.{place_within, the_place};
ghost use Rattle.meson_calls.specs.Searching.{name_at, names_of};
ghost use Rattle.meson_calls.specs.CallPlaces.{CallIn};
ghost use Rattle.meson_calls.specs.Refusals.{RefusedAs};
ghost use Rattle.meson_calls.specs.Strings.{NotesGood};

use crate::chosen_notes::with_role;
use crate::naming::found;
use crate::note::Note;
use crate::searching::searched_file;
use crate::{BorrowedName, CallRef, Refusal, Role};
use meson_splice::FileSet;
use meson_syntax::{List, Parsed};
use std::alloc::Global;

/// The only call.
///
/// # Errors
/// There is no call, or more than one.
fn only_one(calls: Vec<CallRef>) -> Result<CallRef, Refusal>
    ensures { result ≡ only_one calls.items }
{
    let mut left = calls;
    if left.len() > 1 {
        return Err(Refusal::Ambiguous);
    }
    match left.pop() {
        Some(call) => Ok(call),
        None => Err(Refusal::NotFound),
    }
}

/// The only call among those that an id names in the file of this number, or in any file.
fn only_found(
    alloc: Global,
    within: Option<usize>,
    role: Role,
    id: &str,
    notes: &[Note<'_, '_>],
) -> Result<CallRef, Refusal>
    requires { NotesGood (note_views notes.now) }
    ensures found { IfOk result (λ c. only_one (found_places within role id.now (note_views notes.now)) ≡ Ok c) }
    ensures refused { RefusedAs result (only_one (found_places within role id.now (note_views notes.now))) }
{
    let calls = found(alloc, within, role, id, notes)?;
    only_one(calls)
}

/// The one call that an id names in the file of this number, or in any file.
///
/// # Errors
/// There is no call, or more than one, or no project; or out of memory.
fn call_within(
    alloc: Global,
    within: Option<usize>,
    role: Role,
    id: &str,
    notes: &[Note<'_, '_>],
) -> Result<CallRef, Refusal>
    requires { NotesGood (note_views notes.now) }
    ensures found { IfOk result (λ c. place_within within role id.now (note_views notes.now) ≡ Ok c) }
    ensures refused { RefusedAs result (place_within within role id.now (note_views notes.now)) }
{
    match role {
        Role::Project => {
            let projects = with_role(alloc, Role::Project, notes)?;
            if projects.as_slice().is_empty() {
                return Err(Refusal::NoProject);
            }
            only_found(alloc, within, Role::Project, id, notes)
        }
        Role::Target => only_found(alloc, within, Role::Target, id, notes),
        Role::Dependency => only_found(alloc, within, Role::Dependency, id, notes),
    }
}

/// The one call that is named.
///
/// # Errors
/// The folder has no build file. Or there is no call, or more than one, or no project; or out of memory.
pub fn the_call(
    alloc: Global,
    role: Role,
    name: BorrowedName<'_>,
    files: &FileSet,
    notes: &[Note<'_, '_>],
) -> Result<CallRef, Refusal>
    requires { NotesGood (note_views notes.now) }
    ensures found { IfOk result (λ c. the_place role (name_at name.entry) (names_of files.now) (note_views notes.now) ≡ Ok c) }
    ensures refused { RefusedAs result (the_place role (name_at name.entry) (names_of files.now) (note_views notes.now)) }
{
    let within = searched_file(alloc, files, name.folder)?;
    call_within(alloc, within, role, name.id, notes)
}

/// The arguments of this call.
pub fn list_of_call<'t>(trees: &'t [Parsed], call: &CallRef) -> &'t List
    requires { CallIn trees.now call.now }
    ensures { (c : CallIn trees.entry.now call.now) → list_view (bytes_at call.now.file c.files) result.now ≡ c.call.it.arguments }
{
    if call.file >= trees.len() {
        unreachable!();
    }
    match trees[call.file].list_at(&call.path) {
        Some(list) => list,
        None => unreachable!(),
    }
}
