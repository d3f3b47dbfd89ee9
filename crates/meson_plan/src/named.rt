//! The calls that are named, whether they are one or more.

ghost use Rattle.std.specs.Prelude.{◌≡◌, IfOk, Ok};
ghost use Rattle.meson_calls.specs.Notes.{note_views};
ghost use Rattle.meson_calls.specs.Refusals.{RefusedAs};
ghost use Rattle.meson_calls.specs.Searching.{name_at, names_of};
ghost use Rattle.meson_calls.specs.Strings.{NotesGood};
ghost use Rattle.meson_plan.specs.inside.NotedPlaces.{noted_places};

use meson_calls::naming::found;
use meson_calls::note::Note;
use meson_calls::searching::searched_file;
use meson_calls::{BorrowedName, CallRef, Refusal, Role};
use meson_splice::FileSet;
use std::alloc::Global;

/// The calls that are named, in file order and source order.
///
/// # Errors
/// The folder has no build file, or out of memory.
pub(crate) fn calls_named(
    alloc: Global,
    role: Role,
    name: BorrowedName<'_>,
    files: &FileSet,
    notes: &[Note<'_, '_>],
) -> Result<Vec<CallRef>, Refusal>
    requires { NotesGood (note_views notes.now) }
    ensures all { IfOk result (λ calls. noted_places role (name_at name.entry) (names_of files.now) (note_views notes.now) ≡ Ok calls.items) }
    ensures refused { RefusedAs result (noted_places role (name_at name.entry) (names_of files.now) (note_views notes.now)) }
{
    let within = searched_file(alloc, files, name.folder)?;
    let calls = found(alloc, within, role, name.id, notes)?;
    Ok(calls)
}
