//! Places of selected notes.

ghost use Rattle.std.specs.Prelude.{◌≡◌, IfOk};
ghost use Rattle.meson_calls.specs.Notes.{note_views};
ghost use Rattle.meson_calls.specs.ChosenNotes.{places_with_role};

use crate::call::{CallRef, Role};
use crate::note::Note;
use crate::place::place_of;
use crate::roles::note_has_role;
use std::alloc::{AllocError, Global};

/// The places of the calls of a role.
pub fn with_role(
    alloc: Global,
    role: Role,
    notes: &[Note<'_, '_>],
) -> Result<Vec<CallRef>, AllocError>
    ensures { IfOk result (λ found. found.items ≡ places_with_role role (note_views notes.now)) }
{
    let mut found = Vec::new(alloc);
    for i in 0..notes.len() {
        let note = &notes[i];
        if note_has_role(role, note.source, note.what) {
            let place = place_of(alloc, note.place.file, note.place.path)?;
            found.push(place)?;
        }
    }
    Ok(found)
}
