//! Calls that an id names.

ghost use Rattle.std.specs.Prelude.{◌≡◌, IfOk};
ghost use Rattle.meson_syntax.specs.View.{expr_view};
ghost use Rattle.meson_calls.specs.Calls.{call_of};
ghost use Rattle.meson_calls.specs.Roles.{one_of};
ghost use Rattle.meson_calls.specs.Naming.{project_ids};
ghost use Rattle.meson_calls.specs.Notes.{note_view, note_views};
ghost use Rattle.meson_calls.specs.ChosenNotes.{note_has_name, note_sets_call, is_role_call, places_that, assigned_places, found_places, named_places};
ghost use Rattle.meson_calls.specs.Strings.{AreGood, NotesGood, note_words};

use crate::call::{CallRef, Role};
use crate::chosen_notes::with_role;
use crate::literals::first_literal_is;
use crate::note::{Note, What};
use crate::place::{child_place, place_of};
use crate::roles::{has_role, text_of};
use crate::searching::places_within;
use meson_syntax::Expr;
use std::alloc::{AllocError, Global};

/// Whether a note is a call of a role and a name.
fn has_name(alloc: Global, role: Role, id: &str, note: &Note<'_, '_>) -> Result<bool, AllocError>
    requires { AreGood (note_words (note_view note.now).it) }
    ensures { IfOk result (λ b. b ≡ note_has_name role id.now (note_view note.now).it) }
{
    match note.what {
        What::Call {
            function,
            arguments,
        } => {
            if has_role(role, text_of(note.source, function), arguments) {
                let named = first_literal_is(alloc, note.source, arguments, id)?;
                Ok(named)
            } else {
                Ok(false)
            }
        }
        _ => Ok(false),
    }
}

/// Whether an expression is a call of a role.
pub fn is_role_call(role: Role, source: &[u8], expr: &Expr) -> bool
    ensures { result ≡ is_role_call role (call_of (expr_view source.now expr.now)) }
{
    match expr {
        Expr::Call {
            name,
            arguments,
            ..
        } => has_role(role, text_of(source, *name), arguments),
        _ => false,
    }
}

/// Whether a note sets the variable to a call of a role.
fn sets_call(role: Role, id: &str, note: &Note<'_, '_>) -> bool
    ensures { result ≡ note_sets_call role id.now (note_view note.now).it }
{
    match note.what {
        What::Assign { name, sets, value } => {
            sets && text_of(note.source, name) == id.as_bytes()
                && is_role_call(role, note.source, value)
        }
        _ => false,
    }
}

/// The places of the calls of a role and a name.
pub fn with_name(
    alloc: Global,
    role: Role,
    id: &str,
    notes: &[Note<'_, '_>],
) -> Result<Vec<CallRef>, AllocError>
    requires { NotesGood (note_views notes.now) }
    ensures { IfOk result (λ found. found.items ≡ places_that (note_has_name role id.now) (note_views notes.now)) }
{
    let mut found = Vec::new(alloc);
    for i in 0..notes.len() {
        let note = &notes[i];
        if has_name(alloc, role, id, note)? {
            let place = place_of(alloc, note.place.file, note.place.path)?;
            found.push(place)?;
        }
    }
    Ok(found)
}

/// The places of the calls of a role that a variable is set to.
fn assigned_to(
    alloc: Global,
    role: Role,
    id: &str,
    notes: &[Note<'_, '_>],
) -> Result<Vec<CallRef>, AllocError>
    ensures { IfOk result (λ found. found.items ≡ assigned_places role id.now (note_views notes.now)) }
{
    let mut found = Vec::new(alloc);
    for i in 0..notes.len() {
        let note = &notes[i];
        if sets_call(role, id, note) {
            let place = child_place(alloc, note.place, 0)?;
            found.push(place)?;
        }
    }
    Ok(found)
}

fn names_project(id: &str) -> bool
    ensures { result ≡ one_of project_ids id.now }
{
    "/" == id || "//" == id
}

/// The places of the calls of a role and a name in the file of this number, or in any file; if there are none, of those that a variable is set to there.
fn named_or_assigned(
    alloc: Global,
    within: Option<usize>,
    role: Role,
    id: &str,
    notes: &[Note<'_, '_>],
) -> Result<Vec<CallRef>, AllocError>
    requires { NotesGood (note_views notes.now) }
    ensures { IfOk result (λ found. found.items ≡ named_places within role id.now (note_views notes.now)) }
{
    let named = with_name(alloc, role, id, notes)?;
    let named = places_within(alloc, within, named)?;
    if named.is_empty() {
        let assigned = assigned_to(alloc, role, id, notes)?;
        return places_within(alloc, within, assigned);
    }
    Ok(named)
}

/// The places of the calls that an id names in the file of this number, or in any file.
pub fn found(
    alloc: Global,
    within: Option<usize>,
    role: Role,
    id: &str,
    notes: &[Note<'_, '_>],
) -> Result<Vec<CallRef>, AllocError>
    requires { NotesGood (note_views notes.now) }
    ensures { IfOk result (λ found. found.items ≡ found_places within role id.now (note_views notes.now)) }
{
    match role {
        Role::Project => {
            if names_project(id) {
                let found = with_role(alloc, Role::Project, notes)?;
                return places_within(alloc, within, found);
            }
            Ok(Vec::new(alloc))
        }
        Role::Target => named_or_assigned(alloc, within, Role::Target, id, notes),
        Role::Dependency => named_or_assigned(alloc, within, Role::Dependency, id, notes),
    }
}
