//! Assignments that nothing needs once a statement is removed.

ghost use Rattle.std.specs.Prelude.{◌≡◌, ◌++◌, IfOk, OnOk, option_map};
ghost use Rattle.std.specs.List.{list_any};
ghost use Rattle.meson_calls.specs.Loading.{AreParsed, IsProject, project};
ghost use Rattle.meson_calls.specs.Notes.{note_view, note_views, notes};
ghost use Rattle.meson_calls.specs.Strings.{NotesGood};
ghost use Rattle.meson_calls.specs.Walks.{read_in};
ghost use Rattle.meson_targets.specs.TargetEdits.{is_in_statement};
ghost use Rattle.meson_targets.specs.inside.TargetViews.{place_view};
ghost use Rattle.meson_calls.specs.NotedProjects.{loaded_in as noted_in};
ghost use Rattle.meson_places.specs.Names.{loaded_in};
ghost use Rattle.meson_code.specs.Unused.{assigned_name, first_setting_among, is_any_in, is_read_within, is_unused, names_read, next_unused, parts_in_file, sets_name, unused_setting};

use crate::anchors::statement_with;
use meson_calls::CallRef;
use meson_calls::keeper::Keeper;
use meson_calls::note::{Note, What};
use meson_calls::noted::Noted;
use meson_calls::notes::notes_of;
use meson_calls::place::child_place;
use meson_calls::roles::text_of;
use meson_calls::walk_statements::walk_file;
use meson_places::Sources;
use meson_places::uses::{is_formatted, is_named};
use meson_splice::{Bytes, FileSet};
use meson_targets::{StatementPlace, is_used_outside};
use std::alloc::{AllocError, Global};

/// The places of the identifiers of a file that are the variable, in source order.
fn reads_in_file<'p>(
    alloc: Global,
    sources: Sources<'p>,
    file: usize,
    name: &'p [u8],
) -> Result<Vec<CallRef>, AllocError>
    requires { AreParsed sources.files.now sources.trees.now }
    ensures { IfOk result (λ found. found.items ≡ read_in name.now (parts_in_file (project (loaded_in sources.entry)) file)) }
{
    if file >= sources.trees.len() {
        return Ok(Vec::new(alloc));
    }
    let mut keeper = Keeper::Reads {
        name,
        found: Vec::new(alloc),
    };
    let source = sources.files.bytes(file);
    walk_file(alloc, file, source, &sources.trees[file], &mut keeper)?;
    match keeper.reads() {
        Some(found) => Ok(found),
        None => unreachable!(),
    }
}

/// Whether one of some places is a statement's or within it.
fn is_any_in(places: &[CallRef], statement: &StatementPlace) -> bool
    ensures { result ≡ is_any_in (place_view statement.now) places.now }
{
    for i in 0..places.len() {
        if !statement.is_outside(places[i].as_place()) {
            return true;
        }
    }
    false
}

/// Whether a statement reads the variable.
fn is_read_within<'p>(
    alloc: Global,
    sources: Sources<'p>,
    statement: &StatementPlace,
    name: &'p [u8],
) -> Result<bool, AllocError>
    requires { AreParsed sources.files.now sources.trees.now }
    ensures { IfOk result (λ b. b ≡ is_read_within (project (loaded_in sources.entry)) (place_view statement.now) name.now) }
{
    let places = reads_in_file(alloc, sources, statement.block.file, name)?;
    Ok(is_any_in(places.as_slice(), statement))
}

/// The variable that a note sets by `=`.
fn assigned_name<'t>(note: &Note<'_, 't>) -> Option<&'t [u8]>
    ensures { option_map (λ name. name.now) result ≡ assigned_name (note_view note.now).it }
{
    match note.what {
        What::Assign {
            name,
            sets: true,
            ..
        } => Some(text_of(note.source, name)),
        _ => None,
    }
}

/// Of the variables that the project sets by `=` those that a statement reads.
pub(crate) fn names_read(
    alloc: Global,
    sources: Sources<'_>,
    statement: &StatementPlace,
) -> Result<Vec<Bytes>, AllocError>
    requires { AreParsed sources.files.now sources.trees.now }
    ensures { IfOk result (λ names. names.items ≡ names_read (project (loaded_in sources.entry)) (place_view statement.now)) }
{
    let taken = notes_of(alloc, sources.files, sources.trees)?;
    let notes = taken.all(alloc)?;
    let mut names = Vec::new(alloc);
    for i in 0..notes.len() {
        let Some(name) = assigned_name(&notes[i]) else {
            continue;
        };
        if is_read_within(alloc, sources, statement, name)? {
            names.push(Bytes::of(Vec::from_slice(alloc, name)?))?;
        }
    }
    Ok(names)
}

/// Whether a note is the setting of the variable by `=`.
fn sets_name(note: &Note<'_, '_>, name: &[u8]) -> bool
    ensures { result ≡ sets_name name.now (note_view note.now).it }
{
    match note.what {
        What::Assign {
            name: variable,
            sets,
            ..
        } => text_of(note.source, variable) == name && sets,
        _ => false,
    }
}

/// The first statement that sets the variable by `=`.
fn first_setting(
    alloc: Global,
    sources: Sources<'_>,
    notes: &[Note<'_, '_>],
    name: &[u8],
) -> Result<Option<StatementPlace>, AllocError>
    requires { AreParsed sources.files.now sources.trees.now }
    ensures { IfOk result (λ found. option_map place_view found ≡ first_setting_among (project (loaded_in sources.entry)) name.now (note_views notes.now)) }
{
    for i in 0..notes.len() {
        let note = &notes[i];
        if sets_name(note, name) {
            let value = child_place(alloc, note.place, 0)?;
            if let Some(found) = statement_with(alloc, sources, &value)? {
                return Ok(Some(found));
            }
        }
    }
    Ok(None)
}

/// Whether nothing outside a statement uses the variable, no call may get it by its name, and no format string of these files holds it.
fn is_unused(
    alloc: Global,
    files: &FileSet,
    noted: &Noted<'_>,
    name: &[u8],
    statement: &StatementPlace,
) -> Result<bool, AllocError>
    requires project { IsProject (noted_in noted.now) }
    requires notes { note_views noted.now.notes.now ≡ notes (project (noted_in noted.now)) }
    ensures { IfOk result (λ b. b ≡ is_unused files.now (project (noted_in noted.now)) name.now (place_view statement.now)) }
{
    if is_used_outside(alloc, noted, statement, name)? || is_named(alloc, noted.notes, name)? {
        return Ok(false);
    }
    Ok(!is_formatted(alloc, files, name)?)
}

/// The statement that sets the variable, if nothing else needs it.
fn unused_setting(
    alloc: Global,
    files: &FileSet,
    noted: &Noted<'_>,
    name: &[u8],
) -> Result<Option<StatementPlace>, AllocError>
    requires project { IsProject (noted_in noted.now) }
    requires notes { note_views noted.now.notes.now ≡ notes (project (noted_in noted.now)) }
    ensures { IfOk result (λ found. option_map place_view found ≡ unused_setting files.now (project (noted_in noted.now)) name.now) }
{
    let sources = Sources {
        files: noted.files,
        trees: noted.trees,
    };
    match first_setting(alloc, sources, noted.notes, name)? {
        Some(found) => {
            if is_unused(alloc, files, noted, name, &found)? {
                Ok(Some(found))
            } else {
                Ok(None)
            }
        }
        None => Ok(None),
    }
}

/// The statement that sets the first of some variables that nothing else needs. The files are those as they were before statements were removed.
pub(crate) fn next_unused(
    alloc: Global,
    files: &FileSet,
    sources: Sources<'_>,
    names: &[Bytes],
) -> Result<Option<StatementPlace>, AllocError>
    requires { IsProject (loaded_in sources) }
    ensures { IfOk result (λ found. option_map place_view found ≡ next_unused files.now (project (loaded_in sources.entry)) names.now) }
{
    let taken = notes_of(alloc, sources.files, sources.trees)?;
    let notes = taken.all(alloc)?;
    let noted = Noted {
        files: sources.files,
        trees: sources.trees,
        notes: notes.as_slice(),
        kept: &[],
    };
    for i in 0..names.len() {
        if let Some(found) = unused_setting(alloc, files, &noted, names[i].get())? {
            return Ok(Some(found));
        }
    }
    Ok(None)
}
