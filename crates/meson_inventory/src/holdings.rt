//! What a project holds: its targets, and the `subdir` calls that enter none of its files.

ghost use Rattle.std.specs.Prelude.{◌≡◌, All, IfOk, IfSome, List, Some, map, option_map, string_bytes};
ghost use Rattle.std.specs.List.{list_any};
ghost use Rattle.meson_splice.specs.declared.file_set.File.{File};
ghost use Rattle.meson_syntax.specs.Reads.{IsSpanned};
ghost use Rattle.meson_syntax.specs.View.{view};
ghost use Rattle.meson_calls.specs.FileNames.{AreFileNames, is_file};
ghost use Rattle.meson_calls.specs.Folders.{IsFileName};
ghost use Rattle.meson_calls.specs.Loading as loading;
ghost use Rattle.meson_calls.specs.Notes.{note_view, note_views};
ghost use Rattle.meson_calls.specs.ChosenNotes.{places_that};
ghost use Rattle.meson_calls.specs.Project.{nth_file};
ghost use Rattle.meson_calls.specs.Searching.{name_at};
ghost use Rattle.meson_entering.specs.Code.{file_view};
ghost use Rattle.meson_inventory.specs.Holdings.{calls_held, calls_named, held_call, held_calls, holdings, subdirs_held, targets_held};
ghost use Rattle.meson_inventory.specs.inside.Holdings.{AreAllNotes, IsCall, enters_at, not_entered_at, note_calls};

use meson_calls::Reading;
use meson_calls::chosen_notes::with_role;
use meson_calls::file_names::names_of;
use meson_calls::note::{Note, What};
use meson_calls::notes::notes_of;
use meson_calls::place::place_of;
use meson_calls::roles::text_of;
use meson_details::called::call_at;
use meson_entering::{SourceFile, SubdirCall, files_meant};
use meson_plan::{BorrowedName, CallRef, Head, Project, Refusal, Role};
use meson_splice::{Many, Text};
use meson_targets::variable::variable_of;
use std::alloc::{AllocError, Global};
use std::collections::HashSet;

/// A call of a project.
#[derive(Drop)]
pub struct HeldCall {
    /// The number of its file.
    pub file: usize,
    /// Where it begins, its function and its name.
    pub head: Head,
    /// The variable that a statement sets to it.
    pub variable: Option<Text>,
    /// The offset in bytes after its last byte in its file.
    pub end: usize,
}

/// What a project holds besides its files, each in file order and source order.
#[derive(Drop)]
pub struct Holdings {
    /// The calls that make targets.
    pub targets: Many<HeldCall>,
    /// The `subdir` calls that enter none of the files.
    pub not_entered: Many<HeldCall>,
}

/// Whether a note is one of a call of this function.
fn is_call_of(function: &[u8], note: &Note<'_, '_>) -> bool
    ensures { result ≡ note_calls function.now (note_view note.now).it }
{
    match note.what {
        What::Call { function: name, .. } => text_of(note.source, name) == function,
        _ => false,
    }
}

/// The places of the calls of a function.
fn calls_of(
    alloc: Global,
    function: &[u8],
    notes: &[Note<'_, '_>],
) -> Result<Vec<CallRef>, AllocError>
    ensures { IfOk result (λ found. found.items ≡ places_that (note_calls function.now) (note_views notes.now)) }
{
    let mut found = Vec::new(alloc);
    for i in 0..notes.len() {
        let note = &notes[i];
        if is_call_of(function, note) {
            let place = place_of(alloc, note.place.file, note.place.path)?;
            found.push(place)?;
        }
    }
    Ok(found)
}

/// The call at a place.
fn held_call(alloc: Global, project: &Project, place: &CallRef) -> Result<HeldCall, AllocError>
    requires { IsCall project.now place.now }
    ensures { IfOk result (λ call. held_call project.now place.now ≡ Some call) }
{
    project.reads();
    let head = project.head_at(alloc, place)?;
    let variable = variable_of(alloc, project.files(), project.trees(), place)?;
    let called = call_at(project.files(), project.trees(), place);
    Ok(HeldCall {
        file: place.file,
        head,
        variable,
        end: called.span.to,
    })
}

/// The calls at some places.
fn held_calls(
    alloc: Global,
    project: &Project,
    places: &[CallRef],
) -> Result<Many<HeldCall>, AllocError>
    requires { All (IsCall project.now) places.now }
    ensures { IfOk result (λ calls. calls ≡ held_calls project.now places.now) }
{
    let mut calls = Vec::new(alloc);
    for place in places {
        calls.push(held_call(alloc, project, place)?)?;
    }
    Ok(Many::of(calls))
}

/// The build file of this number.
fn file_at(project: &Project, file: usize) -> Option<SourceFile<'_>>
    ensures is { nth_file (loading.project project.entry.now) file ≡ option_map file_view result }
    ensures good { IfSome result (λ f. IsFileName f.name.now × IsSpanned f.source.now (view f.source.now f.tree.now)) }
{
    project.reads();
    if file >= project.trees().len() {
        return None;
    }
    Some(SourceFile {
        name: project.files().name(file),
        source: project.files().bytes(file),
        tree: &project.trees()[file],
    })
}

/// Whether a file has one of some names.
fn is_any(files: &HashSet<&str>, names: &[String]) -> bool
    ensures { (all : List File) → AreFileNames files.now all → result ≡ list_any (is_file all) (map string_bytes names.now) }
{
    for i in 0..names.len() {
        if files.contains(names[i].as_str()) {
            return true;
        }
    }
    false
}

/// Whether the `subdir` call at a place enters one of the files: a file that it may mean is among them.
fn enters_one(
    alloc: Global,
    reading: Reading,
    project: &Project,
    names: &HashSet<&str>,
    place: &CallRef,
) -> Result<bool, AllocError>
    requires there { IsCall project.now place.now }
    requires names { AreFileNames names.now project.now.files }
    ensures { IfOk result (λ one. one ≡ enters_at reading project.now place.now) }
{
    project.reads();
    let Some(file) = file_at(project, place.file) else {
        return Ok(false);
    };
    let called = call_at(project.files(), project.trees(), place);
    let call = SubdirCall {
        source: called.source,
        path: place.path.steps.get(),
        arguments: called.arguments,
    };
    let meant = files_meant(alloc, reading, file, call)?;
    Ok(is_any(names, meant.as_slice()))
}

/// The places of those of some `subdir` calls that enter none of the files.
fn not_entered(
    alloc: Global,
    reading: Reading,
    project: &Project,
    places: Vec<CallRef>,
) -> Result<Vec<CallRef>, AllocError>
    requires { All (IsCall project.now) places.items }
    ensures { IfOk result (λ left. left.items ≡ not_entered_at reading project.now places.items) }
{
    let names = names_of(alloc, project.files())?;
    let mut left = Vec::new(alloc);
    for place in places {
        if !enters_one(alloc, reading, project, &names, &place)? {
            left.push(place)?;
        }
    }
    Ok(left)
}

/// The calls that make targets, among the notes of a project.
fn targets_held(
    alloc: Global,
    project: &Project,
    notes: &[Note<'_, '_>],
) -> Result<Many<HeldCall>, AllocError>
    requires { AreAllNotes project.now (note_views notes.now) }
    ensures { IfOk result (λ calls. calls ≡ targets_held project.now) }
{
    let places = with_role(alloc, Role::Target, notes)?;
    held_calls(alloc, project, places.as_slice())
}

/// The calls of a function, among the notes of a project.
fn calls_among(
    alloc: Global,
    project: &Project,
    function: &[u8],
    notes: &[Note<'_, '_>],
) -> Result<Many<HeldCall>, AllocError>
    requires { AreAllNotes project.now (note_views notes.now) }
    ensures { IfOk result (λ calls. calls ≡ calls_held project.now function.now) }
{
    let places = calls_of(alloc, function, notes)?;
    held_calls(alloc, project, places.as_slice())
}

/// The calls of a function of a project, in file order and source order.
///
/// # Errors
/// Out of memory.
pub fn calls_held(
    alloc: Global,
    project: &Project,
    function: &str,
) -> Result<Many<HeldCall>, AllocError>
    ensures { IfOk result (λ calls. calls ≡ calls_held project.now function.now) }
{
    project.reads();
    let taken = notes_of(alloc, project.files(), project.trees())?;
    let notes = taken.all(alloc)?;
    calls_among(alloc, project, function.as_bytes(), notes.as_slice())
}

/// The `subdir` calls that enter none of the files, among the notes of a project.
fn subdirs_held(
    alloc: Global,
    reading: Reading,
    project: &Project,
    notes: &[Note<'_, '_>],
) -> Result<Many<HeldCall>, AllocError>
    requires { AreAllNotes project.now (note_views notes.now) }
    ensures { IfOk result (λ calls. calls ≡ subdirs_held reading project.now) }
{
    let places = calls_of(alloc, b"subdir".as_slice(), notes)?;
    let left = not_entered(alloc, reading, project, places)?;
    held_calls(alloc, project, left.as_slice())
}

/// The calls that are named, in file order and source order; none where the folder has no build file.
///
/// # Errors
/// Out of memory.
pub fn calls_named(
    alloc: Global,
    project: &Project,
    role: Role,
    name: BorrowedName<'_>,
) -> Result<Many<HeldCall>, AllocError>
    ensures { IfOk result (λ calls. calls ≡ calls_named project.now role (name_at name.entry)) }
{
    match project.find(alloc, role, name) {
        Ok(places) => held_calls(alloc, project, places.as_slice()),
        Err(Refusal::OutOfMemory) => Err(AllocError),
        Err(_) => Ok(Many::new(alloc)),
    }
}

/// What a project holds whose build files are read so.
///
/// # Errors
/// Out of memory.
pub fn holdings_of(
    alloc: Global,
    reading: Reading,
    project: &Project,
) -> Result<Holdings, AllocError>
    ensures { IfOk result (λ held. held ≡ holdings reading project.now) }
{
    project.reads();
    let taken = notes_of(alloc, project.files(), project.trees())?;
    let notes = taken.all(alloc)?;
    let targets = targets_held(alloc, project, notes.as_slice())?;
    let not_entered = subdirs_held(alloc, reading, project, notes.as_slice())?;
    Ok(Holdings {
        targets,
        not_entered,
    })
}
