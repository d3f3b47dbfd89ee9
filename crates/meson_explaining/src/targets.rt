//! Notes of new targets without a file, and of targets whose variable is used.

ghost use Rattle.std.specs.Prelude.{◌≡◌, ◌++◌, IfOk, OnOk, map, min};
ghost use Rattle.meson_lex.specs.declared.kinds.Span.{Span};
ghost use Rattle.meson_calls.specs.Loading.{project as trees_of};
ghost use Rattle.meson_calls.specs.Parts.{parts};
ghost use Rattle.meson_calls.specs.Project.{expression_at};
ghost use Rattle.meson_calls.specs.Searching.{name_at};
ghost use Rattle.meson_calls.specs.Walks.{read_in};
ghost use Rattle.meson_explaining.specs.Targets.{file_note, file_notes, folder_notes, read_note, read_notes, span_at, used_notes};

use crate::bad_names::one_note;
use crate::calls::{Telling, add_few, add_further};
use crate::explanation::{Note, Spot};
use meson_calls::keeper::Keeper;
use meson_calls::walk_statements::walk_files;
use meson_calls::{BorrowedName, CallRef};
use meson_edit::span_of;
use meson_inventory::holdings::calls_named;
use meson_lex::Span;
use meson_plan::{Project, Role};
use meson_splice::Text;
use std::alloc::{AllocError, Global};

/// The most build files and the most places that are reported.
const MOST_TOLD: usize = 3;

/// The note of a build file.
fn file_note(alloc: Global, file: usize) -> Result<Note, AllocError>
    ensures { IfOk result (λ note. note ≡ file_note file) }
{
    Ok(Note {
        spot: Some(Spot {
            file,
            at: 0,
            end: 0,
        }),
        text: Text::of(String::from_str(alloc, "a build file of the project")?),
    })
}

/// Adds the notes of the first build files.
fn add_files(alloc: Global, notes: &mut Vec<Note>, many: usize) -> Result<(), AllocError>
    ensures { OnOk result (notes.new.items ≡ notes.old.items ++ file_notes many) }
{
    for file in 0..many {
        notes.push(file_note(alloc, file)?)?;
    }
    Ok(())
}

/// The notes where a project with this number of files enters no build file of a folder.
pub(crate) fn folder_notes(
    alloc: Global,
    many: usize,
    folder: &str,
) -> Result<Vec<Note>, AllocError>
    ensures { IfOk result (λ notes. notes.items ≡ folder_notes many folder.now) }
{
    let text = format!(in alloc; "the project enters no build file of the folder {folder}")?;
    let mut notes = one_note(alloc, text)?;
    add_files(alloc, &mut notes, MOST_TOLD.min(many))?;
    add_further(
        alloc,
        &mut notes,
        "further build files",
        many.saturating_sub(MOST_TOLD),
    )?;
    Ok(notes)
}

/// Where the expression at a place is; the beginning of the file if no expression is there.
pub fn span_at(project: &Project, place: &CallRef) -> Span
    ensures { result ≡ span_at (expression_at (trees_of project.now) place.now) }
{
    project.reads();
    let trees = project.trees();
    if place.file >= trees.len() {
        return Span { from: 0, to: 0 };
    }
    match trees[place.file].expr_at(&place.path) {
        Some(expr) => span_of(expr),
        None => Span { from: 0, to: 0 },
    }
}

/// The note of a place where a variable is read.
fn read_note(
    alloc: Global,
    project: &Project,
    name: &str,
    place: &CallRef,
) -> Result<Note, AllocError>
    ensures { IfOk result (λ note. note ≡ read_note project.now name.now place.now) }
{
    let span = span_at(project, place);
    let text = format!(in alloc; "{name} is read here")?;
    Ok(Note {
        spot: Some(Spot {
            file: place.file,
            at: span.from,
            end: span.to,
        }),
        text: Text::of(text),
    })
}

/// Adds the note of each place where a variable is read.
fn add_each(
    alloc: Global,
    notes: &mut Vec<Note>,
    project: &Project,
    name: &str,
    places: &[CallRef],
) -> Result<(), AllocError>
    ensures { OnOk result (notes.new.items ≡ notes.old.items ++ map (read_note project.now name.now) places.now) }
{
    for place in places {
        notes.push(read_note(alloc, project, name, place)?)?;
    }
    Ok(())
}

/// Adds the notes of the first places where a variable is read, and of how many others there are.
fn add_reads(
    alloc: Global,
    notes: &mut Vec<Note>,
    project: &Project,
    name: &str,
    places: &[CallRef],
) -> Result<(), AllocError>
    ensures { OnOk result (notes.new.items ≡ notes.old.items ++ read_notes project.now name.now places.now) }
{
    let shown = MOST_TOLD.min(places.len());
    add_each(alloc, notes, project, name, &places[..shown])?;
    add_further(
        alloc,
        notes,
        "further places where it is read",
        places.len() - shown,
    )
}

/// The places where a variable is read, in file order and source order.
///
/// # Errors
/// Out of memory.
pub fn reads_of(alloc: Global, project: &Project, name: &str) -> Result<Vec<CallRef>, AllocError>
    ensures { IfOk result (λ found. found.items ≡ read_in name.now (parts (trees_of project.now))) }
{
    project.reads();
    let mut keeper = Keeper::Reads {
        name: name.as_bytes(),
        found: Vec::new(alloc),
    };
    walk_files(alloc, project.files(), project.trees(), &mut keeper)?;
    match keeper.reads() {
        Some(found) => Ok(found),
        None => unreachable!(),
    }
}

/// The notes of the first places where a variable is read, and of how many others there are.
pub(crate) fn all_reads(
    alloc: Global,
    project: &Project,
    name: &str,
) -> Result<Vec<Note>, AllocError>
    ensures { let reads = read_in name.now (parts (trees_of project.now)) in
        IfOk result (λ notes. notes.items ≡ read_notes project.now name.now reads) }
{
    let places = reads_of(alloc, project, name)?;
    let mut notes = Vec::new(alloc);
    add_reads(alloc, &mut notes, project, name, places.as_slice())?;
    Ok(notes)
}

/// The notes where the variable of a target is used.
pub(crate) fn used_notes(
    alloc: Global,
    project: &Project,
    target: BorrowedName<'_>,
    name: &str,
) -> Result<Vec<Note>, AllocError>
    ensures { IfOk result (λ notes. notes.items ≡ used_notes project.now (name_at target.entry) name.now) }
{
    let calls = calls_named(alloc, project, Role::Target, target)?;
    let telling = Telling {
        most: 1,
        more: "",
        others: "further calls that the id names",
    };
    let mut notes = Vec::new(alloc);
    add_few(alloc, &mut notes, telling, calls.get())?;
    let places = reads_of(alloc, project, name)?;
    add_reads(alloc, &mut notes, project, name, places.as_slice())?;
    Ok(notes)
}
