//! The one place in a project that a search finds.

ghost use Rattle.std.specs.Prelude.{◌≡◌, IfOk, Ok, string_bytes};
ghost use Rattle.meson_calls.specs.Finding.{only_one};
ghost use Rattle.meson_calls.specs.Loading.{AreParsed};
ghost use Rattle.meson_calls.specs.Notes.{note_views};
ghost use Rattle.meson_calls.specs.Refusals.{RefusedAs};
ghost use Rattle.meson_calls.specs.Strings.{NotesGood};
ghost use Rattle.meson_places.specs.Names.{file_of_folder, first_list, found_by_id, found_on, is_searched, lists_on, loaded_in, numbered_file, places_by_id, places_on};
ghost use Rattle.meson_places.specs.Names.{project_there, searched, searched_file, the_place};

use crate::lines::{Line, file_bytes, first_around, opened_on, place_on};
use crate::name::Sources;
use crate::naming::named_place;
use meson_calls::chosen_notes::with_role;
use meson_calls::lists::lists_of;
use meson_calls::note::Note;
use meson_calls::notes::notes_of;
use meson_calls::{CallRef, Refusal, Role};
use meson_splice::{FileSet, Text};
use meson_steps::argument::{PlaceName, Search};
use std::alloc::{AllocError, Global};

/// The places that a name finds.
fn places_by_id(
    alloc: Global,
    name: &PlaceName,
    notes: &[Note<'_, '_>],
) -> Result<Vec<CallRef>, AllocError>
    requires { NotesGood (note_views notes.now) }
    ensures { IfOk result (λ found. found.items ≡ places_by_id name.now (note_views notes.now)) }
{
    let mut found = Vec::new(alloc);
    for i in 0..notes.len() {
        if let Some(place) = named_place(alloc, name, &notes[i])? {
            found.push(place)?;
        }
    }
    Ok(found)
}

/// The places of what begins on this line of the file of this number.
fn places_on(
    alloc: Global,
    files: &FileSet,
    file: usize,
    line: usize,
    notes: &[Note<'_, '_>],
) -> Result<Vec<CallRef>, AllocError>
    ensures { IfOk result (λ found. found.items ≡ places_on files.now file line (note_views notes.now)) }
{
    let wanted = Line::find(file_bytes(files, file), line);
    let mut found = Vec::new(alloc);
    for i in 0..notes.len() {
        if let Some(place) = place_on(alloc, file, wanted, &notes[i])? {
            found.push(place)?;
        }
    }
    Ok(found)
}

/// The places of the arrays and dictionaries that open on this line of the file of this number.
fn lists_on(
    alloc: Global,
    sources: Sources<'_>,
    file: usize,
    line: usize,
) -> Result<Vec<CallRef>, AllocError>
    requires { AreParsed sources.files.now sources.trees.now }
    ensures { IfOk result (λ found. found.items ≡ lists_on (loaded_in sources.entry) file line) }
{
    if file >= sources.trees.len() {
        return Ok(Vec::new(alloc));
    }
    let source = sources.files.bytes(file);
    let lists = lists_of(alloc, file, source, &sources.trees[file])?;
    opened_on(alloc, Line::find(source, line), lists)
}

/// Whether a place is in the files that are searched: the one file of this number, or all files without a number.
pub fn is_searched(within: Option<usize>, place: &CallRef) -> bool
    ensures { result ≡ is_searched within place.now }
{
    match within {
        Some(file) => place.file == file,
        None => true,
    }
}

/// Those of some places that are searched.
pub(crate) fn searched(
    alloc: Global,
    within: Option<usize>,
    places: Vec<CallRef>,
) -> Result<Vec<CallRef>, AllocError>
    ensures { IfOk result (λ kept. kept.items ≡ searched within places.items) }
{
    let mut kept = Vec::new(alloc);
    for place in places {
        if is_searched(within, &place) {
            kept.push(place)?;
        }
    }
    Ok(kept)
}

/// The only place.
///
/// # Errors
/// There is no place, or more than one.
fn only_one(places: Vec<CallRef>) -> Result<CallRef, Refusal>
    ensures { result ≡ only_one places.items }
{
    let mut left = places;
    if left.len() > 1 {
        return Err(Refusal::Ambiguous);
    }
    match left.pop() {
        Some(place) => Ok(place),
        None => Err(Refusal::NotFound),
    }
}

/// The number of the file of this name.
///
/// # Errors
/// There is no such file.
pub fn numbered_file(files: &FileSet, name: &str) -> Result<usize, Refusal>
    ensures { result ≡ numbered_file files.now name.now }
{
    files.find(name).ok_or(Refusal::NoFile)
}

/// The name of the build file of a folder.
fn file_of_folder(alloc: Global, folder: &Text) -> Result<String, AllocError>
    ensures { IfOk result (λ name. string_bytes name ≡ file_of_folder folder.now) }
{
    let folder = folder.get();
    if folder == "." {
        return String::from_str(alloc, "meson.build");
    }
    format!(in alloc; "{folder}/meson.build")
}

/// The number of the one file that is searched, if a folder is given.
///
/// # Errors
/// The folder has no build file, or out of memory.
pub fn searched_file(
    alloc: Global,
    files: &FileSet,
    folder: &Option<Text>,
) -> Result<Option<usize>, Refusal>
    ensures found { IfOk result (λ within. searched_file files.now folder.now ≡ Ok within) }
    ensures refused { RefusedAs result (searched_file files.now folder.now) }
{
    match folder {
        Some(folder) => {
            let name = file_of_folder(alloc, folder)?;
            Ok(Some(numbered_file(files, name.as_str())?))
        }
        None => Ok(None),
    }
}

/// Refuses a search for the call of `project` where there is no such call.
///
/// # Errors
/// It is such a search, or out of memory.
fn project_there(alloc: Global, name: &PlaceName, notes: &[Note<'_, '_>]) -> Result<(), Refusal>
    ensures found { IfOk result (λ u. project_there name.now (note_views notes.now) ≡ Ok u) }
    ensures refused { RefusedAs result (project_there name.now (note_views notes.now)) }
{
    match name {
        PlaceName::Project(_) => {
            let projects = with_role(alloc, Role::Project, notes)?;
            if projects.as_slice().is_empty() {
                return Err(Refusal::NoProject);
            }
            Ok(())
        }
        _ => Ok(()),
    }
}

/// What an id finds in the files that are searched: the place of a call, or that of the value of an assignment.
///
/// # Errors
/// No place is found, or more than one; a search for the call of `project` where there is no such call; or out of memory.
pub fn found_by_id(
    alloc: Global,
    sources: Sources<'_>,
    within: Option<usize>,
    name: &PlaceName,
) -> Result<CallRef, Refusal>
    requires { AreParsed sources.files.now sources.trees.now }
    ensures found { IfOk result (λ place. found_by_id (loaded_in sources.entry) within name.now ≡ Ok place) }
    ensures refused { RefusedAs result (found_by_id (loaded_in sources.entry) within name.now) }
{
    let taken = notes_of(alloc, sources.files, sources.trees)?;
    let notes = taken.all(alloc)?;
    project_there(alloc, name, notes.as_slice())?;
    let places = places_by_id(alloc, name, notes.as_slice())?;
    let places = searched(alloc, within, places)?;
    only_one(places)
}

/// The first of some lists.
///
/// # Errors
/// There is no list.
fn first_list(lists: Vec<CallRef>) -> Result<CallRef, Refusal>
    ensures { result ≡ first_list lists.items }
{
    lists.into_iter().next().ok_or(Refusal::NotFound)
}

/// What begins on this line of the file of this number, if the file is searched.
fn found_on(
    alloc: Global,
    sources: Sources<'_>,
    within: Option<usize>,
    file: usize,
    line: usize,
) -> Result<CallRef, Refusal>
    requires { AreParsed sources.files.now sources.trees.now }
    ensures found { IfOk result (λ place. found_on (loaded_in sources.entry) within file line ≡ Ok place) }
    ensures refused { RefusedAs result (found_on (loaded_in sources.entry) within file line) }
{
    let taken = notes_of(alloc, sources.files, sources.trees)?;
    let notes = taken.all(alloc)?;
    let places = places_on(alloc, sources.files, file, line, notes.as_slice())?;
    let places = searched(alloc, within, places)?;
    if !places.is_empty() {
        return first_around(alloc, places.as_slice());
    }
    let lists = lists_on(alloc, sources, file, line)?;
    first_list(searched(alloc, within, lists)?)
}

/// The one place that a search finds: that of a call, or that of the value of an assignment.
///
/// # Errors
/// The folder or the file of the line is not in the project; no place is found, or more than one; or out of memory.
pub fn find_place(alloc: Global, sources: Sources<'_>, search: &Search) -> Result<CallRef, Refusal>
    requires { AreParsed sources.files.now sources.trees.now }
    ensures found { IfOk result (λ place. the_place (loaded_in sources.entry) search.now ≡ Ok place) }
    ensures refused { RefusedAs result (the_place (loaded_in sources.entry) search.now) }
{
    let within = searched_file(alloc, sources.files, &search.folder)?;
    match &search.name {
        PlaceName::Line { file, line } => {
            let file = numbered_file(sources.files, file.get())?;
            found_on(alloc, sources, within, file, *line)
        }
        name => found_by_id(alloc, sources, within, name),
    }
}
