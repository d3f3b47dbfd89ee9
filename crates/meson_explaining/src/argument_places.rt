//! Which calls and assignments a search for a place means, where it means more than one.

ghost use Rattle.std.specs.Prelude.{◌≡◌, [], IfOk, codes, filter, map, string_bytes};
ghost use Rattle.meson_explaining.specs.ArgumentPlaces.{callee_calls, few_settings, is_meant, is_searched, is_setting, line_help, meant_notes, one_place_help, only_file};
ghost use Rattle.meson_explaining.specs.ArgumentPlaces.{places_meant, setting_note, settings_of};
ghost use Rattle.meson_explaining.specs.Notes.{few_notes};
ghost use Rattle.meson_inventory.specs.Holdings.{calls_held};
ghost use Rattle.meson_places.specs.Names.{file_of_folder};
ghost use Rattle.meson_calls.specs.Calls.{is};

use crate::bad_names::one_note;
use crate::calls::{Telling, add_few, add_further};
use crate::explaining::with_help;
use crate::explanation::{Explanation, Note, Spot};
use meson_calls::Reading;
use meson_inventory::assignments::{HeldAssignment, assignments_held};
use meson_inventory::holdings::{HeldCall, calls_held, holdings_of};
use meson_plan::Project;
use meson_splice::{FileSet, Many, Text};
use meson_steps::argument::{Callee, PlaceName, Search};
use std::alloc::{AllocError, Global};

/// The most assignments that are reported.
const MOST_SETTINGS: usize = 5;

/// The name of the build file of a folder.
fn file_of_folder(alloc: Global, folder: &str) -> Result<String, AllocError>
    ensures { IfOk result (λ name. string_bytes name ≡ file_of_folder folder.now) }
{
    if folder == "." {
        return String::from_str(alloc, "meson.build");
    }
    format!(in alloc; "{folder}/meson.build")
}

/// The number of the one file that is searched, if a folder is given that has one.
pub(crate) fn only_file(
    alloc: Global,
    files: &FileSet,
    folder: &Option<Text>,
) -> Result<Option<usize>, AllocError>
    ensures { IfOk result (λ only. only ≡ only_file files.now folder.now) }
{
    match folder {
        Some(folder) => {
            let name = file_of_folder(alloc, folder.get())?;
            Ok(files.find(name.as_str()))
        }
        None => Ok(None),
    }
}

/// Whether a file is searched.
fn is_searched(only: Option<usize>, file: usize) -> bool
    ensures { result ≡ is_searched only file }
{
    match only {
        Some(only) => file == only,
        None => true,
    }
}

/// Whether a text is there, and is an id.
fn is(id: &str, text: &Option<Text>) -> bool
    ensures { result ≡ is id.now text.now }
{
    match text {
        Some(text) => id == text.get(),
        None => false,
    }
}

/// Whether a call is searched, and has an id as its name or its variable.
fn is_meant(only: Option<usize>, id: &str, call: &HeldCall) -> bool
    ensures { result ≡ is_meant only id.now call.now }
{
    is_searched(only, call.file) && (is(id, &call.head.name) || is(id, &call.variable))
}

/// Whether an assignment is searched, and sets a variable.
fn is_setting(only: Option<usize>, variable: &str, setting: &HeldAssignment) -> bool
    ensures { result ≡ is_setting only variable.now setting.now }
{
    is_searched(only, setting.file) && setting.sets && setting.variable.get() == variable
}

/// The calls of a function.
fn callee_calls(
    alloc: Global,
    project: &Project,
    callee: &Callee,
) -> Result<Many<HeldCall>, AllocError>
    ensures { IfOk result (λ calls. calls ≡ callee_calls project.now callee.now) }
{
    match callee {
        Callee::Target => {
            let held = holdings_of(alloc, Reading::Written, project)?;
            Ok(held.targets)
        }
        Callee::Function(function) => calls_held(alloc, project, function.get()),
    }
}

/// Those of some calls that are searched and have an id.
fn meant_calls(
    alloc: Global,
    only: Option<usize>,
    id: &str,
    calls: Many<HeldCall>,
) -> Result<Vec<HeldCall>, AllocError>
    ensures { IfOk result (λ meant. meant.items ≡ filter (is_meant only id.now) calls) }
{
    let mut meant = Vec::new(alloc);
    for call in calls.take() {
        if is_meant(only, id, &call) {
            meant.push(call)?;
        }
    }
    Ok(meant)
}

/// The notes of the calls that an id names.
fn call_notes(
    alloc: Global,
    project: &Project,
    only: Option<usize>,
    callee: &Callee,
    id: &str,
) -> Result<Vec<Note>, AllocError>
    ensures { IfOk result (λ notes. notes.items ≡ few_notes 5 [] (codes "further calls that the id names") (filter (is_meant only id.now) (callee_calls project.now callee.now))) }
{
    let calls = callee_calls(alloc, project, callee)?;
    let meant = meant_calls(alloc, only, id, calls)?;
    let telling = Telling {
        most: 5,
        more: "",
        others: "further calls that the id names",
    };
    let mut notes = Vec::new(alloc);
    add_few(alloc, &mut notes, telling, meant.as_slice())?;
    Ok(notes)
}

/// Those of some calls that are searched.
fn searched_calls(
    alloc: Global,
    only: Option<usize>,
    calls: Many<HeldCall>,
) -> Result<Vec<HeldCall>, AllocError>
    ensures { IfOk result (λ searched. searched.items ≡ filter (λ c. is_searched only c.file) calls) }
{
    let mut searched = Vec::new(alloc);
    for call in calls.take() {
        if is_searched(only, call.file) {
            searched.push(call)?;
        }
    }
    Ok(searched)
}

/// The notes of the calls of `project` that are searched.
fn project_notes(
    alloc: Global,
    project: &Project,
    only: Option<usize>,
) -> Result<Vec<Note>, AllocError>
    ensures { let calls = calls_held project.now (codes "project") in
        IfOk result (λ notes. notes.items ≡ few_notes 5 [] (codes "further calls of project") (filter (λ c. is_searched only c.file) calls)) }
{
    let calls = calls_held(alloc, project, "project")?;
    let searched = searched_calls(alloc, only, calls)?;
    let telling = Telling {
        most: 5,
        more: "",
        others: "further calls of project",
    };
    let mut notes = Vec::new(alloc);
    add_few(alloc, &mut notes, telling, searched.as_slice())?;
    Ok(notes)
}

/// The note of an assignment.
fn setting_note(alloc: Global, setting: &HeldAssignment) -> Result<Note, AllocError>
    ensures { IfOk result (λ note. note ≡ setting_note setting.now) }
{
    let variable = setting.variable.get();
    let text = format!(in alloc; "{variable} is set here")?;
    Ok(Note {
        spot: Some(Spot {
            file: setting.file,
            at: setting.span.from,
            end: setting.span.to,
        }),
        text: Text::of(text),
    })
}

/// The notes of the assignments that are searched and set a variable.
fn all_settings(
    alloc: Global,
    only: Option<usize>,
    variable: &str,
    held: &[HeldAssignment],
) -> Result<Vec<Note>, AllocError>
    ensures { IfOk result (λ notes. notes.items ≡ map setting_note (filter (is_setting only variable.now) held.now)) }
{
    let mut notes = Vec::new(alloc);
    for i in 0..held.len() {
        if is_setting(only, variable, &held[i]) {
            notes.push(setting_note(alloc, &held[i])?)?;
        }
    }
    Ok(notes)
}

/// The notes of the first of them, and of how many others there are.
pub(crate) fn few_settings(
    alloc: Global,
    only: Option<usize>,
    variable: &str,
    held: &[HeldAssignment],
) -> Result<Vec<Note>, AllocError>
    ensures { IfOk result (λ notes. notes.items ≡ few_settings (filter (is_setting only variable.now) held.now)) }
{
    let mut notes = all_settings(alloc, only, variable, held)?;
    let others = notes.len().saturating_sub(MOST_SETTINGS);
    notes.truncate(MOST_SETTINGS);
    add_further(alloc, &mut notes, "further assignments of it", others)?;
    Ok(notes)
}

/// The notes of the assignments of a project that are searched and set a variable.
fn setting_notes(
    alloc: Global,
    project: &Project,
    only: Option<usize>,
    variable: &str,
) -> Result<Vec<Note>, AllocError>
    ensures { IfOk result (λ notes. notes.items ≡ few_settings (settings_of project.now only variable.now)) }
{
    let held = assignments_held(alloc, project)?;
    few_settings(alloc, only, variable, held.get())
}

/// The notes of the calls and assignments that a name means.
fn meant_notes(
    alloc: Global,
    project: &Project,
    only: Option<usize>,
    name: &PlaceName,
) -> Result<Vec<Note>, AllocError>
    ensures { IfOk result (λ notes. notes.items ≡ meant_notes project.now only name.now) }
{
    match name {
        PlaceName::Project(_) => project_notes(alloc, project, only),
        PlaceName::Call { callee, id } => call_notes(alloc, project, only, callee, id.get()),
        PlaceName::Variable(variable) => setting_notes(alloc, project, only, variable.get()),
        PlaceName::Line { .. } => one_note(
            alloc,
            String::from_str(alloc, "more than one call or value begins on this line")?,
        ),
    }
}

/// What leads to one of them, where all build files are searched, or that of one folder alone.
fn line_help(folder: &Option<Text>) -> &'static str
    ensures { result.now ≡ line_help folder.now }
{
    match folder {
        Some(_) => "at FILE:LINE names the one that begins on that line",
        None => {
            "at FILE:LINE names the one that begins on that line, and --in FOLDER searches the build file of one folder alone"
        }
    }
}

fn one_place_help(name: &PlaceName, folder: &Option<Text>) -> &'static str
    ensures { result.now ≡ one_place_help name.now folder.now }
{
    match name {
        PlaceName::Line { .. } => {
            "name one of them by its function and its id, or by its variable"
        }
        PlaceName::Project(_) | PlaceName::Call { .. } | PlaceName::Variable(_) => {
            line_help(folder)
        }
    }
}

/// Which calls and assignments a search finds.
pub(crate) fn places_meant(
    alloc: Global,
    project: &Project,
    search: &Search,
) -> Result<Explanation, AllocError>
    ensures { IfOk result (λ e. e ≡ places_meant project.now search.now) }
{
    let only = only_file(alloc, project.files(), &search.folder)?;
    let notes = meant_notes(alloc, project, only, &search.name)?;
    with_help(alloc, notes, one_place_help(&search.name, &search.folder))
}
