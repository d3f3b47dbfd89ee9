//! Why the place of a value is not found.

ghost use Rattle.std.specs.Prelude.{◌≡◌, IfOk, map, option_map};
ghost use Rattle.meson_explaining.specs.ArgumentPlaces.{and_help, folder_lines, line_file_notes, nearest_settings, no_call, no_call_notes, no_folder_notes, no_setting, nothing_on};
ghost use Rattle.meson_explaining.specs.ArgumentPlaces.{nothing_there, place_missing, place_without_file, uncalled_notes};
ghost use Rattle.meson_inventory.specs.Assignments.{assignments};

use crate::argument_places::{few_settings, only_file};
use crate::bad_names::one_note;
use crate::explaining::with_help;
use crate::explanation::{Explanation, Note};
use crate::keys::nearest_key;
use crate::not_found::{missing_notes, not_found};
use crate::targets::folder_notes;
use meson_calls::Reading;
use meson_inventory::assignments::{HeldAssignment, assignments_held};
use meson_inventory::holdings::{HeldCall, calls_held, holdings_of};
use meson_plan::{Project, Role};
use meson_splice::{Many, Text};
use meson_steps::argument::{Callee, PlaceName, Search};
use std::alloc::{AllocError, Global};

/// The note where no build file calls a function.
fn uncalled_notes(
    alloc: Global,
    function: &str,
    calls: &[HeldCall],
) -> Result<Vec<Note>, AllocError>
    ensures { IfOk result (λ notes. notes.items ≡ uncalled_notes function.now calls.now) }
{
    if calls.is_empty() {
        one_note(alloc, format!(in alloc; "no build file calls {function}")?)
    } else {
        Ok(Vec::new(alloc))
    }
}

/// The notes where none of these calls of a function has the id.
fn no_call_notes(
    alloc: Global,
    function: &str,
    id: &str,
    calls: &[HeldCall],
    subdirs: &[HeldCall],
) -> Result<Vec<Note>, AllocError>
    ensures { IfOk result (λ notes. notes.items ≡ no_call_notes function.now id.now calls.now subdirs.now) }
{
    let mut notes = uncalled_notes(alloc, function, calls)?;
    let mut near = missing_notes(
        alloc,
        id,
        "calls of it without a literal name",
        calls,
        subdirs,
    )?;
    notes.append(&mut near)?;
    Ok(notes)
}

/// Why no call of a function has the id, where build files are read so.
fn no_call_of(
    alloc: Global,
    reading: Reading,
    project: &Project,
    function: &str,
    id: &str,
) -> Result<Explanation, AllocError>
    ensures { IfOk result (λ e. e ≡ no_call reading project.now (Callee.Function function.now) id.now) }
{
    let calls = calls_held(alloc, project, function)?;
    let held = holdings_of(alloc, reading, project)?;
    let notes = no_call_notes(alloc, function, id, calls.get(), held.not_entered.get())?;
    with_help(
        alloc,
        notes,
        "a call is found by its name or its variable, which list --of FUNCTION shows, or by its line with at FILE:LINE",
    )
}

/// The variables of some assignments.
fn variables_of(alloc: Global, held: &[HeldAssignment]) -> Result<Vec<&str>, AllocError>
    ensures { IfOk result (λ names. map (λ k. k.now) names.items ≡ map (λ a. a.variable) held.entry.now) }
{
    let mut names = Vec::new(alloc);
    for i in 0..held.len() {
        names.push(held[i].variable.get())?;
    }
    Ok(names)
}

/// The notes of the assignments that set the nearest variable.
fn nearest_settings(
    alloc: Global,
    nearest: Option<&str>,
    held: &[HeldAssignment],
) -> Result<Vec<Note>, AllocError>
    ensures { (l : _) → held.now ≡ assignments l → IfOk result (λ notes. notes.items ≡ nearest_settings l (option_map (λ k. k.now) nearest.entry)) }
{
    match nearest {
        Some(variable) => few_settings(alloc, None, variable, held),
        None => Ok(Vec::new(alloc)),
    }
}

/// Why no assignment sets the variable.
fn no_setting(alloc: Global, project: &Project, variable: &str) -> Result<Explanation, AllocError>
    ensures { IfOk result (λ e. e ≡ no_setting project.now variable.now) }
{
    let held = assignments_held(alloc, project)?;
    let variables = variables_of(alloc, held.get())?;
    let nearest = nearest_key(alloc, variable, variables.as_slice())?;
    let notes = nearest_settings(alloc, nearest, held.get())?;
    with_help(
        alloc,
        notes,
        "a variable is found where = sets it, which list --of variable shows",
    )
}

/// Why nothing is on a line of a file.
fn nothing_on(alloc: Global, file: &str, line: usize) -> Result<Explanation, AllocError>
    ensures { IfOk result (λ e. e ≡ nothing_on file.now line) }
{
    let note = format!(in alloc; "no call, no value and no list begins on line {line} of {file}")?;
    let notes = one_note(alloc, note)?;
    with_help(
        alloc,
        notes,
        "list shows the lines of targets, list --of FUNCTION those of other calls, and list --of variable those of assignments",
    )
}

/// Why nothing has a name, where build files are read so.
fn nothing_there(
    alloc: Global,
    reading: Reading,
    project: &Project,
    name: &PlaceName,
) -> Result<Explanation, AllocError>
    ensures { IfOk result (λ e. e ≡ nothing_there reading project.now name.now) }
{
    match name {
        PlaceName::Project(_) => with_help(
            alloc,
            Vec::new(alloc),
            "project is called in the root file",
        ),
        PlaceName::Call {
            callee: Callee::Target,
            id,
        } => not_found(alloc, reading, project, Role::Target, id.get()),
        PlaceName::Call {
            callee: Callee::Function(function),
            id,
        } => no_call_of(alloc, reading, project, function.get(), id.get()),
        PlaceName::Variable(variable) => no_setting(alloc, project, variable.get()),
        PlaceName::Line { file, line } => nothing_on(alloc, file.get(), *line),
    }
}

/// Adds that the build file of one folder alone is searched, if a folder is given.
pub(crate) fn and_folder(
    alloc: Global,
    explanation: Explanation,
    folder: Option<&Text>,
) -> Result<Explanation, AllocError>
    ensures { IfOk result (λ e. e ≡ and_help explanation (folder_lines (option_map (λ f. f.now) folder.entry))) }
{
    let Explanation { notes, help } = explanation;
    let mut lines = help.take();
    if folder.is_some() {
        lines.push(Text::of(String::from_str(
            alloc,
            "--in FOLDER searches the build file of that folder alone",
        )?))?;
    }
    Ok(Explanation {
        notes,
        help: Many::of(lines),
    })
}

/// Why a search finds no place, where build files are read so.
pub(crate) fn place_missing(
    alloc: Global,
    reading: Reading,
    project: &Project,
    search: &Search,
) -> Result<Explanation, AllocError>
    ensures { IfOk result (λ e. e ≡ place_missing reading project.now search.now) }
{
    let explanation = nothing_there(alloc, reading, project, &search.name)?;
    and_folder(alloc, explanation, search.folder.as_ref())
}

/// The note of the file of a line.
fn line_file_notes(alloc: Global, name: &PlaceName) -> Result<Vec<Note>, AllocError>
    ensures { IfOk result (λ notes. notes.items ≡ line_file_notes name.now) }
{
    match name {
        PlaceName::Line { file, .. } => {
            let file = file.get();
            one_note(
                alloc,
                format!(in alloc; "the project has no build file {file}")?,
            )
        }
        PlaceName::Project(_) | PlaceName::Call { .. } | PlaceName::Variable(_) => {
            Ok(Vec::new(alloc))
        }
    }
}

/// The notes of the folder that has no build file, or of the file of a line.
fn no_folder_notes(
    alloc: Global,
    project: &Project,
    folder: &Option<Text>,
    name: &PlaceName,
) -> Result<Vec<Note>, AllocError>
    ensures { IfOk result (λ notes. notes.items ≡ no_folder_notes project.now folder.now name.now) }
{
    let only = only_file(alloc, project.files(), folder)?;
    match folder {
        Some(folder) if only.is_none() => {
            folder_notes(alloc, project.files().len(), folder.get())
        }
        _ => line_file_notes(alloc, name),
    }
}

/// Why the folder or the file of a search has no build file.
pub(crate) fn place_without_file(
    alloc: Global,
    project: &Project,
    search: &Search,
) -> Result<Explanation, AllocError>
    ensures { IfOk result (λ e. e ≡ place_without_file project.now search.now) }
{
    let notes = no_folder_notes(alloc, project, &search.folder, &search.name)?;
    with_help(
        alloc,
        notes,
        "list shows the build files; a folder is written as src, not as src/ or ./src, and that of the root file as .",
    )
}
