//! Why code is not inserted, and why a statement is not removed, in words for people.

ghost use Rattle.std.specs.Prelude.{◌≡◌, IfOk};
ghost use Rattle.meson_explaining.specs.Insertions.{code_explanation, end_explanation, needed_elsewhere, no_statement_on, removal_explanation, statement_by, statement_explanation};

use crate::argument_places::places_meant;
use crate::bad_names::one_note;
use crate::explaining::{unexplained, with_help};
use crate::explanation::Explanation;
use crate::missing_places::{and_folder, place_missing, place_without_file};
use crate::reasons::{no_project, stated, too_deep, too_large};
use meson_calls::{Reading, Refusal};
use meson_plan::Project;
use meson_steps::argument::{PlaceName, Search};
use meson_steps::command::CodePlace;
use std::alloc::{AllocError, Global};

/// Why no statement is on a line of a file.
fn no_statement_on(alloc: Global, file: &str, line: usize) -> Result<Explanation, AllocError>
    ensures { IfOk result (λ e. e ≡ no_statement_on file.now line) }
{
    let note = format!(in alloc; "no statement begins on line {line} of {file}")?;
    let notes = one_note(alloc, note)?;
    with_help(
        alloc,
        notes,
        "list shows the lines of targets, list --of FUNCTION those of other calls, and list --of variable those of assignments",
    )
}

/// Why no statement is found, where build files are read so.
fn statement_missing(
    alloc: Global,
    reading: Reading,
    project: &Project,
    search: &Search,
) -> Result<Explanation, AllocError>
    ensures { IfOk result (λ e. e ≡ statement_by reading project.now search.now search.now.name) }
{
    match &search.name {
        PlaceName::Line { file, line } => {
            let explanation = no_statement_on(alloc, file.get(), *line)?;
            and_folder(alloc, explanation, search.folder.as_ref())
        }
        _ => place_missing(alloc, reading, project, search),
    }
}

/// Why a statement that is searched for cannot be changed, or code cannot be inserted beside it.
fn explain_statement(
    alloc: Global,
    reading: Reading,
    project: &Project,
    search: &Search,
    refusal: &Refusal,
) -> Result<Explanation, AllocError>
    ensures { IfOk result (λ e. e ≡ statement_explanation reading project.now search.now refusal.now) }
{
    match refusal {
        Refusal::NoProject => no_project(alloc, project),
        Refusal::NotFound => statement_missing(alloc, reading, project, search),
        Refusal::Ambiguous => places_meant(alloc, project, search),
        Refusal::NoFile => place_without_file(alloc, project, search),
        Refusal::NotStatement => stated(
            alloc,
            "the call is inside a larger expression",
            "at FILE:LINE as the FUNCTION and the ID names the statement that begins on a line",
        ),
        Refusal::TooDeep => too_deep(alloc),
        Refusal::TooLarge => too_large(alloc),
        _ => Ok(unexplained(alloc)),
    }
}

/// Why code is not inserted at the end of a file.
fn explain_end(alloc: Global, file: &str, refusal: &Refusal) -> Result<Explanation, AllocError>
    ensures { IfOk result (λ e. e ≡ end_explanation file.now refusal.now) }
{
    match refusal {
        Refusal::NoFile => {
            let note = format!(in alloc; "the project has no build file {file}")?;
            let notes = one_note(alloc, note)?;
            with_help(alloc, notes, "list shows the build files of the project")
        }
        Refusal::TooDeep => too_deep(alloc),
        Refusal::TooLarge => too_large(alloc),
        _ => Ok(unexplained(alloc)),
    }
}

/// Why code is not inserted.
pub(crate) fn explain_insertion(
    alloc: Global,
    reading: Reading,
    project: &Project,
    place: &CodePlace,
    refusal: &Refusal,
) -> Result<Explanation, AllocError>
    ensures { IfOk result (λ e. e ≡ code_explanation reading project.now place.now refusal.now) }
{
    match place {
        CodePlace::Above(search) => explain_statement(alloc, reading, project, search, refusal),
        CodePlace::Below(search) => explain_statement(alloc, reading, project, search, refusal),
        CodePlace::End(file) => explain_end(alloc, file.get(), refusal),
    }
}

/// Why a statement stays: it sets this variable.
fn needed_elsewhere(alloc: Global, name: &str) -> Result<Explanation, AllocError>
    ensures { IfOk result (λ e. e ≡ needed_elsewhere name.now) }
{
    let note = format!(in alloc; "the statement sets {name}, which is used elsewhere")?;
    let notes = one_note(alloc, note)?;
    with_help(
        alloc,
        notes,
        "remove the uses first; get_variable, a second assignment, foreach and a format string that holds the variable count too",
    )
}

/// Why a statement is not removed.
pub(crate) fn explain_removal(
    alloc: Global,
    reading: Reading,
    project: &Project,
    search: &Search,
    refusal: &Refusal,
) -> Result<Explanation, AllocError>
    ensures { IfOk result (λ e. e ≡ removal_explanation reading project.now search.now refusal.now) }
{
    match refusal {
        Refusal::InUse(name) => needed_elsewhere(alloc, name.get()),
        _ => explain_statement(alloc, reading, project, search, refusal),
    }
}
