//! What is said beside the answer of a run: what its commands change though their words do not say so.

ghost use Rattle.std.specs.Prelude.{◌≡◌, ◌⊎◌, ◌++◌, ◌-◌, ℕ, IfOk, OnOk, length, string_bytes, take};
ghost use Rattle.meson_plan.specs.Performing.{Performs};
ghost use Rattle.meson_steps.specs.declared.command.Done.{Done};
ghost use Rattle.meson_rewrite.specs.Warnings.{AreWarnings, Gathers, IsWarned, lines_of, notes_of, warned, with_warnings};
ghost use Rattle.meson_rewrite.specs.declared.notes.PlacedNote.{PlacedNote as Placement};

use crate::notes::{Notes, PlacedNote, placed_notes};
use crate::request::Step;
use crate::said::Said;
use meson_command::Flags;
use meson_explaining::warning_lines;
use meson_plan::{Command, Project};
use meson_splice::{Bytes, Many, Text};
use meson_warnings::warnings;
use std::alloc::{AllocError, Global};

/// The warnings of a run.
#[derive(Drop)]
pub(crate) enum Warnings {
    /// None are given.
    Nothing,
    /// Lines, each with its line end.
    Lines(Text),
    /// For an answer in JSON.
    Placed(Many<PlacedNote>),
}

/// The lines of the warnings of a command.
fn lines_of(alloc: Global, project: &Project, command: &Command) -> Result<String, AllocError>
    ensures { IfOk result (λ lines. string_bytes lines ≡ lines_of project.now command.now) }
{
    let notes = warnings(alloc, project, command)?;
    warning_lines(alloc, project.files(), notes.as_slice())
}

/// The warnings of a command for an answer in JSON.
fn notes_of(
    alloc: Global,
    project: &Project,
    command: &Command,
) -> Result<Vec<PlacedNote>, AllocError>
    ensures { IfOk result (λ notes. notes.items ≡ notes_of project.now command.now) }
{
    let notes = warnings(alloc, project, command)?;
    let placed = placed_notes(alloc, project.files(), notes.as_slice())?;
    Ok(placed.take())
}

/// An equal project.
fn copy_of(alloc: Global, project: &Project) -> Result<Project, AllocError>
    ensures { IfOk result (λ copy. copy ≡ project.now) }
{
    match project.copy(alloc) {
        Ok(copy) => Ok(copy),
        Err(_) => Err(AllocError),
    }
}

/// Performs a command. If it is refused, the run is refused at it, and has no warnings.
fn perform(alloc: Global, project: &mut Project, command: &Command) -> Result<(), AllocError>
    ensures { OnOk result ((done : Done) × Performs project.old command.now done project.new) }
{
    match project.perform(alloc, command) {
        Ok(_) => Ok(()),
        Err(_) => Err(AllocError),
    }
}

/// The lines of the warnings of commands, each by the project as the command finds it.
fn all_lines(alloc: Global, project: &Project, commands: &[Command]) -> Result<String, AllocError>
    ensures { IfOk result (λ lines. Gathers ℕ lines_of project.now commands.now (string_bytes lines)) }
{
    if let [command] = commands {
        return lines_of(alloc, project, command);
    }
    let mut found = copy_of(alloc, project)?;
    let mut lines = String::new(alloc);
    for command in commands {
        let more = lines_of(alloc, &found, command)?;
        lines.push_str(more.as_str())?;
        perform(alloc, &mut found, command)?;
    }
    Ok(lines)
}

/// The warnings of commands for an answer in JSON, each by the project as the command finds it.
fn all_notes(
    alloc: Global,
    project: &Project,
    commands: &[Command],
) -> Result<Vec<PlacedNote>, AllocError>
    ensures { IfOk result (λ notes. Gathers Placement notes_of project.now commands.now notes.items) }
{
    if let [command] = commands {
        return notes_of(alloc, project, command);
    }
    let mut found = copy_of(alloc, project)?;
    let mut notes = Vec::new(alloc);
    for command in commands {
        let mut more = notes_of(alloc, &found, command)?;
        notes.append(&mut more)?;
        perform(alloc, &mut found, command)?;
    }
    Ok(notes)
}

/// The warnings of the commands of a run.
fn gathered(
    alloc: Global,
    project: &Project,
    commands: &[Command],
    json: bool,
) -> Result<Warnings, AllocError>
    ensures { IfOk result (AreWarnings json project.now commands.now) }
{
    if json {
        let notes = all_notes(alloc, project, commands)?;
        return Ok(Warnings::Placed(Many::of(notes)));
    }
    let lines = all_lines(alloc, project, commands)?;
    Ok(Warnings::Lines(Text::of(lines)))
}

/// The warnings of a step on a project, if the flags ask for them. If it is out of memory, there are none.
pub(crate) fn warnings_for(alloc: Global, project: &Project, step: &Step, flags: Flags) -> Warnings
    ensures { IsWarned flags project.now step.now result }
{
    match step {
        Step::Run { script, .. } if flags.explain => {
            match gathered(alloc, project, script.commands.get(), flags.json) {
                Ok(warnings) => warnings,
                Err(AllocError) => Warnings::Nothing,
            }
        }
        _ => Warnings::Nothing,
    }
}

/// Two texts, one after the other.
fn joined(alloc: Global, first: &[u8], second: &[u8]) -> Result<Vec<u8>, AllocError>
    ensures { IfOk result (λ text. text.items ≡ first.now ++ second.now) }
{
    let mut text = Vec::new(alloc);
    text.extend_from_slice(first)?;
    text.extend_from_slice(second)?;
    Ok(text)
}

/// The line of an object of JSON without its closing bracket.
fn open_object(line: &[u8]) -> &[u8]
    ensures { result.now ≡ take (length line.now - 2) line.now }
{
    &line[..line.len().saturating_sub(2)]
}

/// The line of an object of JSON with the member `warnings` at its end.
fn line_with(alloc: Global, line: &[u8], notes: &[PlacedNote]) -> Result<Vec<u8>, AllocError>
    ensures { IfOk result (λ text. text.items ≡ with_warnings notes.now line.now) }
{
    let member = format!(in alloc; ",\"warnings\":{}}}\n", Notes(notes))?;
    joined(alloc, open_object(line), member.as_bytes())
}

/// The same, or the line alone if it is out of memory.
fn with_member(alloc: Global, line: Bytes, notes: &[PlacedNote]) -> Bytes
    ensures { (result ≡ with_warnings notes.now line) ⊎ (result ≡ line) }
{
    match line_with(alloc, line.get(), notes) {
        Ok(text) => Bytes::of(text),
        Err(AllocError) => line,
    }
}

/// A text with lines after it, or the text alone if it is out of memory.
fn with_lines(alloc: Global, text: Bytes, lines: &str) -> Bytes
    ensures { (result ≡ text ++ lines.now) ⊎ (result ≡ text) }
{
    match joined(alloc, text.get(), lines.as_bytes()) {
        Ok(more) => Bytes::of(more),
        Err(AllocError) => text,
    }
}

/// What is said with warnings, or without them if it is out of memory.
pub(crate) fn warned(alloc: Global, said: Said, warnings: &Warnings) -> Said
    ensures { (result ≡ warned warnings.now said) ⊎ (result ≡ said) }
{
    let Said { out, err, changed } = said;
    match warnings {
        Warnings::Nothing => Said { out, err, changed },
        Warnings::Lines(lines) => Said {
            out,
            err: with_lines(alloc, err, lines.get()),
            changed,
        },
        Warnings::Placed(notes) => Said {
            out: with_member(alloc, out, notes.get()),
            err,
            changed,
        },
    }
}
