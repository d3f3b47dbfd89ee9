//! What is said of a refused command beside its line.

ghost use Rattle.std.specs.Prelude.{◌≡◌, ◌⊎◌, IfOk, OnOk};
ghost use Rattle.meson_rewrite.specs.Advising.{IsRefusal, IsTold, Leaves, advice_for, advice_of, subject_for};
ghost use Rattle.meson_rewrite.specs.Stops.{WantsMemory};

use crate::notes::{PlacedNote, placed_notes};
use crate::stop::Stop;
use crate::subjects::subject_of;
use meson_command::Flags;
use meson_explaining::{Explanation, explain, explanation_lines};
use meson_json::Script;
use meson_plan::{Command, Project, Refusal};
use meson_script::{ListingForm, RunFault, Session, perform_all};
use meson_splice::{FileSet, Many, Text};
use std::alloc::{AllocError, Global};

/// What is said of a refusal beside its line.
#[derive(Drop)]
pub(crate) enum Advice {
    /// No more.
    Nothing,
    /// Lines, each with its line end.
    Lines(Text),
    /// Members of an object of JSON.
    Members {
        notes: Many<PlacedNote>,
        help: Many<Text>,
    },
    /// No more, since memory ran out while it was made.
    OutOfMemory,
}

/// What is said of an explanation of a project with these files: lines, or members of an object of JSON.
pub(crate) fn advice_of(
    alloc: Global,
    json: bool,
    files: &FileSet,
    explanation: Explanation,
) -> Result<Advice, AllocError>
    ensures { IfOk result (λ advice. advice ≡ advice_of json files.now explanation) }
{
    if json {
        let Explanation { notes, help } = explanation;
        let notes = placed_notes(alloc, files, notes.get())?;
        return Ok(Advice::Members { notes, help });
    }
    let lines = explanation_lines(alloc, files, &explanation)?;
    Ok(Advice::Lines(Text::of(lines)))
}

/// Performs commands that were performed before: only memory can be refused.
fn perform_again(
    alloc: Global,
    project: &mut Project,
    commands: &[Command],
) -> Result<(), AllocError>
    ensures { OnOk result (Leaves project.old commands.now project.new) }
{
    match perform_all(alloc, project, commands, ListingForm::Plain) {
        Ok(_) => Ok(()),
        Err(_) => Err(AllocError),
    }
}

/// What is said of a refused command beside its line.
#[derive(Drop)]
pub(crate) struct Told {
    /// The name that is meant.
    subject: Option<Text>,
    advice: Advice,
}

impl Told {
    /// No more than the line.
    const NOTHING: Told = Told {
        subject: None,
        advice: Advice::Nothing,
    };
}

/// The name that a refusal means, if the answer is an object.
fn subject_for(
    alloc: Global,
    project: &Project,
    command: &Command,
    refusal: &Refusal,
    flags: Flags,
) -> Result<Option<Text>, AllocError>
    ensures { IfOk result (λ name. name ≡ subject_for flags project.now command.now refusal.now) }
{
    if !flags.json {
        return Ok(None);
    }
    subject_of(alloc, project, command, refusal)
}

/// What explains a refusal, if the words ask for that.
fn advice_for(
    alloc: Global,
    project: &Project,
    command: &Command,
    refusal: &Refusal,
    flags: Flags,
) -> Result<Advice, AllocError>
    ensures { IfOk result (λ advice. advice ≡ advice_for flags project.now command.now refusal.now) }
{
    if !flags.explain {
        return Ok(Advice::Nothing);
    }
    let explanation = explain(alloc, flags.reading, project, command, refusal)?;
    advice_of(alloc, flags.json, project.files(), explanation)
}

/// What is said of the refusal of a command by what the project holds as the command finds it, which the project becomes.
fn told_there(
    alloc: Global,
    project: &mut Project,
    commands: &[Command],
    fault: &RunFault,
    flags: Flags,
) -> Result<Told, AllocError>
    ensures { IfOk result (λ told. IsTold flags project.old commands.now fault.now told.subject told.advice) }
{
    if fault.index >= commands.len() {
        return Ok(Told::NOTHING);
    }
    perform_again(alloc, project, &commands[..fault.index])?;
    let command = &commands[fault.index];
    let subject = subject_for(alloc, project, command, &fault.refusal, flags)?;
    let advice = advice_for(alloc, project, command, &fault.refusal, flags)?;
    Ok(Told { subject, advice })
}

/// What is said of the refusal of a command, if the answer is an object or the words ask for an explanation.
fn told_of(
    alloc: Global,
    project: &mut Project,
    commands: &[Command],
    fault: &RunFault,
    flags: Flags,
) -> Result<Told, AllocError>
    ensures { IfOk result (λ told. IsTold flags project.old commands.now fault.now told.subject told.advice) }
{
    match fault.refusal {
        Refusal::OutOfMemory => Ok(Told::NOTHING),
        _ if flags.json || flags.explain => told_there(alloc, project, commands, fault, flags),
        _ => Ok(Told::NOTHING),
    }
}

/// Why a command of a script is refused, with what is said of it.
fn refusal_of(
    alloc: Global,
    project: &mut Project,
    script: &Script,
    fault: RunFault,
    flags: Flags,
) -> Result<Stop, AllocError>
    ensures { IfOk result (IsRefusal flags project.old script.now.commands fault) }
{
    let Told { subject, advice } = told_of(alloc, project, script.commands.get(), &fault, flags)?;
    Ok(Stop::Refused {
        fault,
        subject,
        advice,
    })
}

/// Why a run stops where a command of its script is refused. The project of the session becomes that which the command finds, if more is said than the line.
pub(crate) fn refused(
    alloc: Global,
    session: &mut Session,
    script: &Script,
    fault: RunFault,
    flags: Flags,
) -> Stop
    ensures { WantsMemory result ⊎ IsRefusal flags session.old.project script.now.commands fault result }
{
    match refusal_of(alloc, &mut session.project, script, fault, flags) {
        Ok(stop) => stop,
        Err(none) => Stop::from(none),
    }
}
