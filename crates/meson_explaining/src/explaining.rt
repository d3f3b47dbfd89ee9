//! Why a command is refused, in words for people.

ghost use Rattle.std.specs.Prelude.{◌≡◌, ◌∷◌, [], IfOk, option_map};
ghost use Rattle.meson_explaining.specs.Sources.{source_notes};
ghost use Rattle.meson_explaining.specs.Explaining.{ambiguous, ambiguous_help, call_explanation, explanation, folders_help, list_help, not_alone, not_literal, not_there};
ghost use Rattle.meson_explaining.specs.Explaining.{one_file_help, unknown_help, unknown_key, with_info, wrong_kind};
ghost use Rattle.meson_calls.specs.Searching.{name_at};
ghost use Rattle.meson_explaining.specs.ArgumentPlaces.{and_help, folder_lines};
ghost use Rattle.meson_explaining.specs.NotFound.{not_found};

use crate::arguments::explain_value;
use crate::calls::{Telling, add_few};
use crate::explanation::{Explanation, Note};
use crate::followed_reasons::{followed_not_there, shared_list};
use crate::insertions::{explain_insertion, explain_removal};
use crate::keys::{keys, nearest_key, unknown_notes, wrong_notes};
use crate::missing_places::and_folder;
use crate::names::sought_names;
use crate::not_found::not_found;
use crate::reasons::{
    duplicate, hidden, in_use, name_taken, no_file, no_project, no_such_value, not_removable,
    not_statement, not_valid, other_kind, shared, there_already, too_deep, too_large, unresolved,
};
use crate::sources::{extras_at, source_notes, sources_at};
use crate::subject::{Subject, subject_of};
use crate::values::value_notes;
use crate::ways::ways_for;
use meson_calls::{Reading, Refusal};
use meson_inventory::holdings::calls_named;
use meson_plan::{Project, Role};
use meson_splice::{Many, Text};
use meson_steps::command::Command;
use meson_variables::SourceItem;
use std::alloc::{AllocError, Global};
use std::slice;

/// Notes with one line of help.
pub(crate) fn with_help(
    alloc: Global,
    notes: Vec<Note>,
    help: &str,
) -> Result<Explanation, AllocError>
    ensures { IfOk result (λ e. e ≡ record { notes = notes.items; help = help.now ∷ [] }) }
{
    let mut lines = Vec::new(alloc);
    lines.push(Text::of(String::from_str(alloc, help)?))?;
    Ok(Explanation {
        notes: Many::of(notes),
        help: Many::of(lines),
    })
}

/// What leads to one of the calls, where all build files are searched.
fn folders_help(role: Role) -> &'static str
    ensures { result.now ≡ folders_help role }
{
    match role {
        Role::Project => "use --sourcedir FOLDER with the folder of one of them",
        Role::Target | Role::Dependency => {
            "use --in FOLDER with the folder of one of them, or a variable as the id; arg at FILE:LINE names the call on a line"
        }
    }
}

/// The same, where they are in the build file of the one folder that is searched.
fn one_file_help(role: Role) -> &'static str
    ensures { result.now ≡ one_file_help role }
{
    match role {
        Role::Project => "arg at FILE:LINE names the call on a line",
        Role::Target | Role::Dependency => {
            "use a variable as the id; arg at FILE:LINE names the call on a line"
        }
    }
}

fn ambiguous_help(role: Role, folder: Option<&Text>) -> &'static str
    ensures { result.now ≡ ambiguous_help role (option_map (λ f. f.now) folder.entry) }
{
    match folder {
        Some(_) => one_file_help(role),
        None => folders_help(role),
    }
}

/// Which calls an id names.
fn ambiguous(
    alloc: Global,
    project: &Project,
    subject: Subject<'_>,
) -> Result<Explanation, AllocError>
    ensures { IfOk result (λ e. e ≡ ambiguous project.now subject.entry.role (name_at subject.entry.name)) }
{
    let calls = calls_named(alloc, project, subject.role, subject.name)?;
    let telling = Telling {
        most: 5,
        more: "",
        others: "further calls that the id names",
    };
    let mut notes = Vec::new(alloc);
    add_few(alloc, &mut notes, telling, calls.get())?;
    with_help(
        alloc,
        notes,
        ambiguous_help(subject.role, subject.name.folder),
    )
}

/// The help where a key is not one that commands change.
fn unknown_help(alloc: Global, nearest: Option<&'static str>) -> Result<Vec<Text>, AllocError>
    ensures { IfOk result (λ help. help.items ≡ unknown_help (option_map (λ k. k.now) nearest.entry)) }
{
    let mut help = Vec::new(alloc);
    if let Some(key) = nearest {
        help.push(Text::of(format!(in alloc; "the nearest key is {key}")?))?;
    }
    Ok(help)
}

/// Why a key is not one that commands change.
fn unknown_key(alloc: Global, command: &Command, key: &str) -> Result<Explanation, AllocError>
    ensures { IfOk result (λ e. e ≡ unknown_key command.now key.now) }
{
    let subject = subject_of(command);
    let notes = unknown_notes(alloc, subject.role, key)?;
    let nearest = nearest_key(alloc, key, keys(subject.role))?;
    let mut help = unknown_help(alloc, nearest)?;
    let mut ways = ways_for(alloc, command, subject, key)?;
    help.append(&mut ways)?;
    Ok(Explanation {
        notes: Many::of(notes),
        help: Many::of(help),
    })
}

/// The help for commands that change lists; none for others.
fn list_help(alloc: Global, command: &Command, help: &str) -> Result<Vec<Text>, AllocError>
    ensures { IfOk result (λ lines. lines.items ≡ list_help help.now command.now) }
{
    let mut lines = Vec::new(alloc);
    match command {
        Command::KwargsAdd { .. } | Command::KwargsRemove { .. } => {
            lines.push(Text::of(String::from_str(alloc, help)?))?;
        }
        _ => {}
    }
    Ok(lines)
}

/// Why a value is not of the kind that its key takes.
fn wrong_kind(alloc: Global, command: &Command, key: &str) -> Result<Explanation, AllocError>
    ensures { IfOk result (λ e. e ≡ wrong_kind command.now key.now) }
{
    let notes = wrong_notes(alloc, subject_of(command).role, key)?;
    let help = list_help(
        alloc,
        command,
        "add and remove change lists; set replaces a value",
    )?;
    Ok(Explanation {
        notes: Many::of(notes),
        help: Many::of(help),
    })
}

/// Which value is not a literal that can be changed.
fn not_literal(
    alloc: Global,
    project: &Project,
    command: &Command,
    key: &str,
) -> Result<Explanation, AllocError>
    ensures { IfOk result (λ e. e ≡ not_literal project.now command.now key.now) }
{
    let notes = value_notes(alloc, project, subject_of(command), key)?;
    let help = list_help(alloc, command, "set replaces the value")?;
    Ok(Explanation {
        notes: Many::of(notes),
        help: Many::of(help),
    })
}

/// Which names a target does not have.
fn not_there(alloc: Global, project: &Project, command: &Command) -> Result<Explanation, AllocError>
    ensures { IfOk result (λ e. e ≡ not_there project.now command.now) }
{
    match command {
        Command::SourcesRemove { target, sources } => {
            let items = sources_at(alloc, project, target.as_name())?;
            with_info(alloc, items.get(), sources.get())
        }
        Command::SourcesRename { target, old, .. } => {
            let items = sources_at(alloc, project, target.as_name())?;
            with_info(alloc, items.get(), slice::from_ref(old))
        }
        Command::ExtraRemove { target, sources } => {
            let items = extras_at(alloc, project, target.as_name())?;
            with_info(alloc, items.get(), sources.get())
        }
        Command::FollowedSources { target, change, .. } => {
            followed_not_there(alloc, project, target.as_name(), sought_names(change))
        }
        _ => Ok(unexplained(alloc)),
    }
}

/// Which of the names none of the items has.
fn with_info(alloc: Global, items: &[SourceItem], names: &[Text]) -> Result<Explanation, AllocError>
    ensures { IfOk result (λ e. e ≡ with_info (source_notes items.now names.now)) }
{
    let notes = source_notes(alloc, items, names)?;
    with_help(
        alloc,
        notes,
        "info lists the sources and extra files of a target",
    )
}

/// What else reads a variable.
fn not_alone(alloc: Global, command: &Command, name: &str) -> Result<Explanation, AllocError>
    ensures { IfOk result (λ e. e ≡ not_alone command.now name.now) }
{
    match command {
        Command::FollowedSources { .. } => shared_list(alloc, name),
        _ => shared(alloc),
    }
}

/// Nothing is said.
pub(crate) fn unexplained(alloc: Global) -> Explanation
    ensures { result ≡ record { notes = []; help = [] } }
{
    Explanation {
        notes: Many::new(alloc),
        help: Many::new(alloc),
    }
}

/// Why a command is refused: what the project, as the command finds it, holds that the refusal is about, and what may be done. `reading` is how the project's build
/// files were read.
///
/// # Errors
/// Out of memory.
pub fn explain(
    alloc: Global,
    reading: Reading,
    project: &Project,
    command: &Command,
    refusal: &Refusal,
) -> Result<Explanation, AllocError>
    ensures { IfOk result (λ e. e ≡ explanation reading project.now command.now refusal.now) }
{
    match command {
        Command::Argument { name, .. } => explain_value(alloc, reading, project, name, refusal),
        Command::ArgumentInfo { name } => explain_value(alloc, reading, project, name, refusal),
        Command::CodeInsert { place, .. } => {
            explain_insertion(alloc, reading, project, place, refusal)
        }
        Command::CodeRemove { statement, .. } => {
            explain_removal(alloc, reading, project, statement, refusal)
        }
        _ => explain_call(alloc, reading, project, command, refusal),
    }
}

/// Why nothing is named, where the build files are read so.
fn call_missing(
    alloc: Global,
    reading: Reading,
    project: &Project,
    subject: Subject<'_>,
) -> Result<Explanation, AllocError>
    ensures { let name = name_at subject.entry.name in
        IfOk result (λ e. e ≡ and_help (not_found reading project.now subject.entry.role name.id) (folder_lines name.folder)) }
{
    let explanation = not_found(alloc, reading, project, subject.role, subject.name.id)?;
    and_folder(alloc, explanation, subject.name.folder)
}

/// Why any other command is refused, where the build files are read so.
fn explain_call(
    alloc: Global,
    reading: Reading,
    project: &Project,
    command: &Command,
    refusal: &Refusal,
) -> Result<Explanation, AllocError>
    ensures { IfOk result (λ e. e ≡ call_explanation reading project.now command.now refusal.now) }
{
    match refusal {
        Refusal::NoProject => no_project(alloc, project),
        Refusal::NotFound => call_missing(alloc, reading, project, subject_of(command)),
        Refusal::Ambiguous => ambiguous(alloc, project, subject_of(command)),
        Refusal::UnknownKey(key) => unknown_key(alloc, command, key.get()),
        Refusal::WrongKind(key) => wrong_kind(alloc, command, key.get()),
        Refusal::BadName => not_valid(alloc, command),
        Refusal::HiddenKeywords => hidden(alloc, project, command),
        Refusal::DuplicateKeyword(key) => duplicate(alloc, project, command, key.get()),
        Refusal::NotLiteral(key) => not_literal(alloc, project, command, key.get()),
        Refusal::Shared(name) => not_alone(alloc, command, name.get()),
        Refusal::OtherKind(_) => other_kind(alloc),
        Refusal::ThereAlready => there_already(alloc),
        Refusal::NoSuchValue(_) => no_such_value(alloc),
        Refusal::SourceNotFound => not_there(alloc, project, command),
        Refusal::Unresolved => unresolved(alloc, project, command),
        Refusal::NotRemovable => not_removable(alloc, project, command),
        Refusal::NameTaken => name_taken(alloc, project, command),
        Refusal::NoFile => no_file(alloc, project, command),
        Refusal::NotStatement => not_statement(alloc, project, command),
        Refusal::InUse(name) => in_use(alloc, project, command, name.get()),
        Refusal::TooDeep => too_deep(alloc),
        Refusal::TooLarge => too_large(alloc),
        Refusal::OutOfMemory => Ok(unexplained(alloc)),
    }
}
