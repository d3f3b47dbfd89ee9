//! Why a command is refused, where that is not about the id or about the key.

ghost use Rattle.std.specs.Prelude.{◌≡◌, IfOk, option_map};
ghost use Rattle.meson_explaining.specs.Explaining.{calls_there, duplicate, hidden, keyword_there, name_taken, not_statement, not_valid, subject};
ghost use Rattle.meson_explaining.specs.Stated.{no_project, no_such_value, other_kind, shared, stated, there_already, too_deep, too_large};
ghost use Rattle.meson_explaining.specs.Removals.{not_removable, unresolved};
ghost use Rattle.meson_explaining.specs.Targets.{in_use, no_file, no_searched_file};

use crate::bad_names::{bad_help, bad_notes, one_note};
use crate::calls::{Telling, add_few, add_further};
use crate::explaining::{unexplained, with_help};
use crate::explanation::Explanation;
use crate::followed_reasons::{followed_not_removable, followed_unresolved};
use crate::names::sought_names;
use crate::removals::{Lost, REMOVAL_WAY, RENAMING_WAY, fixed_notes, not_known};
use crate::sources::{extras_at, sources_at};
use crate::subject::subject_of;
use crate::targets::{folder_notes, used_notes};
use crate::values::value_notes;
use meson_inventory::holdings::calls_named;
use meson_plan::Project;
use meson_splice::{Many, Text};
use meson_steps::command::Command;
use std::alloc::{AllocError, Global};
use std::slice;

/// Why there is no call of the project.
pub(crate) fn no_project(alloc: Global, project: &Project) -> Result<Explanation, AllocError>
    ensures { IfOk result (λ e. e ≡ no_project project.now) }
{
    let mut notes = Vec::new(alloc);
    add_further(
        alloc,
        &mut notes,
        "build files, none of which calls project",
        project.files().len(),
    )?;
    with_help(
        alloc,
        notes,
        "use --sourcedir with the folder of the build file that calls project",
    )
}

/// Which name is not valid.
pub(crate) fn not_valid(alloc: Global, command: &Command) -> Result<Explanation, AllocError>
    ensures { IfOk result (λ e. e ≡ not_valid command.now) }
{
    let notes = bad_notes(alloc, command)?;
    let help = bad_help(alloc, command)?;
    Ok(Explanation {
        notes: Many::of(notes),
        help: Many::of(help),
    })
}

/// Where a keyword is in the call.
fn keyword_there(
    alloc: Global,
    project: &Project,
    command: &Command,
    key: &str,
    help: &str,
) -> Result<Explanation, AllocError>
    ensures { IfOk result (λ e. e ≡ keyword_there project.now command.now key.now help.now) }
{
    let notes = value_notes(alloc, project, subject_of(command), key)?;
    with_help(alloc, notes, help)
}

/// Where the call has `kwargs:`.
pub(crate) fn hidden(
    alloc: Global,
    project: &Project,
    command: &Command,
) -> Result<Explanation, AllocError>
    ensures { IfOk result (λ e. e ≡ hidden project.now command.now) }
{
    keyword_there(
        alloc,
        project,
        command,
        "kwargs",
        "kwargs: may hold any keyword; change its dictionary by hand",
    )
}

/// Where the call has a keyword more than once.
pub(crate) fn duplicate(
    alloc: Global,
    project: &Project,
    command: &Command,
    key: &str,
) -> Result<Explanation, AllocError>
    ensures { IfOk result (λ e. e ≡ duplicate project.now command.now key.now) }
{
    keyword_there(alloc, project, command, key, "remove one of them by hand")
}

/// Which calls the command names.
fn calls_there(
    alloc: Global,
    project: &Project,
    command: &Command,
    telling: Telling<'_>,
    help: &str,
) -> Result<Explanation, AllocError>
    ensures { IfOk result (λ e. e ≡ calls_there project.now command.now telling.entry.most telling.entry.more.now telling.entry.others.now help.now) }
{
    let subject = subject_of(command);
    let calls = calls_named(alloc, project, subject.role, subject.name)?;
    let mut notes = Vec::new(alloc);
    add_few(alloc, &mut notes, telling, calls.get())?;
    with_help(alloc, notes, help)
}

/// Which targets have the name.
pub(crate) fn name_taken(
    alloc: Global,
    project: &Project,
    command: &Command,
) -> Result<Explanation, AllocError>
    ensures { IfOk result (λ e. e ≡ name_taken project.now command.now) }
{
    let telling = Telling {
        most: 5,
        more: "",
        others: "further targets of that name",
    };
    calls_there(
        alloc,
        project,
        command,
        telling,
        "use another name, or remove that target first with rm_target",
    )
}

/// Where the target is part of a larger expression.
pub(crate) fn not_statement(
    alloc: Global,
    project: &Project,
    command: &Command,
) -> Result<Explanation, AllocError>
    ensures { IfOk result (λ e. e ≡ not_statement project.now command.now) }
{
    let telling = Telling {
        most: 1,
        more: ", inside a larger expression",
        others: "further calls that the id names",
    };
    calls_there(
        alloc,
        project,
        command,
        telling,
        "set a variable to it alone, or remove it by hand",
    )
}

/// Which build files there are where that of one folder alone is to be searched.
fn no_searched_file(
    alloc: Global,
    project: &Project,
    folder: Option<&Text>,
) -> Result<Explanation, AllocError>
    ensures { IfOk result (λ e. e ≡ no_searched_file project.now (option_map (λ f. f.now) folder.entry)) }
{
    match folder {
        Some(folder) => {
            let notes = folder_notes(alloc, project.files().len(), folder.get())?;
            with_help(
                alloc,
                notes,
                "list shows the build files; a folder is written as src, not as src/ or ./src, and that of the root file as .",
            )
        }
        None => Ok(unexplained(alloc)),
    }
}

/// Which build files there are.
pub(crate) fn no_file(
    alloc: Global,
    project: &Project,
    command: &Command,
) -> Result<Explanation, AllocError>
    ensures { IfOk result (λ e. e ≡ no_file project.now (subject command.now).1.folder command.now) }
{
    match command {
        Command::TargetAdd { subdir, .. } => {
            let notes = folder_notes(alloc, project.files().len(), subdir.get())?;
            with_help(
                alloc,
                notes,
                "make its build file and enter it by subdir; a folder is written as src, not as src/ or ./src",
            )
        }
        _ => no_searched_file(alloc, project, subject_of(command).name.folder),
    }
}

/// Where the variable of the target is used.
pub(crate) fn in_use(
    alloc: Global,
    project: &Project,
    command: &Command,
    name: &str,
) -> Result<Explanation, AllocError>
    ensures { IfOk result (λ e. e ≡ in_use project.now command.now name.now) }
{
    match command {
        Command::TargetRemove { target } => {
            let notes = used_notes(alloc, project, target.as_name(), name)?;
            with_help(
                alloc,
                notes,
                "remove the uses of the variable first; get_variable, set_variable, a second assignment and foreach count too",
            )
        }
        _ => Ok(unexplained(alloc)),
    }
}

/// Which names are in no list.
pub(crate) fn not_removable(
    alloc: Global,
    project: &Project,
    command: &Command,
) -> Result<Explanation, AllocError>
    ensures { IfOk result (λ e. e ≡ not_removable project.now command.now) }
{
    let help = "write it in a list, as in ['a.c']";
    match command {
        Command::SourcesRemove { target, sources } => {
            let items = sources_at(alloc, project, target.as_name())?;
            let notes = fixed_notes(alloc, items.get(), sources.get())?;
            with_help(alloc, notes, help)
        }
        Command::SourcesRename { target, old, .. } => {
            let items = sources_at(alloc, project, target.as_name())?;
            let notes = fixed_notes(alloc, items.get(), slice::from_ref(old))?;
            with_help(alloc, notes, help)
        }
        Command::ExtraRemove { target, sources } => {
            let items = extras_at(alloc, project, target.as_name())?;
            let notes = fixed_notes(alloc, items.get(), sources.get())?;
            with_help(alloc, notes, help)
        }
        Command::FollowedSources { target, change, .. } => {
            followed_not_removable(alloc, project, target.as_name(), sought_names(change))
        }
        _ => Ok(unexplained(alloc)),
    }
}

/// Which name is not among what is known of the target, and what is not known.
pub(crate) fn unresolved(
    alloc: Global,
    project: &Project,
    command: &Command,
) -> Result<Explanation, AllocError>
    ensures { IfOk result (λ e. e ≡ unresolved project.now command.now) }
{
    match command {
        Command::SourcesRemove { target, sources } => {
            let items = sources_at(alloc, project, target.as_name())?;
            let lost = Lost {
                target: target.as_name(),
                key: "sources",
                way: REMOVAL_WAY,
                items: items.get(),
                names: sources.get(),
            };
            not_known(alloc, project, lost)
        }
        Command::SourcesRename { target, old, .. } => {
            let items = sources_at(alloc, project, target.as_name())?;
            let lost = Lost {
                target: target.as_name(),
                key: "sources",
                way: RENAMING_WAY,
                items: items.get(),
                names: slice::from_ref(old),
            };
            not_known(alloc, project, lost)
        }
        Command::ExtraRemove { target, sources } => {
            let items = extras_at(alloc, project, target.as_name())?;
            let lost = Lost {
                target: target.as_name(),
                key: "extra_files",
                way: REMOVAL_WAY,
                items: items.get(),
                names: sources.get(),
            };
            not_known(alloc, project, lost)
        }
        Command::FollowedSources { target, change, .. } => {
            followed_unresolved(alloc, project, target.as_name(), change)
        }
        _ => Ok(unexplained(alloc)),
    }
}

/// One sentence, and what may be done.
pub(crate) fn stated(alloc: Global, note: &str, help: &str) -> Result<Explanation, AllocError>
    ensures { IfOk result (λ e. e ≡ stated note.now help.now) }
{
    let notes = one_note(alloc, String::from_str(alloc, note)?)?;
    with_help(alloc, notes, help)
}

/// How deep a file may nest.
pub(crate) fn too_deep(alloc: Global) -> Result<Explanation, AllocError>
    ensures { IfOk result (λ e. e ≡ too_deep) }
{
    stated(
        alloc,
        "at most 64 constructs may be inside one another",
        "use a variable for what is inside",
    )
}

/// How large a file may be.
pub(crate) fn too_large(alloc: Global) -> Result<Explanation, AllocError>
    ensures { IfOk result (λ e. e ≡ too_large) }
{
    stated(
        alloc,
        "a build file has at most 1048576 bytes",
        "split the file by subdir",
    )
}

/// A variable that something else reads too.
pub(crate) fn shared(alloc: Global) -> Result<Explanation, AllocError>
    ensures { IfOk result (λ e. e ≡ shared) }
{
    stated(
        alloc,
        "something else reads this variable too",
        "change it for all with arg and variable as the FUNCTION, or give the value as code",
    )
}

/// A value of another kind.
pub(crate) fn other_kind(alloc: Global) -> Result<Explanation, AllocError>
    ensures { IfOk result (λ e. e ≡ other_kind) }
{
    stated(
        alloc,
        "a word replaces a value of its own kind alone",
        "give the value as code, a word that begins with a colon",
    )
}

/// A value that is there.
pub(crate) fn there_already(alloc: Global) -> Result<Explanation, AllocError>
    ensures { IfOk result (λ e. e ≡ there_already) }
{
    stated(
        alloc,
        "the new value is an element or a source already",
        "remove the old one in place of renaming it",
    )
}

/// A key, number or value that is not there.
pub(crate) fn no_such_value(alloc: Global) -> Result<Explanation, AllocError>
    ensures { IfOk result (λ e. e ≡ no_such_value) }
{
    stated(
        alloc,
        "nothing there has this key, number or value",
        "arg info lists keys and values",
    )
}
