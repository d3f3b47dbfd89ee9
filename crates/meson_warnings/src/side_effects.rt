//! What a command that is done changes though its words do not say so.

ghost use Rattle.std.specs.Prelude.{◌≡◌, ◌++◌, IfOk, flat_map};
ghost use Rattle.meson_warnings.specs.Additions.{into_call};
ghost use Rattle.meson_warnings.specs.Overwrites.{lost_value};
ghost use Rattle.meson_warnings.specs.SharedLists.{shared_by_adding};
ghost use Rattle.meson_warnings.specs.UnsetNames.{unset_names};
ghost use Rattle.meson_warnings.specs.Warnings.{warnings};
ghost use Rattle.meson_calls.specs.Searching.{name_at};

use crate::additions::into_call;
use crate::left_variables::left_variables;
use crate::overwrites::lost_values;
use crate::shared_lists::{shared_by_adding, shared_by_removing};
use crate::unset_names::unset_names;
use meson_calls::BorrowedName;
use meson_explaining::Note;
use meson_explaining::subject::Subject;
use meson_plan::Project;
use meson_splice::Text;
use meson_steps::command::{Command, Setting};
use std::alloc::{AllocError, Global};
use std::slice;

/// The warnings of `kwargs set`.
fn warn_of_set(
    alloc: Global,
    project: &Project,
    subject: Subject<'_>,
    pairs: &[(Text, Setting)],
) -> Result<Vec<Note>, AllocError>
    ensures { let role = subject.entry.role in let name = name_at subject.entry.name in
        IfOk result (λ notes. notes.items ≡ flat_map (λ p. lost_value project.now role name p.0) pairs.now ++ unset_names project.now role name pairs.now) }
{
    let mut notes = lost_values(alloc, project, subject, pairs)?;
    let mut more = unset_names(alloc, project, subject, pairs)?;
    notes.append(&mut more)?;
    Ok(notes)
}

/// The warnings of `target add`.
fn warn_of_add(
    alloc: Global,
    project: &Project,
    target: BorrowedName<'_>,
    names: &[Text],
) -> Result<Vec<Note>, AllocError>
    ensures { IfOk result (λ notes. notes.items ≡ into_call project.now (name_at target.entry) names.now ++ shared_by_adding project.now (name_at target.entry) names.now) }
{
    let mut notes = into_call(alloc, project, target, names)?;
    let mut more = shared_by_adding(alloc, project, target, names)?;
    notes.append(&mut more)?;
    Ok(notes)
}

/// What a command changes though its words do not say so, if it is done on the project. `kwargs set` writes over values that no words of a command can write
/// again. `target add` writes a new source into the call, since some of its sources are not known. `target add`, `rm` and `rename` change a list that other targets use.
/// `kwargs set` and `add` write a variable that no build file sets. `rm_target` leaves variables that nothing reads then.
///
/// # Errors
/// Out of memory.
pub fn warnings(
    alloc: Global,
    project: &Project,
    command: &Command,
) -> Result<Vec<Note>, AllocError>
    ensures { IfOk result (λ notes. notes.items ≡ warnings project.now command.now) }
{
    match command {
        Command::KwargsSet { role, name, pairs } => {
            let subject = Subject {
                role: *role,
                name: name.as_name(),
            };
            warn_of_set(alloc, project, subject, pairs.get())
        }
        Command::KwargsAdd { role, name, pairs } => {
            let subject = Subject {
                role: *role,
                name: name.as_name(),
            };
            unset_names(alloc, project, subject, pairs.get())
        }
        Command::SourcesAdd { target, sources } | Command::SourcesAddSorted { target, sources } => {
            warn_of_add(alloc, project, target.as_name(), sources.get())
        }
        Command::SourcesRemove { target, sources } => {
            shared_by_removing(alloc, project, target.as_name(), sources.get())
        }
        Command::SourcesRename { target, old, .. } => {
            shared_by_removing(alloc, project, target.as_name(), slice::from_ref(old))
        }
        Command::TargetRemove { target } => left_variables(alloc, project, target.as_name()),
        _ => Ok(Vec::new(alloc)),
    }
}
