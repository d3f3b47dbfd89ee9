//! The names that refusals of commands mean.

ghost use Rattle.std.specs.Prelude.{◌≡◌, IfOk, option_map};
ghost use Rattle.meson_rewrite.specs.Subjects.{anchor_id, folder_of, id_in, id_of, subject_of};

use meson_explaining::meant_name;
use meson_json::owned;
use meson_plan::{Command, Project, Refusal};
use meson_splice::Text;
use meson_steps::argument::PlaceName;
use meson_steps::command::CodePlace;
use std::alloc::{AllocError, Global};

/// The id of a call or a variable; a line has none.
fn id_in(name: &PlaceName) -> Option<&Text>
    ensures { option_map (λ id. id.now) result ≡ id_in name.now }
{
    match name {
        PlaceName::Project(id) | PlaceName::Call { id, .. } | PlaceName::Variable(id) => Some(id),
        PlaceName::Line { .. } => None,
    }
}

/// The id of the statement beside which code is inserted; the end of a file has no id.
fn anchor_id(place: &CodePlace) -> Option<&Text>
    ensures { option_map (λ id. id.now) result ≡ anchor_id place.now }
{
    match place {
        CodePlace::Above(search) | CodePlace::Below(search) => id_in(&search.name),
        CodePlace::End(_) => None,
    }
}

/// The id of the call that a command is about; default options are of no id.
fn id_of(command: &Command) -> Option<&Text>
    ensures { option_map (λ id. id.now) result ≡ id_of command.now }
{
    match command {
        Command::SourcesAdd { target, .. }
        | Command::SourcesAddSorted { target, .. }
        | Command::SourcesRemove { target, .. }
        | Command::SourcesRename { target, .. }
        | Command::FollowedSources { target, .. }
        | Command::ExtraAdd { target, .. }
        | Command::ExtraRemove { target, .. }
        | Command::TargetRemove { target }
        | Command::TargetInfo { target, .. } => Some(&target.id),
        Command::TargetAdd { target, .. } => Some(target),
        Command::KwargsSet { name, .. }
        | Command::KwargsAdd { name, .. }
        | Command::KwargsRemove { name, .. }
        | Command::KwargsDelete { name, .. }
        | Command::KwargsInfo { name, .. } => Some(&name.id),
        Command::OptionsSet { .. } | Command::OptionsDelete { .. } => None,
        Command::Argument { name, .. } | Command::ArgumentInfo { name } => {
            id_in(&name.place.name)
        }
        Command::CodeInsert { place, .. } => anchor_id(place),
        Command::CodeRemove { statement, .. } => id_in(&statement.name),
    }
}

/// The folder of a new target.
fn folder_of(command: &Command) -> Option<&Text>
    ensures { option_map (λ folder. folder.now) result ≡ folder_of command.now }
{
    match command {
        Command::TargetAdd { subdir, .. } => Some(subdir),
        _ => None,
    }
}

/// A copy of a name, if there is one.
fn copied(alloc: Global, name: Option<&Text>) -> Result<Option<Text>, AllocError>
    ensures { IfOk result (λ copy. copy ≡ option_map (λ name. name.now) name.entry) }
{
    match name {
        Some(name) => Ok(Some(owned(alloc, name.get())?)),
        None => Ok(None),
    }
}

/// The name that the refusal of a command means.
pub(crate) fn subject_of(
    alloc: Global,
    project: &Project,
    command: &Command,
    refusal: &Refusal,
) -> Result<Option<Text>, AllocError>
    ensures { IfOk result (λ name. name ≡ subject_of project.now command.now refusal.now) }
{
    match refusal {
        Refusal::NotFound | Refusal::Ambiguous | Refusal::NameTaken => {
            copied(alloc, id_of(command))
        }
        Refusal::NoFile => copied(alloc, folder_of(command)),
        _ => meant_name(alloc, project, command, refusal),
    }
}
