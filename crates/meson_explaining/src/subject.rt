//! The call that a command is about.

ghost use Rattle.std.specs.Prelude.{◌≡◌, option_map};
ghost use Rattle.meson_explaining.specs.Explaining.{subject};
ghost use Rattle.meson_calls.specs.Searching.{name_at};

use meson_calls::BorrowedName;
use meson_plan::Role;
use meson_steps::command::Command;

/// The kind of a call and what is to name it.
#[derive(Clone, Copy)]
pub struct Subject<'c> {
    pub role: Role,
    pub name: BorrowedName<'c>,
}

/// The call that a command is about. A change or a report of a value is about none, and has the project's.
pub(crate) fn subject_of(command: &Command) -> Subject<'_>
    ensures role { result.role ≡ (subject command.entry.now).0 }
    ensures name { name_at result.name ≡ (subject command.entry.now).1 }
    ensures id { result.name.id.now ≡ (subject command.entry.now).1.id }
    ensures folder { option_map (λ f. f.now) result.name.folder ≡ (subject command.entry.now).1.folder }
{
    match command {
        Command::SourcesAdd { target, .. }
        | Command::SourcesAddSorted { target, .. }
        | Command::SourcesRemove { target, .. }
        | Command::SourcesRename { target, .. }
        | Command::FollowedSources { target, .. }
        | Command::ExtraAdd { target, .. }
        | Command::ExtraRemove { target, .. }
        | Command::TargetRemove { target }
        | Command::TargetInfo { target, .. } => Subject {
            role: Role::Target,
            name: target.as_name(),
        },
        Command::TargetAdd { target, .. } => Subject {
            role: Role::Target,
            name: BorrowedName {
                id: target.get(),
                folder: None,
            },
        },
        Command::KwargsSet { role, name, .. }
        | Command::KwargsAdd { role, name, .. }
        | Command::KwargsRemove { role, name, .. }
        | Command::KwargsDelete { role, name, .. }
        | Command::KwargsInfo { role, name } => Subject {
            role: *role,
            name: name.as_name(),
        },
        Command::OptionsSet { .. }
        | Command::OptionsDelete { .. }
        | Command::Argument { .. }
        | Command::CodeInsert { .. }
        | Command::CodeRemove { .. }
        | Command::ArgumentInfo { .. } => Subject {
            role: Role::Project,
            name: BorrowedName {
                id: "/",
                folder: None,
            },
        },
    }
}
