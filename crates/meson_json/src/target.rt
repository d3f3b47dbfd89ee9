//! Requests on a target, by a script or on the command line.

ghost use Rattle.std.specs.Prelude.{◌≡◌};
ghost use Rattle.meson_json.specs.Targets.{addition_of, kept_lists, reading_of, removal_of, renaming_of, renaming_to, target_command};

use meson_calls::{CallName, Reading};
use meson_splice::{Many, Text};
use meson_steps::command::Command;
use meson_steps::source_change::{SharedLists, SourceChange};

/// What is done to a target.
#[derive(Clone, Copy)]
pub enum TargetOperation {
    SourcesAdd,
    SourcesRemove,
    TargetRemove,
    TargetAdd,
    ExtraAdd,
    ExtraRemove,
    Info,
}

/// The target that is meant, the folder whose build file alone is searched for it, if one is given, and the members for it. An operation may leave out all but
/// the target.
#[derive(Drop)]
pub struct TargetMembers {
    pub target: Text,
    pub folder: Option<Text>,
    pub sources: Many<Text>,
    pub subdir: Text,
    pub target_kind: Text,
    /// Whether sources are added each in its place.
    pub sorted: bool,
    /// Where variables are followed, whether lists that another target gets too are changed.
    pub follow: Option<SharedLists>,
}

/// Where variables are to be followed, shared lists stay as they are.
pub fn kept_lists(follow: bool) -> Option<SharedLists>
    ensures { result ≡ kept_lists follow }
{
    if follow {
        Some(SharedLists::Kept)
    } else {
        None
    }
}

/// How build files are read, by whether variables are followed.
pub fn reading_of(follow: Option<SharedLists>) -> Reading
    ensures { result ≡ reading_of follow }
{
    match follow {
        Some(_) => Reading::Followed,
        None => Reading::Written,
    }
}

/// The command that adds sources to a target.
fn addition_of(
    target: CallName,
    sources: Many<Text>,
    sorted: bool,
    follow: Option<SharedLists>,
) -> Command
    ensures { result ≡ addition_of target sources sorted follow }
{
    match follow {
        Some(shared) => Command::FollowedSources {
            target,
            change: SourceChange::Add(sources),
            shared,
        },
        None if sorted => Command::SourcesAddSorted { target, sources },
        None => Command::SourcesAdd { target, sources },
    }
}

/// The command that removes sources from a target.
fn removal_of(target: CallName, sources: Many<Text>, follow: Option<SharedLists>) -> Command
    ensures { result ≡ removal_of target sources follow }
{
    match follow {
        Some(shared) => Command::FollowedSources {
            target,
            change: SourceChange::Remove(sources),
            shared,
        },
        None => Command::SourcesRemove { target, sources },
    }
}

/// The command of an operation on a target. A new target has no folder that is searched.
pub fn target_command(operation: TargetOperation, members: TargetMembers) -> Command
    ensures { result ≡ target_command operation members }
{
    let TargetMembers {
        target: id,
        folder,
        sources,
        subdir,
        target_kind,
        sorted,
        follow,
    } = members;
    match operation {
        TargetOperation::SourcesAdd => {
            addition_of(CallName { id, folder }, sources, sorted, follow)
        }
        TargetOperation::SourcesRemove => removal_of(CallName { id, folder }, sources, follow),
        TargetOperation::TargetRemove => Command::TargetRemove {
            target: CallName { id, folder },
        },
        TargetOperation::TargetAdd => Command::TargetAdd {
            target: id,
            target_kind,
            subdir,
            sources,
        },
        TargetOperation::ExtraAdd => Command::ExtraAdd {
            target: CallName { id, folder },
            sources,
        },
        TargetOperation::ExtraRemove => Command::ExtraRemove {
            target: CallName { id, folder },
            sources,
        },
        TargetOperation::Info => Command::TargetInfo {
            target: CallName { id, folder },
            reading: reading_of(follow),
        },
    }
}

/// The command that gives the source of a target with the old name the new one.
fn renaming_to(target: CallName, old: Text, new: Text, follow: Option<SharedLists>) -> Command
    ensures { result ≡ renaming_to target old new follow }
{
    match follow {
        Some(shared) => Command::FollowedSources {
            target,
            change: SourceChange::Rename { old, new },
            shared,
        },
        None => Command::SourcesRename { target, old, new },
    }
}

/// The command that renames sources of a target, if the old name and the new one are given and no other.
pub fn renaming_of(
    target: CallName,
    names: Many<Text>,
    follow: Option<SharedLists>,
) -> Option<Command>
    ensures { result ≡ renaming_of target names follow }
{
    let mut names = names.take();
    if names.len() != 2 {
        return None;
    }
    let new = names.pop()?;
    let old = names.pop()?;
    Some(renaming_to(target, old, new, follow))
}
