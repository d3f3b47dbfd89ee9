//! Members of an entry that its operation does not use.

ghost use Rattle.std.specs.Prelude.{◌≡◌, ◌≢◌, Err, IfErr, IfOk, Ok, bytes_eq, option_and_then, option_map};
ghost use Rattle.std.specs.List.{list_any};
ghost use Rattle.serde_json.specs.Find.{as_object};
ghost use Rattle.serde_json.specs.View.{view};
ghost use Rattle.meson_json.specs.Known.{code_members, is_known, source_members, unknown_in, value_members};
ghost use Rattle.meson_json.specs.Scripts.{entry_by};
ghost use Rattle.meson_json.specs.declared.fault.ScriptFault.TheVariants.{OutOfMemory};

use crate::entry::entry_command;
use crate::fault::ScriptFault;
use crate::members::owned;
use meson_steps::argument::ValueChange;
use meson_steps::command::{CodePlace, Command};
use meson_steps::source_change::SourceChange;
use serde_json::Value;
use std::alloc::Global;

/// What is done about members of entries that are not known: those that the operation does not use.
#[derive(Clone, Copy)]
pub enum UnknownMembers {
    /// They are ignored.
    Ignored,
    /// The first of them is refused.
    Refused,
}

/// Whether a member has an effect on a change of a value.
fn is_known_of_value(change: &ValueChange, name: &str) -> bool
    ensures { result ≡ list_any (bytes_eq name.now) (value_members change.now) }
{
    if name == "function" || name == "id" || name == "key" || name == "in" {
        return true;
    }
    match change {
        ValueChange::Set(_)
        | ValueChange::SetAll(_)
        | ValueChange::Remove(_)
        | ValueChange::Replace { .. } => name == "values",
        ValueChange::Add(_) | ValueChange::AddSorted(_) => name == "values" || name == "sorted",
        ValueChange::AddAfter { .. } => name == "values" || name == "after" || name == "sorted",
        ValueChange::Delete => false,
    }
}

/// Whether a member has an effect on an insertion of code.
fn is_known_of_code(place: &CodePlace, name: &str) -> bool
    ensures { result ≡ list_any (bytes_eq name.now) (code_members place.now) }
{
    if name == "code" || name == "blank" {
        return true;
    }
    match place {
        CodePlace::Above(_) | CodePlace::Below(_) => {
            name == "function" || name == "id" || name == "in"
        }
        CodePlace::End(_) => name == "file",
    }
}

/// Whether a member has an effect on a change of sources where variables are followed.
fn is_known_of_sources(change: &SourceChange, name: &str) -> bool
    ensures { result ≡ list_any (bytes_eq name.now) (source_members change.now) }
{
    if name == "target" || name == "sources" || name == "in" || name == "follow" {
        return true;
    }
    match change {
        SourceChange::Add(_) => name == "sorted",
        SourceChange::Remove(_) | SourceChange::Rename { .. } => false,
    }
}

/// Whether a member has an effect on the command of its entry.
fn is_known(command: &Command, name: &str) -> bool
    ensures { result ≡ is_known command.now name.now }
{
    if name == "type" || name == "operation" {
        return true;
    }
    match command {
        Command::SourcesAdd { .. } | Command::SourcesAddSorted { .. } => {
            name == "target"
                || name == "sources"
                || name == "in"
                || name == "sorted"
                || name == "follow"
        }
        Command::SourcesRemove { .. } | Command::SourcesRename { .. } => {
            name == "target" || name == "sources" || name == "in" || name == "follow"
        }
        Command::FollowedSources { change, .. } => is_known_of_sources(change, name),
        Command::ExtraAdd { .. } | Command::ExtraRemove { .. } => {
            name == "target" || name == "sources" || name == "in"
        }
        Command::TargetAdd { .. } => {
            name == "target" || name == "sources" || name == "subdir" || name == "target_type"
        }
        Command::TargetRemove { .. } => name == "target" || name == "in",
        Command::TargetInfo { .. } => name == "target" || name == "in" || name == "follow",
        Command::KwargsSet { .. }
        | Command::KwargsDelete { .. }
        | Command::KwargsAdd { .. }
        | Command::KwargsRemove { .. } => {
            name == "function" || name == "id" || name == "kwargs" || name == "in"
        }
        Command::KwargsInfo { .. } => name == "function" || name == "id" || name == "in",
        Command::OptionsSet { .. } | Command::OptionsDelete { .. } => name == "options",
        Command::Argument { change, .. } => is_known_of_value(change, name),
        Command::CodeInsert { place, .. } => is_known_of_code(place, name),
        Command::CodeRemove { .. } => {
            name == "function" || name == "id" || name == "in" || name == "unused"
        }
        Command::ArgumentInfo { .. } => {
            name == "function" || name == "id" || name == "key" || name == "in"
        }
    }
}

/// The first member of an entry that has no effect on its command.
fn unknown_in<'a>(command: &Command, entry: &'a Value) -> Option<&'a str>
    ensures { option_map (λ name. name.now) result ≡ option_and_then (unknown_in command.now) (as_object (view entry.now)) }
{
    let members = entry.as_object()?;
    for (name, _) in members.iter() {
        if !is_known(command, name.as_str()) {
            return Some(name.as_str());
        }
    }
    None
}

/// The command of an entry.
#[tactic(auto, unfolding(crate::specs::Scripts::entry_by))]
pub(crate) fn read_entry(
    alloc: Global,
    index: usize,
    entry: &Value,
    unknown: UnknownMembers,
) -> Result<Command, ScriptFault>
    ensures ok { IfOk result (λ c. entry_by unknown index (view entry.now) ≡ Ok c) }
    ensures refused { IfErr result (λ e. e ≢ OutOfMemory → entry_by unknown index (view entry.now) ≡ Err e) }
{
    let command = entry_command(alloc, index, entry)?;
    match unknown {
        UnknownMembers::Ignored => Ok(command),
        UnknownMembers::Refused => match unknown_in(&command, entry) {
            Some(name) => Err(ScriptFault::UnknownMember(index, owned(alloc, name)?)),
            None => Ok(command),
        },
    }
}
