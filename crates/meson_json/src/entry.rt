//! Entries of a script: each is one command.

ghost use Rattle.std.specs.Prelude.{◌≡◌, ◌≢◌, Err, IfErr, IfOk, Ok};
ghost use Rattle.serde_json.specs.View.{members_view, view};
ghost use Rattle.meson_json.specs.Operations.{kwargs_operation};
ghost use Rattle.meson_json.specs.Scripts.{entry_of, kwargs_asked, kwargs_command, kwargs_entry, lists_at, options_command, options_entry, rename_entry, role_at, target_entry, target_folder, target_follow, target_members, target_sorted};
ghost use Rattle.meson_json.specs.declared.fault.ScriptFault.TheVariants.{OutOfMemory};

use crate::code_entry::code_entry;
use crate::fault::ScriptFault;
use crate::members::{
    bad_field, flag_at, folder_at, members_or, names, option_texts, required_text, settings,
    sorted_unless, text_at, text_or, texts_or_none,
};
use crate::names::{
    EntryType, KwargsOperation, OptionsOperation, find_kwargs_operation, find_options_operation,
    find_role, find_target_operation, find_type,
};
use crate::target::{TargetMembers, TargetOperation, kept_lists, renaming_of, target_command};
use crate::value_entry::argument_entry;
use meson_calls::{CallName, Role};
use meson_splice::Text;
use meson_steps::command::Command;
use meson_steps::source_change::SharedLists;
use serde_json::{Map, Value};
use std::alloc::Global;

/// The folder of an entry of type `target`. A new target is not searched for.
fn target_folder(
    alloc: Global,
    index: usize,
    operation: TargetOperation,
    entry: &Value,
) -> Result<Option<Text>, ScriptFault>
    ensures ok { IfOk result (λ f. target_folder index operation (view entry.now) ≡ Ok f) }
    ensures refused { IfErr result (λ e. e ≢ OutOfMemory → target_folder index operation (view entry.now) ≡ Err e) }
{
    match operation {
        TargetOperation::TargetAdd => Ok(None),
        TargetOperation::SourcesAdd => folder_at(alloc, index, entry),
        TargetOperation::SourcesRemove => folder_at(alloc, index, entry),
        TargetOperation::TargetRemove => folder_at(alloc, index, entry),
        TargetOperation::ExtraAdd => folder_at(alloc, index, entry),
        TargetOperation::ExtraRemove => folder_at(alloc, index, entry),
        TargetOperation::Info => folder_at(alloc, index, entry),
    }
}

/// Whether variables are followed where sources are changed, and then whether lists that another target gets too are changed.
fn lists_at(alloc: Global, index: usize, entry: &Value) -> Result<Option<SharedLists>, ScriptFault>
    ensures ok { IfOk result (λ l. lists_at index (view entry.now) ≡ Ok l) }
    ensures refused { IfErr result (λ e. e ≢ OutOfMemory → lists_at index (view entry.now) ≡ Err e) }
{
    match entry.get("follow") {
        None | Some(Value::Bool(false)) => Ok(None),
        Some(Value::Bool(true)) => Ok(Some(SharedLists::Kept)),
        Some(Value::String(word)) if word.as_str() == "shared" => Ok(Some(SharedLists::Changed)),
        Some(_) => Err(bad_field(alloc, index, "follow")?),
    }
}

/// Whether variables are followed for an entry of type `target`. Only the changes of its sources and their report read it.
fn target_follow(
    alloc: Global,
    index: usize,
    operation: TargetOperation,
    entry: &Value,
) -> Result<Option<SharedLists>, ScriptFault>
    ensures ok { IfOk result (λ l. target_follow index operation (view entry.now) ≡ Ok l) }
    ensures refused { IfErr result (λ e. e ≢ OutOfMemory → target_follow index operation (view entry.now) ≡ Err e) }
{
    match operation {
        TargetOperation::SourcesAdd => lists_at(alloc, index, entry),
        TargetOperation::SourcesRemove => lists_at(alloc, index, entry),
        TargetOperation::Info => Ok(kept_lists(flag_at(alloc, index, entry, "follow")?)),
        TargetOperation::TargetAdd => Ok(None),
        TargetOperation::TargetRemove => Ok(None),
        TargetOperation::ExtraAdd => Ok(None),
        TargetOperation::ExtraRemove => Ok(None),
    }
}

/// Whether the sources of an entry of type `target` go each into its place. Only their addition reads it, where variables are not followed.
fn target_sorted(
    alloc: Global,
    index: usize,
    operation: TargetOperation,
    follows: bool,
    entry: &Value,
) -> Result<bool, ScriptFault>
    ensures ok { IfOk result (λ b. target_sorted index operation follows (view entry.now) ≡ Ok b) }
    ensures refused { IfErr result (λ e. e ≢ OutOfMemory → target_sorted index operation follows (view entry.now) ≡ Err e) }
{
    match operation {
        TargetOperation::SourcesAdd => sorted_unless(alloc, index, follows, entry),
        TargetOperation::SourcesRemove => Ok(false),
        TargetOperation::TargetAdd => Ok(false),
        TargetOperation::TargetRemove => Ok(false),
        TargetOperation::ExtraAdd => Ok(false),
        TargetOperation::ExtraRemove => Ok(false),
        TargetOperation::Info => Ok(false),
    }
}

#[tactic(auto, unfolding(crate::specs::Scripts::target_members))]
fn target_members(
    alloc: Global,
    index: usize,
    operation: TargetOperation,
    entry: &Value,
) -> Result<TargetMembers, ScriptFault>
    ensures ok { IfOk result (λ m. target_members index operation (view entry.now) ≡ Ok m) }
    ensures refused { IfErr result (λ e. e ≢ OutOfMemory → target_members index operation (view entry.now) ≡ Err e) }
{
    let target = required_text(alloc, index, entry, "target")?;
    let sources = texts_or_none(alloc, index, entry, "sources")?;
    let subdir = text_or(alloc, index, entry, "subdir", "")?;
    let target_kind = text_or(alloc, index, entry, "target_type", "executable")?;
    let folder = target_folder(alloc, index, operation, entry)?;
    let follow = target_follow(alloc, index, operation, entry)?;
    let sorted = target_sorted(alloc, index, operation, follow.is_some(), entry)?;
    Ok(TargetMembers {
        target,
        folder,
        sources,
        subdir,
        target_kind,
        sorted,
        follow,
    })
}

/// The command of an entry that renames sources of a target.
#[tactic(auto, unfolding(crate::specs::Scripts::rename_entry))]
fn rename_entry(alloc: Global, index: usize, entry: &Value) -> Result<Command, ScriptFault>
    ensures ok { IfOk result (λ c. rename_entry index (view entry.now) ≡ Ok c) }
    ensures refused { IfErr result (λ e. e ≢ OutOfMemory → rename_entry index (view entry.now) ≡ Err e) }
{
    let id = required_text(alloc, index, entry, "target")?;
    let names = texts_or_none(alloc, index, entry, "sources")?;
    let folder = folder_at(alloc, index, entry)?;
    let follow = lists_at(alloc, index, entry)?;
    match renaming_of(CallName { id, folder }, names, follow) {
        Some(command) => Ok(command),
        None => Err(bad_field(alloc, index, "sources")?),
    }
}

#[tactic(auto, unfolding(crate::specs::Scripts::target_entry))]
fn target_entry(alloc: Global, index: usize, entry: &Value) -> Result<Command, ScriptFault>
    ensures ok { IfOk result (λ c. target_entry index (view entry.now) ≡ Ok c) }
    ensures refused { IfErr result (λ e. e ≢ OutOfMemory → target_entry index (view entry.now) ≡ Err e) }
{
    let word = required_text(alloc, index, entry, "operation")?;
    if word.get() == "rename" {
        return rename_entry(alloc, index, entry);
    }
    let Some(operation) = find_target_operation(word.get()) else {
        return Err(ScriptFault::UnknownOperation(index));
    };
    let members = target_members(alloc, index, operation, entry)?;
    Ok(target_command(operation, members))
}

/// The function whose calls are meant.
fn role_at(alloc: Global, index: usize, entry: &Value) -> Result<Role, ScriptFault>
    ensures ok { IfOk result (λ r. role_at index (view entry.now) ≡ Ok r) }
    ensures refused { IfErr result (λ e. e ≢ OutOfMemory → role_at index (view entry.now) ≡ Err e) }
{
    let Some(name) = text_at(entry, "function") else {
        return Err(bad_field(alloc, index, "function")?);
    };
    match find_role(name) {
        Some(role) => Ok(role),
        None => Err(bad_field(alloc, index, "function")?),
    }
}

/// An operation that is supported here.
fn kwargs_asked(index: usize, word: &str) -> Result<KwargsOperation, ScriptFault>
    ensures { result ≡ kwargs_asked index (kwargs_operation word.now) }
{
    match find_kwargs_operation(word) {
        Some(KwargsOperation::RemoveRegex) => Err(ScriptFault::Unsupported(index)),
        Some(operation) => Ok(operation),
        None => Err(ScriptFault::UnknownOperation(index)),
    }
}

#[tactic(auto, unfolding(crate::specs::Scripts::kwargs_command))]
fn kwargs_command(
    alloc: Global,
    index: usize,
    operation: KwargsOperation,
    role: Role,
    name: CallName,
    members: &Map<String, Value>,
) -> Result<Command, ScriptFault>
    ensures ok { IfOk result (λ c. kwargs_command index operation role name (members_view members.now.entries) ≡ Ok c) }
    ensures refused { IfErr result (λ e. e ≢ OutOfMemory → kwargs_command index operation role name (members_view members.now.entries) ≡ Err e) }
{
    if let KwargsOperation::Info = operation {
        return Ok(Command::KwargsInfo { role, name });
    }
    if let KwargsOperation::RemoveRegex = operation {
        return Err(ScriptFault::Unsupported(index));
    }
    if let KwargsOperation::Delete = operation {
        let keys = names(alloc, members)?;
        return Ok(Command::KwargsDelete { role, name, keys });
    }
    let Some(pairs) = settings(alloc, members)? else {
        return Err(bad_field(alloc, index, "kwargs")?);
    };
    match operation {
        KwargsOperation::Set => Ok(Command::KwargsSet { role, name, pairs }),
        KwargsOperation::Add => Ok(Command::KwargsAdd { role, name, pairs }),
        KwargsOperation::Remove => Ok(Command::KwargsRemove { role, name, pairs }),
        _ => unreachable!(),
    }
}

#[tactic(auto, unfolding(crate::specs::Scripts::kwargs_entry))]
fn kwargs_entry(alloc: Global, index: usize, entry: &Value) -> Result<Command, ScriptFault>
    ensures ok { IfOk result (λ c. kwargs_entry index (view entry.now) ≡ Ok c) }
    ensures refused { IfErr result (λ e. e ≢ OutOfMemory → kwargs_entry index (view entry.now) ≡ Err e) }
{
    let word = required_text(alloc, index, entry, "operation")?;
    let operation = kwargs_asked(index, word.get())?;
    let role = role_at(alloc, index, entry)?;
    let id = required_text(alloc, index, entry, "id")?;
    let folder = folder_at(alloc, index, entry)?;
    let none = Map::new(alloc);
    let members = members_or(alloc, index, entry, "kwargs", &none)?;
    let name = CallName { id, folder };
    kwargs_command(alloc, index, operation, role, name, members)
}

#[tactic(auto, unfolding(crate::specs::Scripts::options_command))]
fn options_command(
    alloc: Global,
    index: usize,
    operation: OptionsOperation,
    members: &Map<String, Value>,
) -> Result<Command, ScriptFault>
    ensures ok { IfOk result (λ c. options_command index operation (members_view members.now.entries) ≡ Ok c) }
    ensures refused { IfErr result (λ e. e ≢ OutOfMemory → options_command index operation (members_view members.now.entries) ≡ Err e) }
{
    match operation {
        OptionsOperation::Set => match option_texts(alloc, members)? {
            Some(pairs) => Ok(Command::OptionsSet { pairs }),
            None => Err(bad_field(alloc, index, "options")?),
        },
        OptionsOperation::Delete => Ok(Command::OptionsDelete {
            names: names(alloc, members)?,
        }),
    }
}

#[tactic(auto, unfolding(crate::specs::Scripts::options_entry))]
fn options_entry(alloc: Global, index: usize, entry: &Value) -> Result<Command, ScriptFault>
    ensures ok { IfOk result (λ c. options_entry index (view entry.now) ≡ Ok c) }
    ensures refused { IfErr result (λ e. e ≢ OutOfMemory → options_entry index (view entry.now) ≡ Err e) }
{
    let word = required_text(alloc, index, entry, "operation")?;
    let Some(operation) = find_options_operation(word.get()) else {
        return Err(ScriptFault::UnknownOperation(index));
    };
    let none = Map::new(alloc);
    let members = members_or(alloc, index, entry, "options", &none)?;
    options_command(alloc, index, operation, members)
}

/// The command of an entry, whatever other members it has.
#[tactic(auto, unfolding(crate::specs::Scripts::entry_of))]
pub(crate) fn entry_command(
    alloc: Global,
    index: usize,
    entry: &Value,
) -> Result<Command, ScriptFault>
    ensures ok { IfOk result (λ c. entry_of index (view entry.now) ≡ Ok c) }
    ensures refused { IfErr result (λ e. e ≢ OutOfMemory → entry_of index (view entry.now) ≡ Err e) }
{
    if !entry.is_object() {
        return Err(ScriptFault::NotObject(index));
    }
    match text_at(entry, "type").and_then(find_type) {
        Some(EntryType::Target) => target_entry(alloc, index, entry),
        Some(EntryType::Kwargs) => kwargs_entry(alloc, index, entry),
        Some(EntryType::DefaultOptions) => options_entry(alloc, index, entry),
        Some(EntryType::Argument) => argument_entry(alloc, index, entry),
        Some(EntryType::Code) => code_entry(alloc, index, entry),
        None => Err(ScriptFault::UnknownType(index)),
    }
}
