//! The words for operations and functions. The command line has the same ones for keyword arguments, and others for targets and options.

ghost use Rattle.std.specs.Prelude.{◌≡◌};
ghost use Rattle.meson_json.specs.Operations.{argument_operation, code_operation, entry_type, kwargs_operation, options_operation, role_of, target_operation};

use crate::target::TargetOperation;
use meson_calls::Role;

/// What an entry of a script is about.
#[derive(Clone, Copy)]
pub(crate) enum EntryType {
    Target,
    Kwargs,
    DefaultOptions,
    Argument,
    Code,
}

/// What is done to the keyword arguments of a call.
#[derive(Clone, Copy)]
pub enum KwargsOperation {
    Set,
    Delete,
    Add,
    Remove,
    /// Known from other rewriters, but not supported here.
    RemoveRegex,
    Info,
}

/// What is done to the default options of the project.
#[derive(Clone, Copy)]
pub(crate) enum OptionsOperation {
    Set,
    Delete,
}

/// What is done to a value, or reported of it.
#[derive(Clone, Copy)]
pub enum ArgumentOperation {
    Set,
    Add,
    Remove,
    Replace,
    Delete,
    Info,
}

/// Where code is inserted: below a statement, above one, or at the end of a file.
#[derive(Clone, Copy)]
pub enum CodeOperation {
    After,
    Before,
    Append,
}

pub(crate) fn find_type(name: &str) -> Option<EntryType>
    ensures { result ≡ entry_type name.now }
{
    if name == "target" {
        Some(EntryType::Target)
    } else if name == "kwargs" {
        Some(EntryType::Kwargs)
    } else if name == "default_options" {
        Some(EntryType::DefaultOptions)
    } else if name == "arg" {
        Some(EntryType::Argument)
    } else if name == "code" {
        Some(EntryType::Code)
    } else {
        None
    }
}

/// The operation on a target that a word of a script names.
pub(crate) fn find_target_operation(name: &str) -> Option<TargetOperation>
    ensures { result ≡ target_operation name.now }
{
    if name == "src_add" {
        Some(TargetOperation::SourcesAdd)
    } else if name == "src_rm" {
        Some(TargetOperation::SourcesRemove)
    } else if name == "target_rm" {
        Some(TargetOperation::TargetRemove)
    } else if name == "target_add" {
        Some(TargetOperation::TargetAdd)
    } else if name == "extra_files_add" {
        Some(TargetOperation::ExtraAdd)
    } else if name == "extra_files_rm" {
        Some(TargetOperation::ExtraRemove)
    } else if name == "info" {
        Some(TargetOperation::Info)
    } else {
        None
    }
}

/// The operation on keyword arguments that a word names, if it names one (Meson manual, Rewriter: `kwargs`).
pub fn find_kwargs_operation(name: &str) -> Option<KwargsOperation>
    ensures { result ≡ kwargs_operation name.now }
{
    if name == "set" {
        Some(KwargsOperation::Set)
    } else if name == "delete" {
        Some(KwargsOperation::Delete)
    } else if name == "add" {
        Some(KwargsOperation::Add)
    } else if name == "remove" {
        Some(KwargsOperation::Remove)
    } else if name == "remove_regex" {
        Some(KwargsOperation::RemoveRegex)
    } else if name == "info" {
        Some(KwargsOperation::Info)
    } else {
        None
    }
}

/// The operation on default options that a word names, if it names one (Meson manual, Rewriter: `default_options`).
pub(crate) fn find_options_operation(name: &str) -> Option<OptionsOperation>
    ensures { result ≡ options_operation name.now }
{
    if name == "set" {
        Some(OptionsOperation::Set)
    } else if name == "delete" {
        Some(OptionsOperation::Delete)
    } else {
        None
    }
}

/// The operation on a value that a word names, if it names one.
pub fn find_argument_operation(name: &str) -> Option<ArgumentOperation>
    ensures { result ≡ argument_operation name.now }
{
    if name == "set" {
        Some(ArgumentOperation::Set)
    } else if name == "add" {
        Some(ArgumentOperation::Add)
    } else if name == "remove" {
        Some(ArgumentOperation::Remove)
    } else if name == "replace" {
        Some(ArgumentOperation::Replace)
    } else if name == "delete" {
        Some(ArgumentOperation::Delete)
    } else if name == "info" {
        Some(ArgumentOperation::Info)
    } else {
        None
    }
}

/// The operation on code that a word names, if it names one.
pub fn find_code_operation(name: &str) -> Option<CodeOperation>
    ensures { result ≡ code_operation name.now }
{
    if name == "after" {
        Some(CodeOperation::After)
    } else if name == "before" {
        Some(CodeOperation::Before)
    } else if name == "append" {
        Some(CodeOperation::Append)
    } else {
        None
    }
}

/// The role of the calls that a function's name means, if it means any (Meson manual, Rewriter: `function`).
pub fn find_role(name: &str) -> Option<Role>
    ensures { result ≡ role_of name.now }
{
    if name == "dependency" {
        Some(Role::Dependency)
    } else if name == "target" {
        Some(Role::Target)
    } else if name == "project" {
        Some(Role::Project)
    } else {
        None
    }
}
