//! The words for operations that the command line has and scripts do not: those on a target, and `unset`. The other words are those of scripts too.

ghost use Rattle.std.specs.Prelude.{◌≡◌};
ghost use Rattle.meson_command.specs.Operations.{operation_of_word, options_word};

use meson_json::target::TargetOperation;

/// What a word of `default-options` requests.
#[derive(Clone, Copy)]
pub(crate) enum OptionsWord {
    /// Give options values.
    Set,
    /// Delete options, each of which has a value in the words.
    Delete,
    /// Delete options, which have no values in the words.
    Unset,
}

pub(crate) fn find_target_operation(word: &str) -> Option<TargetOperation>
    ensures { result ≡ operation_of_word word.now }
{
    if word == "add" {
        Some(TargetOperation::SourcesAdd)
    } else if word == "rm" {
        Some(TargetOperation::SourcesRemove)
    } else if word == "add_target" {
        Some(TargetOperation::TargetAdd)
    } else if word == "rm_target" {
        Some(TargetOperation::TargetRemove)
    } else if word == "add_extra_files" {
        Some(TargetOperation::ExtraAdd)
    } else if word == "rm_extra_files" {
        Some(TargetOperation::ExtraRemove)
    } else if word == "info" {
        Some(TargetOperation::Info)
    } else {
        None
    }
}

pub(crate) fn find_options_word(word: &str) -> Option<OptionsWord>
    ensures { result ≡ options_word word.now }
{
    if word == "set" {
        Some(OptionsWord::Set)
    } else if word == "delete" {
        Some(OptionsWord::Delete)
    } else if word == "unset" {
        Some(OptionsWord::Unset)
    } else {
        None
    }
}
