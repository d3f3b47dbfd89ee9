//! The subcommands, for what explains words that are not a request.

use crate::{code_help, help};

/// A subcommand.
#[derive(Clone, Copy)]
pub(crate) enum Subcommand {
    Target,
    Kwargs,
    Argument,
    Code,
    DefaultOptions,
    Command,
    Undo,
    Redo,
    History,
    List,
}

/// All of them, in the order of help.
pub(crate) const SUBCOMMANDS: [Subcommand; 10] = [
    Subcommand::Target,
    Subcommand::Kwargs,
    Subcommand::Argument,
    Subcommand::Code,
    Subcommand::DefaultOptions,
    Subcommand::Command,
    Subcommand::Undo,
    Subcommand::Redo,
    Subcommand::History,
    Subcommand::List,
];

impl Subcommand {
    /// The subcommand of this name, which may be its other name.
    pub(crate) fn from_word(word: &str) -> Option<Subcommand> {
        match word {
            "target" | "tgt" => Some(Subcommand::Target),
            "kwargs" => Some(Subcommand::Kwargs),
            "arg" => Some(Subcommand::Argument),
            "code" => Some(Subcommand::Code),
            "default-options" | "def" => Some(Subcommand::DefaultOptions),
            "command" | "cmd" => Some(Subcommand::Command),
            "undo" => Some(Subcommand::Undo),
            "redo" => Some(Subcommand::Redo),
            "history" => Some(Subcommand::History),
            "list" => Some(Subcommand::List),
            _ => None,
        }
    }

    pub(crate) fn name(self) -> &'static str {
        match self {
            Subcommand::Target => "target",
            Subcommand::Kwargs => "kwargs",
            Subcommand::Argument => "arg",
            Subcommand::Code => "code",
            Subcommand::DefaultOptions => "default-options",
            Subcommand::Command => "command",
            Subcommand::Undo => "undo",
            Subcommand::Redo => "redo",
            Subcommand::History => "history",
            Subcommand::List => "list",
        }
    }

    /// What it does, as help says it.
    pub(crate) fn about(self) -> &'static str {
        match self {
            Subcommand::Target => help::TARGET,
            Subcommand::Kwargs => help::KWARGS,
            Subcommand::Argument => help::ARGUMENT,
            Subcommand::Code => code_help::ABOUT,
            Subcommand::DefaultOptions => help::DEFAULT_OPTIONS,
            Subcommand::Command => help::COMMAND,
            Subcommand::Undo => help::UNDO,
            Subcommand::Redo => help::REDO,
            Subcommand::History => help::HISTORY,
            Subcommand::List => help::LIST,
        }
    }

    /// It and its words.
    pub(crate) fn usage(self) -> &'static str {
        match self {
            Subcommand::Target => {
                "target ID OPERATION [SOURCE]... [--subdir SUBDIR] [--type KIND]"
            }
            Subcommand::Kwargs => "kwargs OPERATION FUNCTION ID [KEY VALUE]...",
            Subcommand::Argument => "arg OPERATION FUNCTION ID KEY [VALUE]...",
            Subcommand::Code =>
                "code OPERATION [--blank N] [--unused] FUNCTION|FILE ID|CODE [CODE]",
            Subcommand::DefaultOptions => "default-options OPERATION [OPTION VALUE]...",
            Subcommand::Command => "command [--strict] JSON",
            Subcommand::Undo => "undo [--to N] [--check FILE]",
            Subcommand::Redo => "redo",
            Subcommand::History => "history [--forget N]",
            Subcommand::List => "list [--of FUNCTION] [--json] [--sums]",
        }
    }
}
