//! Commands, and what a command did.

use crate::argument::{Search, ValueChange, ValueName};
use crate::source_change::{SharedLists, SourceChange};
use meson_calls::{CallName, Reading, Role};
use meson_splice::{Change, Many, Text};
use meson_statements::StatementCode;
use std::fmt;

/// The value that a keyword argument is set to.
#[derive(Debug)]
pub enum Setting {
    Text(Text),
    Bool(bool),
    Texts(Many<Text>),
}

/// Where statements are inserted, on lines of their own.
#[derive(Debug)]
pub enum CodePlace {
    /// Above the statement that is found, and above the comment lines directly above it.
    Above(Search),
    /// Below the statement that is found.
    Below(Search),
    /// At the end of the file of this name.
    End(Text),
}

/// What may be done to a project, or queried of it.
pub enum Command {
    SourcesAdd {
        target: CallName,
        sources: Many<Text>,
    },
    /// Sources are added, each in its place where the list that gets them is in order.
    SourcesAddSorted {
        target: CallName,
        sources: Many<Text>,
    },
    SourcesRemove {
        target: CallName,
        sources: Many<Text>,
    },
    /// Each source of the old name gets the new one, in its place.
    SourcesRename {
        target: CallName,
        old: Text,
        new: Text,
    },
    /// The sources of a target are changed where variables are followed.
    FollowedSources {
        target: CallName,
        change: SourceChange,
        shared: SharedLists,
    },
    ExtraAdd {
        target: CallName,
        sources: Many<Text>,
    },
    ExtraRemove {
        target: CallName,
        sources: Many<Text>,
    },
    /// A new target at the end of the file of `subdir`, or of the root file if that is empty.
    TargetAdd {
        target: Text,
        target_kind: Text,
        subdir: Text,
        sources: Many<Text>,
    },
    TargetRemove {
        target: CallName,
    },
    TargetInfo {
        target: CallName,
        reading: Reading,
    },
    KwargsSet {
        role: Role,
        name: CallName,
        pairs: Many<(Text, Setting)>,
    },
    KwargsAdd {
        role: Role,
        name: CallName,
        pairs: Many<(Text, Setting)>,
    },
    KwargsRemove {
        role: Role,
        name: CallName,
        pairs: Many<(Text, Setting)>,
    },
    KwargsDelete {
        role: Role,
        name: CallName,
        keys: Many<Text>,
    },
    KwargsInfo {
        role: Role,
        name: CallName,
    },
    OptionsSet {
        pairs: Many<(Text, Text)>,
    },
    OptionsDelete {
        names: Many<Text>,
    },
    /// A value of a call, a dictionary, an array or a variable is changed.
    Argument {
        name: ValueName,
        change: ValueChange,
    },
    /// Statements are inserted. This number of blank lines is between them and the statement beside them; without a number one, if either has more than one line.
    CodeInsert {
        place: CodePlace,
        code: StatementCode,
        blank: Option<usize>,
    },
    /// A statement is removed, with the blank lines beside it that would be too many then. With `unused` each assignment goes too that nothing reads after that.
    CodeRemove {
        statement: Search,
        unused: bool,
    },
    /// What a value is, or what is in it, is reported.
    ArgumentInfo {
        name: ValueName,
    },
}

/// What a command did.
#[derive(Debug, Drop)]
pub struct Done {
    /// The splices that made the new files from the old ones.
    pub change: Change,
    /// The number of bytes that were lexed again. The count stops at the greatest number.
    pub relexed: u64,
}

/// Written by hand, so that it is proved here alone, and not in each crate that drops a command.
impl Drop for Command {
    fn drop(self) {
        match self {
            Command::SourcesAdd {
                target: _,
                sources: _,
            } => {}
            Command::SourcesAddSorted {
                target: _,
                sources: _,
            } => {}
            Command::SourcesRemove {
                target: _,
                sources: _,
            } => {}
            Command::SourcesRename {
                target: _,
                old: _,
                new: _,
            } => {}
            Command::FollowedSources {
                target: _,
                change: _,
                shared: _,
            } => {}
            Command::ExtraAdd {
                target: _,
                sources: _,
            } => {}
            Command::ExtraRemove {
                target: _,
                sources: _,
            } => {}
            Command::TargetAdd {
                target: _,
                target_kind: _,
                subdir: _,
                sources: _,
            } => {}
            Command::TargetRemove { target: _ } => {}
            Command::TargetInfo {
                target: _,
                reading: _,
            } => {}
            Command::KwargsSet {
                role: _,
                name: _,
                pairs: _,
            } => {}
            Command::KwargsAdd {
                role: _,
                name: _,
                pairs: _,
            } => {}
            Command::KwargsRemove {
                role: _,
                name: _,
                pairs: _,
            } => {}
            Command::KwargsDelete {
                role: _,
                name: _,
                keys: _,
            } => {}
            Command::KwargsInfo { role: _, name: _ } => {}
            Command::OptionsSet { pairs: _ } => {}
            Command::OptionsDelete { names: _ } => {}
            Command::Argument { name: _, change: _ } => {}
            Command::CodeInsert {
                place: _,
                code: _,
                blank: _,
            } => {}
            Command::CodeRemove {
                statement: _,
                unused: _,
            } => {}
            Command::ArgumentInfo { name: _ } => {}
        }
    }
}

/// Written by hand, as a command's is.
impl Drop for CodePlace {
    fn drop(self) {
        match self {
            CodePlace::Above(_) => {}
            CodePlace::Below(_) => {}
            CodePlace::End(_) => {}
        }
    }
}

/// Written by hand, as a command's is.
impl Drop for Setting {
    fn drop(self) {
        match self {
            Setting::Text(_) => {}
            Setting::Bool(_) => {}
            Setting::Texts(_) => {}
        }
    }
}

impl Command {
    /// The variant's name.
    fn name(&self) -> &'static str {
        match self {
            Command::SourcesAdd { .. } => "SourcesAdd",
            Command::SourcesAddSorted { .. } => "SourcesAddSorted",
            Command::SourcesRemove { .. } => "SourcesRemove",
            Command::SourcesRename { .. } => "SourcesRename",
            Command::FollowedSources { .. } => "FollowedSources",
            Command::ExtraAdd { .. } => "ExtraAdd",
            Command::ExtraRemove { .. } => "ExtraRemove",
            Command::TargetAdd { .. } => "TargetAdd",
            Command::TargetRemove { .. } => "TargetRemove",
            Command::TargetInfo { .. } => "TargetInfo",
            Command::KwargsSet { .. } => "KwargsSet",
            Command::KwargsAdd { .. } => "KwargsAdd",
            Command::KwargsRemove { .. } => "KwargsRemove",
            Command::KwargsDelete { .. } => "KwargsDelete",
            Command::KwargsInfo { .. } => "KwargsInfo",
            Command::OptionsSet { .. } => "OptionsSet",
            Command::OptionsDelete { .. } => "OptionsDelete",
            Command::Argument { .. } => "Argument",
            Command::CodeInsert { .. } => "CodeInsert",
            Command::CodeRemove { .. } => "CodeRemove",
            Command::ArgumentInfo { .. } => "ArgumentInfo",
        }
    }
}

/// A command is shown as its variant's name, and what it has, in order.
impl fmt::Debug for Command {
    fn fmt<W: fmt::Write>(&self, f: &mut fmt::Formatter<W>) -> fmt::Result {
        let mut shown = f.debug_tuple(self.name());
        match self {
            Command::SourcesAdd { target, sources }
            | Command::SourcesAddSorted { target, sources }
            | Command::SourcesRemove { target, sources }
            | Command::ExtraAdd { target, sources }
            | Command::ExtraRemove { target, sources } => shown.field(target).field(sources),
            Command::SourcesRename { target, old, new } => {
                shown.field(target).field(old).field(new)
            }
            Command::FollowedSources {
                target,
                change,
                shared,
            } => shown.field(target).field(change).field(shared),
            Command::TargetAdd {
                target,
                target_kind,
                subdir,
                sources,
            } => shown
                .field(target)
                .field(target_kind)
                .field(subdir)
                .field(sources),
            Command::TargetRemove { target } => shown.field(target),
            Command::TargetInfo { target, reading } => shown.field(target).field(reading),
            Command::KwargsSet { role, name, pairs }
            | Command::KwargsAdd { role, name, pairs }
            | Command::KwargsRemove { role, name, pairs } => shown
                .field(role)
                .field(name)
                .field(pairs),
            Command::KwargsDelete { role, name, keys } => shown.field(role).field(name).field(keys),
            Command::KwargsInfo { role, name } => shown.field(role).field(name),
            Command::OptionsSet { pairs } => shown.field(pairs),
            Command::OptionsDelete { names } => shown.field(names),
            Command::Argument { name, change } => shown.field(name).field(change),
            Command::CodeInsert { place, code, blank } => {
                shown.field(place).field(code).field(blank)
            }
            Command::CodeRemove { statement, unused } => shown.field(statement).field(unused),
            Command::ArgumentInfo { name } => shown.field(name),
        };
        shown.finish()
    }
}
