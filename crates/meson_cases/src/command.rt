//! Commands by their words, which are those of the program's command line.

use meson_calls::{CallName, Reading};
use meson_case_files::text_of;
use meson_plan::{Command, Role, Setting};
use meson_splice::{Many, Text};
use meson_steps::source_change::{SharedLists, SourceChange};
use std::alloc::{AllocError, Global};

type Read = Result<Option<Command>, AllocError>;

fn text(alloc: Global, word: &str) -> Result<Text, AllocError> {
    Ok(Text::of(text_of(alloc, word)?))
}

fn texts(alloc: Global, words: &[&str]) -> Result<Many<Text>, AllocError> {
    let mut all = Vec::new(alloc);
    for word in words {
        all.push(text(alloc, word)?)?;
    }
    Ok(Many::of(all))
}

/// The role of the calls of this function.
pub fn role_of(function: &str) -> Option<Role> {
    match function {
        "target" => Some(Role::Target),
        "dependency" => Some(Role::Dependency),
        "project" => Some(Role::Project),
        _ => None,
    }
}

/// A value: `(true)` or `(false)`, a list as `[a,b]`, or a text.
fn setting(alloc: Global, word: &str) -> Result<Setting, AllocError> {
    match word {
        "(true)" => return Ok(Setting::Bool(true)),
        "(false)" => return Ok(Setting::Bool(false)),
        "[]" => return Ok(Setting::Texts(Many::new(alloc))),
        _ => {}
    }
    match word.strip_prefix("[") {
        Some(list) => {
            let list = list.strip_suffix("]").unwrap_or(list);
            let words: Vec<&str> = list.split(',').collect(alloc)?;
            Ok(Setting::Texts(texts(alloc, words.as_slice())?))
        }
        None => Ok(Setting::Text(text(alloc, word)?)),
    }
}

/// Keys, each followed by its value.
fn pairs(alloc: Global, words: &[&str]) -> Result<Many<(Text, Setting)>, AllocError> {
    let mut all = Vec::new(alloc);
    for pair in words.chunks_exact(2) {
        if let [key, value] = pair {
            let key = text(alloc, key)?;
            all.push((key, setting(alloc, value)?))?;
        }
    }
    Ok(Many::of(all))
}

/// Options, each followed by its value.
fn options(alloc: Global, words: &[&str]) -> Result<Many<(Text, Text)>, AllocError> {
    let mut all = Vec::new(alloc);
    for pair in words.chunks_exact(2) {
        if let [option, value] = pair {
            let option = text(alloc, option)?;
            all.push((option, text(alloc, value)?))?;
        }
    }
    Ok(Many::of(all))
}

/// The first elements of pairs.
fn keys(alloc: Global, words: &[&str]) -> Result<Many<Text>, AllocError> {
    let mut all = Vec::new(alloc);
    for pair in words.chunks_exact(2) {
        if let [key, _] = pair {
            all.push(text(alloc, key)?)?;
        }
    }
    Ok(Many::of(all))
}

/// The word after an option, or another one if the option is not there.
fn option_or(alloc: Global, words: &[&str], option: &str, other: &str) -> Result<Text, AllocError> {
    let mut is_next = false;
    for word in words {
        if is_next {
            return text(alloc, word);
        }
        is_next = *word == option;
    }
    text(alloc, other)
}

/// The command that adds a target to the project: its sources, then the options.
fn target_add(alloc: Global, id: &str, words: &[&str]) -> Read {
    let sources: Vec<&str> = words
        .iter()
        .copied()
        .take_while(|word| !word.starts_with("--"))
        .collect(alloc)?;
    Ok(Some(Command::TargetAdd {
        target: text(alloc, id)?,
        target_kind: option_or(alloc, words, "--type", "executable")?,
        subdir: option_or(alloc, words, "--subdir", "«»")?,
        sources: texts(alloc, sources.as_slice())?,
    }))
}

/// What names a call: an id, and a folder if one is given.
fn named(alloc: Global, folder: Option<&str>, id: &str) -> Result<CallName, AllocError> {
    let folder = match folder {
        Some(folder) => Some(text(alloc, folder)?),
        None => None,
    };
    let id = text(alloc, id)?;
    Ok(CallName { id, folder })
}

/// The command that renames sources of a target.
fn rename(alloc: Global, target: CallName, words: &[&str]) -> Read {
    let [old, new] = words else {
        return Ok(None);
    };
    let old = text(alloc, old)?;
    let new = text(alloc, new)?;
    Ok(Some(Command::SourcesRename { target, old, new }))
}

/// A command on the sources of a target.
fn on_sources(alloc: Global, target: CallName, operation: &str, words: &[&str]) -> Read {
    let sources = texts(alloc, words)?;
    match operation {
        "add" => Ok(Some(Command::SourcesAdd { target, sources })),
        "rm" => Ok(Some(Command::SourcesRemove { target, sources })),
        "add_extra_files" => Ok(Some(Command::ExtraAdd { target, sources })),
        "rm_extra_files" => Ok(Some(Command::ExtraRemove { target, sources })),
        _ => Ok(None),
    }
}

fn on_target(alloc: Global, target: CallName, operation: &str, words: &[&str]) -> Read {
    match operation {
        "rm_target" => Ok(Some(Command::TargetRemove { target })),
        "info" => {
            let reading = Reading::Written;
            Ok(Some(Command::TargetInfo { target, reading }))
        }
        "rename" => rename(alloc, target, words),
        _ => on_sources(alloc, target, operation, words),
    }
}

fn on_keywords(alloc: Global, operation: &str, role: Role, name: CallName, words: &[&str]) -> Read {
    if operation == "info" {
        return Ok(Some(Command::KwargsInfo { role, name }));
    }
    if operation == "delete" {
        let keys = keys(alloc, words)?;
        return Ok(Some(Command::KwargsDelete { role, name, keys }));
    }
    let pairs = pairs(alloc, words)?;
    match operation {
        "set" => Ok(Some(Command::KwargsSet { role, name, pairs })),
        "add" => Ok(Some(Command::KwargsAdd { role, name, pairs })),
        "remove" => Ok(Some(Command::KwargsRemove { role, name, pairs })),
        _ => Ok(None),
    }
}

fn on_options(alloc: Global, operation: &str, words: &[&str]) -> Read {
    match operation {
        "set" => Ok(Some(Command::OptionsSet {
            pairs: options(alloc, words)?,
        })),
        "delete" => Ok(Some(Command::OptionsDelete {
            names: keys(alloc, words)?,
        })),
        _ => Ok(None),
    }
}

/// The command that the words name in a folder, if they name one.
fn command_in(alloc: Global, folder: Option<&str>, words: &[&str]) -> Read {
    match words {
        ["target", id, "add_target", words @ ..] => target_add(alloc, id, words),
        ["target", id, operation, words @ ..] => {
            on_target(alloc, named(alloc, folder, id)?, operation, words)
        }
        ["kwargs", operation, function, id, words @ ..] => match role_of(function) {
            Some(role) => on_keywords(alloc, operation, role, named(alloc, folder, id)?, words),
            None => Ok(None),
        },
        ["default-options", operation, words @ ..] => on_options(alloc, operation, words),
        _ => Ok(None),
    }
}

/// The change that gives a source another name.
fn renaming(alloc: Global, words: &[&str]) -> Result<Option<SourceChange>, AllocError> {
    let [old, new] = words else {
        return Ok(None);
    };
    let old = text(alloc, old)?;
    let new = text(alloc, new)?;
    Ok(Some(SourceChange::Rename { old, new }))
}

/// What an operation does with the sources of a target where variables are followed.
fn source_change(
    alloc: Global,
    operation: &str,
    words: &[&str],
) -> Result<Option<SourceChange>, AllocError> {
    match operation {
        "add" => Ok(Some(SourceChange::Add(texts(alloc, words)?))),
        "rm" => Ok(Some(SourceChange::Remove(texts(alloc, words)?))),
        "rename" => renaming(alloc, words),
        _ => Ok(None),
    }
}

/// The command that follows variables, if the words name one.
fn following(alloc: Global, folder: Option<&str>, shared: SharedLists, words: &[&str]) -> Read {
    let ["target", id, operation, words @ ..] = words else {
        return Ok(None);
    };
    let target = named(alloc, folder, id)?;
    match source_change(alloc, operation, words)? {
        Some(change) => Ok(Some(Command::FollowedSources {
            target,
            change,
            shared,
        })),
        None => Ok(None),
    }
}

/// The command that the words after a folder name, if they name one.
fn command_after(alloc: Global, folder: Option<&str>, words: &[&str]) -> Read {
    match words {
        ["--follow", words @ ..] => following(alloc, folder, SharedLists::Kept, words),
        ["--follow=shared", words @ ..] => following(alloc, folder, SharedLists::Changed, words),
        _ => command_in(alloc, folder, words),
    }
}

/// The command that the words name, if they name one.
pub fn command_of(alloc: Global, words: &[&str]) -> Read {
    match words {
        ["--in", folder, words @ ..] => command_after(alloc, Some(folder), words),
        _ => command_after(alloc, None, words),
    }
}
