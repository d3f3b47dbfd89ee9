//! Commands that do what the operations of `kwargs` are refused for.

ghost use Rattle.std.specs.Prelude.{◌≡◌, ◌++◌, IfOk, OnOk, option_map, string_bytes};
ghost use Rattle.std.specs.List.{list_all};
ghost use Rattle.meson_calls.specs.Searching.{name_at};
ghost use Rattle.meson_explaining.specs.Ways.{any_key_help, any_key_line, any_key_words, folder_word, function_word, id_word, is_plain, key_words, lines_for};
ghost use Rattle.meson_explaining.specs.Ways.{program_words, target_line, target_words, ways};

use crate::names::is_bad_variable;
use crate::subject::Subject;
use meson_calls::BorrowedName;
use meson_plan::Role;
use meson_splice::Text;
use meson_steps::command::Command;
use std::alloc::{AllocError, Global};

/// The function of `arg` for the calls of a role.
fn function_word(role: Role) -> &'static str
    ensures { result.now ≡ function_word role }
{
    match role {
        Role::Project => "project",
        Role::Dependency => "dependency",
        Role::Target => "target",
    }
}

/// Whether a shell takes a byte of a word as it is.
fn is_plain(byte: u8) -> bool
    ensures { result ≡ is_plain byte }
{
    byte.is_ascii_alphanumeric() || byte == b'-' || byte == b'.' || byte == b'/' || byte == b'_'
}

/// Whether a shell takes a word as it is.
fn is_plain_word(word: &str) -> bool
    ensures { result ≡ list_all is_plain word.now }
{
    word.as_bytes().iter().all(|byte| is_plain(*byte))
}

/// An id as a word of a command, or `ID` where a shell does not take it as it is.
fn id_word(id: &str) -> &str
    ensures { result.now ≡ id_word id.entry.now }
{
    if is_plain_word(id) { id } else { "ID" }
}

/// A folder as a word of a command, or `FOLDER` where a shell does not take it as it is.
fn folder_word(folder: &str) -> &str
    ensures { result.now ≡ folder_word folder.entry.now }
{
    if is_plain_word(folder) {
        folder
    } else {
        "FOLDER"
    }
}

/// The program, with the folder whose build file alone it searches, if one is given.
fn program_words(alloc: Global, folder: Option<&Text>) -> Result<String, AllocError>
    ensures { IfOk result (λ words. string_bytes words ≡ program_words (option_map (λ f. f.now) folder.entry)) }
{
    match folder {
        Some(folder) => {
            let folder = folder_word(folder.get());
            format!(in alloc; "meson_rewrite --in {folder}")
        }
        None => String::from_str(alloc, "meson_rewrite"),
    }
}

/// What `arg` does for an operation of `kwargs` with any key, the operation that does it, and the words after the key.
fn any_key_words(command: &Command) -> Option<(&'static str, &'static str, &'static str)>
    ensures { option_map (λ words. (words.0.now, words.1.now, words.2.now)) result ≡ any_key_words command.now }
{
    match command {
        Command::KwargsSet { .. } => Some(("arg sets any key", "set", " VALUE")),
        Command::KwargsAdd { .. } => Some(("arg adds to any list", "add", " VALUE")),
        Command::KwargsRemove { .. } => Some((
            "arg deletes an element of any list, counted from 0",
            "delete",
            ".0",
        )),
        Command::KwargsDelete { .. } => Some(("arg deletes any key", "delete", "")),
        _ => None,
    }
}

/// A call by its function and its id, and a key.
fn key_words(alloc: Global, role: Role, id: &str, key: &str) -> Result<String, AllocError>
    ensures { IfOk result (λ words. string_bytes words ≡ key_words role id.now key.now) }
{
    let function = function_word(role);
    let id = id_word(id);
    format!(in alloc; "{function} {id} {key}")
}

/// The line of these words.
fn any_key_line(
    alloc: Global,
    subject: Subject<'_>,
    key: &str,
    words: (&'static str, &'static str, &'static str),
) -> Result<Text, AllocError>
    ensures { let words = words.entry in IfOk result
        (λ line. line ≡ any_key_line subject.entry.role (name_at subject.entry.name) key.now (words.0.now, words.1.now, words.2.now)) }
{
    let program = program_words(alloc, subject.name.folder)?;
    let place = key_words(alloc, subject.role, subject.name.id, key)?;
    let (does, operation, after) = words;
    Ok(Text::of(format!(in alloc; "{does}: {program} arg {operation} {place}{after}")?))
}

/// Adds the line of these words.
fn add_line(
    alloc: Global,
    help: &mut Vec<Text>,
    subject: Subject<'_>,
    key: &str,
    words: Option<(&'static str, &'static str, &'static str)>,
) -> Result<(), AllocError>
    ensures { let words = option_map (λ words. (words.0.now, words.1.now, words.2.now)) words.entry in
        OnOk result (help.new.items ≡ help.old.items ++ lines_for subject.entry.role (name_at subject.entry.name) key.now words) }
{
    if let Some(words) = words {
        help.push(any_key_line(alloc, subject, key, words)?)?;
    }
    Ok(())
}

/// Adds what `arg` does with the key, if it is the name of a keyword argument.
fn add_any_key(
    alloc: Global,
    help: &mut Vec<Text>,
    command: &Command,
    subject: Subject<'_>,
    key: &str,
) -> Result<(), AllocError>
    ensures { OnOk result (help.new.items ≡ help.old.items ++ any_key_help command.now subject.entry.role (name_at subject.entry.name) key.now) }
{
    if !is_bad_variable(key) {
        add_line(alloc, help, subject, key, any_key_words(command))?;
    }
    Ok(())
}

/// The operations of `target` that change what the key of a target holds.
fn target_words(role: Role, key: &str) -> Option<&'static str>
    ensures { option_map (λ words. words.now) result ≡ target_words role key.now }
{
    match role {
        Role::Target => {
            if key == "sources" {
                return Some(" add FILE, or rm FILE");
            }
            if key == "extra_files" {
                return Some(" add_extra_files FILE, or rm_extra_files FILE");
            }
            None
        }
        Role::Project | Role::Dependency => None,
    }
}

/// The line of these operations.
fn target_line(
    alloc: Global,
    target: BorrowedName<'_>,
    words: Option<&'static str>,
) -> Result<Vec<Text>, AllocError>
    ensures { IfOk result (λ help. help.items ≡ target_line (name_at target.entry) (option_map (λ words. words.now) words.entry)) }
{
    let mut help = Vec::new(alloc);
    if let Some(words) = words {
        let program = program_words(alloc, target.folder)?;
        let id = id_word(target.id);
        let line = format!(in alloc; "target changes its files: {program} target {id}{words}")?;
        help.push(Text::of(line))?;
    }
    Ok(help)
}

/// What changes a key that the operation of `kwargs` does not change.
pub(crate) fn ways_for(
    alloc: Global,
    command: &Command,
    subject: Subject<'_>,
    key: &str,
) -> Result<Vec<Text>, AllocError>
    ensures { IfOk result (λ help. help.items ≡ ways command.now subject.entry.role (name_at subject.entry.name) key.now) }
{
    let mut help = target_line(alloc, subject.name, target_words(subject.role, key))?;
    add_any_key(alloc, &mut help, command, subject, key)?;
    Ok(help)
}
