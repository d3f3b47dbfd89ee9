//! What explains keys that have no value, and keys that are given twice.

use crate::shell::quoted;
use crate::subcommands::Subcommand;
use crate::words::word_or;
use clap::ArgMatches;
use meson_json::Remarks;
use std::alloc::{AllocError, Global};

/// The name of a subcommand's list of words.
fn list_name(subcommand: Subcommand) -> &'static str {
    match subcommand {
        Subcommand::DefaultOptions => "OPTION VALUE",
        _ => "KEY VALUE",
    }
}

/// Says that a key and its value are two words, if one word has both.
pub(crate) fn split_pair(
    alloc: Global,
    remarks: &mut Remarks,
    list: &[&str],
) -> Result<(), AllocError> {
    for word in list {
        if let Some((key, value)) = word.split_once('=') {
            let key = quoted(alloc, key)?;
            let value = quoted(alloc, value)?;
            return remarks.help(format!(in alloc;
                "write a key and its value as two words: {key} {value}"
            )?);
        }
    }
    Ok(())
}

/// Words for a command line, with a space before each.
pub(crate) fn all_quoted(alloc: Global, list: &[&str]) -> Result<String, AllocError> {
    let mut all = String::new(alloc);
    for word in list {
        all.push(' ')?;
        all.push_str(quoted(alloc, word)?.as_str())?;
    }
    Ok(all)
}

/// What may be done where the last key of `kwargs` has no value.
fn help_kwargs(
    alloc: Global,
    remarks: &mut Remarks,
    words: &ArgMatches<'_>,
    list: &[&str],
) -> Result<(), AllocError> {
    let operation = word_or(words, "OPERATION", "");
    let function = word_or(words, "FUNCTION", "");
    let id = word_or(words, "ID", "");
    let rest = all_quoted(alloc, list)?;
    let quoted_id = quoted(alloc, id)?;
    if function == "project" && id != "/" && id != "//" {
        return remarks.help(format!(in alloc;
            "the id of the project is /: meson_rewrite kwargs {operation} project / {quoted_id}{rest}"
        )?);
    }
    if operation == "delete" {
        return remarks.help(format!(in alloc;
            "delete takes any word as the value of a key: meson_rewrite kwargs delete {function} {quoted_id}{rest} x"
        )?);
    }
    split_pair(alloc, remarks, list)
}

/// What may be done where the last option of `default-options` has no value.
fn help_options(
    alloc: Global,
    remarks: &mut Remarks,
    words: &ArgMatches<'_>,
    list: &[&str],
) -> Result<(), AllocError> {
    if word_or(words, "OPERATION", "") == "delete" {
        let keys = keys_in(alloc, list, true)?;
        let rest = all_quoted(alloc, keys.as_slice())?;
        return remarks.help(format!(in alloc;
            "unset takes options without values: meson_rewrite default-options unset{rest}"
        )?);
    }
    split_pair(alloc, remarks, list)
}

/// Explains that the last key has no value.
pub(crate) fn explain_odd(
    alloc: Global,
    remarks: &mut Remarks,
    subcommand: Option<Subcommand>,
    words: &ArgMatches<'_>,
) -> Result<(), AllocError> {
    let Some(subcommand) = subcommand else {
        return Ok(());
    };
    let Some(list) = words.get_strs(list_name(subcommand)) else {
        return Ok(());
    };
    if let [.., last] = list {
        remarks.note(format!(in alloc; "{last} has no value")?)?;
    }
    match subcommand {
        Subcommand::DefaultOptions => help_options(alloc, remarks, words, list),
        _ => help_kwargs(alloc, remarks, words, list),
    }
}

/// The keys of a list, each of which has a value after it, or none has.
fn keys_in<'l>(
    alloc: Global,
    list: &[&'l str],
    has_values: bool,
) -> Result<Vec<&'l str>, AllocError> {
    let step = if has_values { 2 } else { 1 };
    let mut keys = Vec::new(alloc);
    for words in list.chunks(step) {
        if let [key, ..] = words {
            keys.push(*key)?;
        }
    }
    Ok(keys)
}

/// The first key that is given again after it.
fn repeated<'l>(keys: &[&'l str]) -> Option<&'l str> {
    for i in 0..keys.len() {
        if keys[i + 1..].contains(&keys[i]) {
            return Some(keys[i]);
        }
    }
    None
}

/// Explains that a key is given twice.
pub(crate) fn explain_repeated(
    alloc: Global,
    remarks: &mut Remarks,
    subcommand: Option<Subcommand>,
    words: &ArgMatches<'_>,
) -> Result<(), AllocError> {
    let Some(subcommand) = subcommand else {
        return Ok(());
    };
    let list = words.get_strs(list_name(subcommand)).unwrap_or(&[]);
    let has_values = word_or(words, "OPERATION", "") != "unset";
    let keys = keys_in(alloc, list, has_values)?;
    if let Some(key) = repeated(keys.as_slice()) {
        remarks.note(format!(in alloc; "{key} is given twice")?)?;
    }
    match subcommand {
        Subcommand::DefaultOptions => remarks.help_words(alloc, "give each option once"),
        _ => remarks.help_words(
            alloc,
            "give each key once; a script sets several values: meson_rewrite command --help",
        ),
    }
}
