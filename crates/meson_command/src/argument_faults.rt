//! What explains words of `arg` that are no request.

use crate::choices::ARGUMENT_OPERATIONS;
use crate::keys::{all_quoted, split_pair};
use crate::shell::quoted;
use crate::words::{is_set, word_or};
use clap::ArgMatches;
use meson_json::Remarks;
use meson_json::argument::place_named;
use meson_lex::{Kind, items};
use meson_steps::code::{is_expression, not_list};
use meson_syntax::{Bracket, MAX_DEPTH, ParseFault, parse_list_within};
use std::alloc::{AllocError, Global};

/// What a key is.
pub(crate) const KEY_HELP: &str =
    "KEY is a keyword, a number from 0 or the text of an entry; . is the place itself";

const TWO_VALUES: &str = "replace takes two values, the old one and the new one";

/// The operation on a value that a word of another kind means.
fn meant_operation(word: &str) -> Option<&'static str> {
    match word {
        "rm" => Some("remove"),
        "del" | "unset" => Some("delete"),
        "rename" => Some("replace"),
        "change" => Some("set"),
        "get" | "show" | "list" => Some("info"),
        _ => None,
    }
}

/// Explains that the operation of `arg` is not known.
fn explain_operation(
    alloc: Global,
    remarks: &mut Remarks,
    words: &ArgMatches<'_>,
) -> Result<(), AllocError> {
    let operation = word_or(words, "OPERATION", "");
    let function = word_or(words, "FUNCTION", "");
    if ARGUMENT_OPERATIONS.has(function) {
        let operation = quoted(alloc, operation)?;
        remarks.help(format!(in alloc;
            "the operation goes before the function: meson_rewrite arg {function} {operation} .."
        )?)?;
    }
    ARGUMENT_OPERATIONS.refuse(alloc, remarks, operation, meant_operation(operation))
}

/// Explains that `arg` has no values, and what its operation takes.
fn explain_no_values(
    alloc: Global,
    remarks: &mut Remarks,
    operation: &str,
    key: &str,
) -> Result<(), AllocError> {
    remarks.note(format!(in alloc; "{key} has no value")?)?;
    split_pair(alloc, remarks, &[key])?;
    match operation {
        "remove" => remarks.help_words(
            alloc,
            "remove takes one value or several; without values delete removes all of it",
        ),
        "replace" => remarks.help_words(alloc, TWO_VALUES),
        _ => remarks.help_words(
            alloc,
            "set and add take one value or several; :[] is an empty array",
        ),
    }
}

/// Explains that the values of `arg` are more or fewer than its operation takes.
fn explain_values(
    alloc: Global,
    remarks: &mut Remarks,
    words: &ArgMatches<'_>,
) -> Result<(), AllocError> {
    let key = word_or(words, "KEY", "");
    let operation = word_or(words, "OPERATION", "");
    let Some(values) = words.get_strs("VALUE") else {
        return explain_no_values(alloc, remarks, operation, key);
    };
    if operation == "replace" {
        return remarks.note_words(alloc, TWO_VALUES);
    }
    let function = quoted(alloc, word_or(words, "FUNCTION", ""))?;
    let id = quoted(alloc, word_or(words, "ID", ""))?;
    let shown = quoted(alloc, key)?;
    let operation = word_or(words, "OPERATION", "");
    let verb = if operation == "info" {
        "list"
    } else {
        "delete"
    };
    remarks.note(format!(in alloc; "{operation} takes no values")?)?;
    remarks.help(format!(in alloc;
        "to {verb} it write: meson_rewrite arg {operation} {function} {id} {shown}"
    )?)?;
    let rest = all_quoted(alloc, values)?;
    remarks.help(format!(in alloc;
        "to change it write: meson_rewrite arg set {function} {id} {shown}{rest}"
    )?)
}

/// Explains that the operation does not take `--after`.
fn explain_after(alloc: Global, remarks: &mut Remarks, operation: &str) -> Result<(), AllocError> {
    remarks.note(format!(in alloc; "{operation} does not take --after")?)?;
    remarks.help_words(
        alloc,
        "--after ELEMENT says where add puts its values; every other operation finds them itself",
    )
}

/// Explains that the operation does not take `--sorted`.
pub(crate) fn explain_sorted(
    alloc: Global,
    remarks: &mut Remarks,
    operation: &str,
) -> Result<(), AllocError> {
    remarks.note(format!(in alloc; "{operation} does not take --sorted")?)?;
    remarks.help_words(
        alloc,
        "--sorted says that add puts what it adds in order; no other operation adds to a list in order",
    )
}

/// Explains that `--sorted` and `--after` say different things.
fn explain_sorted_after(alloc: Global, remarks: &mut Remarks) -> Result<(), AllocError> {
    remarks.note_words(alloc, "--sorted does not go with --after")?;
    remarks.help_words(
        alloc,
        "--after ELEMENT says where add puts its values; --sorted finds the place of each in the order of the list",
    )
}

/// Explains that the key is missing.
fn explain_no_key(alloc: Global, remarks: &mut Remarks) -> Result<(), AllocError> {
    remarks.note_words(
        alloc,
        "the following required arguments were not provided: <KEY>",
    )?;
    ARGUMENT_OPERATIONS.list(alloc, remarks)?;
    remarks.help_words(alloc, KEY_HELP)
}

/// Explains that the function and the id name no place.
pub(crate) fn explain_place(
    alloc: Global,
    remarks: &mut Remarks,
    id: &str,
) -> Result<(), AllocError> {
    remarks.note(format!(in alloc; "{id} is not FILE:LINE")?)?;
    remarks.help_words(
        alloc,
        "the id of at is the name of a build file, a colon and a line from 1, as src/meson.build:12",
    )
}

/// Explains that the operation or the place of `arg` is not known, that its key is missing, or that its values are not as many as the operation takes.
pub(crate) fn explain_argument(
    alloc: Global,
    remarks: &mut Remarks,
    words: &ArgMatches<'_>,
) -> Result<(), AllocError> {
    let operation = word_or(words, "OPERATION", "");
    if !ARGUMENT_OPERATIONS.has(operation) {
        return explain_operation(alloc, remarks, words);
    }
    let id = word_or(words, "ID", "");
    let place = place_named(alloc, word_or(words, "FUNCTION", ""), id)?;
    if place.is_none() {
        return explain_place(alloc, remarks, id);
    }
    if words.get_str("KEY").is_none() && operation != "info" {
        return explain_no_key(alloc, remarks);
    }
    if words.get_str("ELEMENT").is_some() && operation != "add" {
        return explain_after(alloc, remarks, operation);
    }
    if is_set(words, "sorted") {
        if operation != "add" {
            return explain_sorted(alloc, remarks, operation);
        }
        if words.get_str("ELEMENT").is_some() {
            return explain_sorted_after(alloc, remarks);
        }
    }
    let many = words.get_strs("VALUE").map_or(0, |values| values.len());
    let fits = match operation {
        "delete" | "info" => many == 0,
        "replace" => many == 2,
        _ => many > 0,
    };
    if !fits {
        return explain_values(alloc, remarks, words);
    }
    Ok(())
}

/// Why a text is not code.
#[derive(Clone, Copy)]
enum Flaw {
    /// It has no token.
    Empty,
    /// It has a comment, or a line that is continued.
    Remark,
    /// A blank is at one of its ends.
    Blank,
    /// It is a list of several expressions, or has a comma after one.
    Several,
    /// Its constructs nest too deep.
    Deep,
    /// It does not parse.
    Unread,
}

/// Why a text is not code by its items.
fn flaw_of_items(code: &str) -> Option<Flaw> {
    if code.trim().is_empty() {
        return Some(Flaw::Empty);
    }
    for item in items(code.as_bytes()) {
        if let Ok(item) = item {
            if matches!(item.kind, Kind::Comment | Kind::Continuation) {
                return Some(Flaw::Remark);
            }
        }
    }
    if code.trim().len() < code.len() {
        return Some(Flaw::Blank);
    }
    None
}

/// Why a text is not code.
fn flaw_of(alloc: Global, code: &str) -> Result<Flaw, AllocError> {
    if let Some(flaw) = flaw_of_items(code) {
        return Ok(flaw);
    }
    let whole = format!(in alloc; "[{code}]")?;
    match parse_list_within(
        alloc,
        whole.as_str().as_bytes(),
        Bracket::Square,
        MAX_DEPTH + 1,
    ) {
        Ok(_) => Ok(Flaw::Several),
        Err(ParseFault::TooDeep(_)) => Ok(Flaw::Deep),
        Err(fault) => {
            not_list(fault)?;
            Ok(Flaw::Unread)
        }
    }
}

/// What it says of a flaw, and what may be done about it.
fn words_of(flaw: Flaw) -> (&'static str, &'static str) {
    match flaw {
        Flaw::Empty => (
            "has nothing after its colon",
            "write one expression after the colon, as :zlib",
        ),
        Flaw::Remark => (
            "has a comment or a continued line",
            "write the expression without it",
        ),
        Flaw::Blank => (
            "has a blank before or after its expression",
            "write the expression without it",
        ),
        Flaw::Several => (
            "is more than one expression",
            "write each as a word, as :a :b, or all as one array, as :[a, b]",
        ),
        Flaw::Deep => (
            "nests too deep",
            "a build file may nest 64 deep, with what is around the value",
        ),
        Flaw::Unread => (
            "does not parse as one expression",
            "a text in code has quotes, as \":get_option('bindir')\"",
        ),
    }
}

/// Explains that what is after the colon of a word is not one expression. Whether the word is such a one.
fn explain_word(alloc: Global, remarks: &mut Remarks, word: &str) -> Result<bool, AllocError> {
    let Some(code) = word.strip_prefix(":") else {
        return Ok(false);
    };
    if is_expression(alloc, code)? {
        return Ok(false);
    }
    let (note, help) = words_of(flaw_of(alloc, code)?);
    remarks.note(format!(in alloc; "{word} {note}")?)?;
    remarks.help_words(alloc, help)?;
    help_text(alloc, remarks, word)?;
    Ok(true)
}

/// Explains that what is after the colon of a value, or of that of `--after`, is not one expression.
pub(crate) fn explain_code(
    alloc: Global,
    remarks: &mut Remarks,
    words: &ArgMatches<'_>,
) -> Result<(), AllocError> {
    for word in words.get_strs("VALUE").unwrap_or(&[]) {
        if explain_word(alloc, remarks, word)? {
            return Ok(());
        }
    }
    if let Some(word) = words.get_str("ELEMENT") {
        explain_word(alloc, remarks, word)?;
    }
    Ok(())
}

/// Whether a byte stays as it is in quotes of a shell, and in a literal in them.
fn is_kept(byte: u8) -> bool {
    byte >= 32 && !b"\"$`!\\'".contains(&byte)
}

/// How the text is given that a word with a colon is.
fn help_text(alloc: Global, remarks: &mut Remarks, word: &str) -> Result<(), AllocError> {
    if !word.as_bytes().iter().all(|byte| is_kept(*byte)) {
        return Ok(());
    }
    remarks.help(format!(in alloc; "for the text itself write \":'{word}'\"")?)
}
