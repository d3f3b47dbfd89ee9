//! What explains words that clap does not take.

use crate::argument_faults::KEY_HELP;
use crate::choices::{
    ARGUMENT_OPERATIONS, CODE_OPERATIONS, FUNCTIONS, KWARGS_OPERATIONS, OPTIONS_OPERATIONS,
    TARGET_OPERATIONS,
};
use crate::code_faults::{ONE_WORD_HELP, WORDS_HELP};
use crate::subcommands::{SUBCOMMANDS, Subcommand};
use clap::Error;
use clap::error::ErrorKind;
use meson_json::Remarks;
use meson_json::count::count_of;
use std::alloc::{AllocError, Global};

/// The value of an option of the program, with a space before it; empty if it has none.
fn value_of(option: &str) -> Option<&'static str> {
    match option {
        "--sourcedir" | "-s" => Some(" DIR"),
        "--title" => Some(" TEXT"),
        "--texts" => Some(" FILE"),
        "--in" => Some(" FOLDER"),
        "--dry-run" | "--json" | "--explain" | "--exit-code" | "--no-log" => Some(""),
        "--follow" | "--verbose" | "-V" => Some(""),
        _ => None,
    }
}

/// The word of a command line that names its subcommand: the first that is neither an option of the program nor the value of one.
fn first_word(words: &[String]) -> Option<&str> {
    let mut is_value = false;
    for word in words.iter().skip(1) {
        let word = word.as_str();
        if is_value {
            is_value = false;
        } else if word.starts_with('-') {
            is_value = takes_value(word);
        } else {
            return Some(word);
        }
    }
    None
}

/// The subcommand of a command line, if the word for it names one.
fn subcommand_in(words: &[String]) -> Option<Subcommand> {
    first_word(words).and_then(Subcommand::from_word)
}

/// Whether an option has a value.
fn takes_value(option: &str) -> bool {
    match option {
        "--subdir" | "--type" | "--to" | "--check" | "--forget" | "--of" | "--blank" => true,
        _ => value_of(option).is_some_and(|value| !value.is_empty()),
    }
}

/// Lines as one line.
fn joined(alloc: Global, text: &str) -> Result<String, AllocError> {
    let mut line = String::new(alloc);
    for part in text.lines() {
        if !line.is_empty() {
            line.push(' ')?;
        }
        line.push_str(part.trim())?;
    }
    Ok(line)
}

/// What it says of the program and its subcommands where no subcommand is among the words.
fn add_overview(alloc: Global, remarks: &mut Remarks, words: &[String]) -> Result<(), AllocError> {
    remarks.note_words(alloc, "a subcommand is missing")?;
    remarks.help_words(alloc, "usage: meson_rewrite [OPTIONS] SUBCOMMAND ..")?;
    for subcommand in &SUBCOMMANDS {
        let name = subcommand.name();
        let about = subcommand.about();
        remarks.help(format!(in alloc; "{name}: {about}")?)?;
    }
    if words.iter().any(|word| word.as_str() == "-V") {
        remarks.help_words(alloc, "--version prints the version; -V is --verbose")?;
    }
    remarks.help_words(alloc, "begin with meson_rewrite list")?;
    remarks.help_words(
        alloc,
        "meson_rewrite --help prints options and examples, meson_rewrite SUBCOMMAND --help operations",
    )
}

/// The word that a message is about, if it begins and ends so.
fn word_in<'m>(message: &'m str, before: &str) -> Option<&'m str> {
    let rest = message.strip_prefix(before)?;
    let (word, _) = rest.rsplit_once('\'')?;
    Some(word)
}

/// An option with its value, and the word after it, which begins so and is not taken as its value.
fn option_before<'w>(words: &'w [String], argument: &str) -> Option<(&'w str, &'w str)> {
    for (option, word) in words.iter().zip(words.iter().skip(1)) {
        let (option, word) = (option.as_str(), word.as_str());
        if argument.starts_with('-') && word.starts_with(argument) && takes_value(option) {
            return Some((option, word));
        }
    }
    None
}

/// What may be done about an argument that is not known. Returns whether anything was said.
fn help_argument(
    alloc: Global,
    remarks: &mut Remarks,
    words: &[String],
    argument: &str,
    subcommand: Option<Subcommand>,
) -> Result<bool, AllocError> {
    if argument == "-h" {
        remarks.help_words(alloc, "write --help for -h")?;
        return Ok(true);
    }
    if argument == "--version" {
        remarks.help_words(alloc, "write meson_rewrite --version")?;
        return Ok(true);
    }
    if let Some((option, word)) = option_before(words, argument) {
        remarks.help(format!(in alloc;
            "write a value that begins with - after =, as {option}={word}"
        )?)?;
        return Ok(true);
    }
    match subcommand {
        Some(subcommand) => help_misplaced(alloc, remarks, argument, subcommand),
        None => Ok(false),
    }
}

/// What may be done about an argument that is not known after a subcommand. Returns whether anything was said.
fn help_misplaced(
    alloc: Global,
    remarks: &mut Remarks,
    argument: &str,
    subcommand: Subcommand,
) -> Result<bool, AllocError> {
    let name = subcommand.name();
    if let Some(value) = value_of(argument) {
        remarks.help(format!(in alloc;
            "{argument} goes before the subcommand: meson_rewrite {argument}{value} {name} .."
        )?)?;
        return Ok(true);
    }
    match subcommand {
        Subcommand::Undo if count_of(argument).is_some() => {
            remarks.help(format!(in alloc; "write undo --to {argument}")?)?;
            Ok(true)
        }
        Subcommand::Code if !argument.starts_with('-') => {
            remarks.help_words(alloc, WORDS_HELP)?;
            remarks.help_words(alloc, ONE_WORD_HELP)?;
            Ok(true)
        }
        _ => Ok(false),
    }
}

/// What may be done about a word that is not a subcommand.
fn help_subcommand(alloc: Global, remarks: &mut Remarks, word: &str) -> Result<(), AllocError> {
    if word == "help" || word == "version" {
        remarks.help(format!(in alloc; "write meson_rewrite --{word}")?)?;
    }
    if TARGET_OPERATIONS.has(word) {
        remarks.help(format!(in alloc; "for a target: meson_rewrite target ID {word} ..")?)?;
    }
    if KWARGS_OPERATIONS.has(word) {
        remarks.help(format!(in alloc;
            "for keyword arguments: meson_rewrite kwargs {word} FUNCTION ID .."
        )?)?;
    }
    if ARGUMENT_OPERATIONS.has(word) {
        remarks.help(format!(in alloc;
            "for any value: meson_rewrite arg {word} FUNCTION ID KEY .."
        )?)?;
    }
    if CODE_OPERATIONS.has(word) {
        remarks.help(format!(in alloc; "for statements: meson_rewrite code {word} ..")?)?;
    }
    if OPTIONS_OPERATIONS.has(word) {
        remarks.help(format!(in alloc;
            "for default options: meson_rewrite default-options {word} .."
        )?)?;
    }
    let mut names = Vec::new(alloc);
    for subcommand in &SUBCOMMANDS {
        names.push(subcommand.name())?;
    }
    let names = names.as_slice().join(alloc, ", ")?;
    remarks.help(format!(in alloc; "subcommands: {names}")?)
}

/// What the words are that a subcommand needs.
fn help_missing(
    alloc: Global,
    remarks: &mut Remarks,
    subcommand: Option<Subcommand>,
) -> Result<(), AllocError> {
    match subcommand {
        Some(Subcommand::Target) => TARGET_OPERATIONS.list(alloc, remarks),
        Some(Subcommand::Kwargs) => {
            KWARGS_OPERATIONS.list(alloc, remarks)?;
            FUNCTIONS.list(alloc, remarks)?;
            remarks.help_words(alloc, "the id of the project is /")
        }
        Some(Subcommand::Argument) => {
            ARGUMENT_OPERATIONS.list(alloc, remarks)?;
            remarks.help_words(alloc, KEY_HELP)
        }
        Some(Subcommand::Code) => {
            CODE_OPERATIONS.list(alloc, remarks)?;
            remarks.help_words(alloc, WORDS_HELP)
        }
        Some(Subcommand::DefaultOptions) => OPTIONS_OPERATIONS.list(alloc, remarks),
        _ => Ok(()),
    }
}

/// Adds the tips of clap.
fn add_tips(alloc: Global, remarks: &mut Remarks, text: &str) -> Result<(), AllocError> {
    for line in text.lines() {
        if let Some(tip) = line.trim().strip_prefix("tip: ") {
            remarks.help_words(alloc, tip)?;
        }
    }
    Ok(())
}

/// Says which words a subcommand has, and where to read of them.
pub(crate) fn add_usage(
    alloc: Global,
    remarks: &mut Remarks,
    subcommand: Option<Subcommand>,
) -> Result<(), AllocError> {
    let Some(subcommand) = subcommand else {
        return remarks.help_words(
            alloc,
            "meson_rewrite --help lists the subcommands and options",
        );
    };
    let name = subcommand.name();
    let usage = subcommand.usage();
    remarks.help(format!(in alloc; "usage: meson_rewrite [OPTIONS] {usage}")?)?;
    remarks.help(format!(in alloc; "meson_rewrite {name} --help lists its words")?)
}

/// Whether a word gives `--follow` a value.
fn gives_lists(words: &[String]) -> bool {
    words
        .iter()
        .any(|word| word.as_str().starts_with("--follow="))
}

/// What may be done about a message of clap. Returns whether its own tips are to be left out.
fn add_help(
    alloc: Global,
    remarks: &mut Remarks,
    words: &[String],
    kind: ErrorKind,
    message: &str,
) -> Result<bool, AllocError> {
    let subcommand = subcommand_in(words);
    match kind {
        ErrorKind::UnknownArgument => {
            let argument = word_in(message, "unexpected argument '").unwrap_or("");
            help_argument(alloc, remarks, words, argument, subcommand)
        }
        ErrorKind::InvalidSubcommand => {
            let word = word_in(message, "unrecognized subcommand '").unwrap_or("");
            help_subcommand(alloc, remarks, word)?;
            Ok(false)
        }
        ErrorKind::MissingRequiredArgument => {
            help_missing(alloc, remarks, subcommand)?;
            Ok(false)
        }
        ErrorKind::TooManyValues if gives_lists(words) => {
            remarks.help_words(alloc, "write --follow, --follow=own or --follow=shared")?;
            Ok(false)
        }
        _ => Ok(false),
    }
}

/// Explains words that clap does not take, by its own text and kind of error.
pub(crate) fn explain_untaken(
    alloc: Global,
    remarks: &mut Remarks,
    words: &[String],
    error: &Error,
) -> Result<(), AllocError> {
    if let ErrorKind::MissingSubcommand = error.kind() {
        return add_overview(alloc, remarks, words);
    }
    let told = error.to_string(alloc)?;
    // The flag that clap gets for it is not among the words.
    let text = told
        .as_str()
        .replace(alloc, "--follow-shared", "--follow=shared")?;
    let (message, rest) = text
        .as_str()
        .split_once("\n\n")
        .unwrap_or((text.as_str(), ""));
    let message = joined(alloc, message.strip_prefix("error: ").unwrap_or(message))?;
    if !add_help(alloc, remarks, words, error.kind(), message.as_str())? {
        add_tips(alloc, remarks, rest)?;
    }
    remarks.note(message)?;
    add_usage(alloc, remarks, subcommand_in(words))
}
