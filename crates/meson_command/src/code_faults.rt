//! What explains words of `code` that are no request.

use crate::argument_faults::explain_place;
use crate::choices::CODE_OPERATIONS;
use crate::code::code_word;
use crate::input::INPUT;
use crate::shell::quoted;
use crate::words::{is_set, word_or};
use clap::ArgMatches;
use meson_json::Remarks;
use meson_json::argument::place_named;
use meson_json::code::blank_of;
use meson_json::names::{CodeOperation, find_code_operation};
use meson_syntax::{ParseFault, parse};
use std::alloc::{AllocError, Global};

/// Which words the operations take.
pub(crate) const WORDS_HELP: &str =
    "after and before take FUNCTION ID CODE, append takes FILE CODE, remove takes FUNCTION ID";

/// How code is written.
pub(crate) const ONE_WORD_HELP: &str = "CODE is one word: write it in quotes of the shell";

/// The operation on code that a word of another kind means.
fn meant_operation(word: &str) -> Option<&'static str> {
    match word {
        "below" | "under" | "insert_after" => Some("after"),
        "above" | "over" | "insert_before" => Some("before"),
        "add" | "insert" | "end" => Some("append"),
        "rm" | "delete" | "del" => Some("remove"),
        _ => None,
    }
}

/// Explains that the operation of `code` is not known.
fn explain_operation(
    alloc: Global,
    remarks: &mut Remarks,
    words: &ArgMatches<'_>,
) -> Result<(), AllocError> {
    let operation = word_or(words, "OPERATION", "");
    let function = word_or(words, "FUNCTION|FILE", "");
    if CODE_OPERATIONS.has(function) {
        let operation = quoted(alloc, operation)?;
        remarks.help(format!(in alloc;
            "the operation goes before the function: meson_rewrite code {function} {operation} .."
        )?)?;
    }
    CODE_OPERATIONS.refuse(alloc, remarks, operation, meant_operation(operation))
}

/// Explains that the words of `code` are more or fewer than its operation takes.
fn explain_number(
    alloc: Global,
    remarks: &mut Remarks,
    operation: CodeOperation,
) -> Result<(), AllocError> {
    match operation {
        CodeOperation::Append => remarks.note_words(alloc, "append takes two words")?,
        CodeOperation::After | CodeOperation::Before => remarks.note_words(
            alloc,
            "the following required arguments were not provided: <CODE>",
        )?,
    }
    remarks.help_words(alloc, WORDS_HELP)?;
    remarks.help_words(alloc, ONE_WORD_HELP)
}

/// Explains that the word of `--blank` is not a number of blank lines.
fn explain_blank(
    alloc: Global,
    remarks: &mut Remarks,
    words: &ArgMatches<'_>,
) -> Result<(), AllocError> {
    let Some(word) = words.get_str("N") else {
        return Ok(());
    };
    if blank_of(word).is_none() {
        remarks.note(format!(in alloc; "{word} is not a number of blank lines")?)?;
        remarks.help_words(alloc, "--blank takes a number from 0 to 100")?;
    }
    Ok(())
}

/// Explains that the operation or the place of an insertion is not known, that its words are not as many as the operation takes, or that a number is not valid.
fn explain_insertion(
    alloc: Global,
    remarks: &mut Remarks,
    words: &ArgMatches<'_>,
) -> Result<(), AllocError> {
    let Some(operation) = find_code_operation(word_or(words, "OPERATION", "")) else {
        return explain_operation(alloc, remarks, words);
    };
    if code_word(operation, words).is_none() {
        return explain_number(alloc, remarks, operation);
    }
    let id = word_or(words, "ID|CODE", "");
    let place = place_named(alloc, word_or(words, "FUNCTION|FILE", ""), id)?;
    match operation {
        CodeOperation::After | CodeOperation::Before if place.is_none() => {
            explain_place(alloc, remarks, id)
        }
        _ => explain_blank(alloc, remarks, words),
    }
}

/// Explains that a removal has a word too many or `--blank`, or that its place is not known.
fn explain_removal(
    alloc: Global,
    remarks: &mut Remarks,
    words: &ArgMatches<'_>,
) -> Result<(), AllocError> {
    if words.get_str("CODE").is_some() {
        remarks.note_words(alloc, "remove takes two words")?;
        return remarks.help_words(alloc, WORDS_HELP);
    }
    if words.get_str("N").is_some() {
        remarks.note_words(alloc, "remove does not take --blank")?;
        return remarks.help_words(
            alloc,
            "--blank N goes with after, before and append; remove leaves the blank lines on one side",
        );
    }
    let id = word_or(words, "ID|CODE", "");
    if place_named(alloc, word_or(words, "FUNCTION|FILE", ""), id)?.is_none() {
        return explain_place(alloc, remarks, id);
    }
    Ok(())
}

/// Explains words of `code` that are wrong usage.
pub(crate) fn explain_code_words(
    alloc: Global,
    remarks: &mut Remarks,
    words: &ArgMatches<'_>,
) -> Result<(), AllocError> {
    let operation = word_or(words, "OPERATION", "");
    if operation == "remove" {
        return explain_removal(alloc, remarks, words);
    }
    if is_set(words, "unused") && CODE_OPERATIONS.has(operation) {
        remarks.note(format!(in alloc; "{operation} does not take --unused")?)?;
        return remarks.help_words(
            alloc,
            "--unused says that remove also removes assignments that nothing reads any more",
        );
    }
    explain_insertion(alloc, remarks, words)
}

/// Explains why `-` is not the code of standard input.
fn explain_input(alloc: Global, remarks: &mut Remarks) -> Result<(), AllocError> {
    remarks.note_words(
        alloc,
        "standard input is not UTF-8, or it is the file of --texts",
    )?;
    remarks.help_words(
        alloc,
        "CODE - is read from standard input; a file of --texts has a name then",
    )
}

/// Explains that the code is not statements.
pub(crate) fn explain_statements(
    alloc: Global,
    remarks: &mut Remarks,
    words: &ArgMatches<'_>,
) -> Result<(), AllocError> {
    let operation = find_code_operation(word_or(words, "OPERATION", ""));
    let Some(code) = operation.and_then(|operation| code_word(operation, words)) else {
        return Ok(());
    };
    if code == INPUT {
        return explain_input(alloc, remarks);
    }
    match parse(alloc, code.as_bytes()) {
        Ok(_) => remarks.note_words(alloc, "the code has no statement")?,
        Err(ParseFault::OutOfMemory) => return Err(AllocError),
        Err(fault) => {
            remarks.note(format!(in alloc; "the code does not parse: {fault}")?)?;
        }
    }
    remarks.help_words(
        alloc,
        "write whole statements in quotes of the shell, as \"test('tide', tide)\"",
    )
}
