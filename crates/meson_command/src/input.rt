//! Code that is read from standard input: that of `code` with a `-` in its place.

ghost use Rattle.std.specs.Prelude.{◌≡◌, IfOk, map, option_map, string_bytes};
ghost use Rattle.clap.specs.Words.{found_of, rows_of, subcommand_rows_of};
ghost use Rattle.meson_command.specs.Input.{as_text, is_input_word, lacks_code, names_input, reads_code, reads_code_as, waits_for_code, with_last};

use crate::asked::asked_from;
use crate::code::code_word;
use crate::fault::UsageFault;
use crate::program::named_program;
use crate::spelling::clap_words;
use crate::words::word_or;
use clap::ArgMatches;
use clap::error::ErrorKind;
use meson_json::names::find_code_operation;
use std::alloc::{AllocError, Global};
use std::str::from_utf8;

/// The word that stands for standard input.
pub(crate) const INPUT: &str = "-";

/// Whether a word is there and stands for standard input.
fn is_input(word: Option<&str>) -> bool
    ensures { result ≡ is_input_word (option_map (λ w. w.now) word.entry) }
{
    match word {
        Some(word) => word == INPUT,
        None => false,
    }
}

/// Whether words of `code` insert the code of standard input.
fn names_input(matches: &ArgMatches<'_>) -> bool
    ensures { result ≡ names_input (rows_of (found_of matches.now)) }
{
    match find_code_operation(word_or(matches, "OPERATION", "")) {
        Some(operation) => is_input(code_word(operation, matches)),
        None => false,
    }
}

/// Whether the words insert the code of standard input, and do not name standard input for texts.
fn waits_for_code(matches: &ArgMatches<'_>) -> bool
    ensures { result ≡ waits_for_code (rows_of (found_of matches.now)) (subcommand_rows_of matches.now) }
{
    let Some((subcommand, words)) = matches.subcommand() else {
        return false;
    };
    subcommand == "code" && names_input(words) && word_or(matches, "FILE", "") != INPUT
}

/// Whether words that clap took are no request for the one reason that `-` is not code, and so code of standard input is to take its place.
fn lacks_code(alloc: Global, matches: &ArgMatches<'_>) -> Result<bool, AllocError>
    ensures { IfOk result (λ b. b ≡ lacks_code (rows_of (found_of matches.now)) (subcommand_rows_of matches.now)) }
{
    if !waits_for_code(matches) {
        return Ok(false);
    }
    match asked_from(alloc, matches) {
        Err(UsageFault::NotCode) => Ok(true),
        Err(UsageFault::OutOfMemory) => Err(AllocError),
        _ => Ok(false),
    }
}

/// Whether the code of words as clap gets them is on standard input.
fn reads_code_as(alloc: Global, words: &[&str]) -> Result<bool, AllocError>
    ensures { IfOk result (λ b. b ≡ reads_code_as (map (λ w. w.now) words.now)) }
{
    let command = named_program(alloc)?;
    match command.try_get_matches_from(words) {
        Ok(matches) => lacks_code(alloc, &matches),
        Err(error) => match error.kind() {
            ErrorKind::OutOfMemory => Err(AllocError),
            _ => Ok(false),
        },
    }
}

/// Whether the code of the words of a command line, of which the first is the program's name, is on standard input: they insert the code `-` by `code`, and
/// that this is not code is their first fault. The text of standard input then takes the place of the last word.
///
/// # Errors
/// Only when an allocation fails.
pub fn reads_code(alloc: Global, words: &[String]) -> Result<bool, AllocError>
    ensures { IfOk result (λ b. b ≡ reads_code (map string_bytes words.now)) }
{
    let given = clap_words(alloc, words)?;
    reads_code_as(alloc, given.as_slice())
}

/// Bytes as text, if they are UTF-8.
///
/// # Errors
/// Only when an allocation fails.
pub fn text_of(alloc: Global, bytes: &[u8]) -> Result<Option<String>, AllocError>
    ensures { IfOk result (λ text. option_map string_bytes text ≡ as_text bytes.now) }
{
    match from_utf8(bytes) {
        Ok(text) => {
            let copy = String::from_str(alloc, text)?;
            Ok(Some(copy))
        }
        Err(_) => Ok(None),
    }
}

/// The words with this one in place of the last.
///
/// # Errors
/// Only when an allocation fails.
pub fn with_last(words: Vec<String>, last: String) -> Result<Vec<String>, AllocError>
    ensures { IfOk result (λ given. given.items ≡ with_last words.items last) }
{
    let mut given = words;
    let _ = given.pop();
    given.push(last)?;
    Ok(given)
}
