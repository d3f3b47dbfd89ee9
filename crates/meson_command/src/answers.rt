//! Whether requests are answered in JSON.

ghost use Rattle.std.specs.Prelude.{◌≡◌, IfOk, map, string_bytes};
ghost use Rattle.meson_command.specs.Asking.{wants_json, wants_json_as};

use crate::program::named_program;
use crate::spelling::clap_words;
use crate::words::is_set;
use clap::error::ErrorKind;
use std::alloc::{AllocError, Global};

/// Whether words as clap gets them want an answer in JSON.
fn wants_json_as(alloc: Global, words: &[&str]) -> Result<bool, AllocError>
    ensures { IfOk result (λ json. json ≡ wants_json_as (map (λ w. w.now) words.now)) }
{
    let command = named_program(alloc)?;
    match command.try_get_matches_from(words) {
        Ok(matches) => Ok(is_set(&matches, "json")),
        Err(error) => match error.kind() {
            ErrorKind::OutOfMemory => Err(AllocError),
            _ => Ok(false),
        },
    }
}

/// Whether the words of a command line, of which the first is the program's name, want an answer in JSON: clap takes them, and `--json` is before the
/// subcommand. It says so of words that `command_of` refuses, too. Where clap does not take the words, or where it shows help or the version, they do not.
///
/// # Errors
/// Only when an allocation fails.
pub fn wants_json(alloc: Global, words: &[String]) -> Result<bool, AllocError>
    ensures { IfOk result (λ json. json ≡ wants_json (map string_bytes words.now)) }
{
    let given = clap_words(alloc, words)?;
    wants_json_as(alloc, given.as_slice())
}
