//! `command [--strict] JSON`.

ghost use Rattle.std.specs.Prelude.{◌≡◌, IfOk};
ghost use Rattle.clap.specs.Words.{found_of, rows_of};
ghost use Rattle.meson_command.specs.Actions.{is_json, script_action};

use crate::asked::Action;
use crate::words::{is_set, word_or};
use clap::ArgMatches;
use meson_json::{UnknownMembers, owned};
use std::alloc::{AllocError, Global};

/// Whether a word is JSON text: what follows its blanks begins as an array or an object.
fn is_json(word: &str) -> bool
    ensures { result ≡ is_json word.now }
{
    for b in word.as_bytes() {
        if *b != b' ' && *b != b'\t' {
            return *b == b'[' || *b == b'{';
        }
    }
    false
}

/// The script that the word of `command` is or names.
#[tactic(auto, unfolding(crate::specs::Actions::script_action))]
pub(crate) fn script_action(alloc: Global, matches: &ArgMatches<'_>) -> Result<Action, AllocError>
    ensures { IfOk result (λ a. a ≡ script_action (rows_of (found_of matches.now))) }
{
    let word = word_or(matches, "JSON", "");
    let given = owned(alloc, word)?;
    let unknown = if is_set(matches, "strict") {
        UnknownMembers::Refused
    } else {
        UnknownMembers::Ignored
    };
    if is_json(word) {
        Ok(Action::ScriptText {
            text: given,
            unknown,
        })
    } else {
        Ok(Action::ScriptFile {
            name: given,
            unknown,
        })
    }
}
