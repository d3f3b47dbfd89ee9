//! The words that clap found, by their names in help.

ghost use Rattle.std.specs.Prelude.{◌≡◌, ◌∷◌, [], IfErr, IfOk, map};
ghost use Rattle.clap.specs.Words.{found_of, rows_of};
ghost use Rattle.meson_command.specs.Actions.{has_flag, run, word_or, words_at};
ghost use Rattle.meson_command.specs.declared.fault.UsageFault.TheVariants.{OutOfMemory};

use crate::asked::Action;
use crate::fault::UsageFault;
use clap::ArgMatches;
use meson_json::{Script, owned};
use meson_splice::{Many, Text};
use meson_steps::command::Command;
use std::alloc::{AllocError, Global};

/// The word, or another one if it was left out.
pub(crate) fn word_or<'w>(matches: &ArgMatches<'w>, name: &str, otherwise: &'w str) -> &'w str
    ensures { result.now ≡ word_or otherwise.entry.now name.now (rows_of (found_of matches.now)) }
{
    matches.get_str(name).unwrap_or(otherwise)
}

/// Whether a flag is there.
pub(crate) fn is_set(matches: &ArgMatches<'_>, name: &str) -> bool
    ensures { result ≡ has_flag name.now (rows_of (found_of matches.now)) }
{
    word_or(matches, name, "") == "true"
}

fn all_owned(alloc: Global, words: &[&str]) -> Result<Many<Text>, AllocError>
    ensures { IfOk result (λ ts. ts ≡ map (λ w. w.now) words.now) }
{
    let mut all = Vec::new(alloc);
    for word in words {
        all.push(owned(alloc, word)?)?;
    }
    Ok(Many::of(all))
}

/// The words of a list.
pub(crate) fn words_at(
    alloc: Global,
    matches: &ArgMatches<'_>,
    name: &str,
) -> Result<Many<Text>, AllocError>
    ensures { IfOk result (λ ts. ts ≡ words_at name.now (rows_of (found_of matches.now))) }
{
    match matches.get_strs(name) {
        Some(words) => all_owned(alloc, words),
        None => Ok(Many::new(alloc)),
    }
}

/// The script of one command.
pub(crate) fn run(alloc: Global, command: Command) -> Result<Action, UsageFault>
    ensures ok { IfOk result (λ a. a ≡ run command) }
    ensures refused { IfErr result (λ e. e ≡ OutOfMemory) }
{
    Ok(Action::Run(Script::of(alloc, command)?))
}
