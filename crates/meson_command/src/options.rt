//! `default-options OPERATION [OPTION VALUE]...` and `default-options unset [OPTION]...`.

ghost use Rattle.std.specs.Prelude.{◌≡◌, ◌≢◌, Err, IfErr, IfOk, Ok, codes};
ghost use Rattle.clap.specs.Words.{found_of, rows_of};
ghost use Rattle.meson_command.specs.Actions.{options_action, options_by, words_at};
ghost use Rattle.meson_command.specs.declared.fault.UsageFault.TheVariants.{OutOfMemory};

use crate::asked::Action;
use crate::fault::UsageFault;
use crate::operations::{OptionsWord, find_options_word};
use crate::pairs::{names, names_at, pairs_at};
use crate::words::{run, word_or};
use clap::ArgMatches;
use meson_splice::Many;
use meson_steps::command::Command;
use std::alloc::Global;

/// What the operation makes of the words.
#[tactic(auto, unfolding(crate::specs::Actions::options_by))]
fn options_by(
    alloc: Global,
    operation: OptionsWord,
    matches: &ArgMatches<'_>,
) -> Result<Action, UsageFault>
    ensures ok { IfOk result (λ a. options_by operation (words_at (codes "OPTION VALUE") (rows_of (found_of matches.now))) ≡ Ok a) }
    ensures refused { IfErr result (λ e. e ≢ OutOfMemory → options_by operation (words_at (codes "OPTION VALUE") (rows_of (found_of matches.now))) ≡ Err e) }
{
    let command = match operation {
        OptionsWord::Set => Command::OptionsSet {
            pairs: Many::of(pairs_at(alloc, matches, "OPTION VALUE")?),
        },
        OptionsWord::Delete => Command::OptionsDelete {
            names: names(alloc, pairs_at(alloc, matches, "OPTION VALUE")?)?,
        },
        OptionsWord::Unset => Command::OptionsDelete {
            names: names_at(alloc, matches, "OPTION VALUE")?,
        },
    };
    run(alloc, command)
}

/// The request of the words of `default-options`.
///
/// # Errors
/// The operation is unknown; the last option has no value, but for `unset`; an option is repeated.
#[tactic(auto, unfolding(crate::specs::Actions::options_action))]
pub(crate) fn options_action(alloc: Global, matches: &ArgMatches<'_>) -> Result<Action, UsageFault>
    ensures ok { IfOk result (λ a. options_action (rows_of (found_of matches.now)) ≡ Ok a) }
    ensures refused { IfErr result (λ e. e ≢ OutOfMemory → options_action (rows_of (found_of matches.now)) ≡ Err e) }
{
    let Some(operation) = find_options_word(word_or(matches, "OPERATION", "")) else {
        return Err(UsageFault::Usage);
    };
    options_by(alloc, operation, matches)
}
