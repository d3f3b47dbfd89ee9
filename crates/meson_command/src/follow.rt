//! `--follow`: whether variables are followed, and for which words that may be said.

ghost use Rattle.std.specs.Prelude.{◌≡◌};
ghost use Rattle.clap.specs.Words.{found_of, rows_of};
ghost use Rattle.meson_command.specs.Arguments.{changes_sources, misplaces_follow, takes_follow};
ghost use Rattle.meson_command.specs.Asking.{follow_in};

use crate::words::{is_set, word_or};
use clap::ArgMatches;
use meson_json::target::kept_lists;
use meson_steps::source_change::SharedLists;

/// Whether variables are followed, and then whether lists that another target gets too are changed.
pub(crate) fn follow_in(matches: &ArgMatches<'_>) -> Option<SharedLists>
    ensures { result ≡ follow_in (rows_of (found_of matches.now)) }
{
    if is_set(matches, "follow-shared") {
        Some(SharedLists::Changed)
    } else {
        kept_lists(is_set(matches, "follow"))
    }
}

/// Whether the words add sources to a target, remove some or rename one, and do not ask for an order.
fn changes_sources(subcommand: &str, matches: &ArgMatches<'_>) -> bool
    ensures { result ≡ changes_sources subcommand.now (rows_of (found_of matches.now)) }
{
    let operation = word_or(matches, "OPERATION", "");
    subcommand == "target"
        && (operation == "add" || operation == "rm" || operation == "rename")
        && !is_set(matches, "sorted")
}

/// Whether `--follow` may stand before the words of a subcommand: `target ID add`, `rm`, `rename` and `info`, `list`, `history`, `undo`, `redo` and `command`
/// take it.
fn takes_follow(subcommand: &str, matches: &ArgMatches<'_>) -> bool
    ensures { result ≡ takes_follow subcommand.now (rows_of (found_of matches.now)) }
{
    changes_sources(subcommand, matches)
        || (subcommand == "target" && word_or(matches, "OPERATION", "") == "info")
        || subcommand == "list"
        || subcommand == "history"
        || subcommand == "undo"
        || subcommand == "redo"
        || subcommand == "command"
}

/// Whether `--follow` is given before the words of a subcommand that do not take it. Only changes of sources change shared lists.
pub(crate) fn misplaces_follow(
    follow: Option<SharedLists>,
    subcommand: &str,
    matches: &ArgMatches<'_>,
) -> bool
    ensures { result ≡ misplaces_follow follow subcommand.now (rows_of (found_of matches.now)) }
{
    match follow {
        None => false,
        Some(SharedLists::Kept) => !takes_follow(subcommand, matches),
        Some(SharedLists::Changed) => !changes_sources(subcommand, matches),
    }
}
