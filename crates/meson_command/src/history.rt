//! `undo [--to N] [--check FILE]`, `history [--forget N]` and `list [--of FUNCTION] [--json] [--sums]`.

ghost use Rattle.std.specs.Prelude.{◌≡◌, ◌≢◌, Err, IfErr, IfOk, Ok, option_map};
ghost use Rattle.clap.specs.Words.{found_of, rows_of};
ghost use Rattle.meson_command.specs.Actions.{count_in, history_action, history_by, list_action, list_by, list_of, undo_action, undo_of};
ghost use Rattle.meson_command.specs.declared.fault.UsageFault.TheVariants.{OutOfMemory};

use crate::asked::Action;
use crate::fault::UsageFault;
use crate::words::is_set;
use clap::ArgMatches;
use meson_json::count::count_of;
use meson_json::owned;
use std::alloc::{AllocError, Global};

/// The number that a word gives, if there is one.
fn count_in(word: Option<&str>) -> Result<Option<usize>, UsageFault>
    ensures { result ≡ count_in (option_map (λ w. w.now) word.entry) }
{
    let Some(word) = word else {
        return Ok(None);
    };
    match count_of(word) {
        Some(count) => Ok(Some(count)),
        None => Err(UsageFault::Usage),
    }
}

/// What is undone: the number of changes, and by which file of digests.
fn undo_of(alloc: Global, count: Option<usize>, check: Option<&str>) -> Result<Action, AllocError>
    ensures { IfOk result (λ a. a ≡ undo_of count (option_map (λ w. w.now) check.entry)) }
{
    match (count, check) {
        (None, None) => Ok(Action::Undo),
        (Some(count), None) => Ok(Action::UndoTo(count)),
        (count, Some(name)) => Ok(Action::UndoChecked {
            count: count.unwrap_or(1),
            sums: owned(alloc, name)?,
        }),
    }
}

/// What the word of `--forget` makes of `history`.
fn history_by(word: Option<&str>) -> Result<Action, UsageFault>
    ensures { result ≡ history_by (option_map (λ w. w.now) word.entry) }
{
    let Some(word) = word else {
        return Ok(Action::History);
    };
    if word == "all" {
        return Ok(Action::ForgetAll);
    }
    match count_of(word) {
        Some(count) => Ok(Action::ForgetOldest(count)),
        None => Err(UsageFault::Usage),
    }
}

/// What is listed of the project, depending on whether the two flags are there.
fn list_by(json: bool, sums: bool) -> Result<Action, UsageFault>
    ensures { result ≡ list_by json sums }
{
    match (json, sums) {
        (json, false) => Ok(Action::List { json }),
        (false, true) => Ok(Action::Sums),
        (true, true) => Err(UsageFault::Usage),
    }
}

/// What is listed of this function, depending on whether the two flags are there; `variable` stands for the assignments.
fn list_of(alloc: Global, function: &str, json: bool, sums: bool) -> Result<Action, UsageFault>
    ensures ok { IfOk result (λ a. list_of function.now json sums ≡ Ok a) }
    ensures refused { IfErr result (λ e. e ≢ OutOfMemory → list_of function.now json sums ≡ Err e) }
{
    if sums || function.is_empty() {
        return Err(UsageFault::Usage);
    }
    if function == "variable" {
        return Ok(Action::ListAssignments { json });
    }
    Ok(Action::ListCalls {
        function: owned(alloc, function)?,
        json,
    })
}

/// The request of the words of `undo`.
///
/// # Errors
/// The word of `--to` is not a number from 1.
pub(crate) fn undo_action(alloc: Global, matches: &ArgMatches<'_>) -> Result<Action, UsageFault>
    ensures ok { IfOk result (λ a. undo_action (rows_of (found_of matches.now)) ≡ Ok a) }
    ensures refused { IfErr result (λ e. e ≢ OutOfMemory → undo_action (rows_of (found_of matches.now)) ≡ Err e) }
{
    let count = count_in(matches.get_str("N"))?;
    let action = undo_of(alloc, count, matches.get_str("FILE"))?;
    Ok(action)
}

/// The request of the words of `history`.
///
/// # Errors
/// The word of `--forget` is neither `all` nor a number from 1.
pub(crate) fn history_action(matches: &ArgMatches<'_>) -> Result<Action, UsageFault>
    ensures ok { IfOk result (λ a. history_action (rows_of (found_of matches.now)) ≡ Ok a) }
    ensures refused { IfErr result (λ e. e ≢ OutOfMemory → history_action (rows_of (found_of matches.now)) ≡ Err e) }
{
    history_by(matches.get_str("N"))
}

/// The request of the words of `list`.
///
/// # Errors
/// Two listings are requested, or one of a function without a name.
pub(crate) fn list_action(alloc: Global, matches: &ArgMatches<'_>) -> Result<Action, UsageFault>
    ensures ok { IfOk result (λ a. list_action (rows_of (found_of matches.now)) ≡ Ok a) }
    ensures refused { IfErr result (λ e. e ≢ OutOfMemory → list_action (rows_of (found_of matches.now)) ≡ Err e) }
{
    let json = is_set(matches, "json");
    let sums = is_set(matches, "sums");
    match matches.get_str("FUNCTION") {
        Some(function) => list_of(alloc, function, json, sums),
        None => list_by(json, sums),
    }
}
