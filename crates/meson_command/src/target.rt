//! `target ID OPERATION [SOURCE]... [--subdir SUBDIR] [--type KIND] [--sorted]`, and `target ID rename OLD NEW`.

ghost use Rattle.std.specs.Prelude.{◌≡◌, ◌≢◌, Err, IfErr, IfOk, Ok, option_map};
ghost use Rattle.clap.specs.Words.{found_of, rows_of};
ghost use Rattle.meson_command.specs.Actions.{misplaces_sorted, rename_action, target_action, target_by, target_words};
ghost use Rattle.meson_command.specs.declared.fault.UsageFault.TheVariants.{OutOfMemory};

use crate::argument::folder_named;
use crate::asked::Action;
use crate::fault::UsageFault;
use crate::operations::find_target_operation;
use crate::words::{is_set, run, word_or, words_at};
use clap::ArgMatches;
use meson_calls::CallName;
use meson_json::owned;
use meson_json::target::{TargetMembers, TargetOperation, renaming_of, target_command};
use meson_steps::source_change::SharedLists;
use std::alloc::{AllocError, Global};

/// The words after the operation, in the folder alone if one is named, and with variables followed so.
fn target_words(
    alloc: Global,
    folder: Option<&str>,
    follow: Option<SharedLists>,
    matches: &ArgMatches<'_>,
) -> Result<TargetMembers, AllocError>
    ensures { IfOk result (λ w. w ≡ target_words (option_map (λ f. f.now) folder.entry) follow (rows_of (found_of matches.now))) }
{
    Ok(TargetMembers {
        target: owned(alloc, word_or(matches, "ID", ""))?,
        folder: folder_named(alloc, folder)?,
        sources: words_at(alloc, matches, "SOURCE")?,
        subdir: owned(alloc, word_or(matches, "SUBDIR", ""))?,
        target_kind: owned(alloc, word_or(matches, "KIND", "executable"))?,
        sorted: is_set(matches, "sorted"),
        follow,
    })
}

/// What the operation makes of the words.
fn target_by(
    alloc: Global,
    operation: TargetOperation,
    words: TargetMembers,
) -> Result<Action, UsageFault>
    ensures ok { IfOk result (λ a. a ≡ target_by operation words) }
    ensures refused { IfErr result (λ e. e ≡ OutOfMemory) }
{
    let command = target_command(operation, words);
    match operation {
        TargetOperation::Info => Ok(Action::Info(command)),
        _ => run(alloc, command),
    }
}

/// The request of the words of `target ID rename`, in the folder alone if one is named, and with variables followed so.
///
/// # Errors
/// There are not two names.
#[tactic(auto, unfolding(crate::specs::Actions::rename_action))]
fn rename_action(
    alloc: Global,
    folder: Option<&str>,
    follow: Option<SharedLists>,
    matches: &ArgMatches<'_>,
) -> Result<Action, UsageFault>
    ensures ok { IfOk result (λ a. rename_action (option_map (λ f. f.now) folder.entry) follow (rows_of (found_of matches.now)) ≡ Ok a) }
    ensures refused { IfErr result (λ e. e ≢ OutOfMemory
        → rename_action (option_map (λ f. f.now) folder.entry) follow (rows_of (found_of matches.now)) ≡ Err e) }
{
    let id = owned(alloc, word_or(matches, "ID", ""))?;
    let names = words_at(alloc, matches, "SOURCE")?;
    let folder = folder_named(alloc, folder)?;
    match renaming_of(CallName { id, folder }, names, follow) {
        Some(command) => run(alloc, command),
        None => Err(UsageFault::Usage),
    }
}

/// Whether `--sorted` is given, and the operation is not the addition of sources.
fn misplaces_sorted(matches: &ArgMatches<'_>) -> bool
    ensures { result ≡ misplaces_sorted (rows_of (found_of matches.now)) }
{
    is_set(matches, "sorted") && word_or(matches, "OPERATION", "") != "add"
}

/// The request of the words of `target`, in the folder alone if one is named, and with variables followed so.
///
/// # Errors
/// The operation is unknown, there are not two names to rename, or `--sorted` is given with another operation than `add`.
#[tactic(auto, unfolding(crate::specs::Actions::target_action))]
pub(crate) fn target_action(
    alloc: Global,
    folder: Option<&str>,
    follow: Option<SharedLists>,
    matches: &ArgMatches<'_>,
) -> Result<Action, UsageFault>
    ensures ok { IfOk result (λ a. target_action (option_map (λ f. f.now) folder.entry) follow (rows_of (found_of matches.now)) ≡ Ok a) }
    ensures refused { IfErr result (λ e. e ≢ OutOfMemory
        → target_action (option_map (λ f. f.now) folder.entry) follow (rows_of (found_of matches.now)) ≡ Err e) }
{
    if misplaces_sorted(matches) {
        return Err(UsageFault::Usage);
    }
    let word = word_or(matches, "OPERATION", "");
    if word == "rename" {
        return rename_action(alloc, folder, follow, matches);
    }
    let Some(operation) = find_target_operation(word) else {
        return Err(UsageFault::Usage);
    };
    let words = target_words(alloc, folder, follow, matches)?;
    target_by(alloc, operation, words)
}
