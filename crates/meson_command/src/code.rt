//! `code after|before [--blank N] FUNCTION ID CODE`, `code append [--blank N] FILE CODE` and `code remove [--unused] FUNCTION ID`.

ghost use Rattle.std.specs.Prelude.{◌≡◌, ◌≢◌, Err, IfErr, IfOk, Ok, option_map};
ghost use Rattle.clap.specs.Words.{found_of, rows_of};
ghost use Rattle.meson_command.specs.Codes.{blank_in, code_action, code_word, has_more, insertion_action, is_given, place_meant, removal_action, search_meant};
ghost use Rattle.meson_command.specs.declared.fault.UsageFault.TheVariants.{OutOfMemory};

use crate::argument::folder_named;
use crate::asked::Action;
use crate::fault::UsageFault;
use crate::words::{is_set, run, word_or};
use clap::ArgMatches;
use meson_json::argument::place_named;
use meson_json::code::blank_of;
use meson_json::names::{CodeOperation, find_code_operation};
use meson_json::owned;
use meson_statements::StatementCode;
use meson_steps::argument::Search;
use meson_steps::command::{CodePlace, Command};
use std::alloc::{AllocError, Global};

/// The word of the code: the second after the operation with `append`, which takes no third, and else the third.
pub(crate) fn code_word<'w>(operation: CodeOperation, matches: &ArgMatches<'w>) -> Option<&'w str>
    ensures { option_map (λ w. w.now) result ≡ code_word operation (rows_of (found_of matches.now)) }
{
    let third = matches.get_str("CODE");
    match operation {
        CodeOperation::After | CodeOperation::Before => third,
        CodeOperation::Append if third.is_some() => None,
        CodeOperation::Append => matches.get_str("ID|CODE"),
    }
}

/// What the function and the id name, in the folder alone if one is named, if they name a place.
fn search_meant(
    alloc: Global,
    folder: Option<&str>,
    matches: &ArgMatches<'_>,
) -> Result<Option<Search>, AllocError>
    ensures { IfOk result (λ s. s ≡ search_meant (option_map (λ w. w.now) folder.entry) (rows_of (found_of matches.now))) }
{
    let function = word_or(matches, "FUNCTION|FILE", "");
    let Some(name) = place_named(alloc, function, word_or(matches, "ID|CODE", ""))? else {
        return Ok(None);
    };
    let folder = folder_named(alloc, folder)?;
    Ok(Some(Search { name, folder }))
}

/// Where the statements go: beside what the function and the id name, if they name a place, or at the end of the file that is named.
fn place_meant(
    alloc: Global,
    folder: Option<&str>,
    operation: CodeOperation,
    matches: &ArgMatches<'_>,
) -> Result<Option<CodePlace>, AllocError>
    ensures { IfOk result (λ p. p ≡ place_meant (option_map (λ w. w.now) folder.entry) operation (rows_of (found_of matches.now))) }
{
    match operation {
        CodeOperation::After => Ok(search_meant(alloc, folder, matches)?.map(CodePlace::Below)),
        CodeOperation::Before => Ok(search_meant(alloc, folder, matches)?.map(CodePlace::Above)),
        CodeOperation::Append => {
            let file = owned(alloc, word_or(matches, "FUNCTION|FILE", ""))?;
            Ok(Some(CodePlace::End(file)))
        }
    }
}

/// The number of blank lines that a word gives, if there is one.
fn blank_in(word: Option<&str>) -> Result<Option<usize>, UsageFault>
    ensures { result ≡ blank_in (option_map (λ w. w.now) word.entry) }
{
    let Some(word) = word else {
        return Ok(None);
    };
    match blank_of(word) {
        Some(blank) => Ok(Some(blank)),
        None => Err(UsageFault::Usage),
    }
}

/// The request of words of `code` that insert statements, in the folder alone if one is named. With `append` none is.
///
/// # Errors
/// The operation is unknown; a word is missing or one too many; the function and the id name no place; the word of `--blank` is not a number from 0 to 100; or
/// the code is not statements of the grammar.
#[tactic(auto, unfolding(crate::specs::Codes::insertion_action))]
fn insertion_action(
    alloc: Global,
    folder: Option<&str>,
    matches: &ArgMatches<'_>,
) -> Result<Action, UsageFault>
    ensures ok { IfOk result (λ a. insertion_action (option_map (λ w. w.now) folder.entry) (rows_of (found_of matches.now)) ≡ Ok a) }
    ensures refused { IfErr result (λ e. e ≢ OutOfMemory
        → insertion_action (option_map (λ w. w.now) folder.entry) (rows_of (found_of matches.now)) ≡ Err e) }
{
    let Some(operation) = find_code_operation(word_or(matches, "OPERATION", "")) else {
        return Err(UsageFault::Usage);
    };
    let Some(word) = code_word(operation, matches) else {
        return Err(UsageFault::Usage);
    };
    let Some(place) = place_meant(alloc, folder, operation, matches)? else {
        return Err(UsageFault::Usage);
    };
    let blank = blank_in(matches.get_str("N"))?;
    let Some(code) = StatementCode::of(alloc, word)? else {
        return Err(UsageFault::NotCode);
    };
    run(alloc, Command::CodeInsert { place, code, blank })
}

/// Whether a word of this name is there.
fn is_given(matches: &ArgMatches<'_>, name: &str) -> bool
    ensures { result ≡ is_given name.now (rows_of (found_of matches.now)) }
{
    matches.get_str(name).is_some()
}

/// Whether there is more than a removal takes: code, or a number of blank lines.
fn has_more(matches: &ArgMatches<'_>) -> bool
    ensures { result ≡ has_more (rows_of (found_of matches.now)) }
{
    is_given(matches, "CODE") || is_given(matches, "N")
}

/// The request of words of `code` that remove a statement, in the folder alone if one is named.
///
/// # Errors
/// Code or a number of blank lines is given; or the function and the id name no place.
#[tactic(auto, unfolding(crate::specs::Codes::removal_action))]
fn removal_action(
    alloc: Global,
    folder: Option<&str>,
    matches: &ArgMatches<'_>,
) -> Result<Action, UsageFault>
    ensures ok { IfOk result (λ a. removal_action (option_map (λ w. w.now) folder.entry) (rows_of (found_of matches.now)) ≡ Ok a) }
    ensures refused { IfErr result (λ e. e ≢ OutOfMemory
        → removal_action (option_map (λ w. w.now) folder.entry) (rows_of (found_of matches.now)) ≡ Err e) }
{
    if has_more(matches) {
        return Err(UsageFault::Usage);
    }
    let Some(statement) = search_meant(alloc, folder, matches)? else {
        return Err(UsageFault::Usage);
    };
    let unused = is_set(matches, "unused");
    run(alloc, Command::CodeRemove { statement, unused })
}

/// The request of the words of `code`, in the folder alone if one is named. With `append` none is.
///
/// # Errors
/// The operation is unknown; a word is missing or one too many; the function and the id name no place; the word of `--blank` is not a number from 0 to 100;
/// `--unused` goes with an insertion or `--blank` with a removal; or the code is not statements of the grammar.
#[tactic(auto, unfolding(crate::specs::Codes::code_action))]
pub(crate) fn code_action(
    alloc: Global,
    folder: Option<&str>,
    matches: &ArgMatches<'_>,
) -> Result<Action, UsageFault>
    ensures ok { IfOk result (λ a. code_action (option_map (λ w. w.now) folder.entry) (rows_of (found_of matches.now)) ≡ Ok a) }
    ensures refused { IfErr result (λ e. e ≢ OutOfMemory
        → code_action (option_map (λ w. w.now) folder.entry) (rows_of (found_of matches.now)) ≡ Err e) }
{
    if word_or(matches, "OPERATION", "") == "remove" {
        removal_action(alloc, folder, matches)
    } else if is_set(matches, "unused") {
        Err(UsageFault::Usage)
    } else {
        insertion_action(alloc, folder, matches)
    }
}
