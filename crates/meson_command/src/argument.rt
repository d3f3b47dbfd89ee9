//! `arg OPERATION [--after ELEMENT] [--sorted] FUNCTION ID [KEY [VALUE]...]`.

ghost use Rattle.std.specs.Prelude.{◌≡◌, ◌≢◌, Err, IfErr, IfOk, None, Ok, Some, codes, option_map};
ghost use Rattle.clap.specs.Words.{first_of, found_of, rows_of};
ghost use Rattle.meson_command.specs.Actions.{has_flag, words_at};
ghost use Rattle.meson_command.specs.Arguments.{after_meant, argument_action, command_meant, keys_meant, value_named, values_meant};
ghost use Rattle.meson_command.specs.declared.fault.UsageFault.TheVariants.{NotCode, OutOfMemory};

use crate::asked::Action;
use crate::fault::UsageFault;
use crate::words::{is_set, run, word_or, words_at};
use clap::ArgMatches;
use meson_json::argument::{command_to, keys_in, keys_left_out, place_named};
use meson_json::names::{ArgumentOperation, find_argument_operation};
use meson_json::owned;
use meson_splice::{Many, Text};
use meson_steps::argument::{Search, ValueName};
use meson_steps::command::Command;
use meson_steps::given::{Given, given_of};
use std::alloc::{AllocError, Global};

/// The values that words mean.
///
/// # Errors
/// What is after the colon of a word is not one expression.
fn values_meant(alloc: Global, words: &[Text]) -> Result<Vec<Given>, UsageFault>
    ensures ok { IfOk result (λ v. values_meant words.now ≡ Some v.items) }
    ensures refused { IfErr result (λ e. e ≢ OutOfMemory → (e ≡ NotCode) × (values_meant words.now ≡ None)) }
{
    let mut values = Vec::new(alloc);
    for word in words {
        let value = given_of(alloc, word)?;
        values.push(value)?;
    }
    Ok(values)
}

/// The value that a word means, if there is one.
///
/// # Errors
/// What is after the colon of the word is not one expression.
fn after_meant(alloc: Global, word: Option<&str>) -> Result<Option<Given>, UsageFault>
    ensures ok { IfOk result (λ g. after_meant (option_map (λ w. w.now) word.entry) ≡ Some g) }
    ensures refused { IfErr result (λ e. e ≢ OutOfMemory → (e ≡ NotCode) × (after_meant (option_map (λ w. w.now) word.entry) ≡ None)) }
{
    match word {
        Some(word) => {
            let word = owned(alloc, word)?;
            let given = given_of(alloc, &word)?;
            Ok(Some(given))
        }
        None => Ok(None),
    }
}

/// A folder that is named, if any.
pub(crate) fn folder_named(alloc: Global, folder: Option<&str>) -> Result<Option<Text>, AllocError>
    ensures { IfOk result (λ f. f ≡ option_map (λ w. w.now) folder.entry) }
{
    match folder {
        Some(word) => Ok(Some(owned(alloc, word)?)),
        None => Ok(None),
    }
}

/// The keys of a word, or where there is no word.
fn keys_meant(
    alloc: Global,
    operation: ArgumentOperation,
    word: Option<&str>,
) -> Result<Option<Many<Text>>, AllocError>
    ensures { IfOk result (λ ks. ks ≡ keys_meant operation (option_map (λ w. w.now) word.entry)) }
{
    match word {
        Some(word) => Ok(Some(keys_in(alloc, word)?)),
        None => Ok(keys_left_out(alloc, operation)),
    }
}

/// What names the value, if the operation can do without a key that is missing, and the function and the id name a place.
fn value_named(
    alloc: Global,
    folder: Option<&str>,
    operation: ArgumentOperation,
    matches: &ArgMatches<'_>,
) -> Result<Option<ValueName>, AllocError>
    ensures { IfOk result (λ n. n ≡ value_named (option_map (λ w. w.now) folder.entry) operation (rows_of (found_of matches.now))) }
{
    let Some(keys) = keys_meant(alloc, operation, matches.get_str("KEY"))? else {
        return Ok(None);
    };
    let folder = folder_named(alloc, folder)?;
    let function = word_or(matches, "FUNCTION", "");
    let Some(name) = place_named(alloc, function, word_or(matches, "ID", ""))? else {
        return Ok(None);
    };
    let place = Search { name, folder };
    Ok(Some(ValueName { place, keys }))
}

/// The command that the operation, the name of the value, `--after`, `--sorted` and further words mean.
fn command_meant(
    alloc: Global,
    operation: ArgumentOperation,
    name: ValueName,
    matches: &ArgMatches<'_>,
) -> Result<Command, UsageFault>
    ensures ok { let rows = rows_of (found_of matches.now) in
        IfOk result (λ c.
        command_meant operation name (first_of (codes "ELEMENT") rows) (has_flag (codes "sorted") rows) (words_at (codes "VALUE") rows) ≡ Ok c) }
    ensures refused { let rows = rows_of (found_of matches.now) in
        IfErr result (λ e. e ≢ OutOfMemory
        → command_meant operation name (first_of (codes "ELEMENT") rows) (has_flag (codes "sorted") rows) (words_at (codes "VALUE") rows) ≡ Err e) }
{
    let words = words_at(alloc, matches, "VALUE")?;
    let values = values_meant(alloc, words.get())?;
    let after = after_meant(alloc, matches.get_str("ELEMENT"))?;
    let sorted = is_set(matches, "sorted");
    match command_to(operation, name, after, sorted, values) {
        Some(command) => Ok(command),
        None => Err(UsageFault::Usage),
    }
}

/// The request of the words of `arg`, in the folder alone if one is named.
///
/// # Errors
/// The operation is unknown; it needs a key that is missing; the function and the id name no place; a value is not code; the values are not as many as the
/// operation takes; or it does not take `--after` or `--sorted`, or both are given.
#[tactic(auto, unfolding(crate::specs::Arguments::argument_action))]
pub(crate) fn argument_action(
    alloc: Global,
    folder: Option<&str>,
    matches: &ArgMatches<'_>,
) -> Result<Action, UsageFault>
    ensures ok { IfOk result (λ a. argument_action (option_map (λ w. w.now) folder.entry) (rows_of (found_of matches.now)) ≡ Ok a) }
    ensures refused { IfErr result (λ e. e ≢ OutOfMemory
        → argument_action (option_map (λ w. w.now) folder.entry) (rows_of (found_of matches.now)) ≡ Err e) }
{
    let Some(operation) = find_argument_operation(word_or(matches, "OPERATION", "")) else {
        return Err(UsageFault::Usage);
    };
    let Some(name) = value_named(alloc, folder, operation, matches)? else {
        return Err(UsageFault::Usage);
    };
    let command = command_meant(alloc, operation, name, matches)?;
    match operation {
        ArgumentOperation::Info => Ok(Action::Info(command)),
        _ => run(alloc, command),
    }
}
