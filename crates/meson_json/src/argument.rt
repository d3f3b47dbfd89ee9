//! What names a value, and the changes and reports of a value, by a script or on the command line.

ghost use Rattle.std.specs.Prelude.{◌≡◌, IfOk};
ghost use Rattle.meson_json.specs.Arguments.{after_to, callee_of, change_by, change_to, command_to, keys_in, keys_left_out, line_named, place_named, replaced_by, set_to, sorted_to};

use crate::count::count_of;
use crate::members::owned;
use crate::names::ArgumentOperation;
use meson_splice::{Many, Text};
use meson_steps::argument::{Callee, PlaceName, ValueChange, ValueName};
use meson_steps::command::Command;
use meson_steps::given::Given;
use std::alloc::{AllocError, Global};

/// The function of a call. `target` stands for all functions that make targets.
fn callee_of(alloc: Global, function: &str) -> Result<Callee, AllocError>
    ensures { IfOk result (λ c. c ≡ callee_of function.now) }
{
    if function == "target" {
        Ok(Callee::Target)
    } else {
        Ok(Callee::Function(owned(alloc, function)?))
    }
}

/// What begins on a line, by `FILE:LINE`.
fn line_named(alloc: Global, id: &str) -> Result<Option<PlaceName>, AllocError>
    ensures { IfOk result (λ n. n ≡ line_named id.now) }
{
    let Some((file, line)) = id.split_once(':') else {
        return Ok(None);
    };
    match count_of(line) {
        Some(line) => {
            let file = owned(alloc, file)?;
            Ok(Some(PlaceName::Line { file, line }))
        }
        None => Ok(None),
    }
}

/// The place that a function's name and an id name: `project`, `variable`, `at`, or the name of another function.
///
/// # Errors
/// Out of memory.
pub fn place_named(alloc: Global, function: &str, id: &str) -> Result<Option<PlaceName>, AllocError>
    ensures { IfOk result (λ n. n ≡ place_named function.now id.now) }
{
    if function == "project" {
        Ok(Some(PlaceName::Project(owned(alloc, id)?)))
    } else if function == "variable" {
        Ok(Some(PlaceName::Variable(owned(alloc, id)?)))
    } else if function == "at" {
        line_named(alloc, id)
    } else {
        let callee = callee_of(alloc, function)?;
        let id = owned(alloc, id)?;
        Ok(Some(PlaceName::Call { callee, id }))
    }
}

/// The keys of a word, which are joined by dots. `.` names the thing itself.
///
/// # Errors
/// Out of memory.
pub fn keys_in(alloc: Global, word: &str) -> Result<Many<Text>, AllocError>
    ensures { IfOk result (λ keys. keys ≡ keys_in word.now) }
{
    let mut keys = Vec::new(alloc);
    if word == "." {
        return Ok(Many::of(keys));
    }
    let mut rest = word;
    while let Some((key, more)) = rest.split_once('.') {
        keys.push(owned(alloc, key)?)?;
        rest = more;
    }
    keys.push(owned(alloc, rest)?)?;
    Ok(Many::of(keys))
}

/// The change that sets a value to some given ones, if there are any.
fn set_to(values: Vec<Given>) -> Option<ValueChange>
    ensures { result ≡ set_to values.items }
{
    let mut values = values;
    if values.len() != 1 {
        return if values.is_empty() {
            None
        } else {
            Some(ValueChange::SetAll(Many::of(values)))
        };
    }
    values.pop().map(ValueChange::Set)
}

/// The change that replaces a value by another one, if two are given.
fn replaced_by(values: Vec<Given>) -> Option<ValueChange>
    ensures { result ≡ replaced_by values.items }
{
    let mut values = values;
    if values.len() != 2 {
        return None;
    }
    let new = values.pop()?;
    let old = values.pop()?;
    Some(ValueChange::Replace { old, new })
}

/// The change that an operation and its values mean: one or more of `set`, `add` and `remove`, two of `replace`, none of `delete`.
/// A report is no change.
fn change_by(operation: ArgumentOperation, values: Vec<Given>) -> Option<ValueChange>
    ensures { result ≡ change_by operation values.items }
{
    match operation {
        ArgumentOperation::Set => set_to(values),
        ArgumentOperation::Add if values.is_empty() => None,
        ArgumentOperation::Add => Some(ValueChange::Add(Many::of(values))),
        ArgumentOperation::Remove if values.is_empty() => None,
        ArgumentOperation::Remove => Some(ValueChange::Remove(Many::of(values))),
        ArgumentOperation::Replace => replaced_by(values),
        ArgumentOperation::Delete if values.is_empty() => Some(ValueChange::Delete),
        ArgumentOperation::Delete => None,
        ArgumentOperation::Info => None,
    }
}

/// The change that adds values after another one. Only `add` does so.
fn after_to(operation: ArgumentOperation, after: Given, values: Vec<Given>) -> Option<ValueChange>
    ensures { result ≡ after_to operation after values.items }
{
    if values.is_empty() || !matches!(operation, ArgumentOperation::Add) {
        return None;
    }
    let values = Many::of(values);
    Some(ValueChange::AddAfter { after, values })
}

/// The change that adds values, each in its place. Only `add` does so.
fn sorted_to(operation: ArgumentOperation, values: Vec<Given>) -> Option<ValueChange>
    ensures { result ≡ sorted_to operation values.items }
{
    if !matches!(operation, ArgumentOperation::Add) || values.is_empty() {
        return None;
    }
    Some(ValueChange::AddSorted(Many::of(values)))
}

/// The same as `change_by`, with the value after which values are added, if one is given, and whether each goes into its place. Not both.
fn change_to(
    operation: ArgumentOperation,
    after: Option<Given>,
    sorted: bool,
    values: Vec<Given>,
) -> Option<ValueChange>
    ensures { result ≡ change_to operation after sorted values.items }
{
    match (after, sorted) {
        (None, false) => change_by(operation, values),
        (None, true) => sorted_to(operation, values),
        (Some(after), false) => after_to(operation, after, values),
        (Some(_), true) => None,
    }
}

/// The command that an operation, the name of a value, the value after which values are added, whether each goes into its place, and further values mean, if
/// there are as many as it takes. A report takes none.
pub fn command_to(
    operation: ArgumentOperation,
    name: ValueName,
    after: Option<Given>,
    sorted: bool,
    values: Vec<Given>,
) -> Option<Command>
    ensures { result ≡ command_to operation name after sorted values.items }
{
    if let ArgumentOperation::Info = operation {
        return if after.is_none() && !sorted && values.is_empty() {
            Some(Command::ArgumentInfo { name })
        } else {
            None
        };
    }
    match change_to(operation, after, sorted, values) {
        Some(change) => Some(Command::Argument { name, change }),
        None => None,
    }
}

/// The keys where none are named: a report then is of the place itself, and other operations need them. Does not allocate.
pub fn keys_left_out(alloc: Global, operation: ArgumentOperation) -> Option<Many<Text>>
    ensures { result ≡ keys_left_out operation }
{
    match operation {
        ArgumentOperation::Info => Some(Many::new(alloc)),
        ArgumentOperation::Set => None,
        ArgumentOperation::Add => None,
        ArgumentOperation::Remove => None,
        ArgumentOperation::Replace => None,
        ArgumentOperation::Delete => None,
    }
}
