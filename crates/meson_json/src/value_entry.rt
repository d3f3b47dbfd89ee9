//! Entries of a script on a value: those of type `arg`.

ghost use Rattle.std.specs.Prelude.{◌≡◌, ◌≢◌, Err, IfErr, IfOk, Ok, codes, ok_or};
ghost use Rattle.serde_json.specs.View.{view};
ghost use Rattle.meson_json.specs.Arguments.{place_named};
ghost use Rattle.meson_json.specs.Scripts.{after_at, argument_entry, keys_at, keys_of, sorted_at, value_command, value_name, values_at};
ghost use Rattle.meson_json.specs.declared.fault.ScriptFault.TheVariants.{BadField, OutOfMemory};
ghost use Rattle.meson_json.specs.declared.names.ArgumentOperation.TheVariants as argument;

use crate::argument::{command_to, keys_in, keys_left_out, place_named};
use crate::fault::ScriptFault;
use crate::members::{
    bad_field, folder_at, given_value, given_values, required_text, sorted_unless, texts,
};
use crate::names::{ArgumentOperation, find_argument_operation};
use meson_splice::{Many, Text};
use meson_steps::argument::{PlaceName, Search, ValueName};
use meson_steps::command::Command;
use meson_steps::given::Given;
use serde_json::Value;
use std::alloc::{AllocError, Global};

/// The keys of an entry: texts joined by dots, or an array of texts.
fn keys_of(alloc: Global, value: &Value) -> Result<Option<Many<Text>>, AllocError>
    ensures { IfOk result (λ keys. keys ≡ keys_of (view value.now)) }
{
    match value {
        Value::String(word) => Ok(Some(keys_in(alloc, word.as_str())?)),
        Value::Array(list) => texts(alloc, list),
        Value::Null | Value::Bool(_) | Value::Number(_) | Value::Object(_) => Ok(None),
    }
}

/// The place of an entry.
pub(crate) fn place_at(
    alloc: Global,
    index: usize,
    function: &str,
    id: &str,
) -> Result<PlaceName, ScriptFault>
    ensures ok { IfOk result (λ p. ok_or (place_named function.now id.now) (BadField index (codes "id")) ≡ Ok p) }
    ensures refused { IfErr result (λ e. e ≢ OutOfMemory → ok_or (place_named function.now id.now) (BadField index (codes "id")) ≡ Err e) }
{
    match place_named(alloc, function, id)? {
        Some(place) => Ok(place),
        None => Err(bad_field(alloc, index, "id")?),
    }
}

/// The keys of an entry, which `info` may leave out.
fn keys_at(
    alloc: Global,
    index: usize,
    operation: ArgumentOperation,
    entry: &Value,
) -> Result<Many<Text>, ScriptFault>
    ensures ok { IfOk result (λ ks. keys_at index operation (view entry.now) ≡ Ok ks) }
    ensures refused { IfErr result (λ e. e ≢ OutOfMemory → keys_at index operation (view entry.now) ≡ Err e) }
{
    let keys = match entry.get("key") {
        Some(member) => keys_of(alloc, member)?,
        None => keys_left_out(alloc, operation),
    };
    match keys {
        Some(keys) => Ok(keys),
        None => Err(bad_field(alloc, index, "key")?),
    }
}

/// What names the value of an entry.
#[tactic(auto, unfolding(crate::specs::Scripts::value_name))]
fn value_name(
    alloc: Global,
    index: usize,
    operation: ArgumentOperation,
    entry: &Value,
) -> Result<ValueName, ScriptFault>
    ensures ok { IfOk result (λ n. value_name index operation (view entry.now) ≡ Ok n) }
    ensures refused { IfErr result (λ e. e ≢ OutOfMemory → value_name index operation (view entry.now) ≡ Err e) }
{
    let function = required_text(alloc, index, entry, "function")?;
    let id = required_text(alloc, index, entry, "id")?;
    let name = place_at(alloc, index, function.get(), id.get())?;
    let keys = keys_at(alloc, index, operation, entry)?;
    let folder = folder_at(alloc, index, entry)?;
    let place = Search { name, folder };
    Ok(ValueName { place, keys })
}

/// The values of an entry.
fn given_at(alloc: Global, index: usize, entry: &Value) -> Result<Vec<Given>, ScriptFault>
    ensures ok { IfOk result (λ v. values_at index argument.Set (view entry.now) ≡ Ok v.items) }
    ensures refused { IfErr result (λ e. e ≢ OutOfMemory → values_at index argument.Set (view entry.now) ≡ Err e) }
{
    let Some(member) = entry.get("values") else {
        return Ok(Vec::new(alloc));
    };
    let Some(list) = member.as_array() else {
        return Err(bad_field(alloc, index, "values")?);
    };
    match given_values(alloc, list)? {
        Some(values) => Ok(values),
        None => Err(bad_field(alloc, index, "values")?),
    }
}

/// The values of an entry that its operation reads.
fn values_at(
    alloc: Global,
    index: usize,
    operation: ArgumentOperation,
    entry: &Value,
) -> Result<Vec<Given>, ScriptFault>
    ensures ok { IfOk result (λ v. values_at index operation (view entry.now) ≡ Ok v.items) }
    ensures refused { IfErr result (λ e. e ≢ OutOfMemory → values_at index operation (view entry.now) ≡ Err e) }
{
    match operation {
        ArgumentOperation::Set => given_at(alloc, index, entry),
        ArgumentOperation::Add => given_at(alloc, index, entry),
        ArgumentOperation::Remove => given_at(alloc, index, entry),
        ArgumentOperation::Replace => given_at(alloc, index, entry),
        ArgumentOperation::Delete => Ok(Vec::new(alloc)),
        ArgumentOperation::Info => Ok(Vec::new(alloc)),
    }
}

/// The value of the member `after` of an entry, if it has one.
fn after_of(alloc: Global, index: usize, entry: &Value) -> Result<Option<Given>, ScriptFault>
    ensures ok { IfOk result (λ g. after_at index argument.Add (view entry.now) ≡ Ok g) }
    ensures refused { IfErr result (λ e. e ≢ OutOfMemory → after_at index argument.Add (view entry.now) ≡ Err e) }
{
    let Some(member) = entry.get("after") else {
        return Ok(None);
    };
    match given_value(alloc, member)? {
        Some(given) => Ok(Some(given)),
        None => Err(bad_field(alloc, index, "after")?),
    }
}

/// The value after which values are added, if one is given and the operation of the entry reads it.
fn after_at(
    alloc: Global,
    index: usize,
    operation: ArgumentOperation,
    entry: &Value,
) -> Result<Option<Given>, ScriptFault>
    ensures ok { IfOk result (λ g. after_at index operation (view entry.now) ≡ Ok g) }
    ensures refused { IfErr result (λ e. e ≢ OutOfMemory → after_at index operation (view entry.now) ≡ Err e) }
{
    match operation {
        ArgumentOperation::Add => after_of(alloc, index, entry),
        ArgumentOperation::Set => Ok(None),
        ArgumentOperation::Remove => Ok(None),
        ArgumentOperation::Replace => Ok(None),
        ArgumentOperation::Delete => Ok(None),
        ArgumentOperation::Info => Ok(None),
    }
}

/// Whether each of the values goes into its place, if the operation of the entry reads it.
fn sorted_at(
    alloc: Global,
    index: usize,
    operation: ArgumentOperation,
    has_after: bool,
    entry: &Value,
) -> Result<bool, ScriptFault>
    ensures ok { IfOk result (λ b. sorted_at index operation has_after (view entry.now) ≡ Ok b) }
    ensures refused { IfErr result (λ e. e ≢ OutOfMemory → sorted_at index operation has_after (view entry.now) ≡ Err e) }
{
    match operation {
        ArgumentOperation::Add => sorted_unless(alloc, index, has_after, entry),
        ArgumentOperation::Set => Ok(false),
        ArgumentOperation::Remove => Ok(false),
        ArgumentOperation::Replace => Ok(false),
        ArgumentOperation::Delete => Ok(false),
        ArgumentOperation::Info => Ok(false),
    }
}

/// The command of an entry on the value of a name.
fn value_command(
    alloc: Global,
    index: usize,
    operation: ArgumentOperation,
    name: ValueName,
    entry: &Value,
) -> Result<Command, ScriptFault>
    ensures ok { IfOk result (λ c. value_command index operation name (view entry.now) ≡ Ok c) }
    ensures refused { IfErr result (λ e. e ≢ OutOfMemory → value_command index operation name (view entry.now) ≡ Err e) }
{
    let values = values_at(alloc, index, operation, entry)?;
    let after = after_at(alloc, index, operation, entry)?;
    let sorted = sorted_at(alloc, index, operation, after.is_some(), entry)?;
    match command_to(operation, name, after, sorted, values) {
        Some(command) => Ok(command),
        None => Err(bad_field(alloc, index, "values")?),
    }
}

/// The command of an entry of type `arg`.
#[tactic(auto, unfolding(crate::specs::Scripts::argument_entry))]
pub(crate) fn argument_entry(
    alloc: Global,
    index: usize,
    entry: &Value,
) -> Result<Command, ScriptFault>
    ensures ok { IfOk result (λ c. argument_entry index (view entry.now) ≡ Ok c) }
    ensures refused { IfErr result (λ e. e ≢ OutOfMemory → argument_entry index (view entry.now) ≡ Err e) }
{
    let word = required_text(alloc, index, entry, "operation")?;
    let Some(operation) = find_argument_operation(word.get()) else {
        return Err(ScriptFault::UnknownOperation(index));
    };
    let name = value_name(alloc, index, operation, entry)?;
    value_command(alloc, index, operation, name, entry)
}
