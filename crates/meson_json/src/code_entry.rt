//! Entries of a script that insert or remove statements: those of type `code`.

ghost use Rattle.std.specs.Prelude.{◌≡◌, ◌≢◌, Err, IfErr, IfOk, Ok};
ghost use Rattle.serde_json.specs.View.{view};
ghost use Rattle.meson_json.specs.Scripts.{blank_at, blank_lines, code_at, code_entry, code_place, insertion_entry, removal_entry, search_at};
ghost use Rattle.meson_json.specs.declared.fault.ScriptFault.TheVariants.{OutOfMemory};

use crate::code::MAX_BLANK_LINES;
use crate::fault::ScriptFault;
use crate::members::{bad_field, flag_at, folder_at, required_text};
use crate::names::{CodeOperation, find_code_operation};
use crate::value_entry::place_at;
use meson_statements::StatementCode;
use meson_steps::argument::Search;
use meson_steps::command::{CodePlace, Command};
use serde_json::Value;
use std::alloc::Global;

/// The statement that an entry names.
#[tactic(auto, unfolding(crate::specs::Scripts::search_at))]
fn search_at(alloc: Global, index: usize, entry: &Value) -> Result<Search, ScriptFault>
    ensures ok { IfOk result (λ s. search_at index (view entry.now) ≡ Ok s) }
    ensures refused { IfErr result (λ e. e ≢ OutOfMemory → search_at index (view entry.now) ≡ Err e) }
{
    let function = required_text(alloc, index, entry, "function")?;
    let id = required_text(alloc, index, entry, "id")?;
    let name = place_at(alloc, index, function.get(), id.get())?;
    let folder = folder_at(alloc, index, entry)?;
    Ok(Search { name, folder })
}

/// Where an operation inserts the code of an entry.
fn code_place(
    alloc: Global,
    index: usize,
    operation: CodeOperation,
    entry: &Value,
) -> Result<CodePlace, ScriptFault>
    ensures ok { IfOk result (λ p. code_place index operation (view entry.now) ≡ Ok p) }
    ensures refused { IfErr result (λ e. e ≢ OutOfMemory → code_place index operation (view entry.now) ≡ Err e) }
{
    match operation {
        CodeOperation::After => Ok(CodePlace::Below(search_at(alloc, index, entry)?)),
        CodeOperation::Before => Ok(CodePlace::Above(search_at(alloc, index, entry)?)),
        CodeOperation::Append => {
            let file = required_text(alloc, index, entry, "file")?;
            Ok(CodePlace::End(file))
        }
    }
}

/// The code of an entry.
fn code_at(alloc: Global, index: usize, entry: &Value) -> Result<StatementCode, ScriptFault>
    ensures ok { IfOk result (λ c. code_at index (view entry.now) ≡ Ok c) }
    ensures refused { IfErr result (λ e. e ≢ OutOfMemory → code_at index (view entry.now) ≡ Err e) }
{
    let text = required_text(alloc, index, entry, "code")?;
    match StatementCode::of(alloc, text.get())? {
        Some(code) => Ok(code),
        None => Err(bad_field(alloc, index, "code")?),
    }
}

/// The number of blank lines that a value is, if it is one from 0 to `MAX_BLANK_LINES`.
fn blank_lines(value: &Value) -> Option<usize>
    ensures { result ≡ blank_lines (view value.now) }
{
    let count = value.as_u64()? as usize;
    if count > MAX_BLANK_LINES {
        return None;
    }
    Some(count)
}

/// The number of blank lines of an entry, if it gives one.
fn blank_at(alloc: Global, index: usize, entry: &Value) -> Result<Option<usize>, ScriptFault>
    ensures ok { IfOk result (λ b. blank_at index (view entry.now) ≡ Ok b) }
    ensures refused { IfErr result (λ e. e ≢ OutOfMemory → blank_at index (view entry.now) ≡ Err e) }
{
    let Some(member) = entry.get("blank") else {
        return Ok(None);
    };
    match blank_lines(member) {
        Some(count) => Ok(Some(count)),
        None => Err(bad_field(alloc, index, "blank")?),
    }
}

/// The command of an entry that inserts code.
#[tactic(auto, unfolding(crate::specs::Scripts::insertion_entry))]
fn insertion_entry(
    alloc: Global,
    index: usize,
    operation: CodeOperation,
    entry: &Value,
) -> Result<Command, ScriptFault>
    ensures ok { IfOk result (λ c. insertion_entry index operation (view entry.now) ≡ Ok c) }
    ensures refused { IfErr result (λ e. e ≢ OutOfMemory → insertion_entry index operation (view entry.now) ≡ Err e) }
{
    let place = code_place(alloc, index, operation, entry)?;
    let code = code_at(alloc, index, entry)?;
    let blank = blank_at(alloc, index, entry)?;
    Ok(Command::CodeInsert { place, code, blank })
}

/// The command of an entry that removes a statement.
#[tactic(auto, unfolding(crate::specs::Scripts::removal_entry))]
fn removal_entry(alloc: Global, index: usize, entry: &Value) -> Result<Command, ScriptFault>
    ensures ok { IfOk result (λ c. removal_entry index (view entry.now) ≡ Ok c) }
    ensures refused { IfErr result (λ e. e ≢ OutOfMemory → removal_entry index (view entry.now) ≡ Err e) }
{
    let statement = search_at(alloc, index, entry)?;
    let unused = flag_at(alloc, index, entry, "unused")?;
    Ok(Command::CodeRemove { statement, unused })
}

/// The command of an entry of type `code`.
#[tactic(auto, unfolding(crate::specs::Scripts::code_entry))]
pub(crate) fn code_entry(alloc: Global, index: usize, entry: &Value) -> Result<Command, ScriptFault>
    ensures ok { IfOk result (λ c. code_entry index (view entry.now) ≡ Ok c) }
    ensures refused { IfErr result (λ e. e ≢ OutOfMemory → code_entry index (view entry.now) ≡ Err e) }
{
    let word = required_text(alloc, index, entry, "operation")?;
    if word.get() == "remove" {
        return removal_entry(alloc, index, entry);
    }
    let Some(operation) = find_code_operation(word.get()) else {
        return Err(ScriptFault::UnknownOperation(index));
    };
    insertion_entry(alloc, index, operation, entry)
}
