//! What is reported of a value.

ghost use Rattle.std.specs.Prelude.{◌≡◌, IfOk};
ghost use Rattle.serde_json.specs.View.{view};
ghost use Rattle.meson_listing.specs.Values.{code_data, content_data, contents_data, key_data, told_data, value_data};

use crate::entries::{file_name, shown_value, spot_members, text_or_null};
use crate::objects::typed_object;
use meson_details::{ArgumentKey, Shown, ValueDetails};
use meson_splice::{FileSet, Many, Text};
use serde_json::{Map, Value, json, put};
use std::alloc::{AllocError, Global};

/// Code, by its text in the file.
fn code_value(alloc: Global, text: Text) -> Result<Value, AllocError>
    ensures { IfOk result (λ v. view v ≡ code_data text) }
{
    let text = text.take();
    json!(in alloc; {"code": text})
}

/// A value.
fn told_value(alloc: Global, shown: Shown) -> Result<Value, AllocError>
    ensures { IfOk result (λ v. view v ≡ told_data shown) }
{
    match shown {
        Shown::Opaque(text) => code_value(alloc, text),
        shown => shown_value(alloc, shown),
    }
}

/// What leads to a value.
fn key_value(alloc: Global, key: ArgumentKey) -> Result<Value, AllocError>
    ensures { IfOk result (λ v. view v ≡ key_data key) }
{
    match key {
        ArgumentKey::Number(number) => Ok(Value::from(number)),
        ArgumentKey::Text(text) => Ok(Value::String(text.take())),
        ArgumentKey::Code(text) => code_value(alloc, text),
    }
}

/// A value with the key that leads to it.
fn content_value(alloc: Global, key: ArgumentKey, shown: Shown) -> Result<Value, AllocError>
    ensures { IfOk result (λ v. view v ≡ content_data (key, shown)) }
{
    let mut members = Map::new(alloc);
    let key = key_value(alloc, key)?;
    put(&mut members, alloc, "key", key)?;
    let value = told_value(alloc, shown)?;
    put(&mut members, alloc, "value", value)?;
    Ok(Value::Object(members))
}

/// What is in a call, an array or a dictionary.
fn contents_value(alloc: Global, contents: Many<(ArgumentKey, Shown)>) -> Result<Value, AllocError>
    ensures { IfOk result (λ v. view v ≡ contents_data contents) }
{
    let mut list = Vec::new(alloc);
    for (key, shown) in contents.take() {
        list.push(content_value(alloc, key, shown)?)?;
    }
    Ok(Value::Array(list))
}

/// The listing of a value that begins at an offset of the file of this number.
///
/// # Errors
/// Out of memory.
#[tactic(auto, unfolding(crate::specs::Values::value_data))]
pub fn value_object(
    alloc: Global,
    files: &FileSet,
    file: usize,
    at: usize,
    details: ValueDetails,
) -> Result<Value, AllocError>
    ensures { IfOk result (λ v. view v ≡ value_data files.now file at details) }
{
    let mut members = spot_members(alloc, at, file_name(files, file))?;
    match details {
        ValueDetails::Call {
            function,
            name,
            arguments,
        } => {
            let arguments = contents_value(alloc, arguments)?;
            put(&mut members, alloc, "arguments", arguments)?;
            put(
                &mut members,
                alloc,
                "function",
                Value::String(function.take()),
            )?;
            put(&mut members, alloc, "name", text_or_null(name))?;
            typed_object(alloc, members, "arg")
        }
        ValueDetails::List(contents) => {
            let arguments = contents_value(alloc, contents)?;
            put(&mut members, alloc, "arguments", arguments)?;
            typed_object(alloc, members, "arg")
        }
        ValueDetails::Other(shown) => {
            let value = told_value(alloc, shown)?;
            put(&mut members, alloc, "value", value)?;
            typed_object(alloc, members, "arg")
        }
    }
}
