//! Texts in the place of files, as JSON.

ghost use Rattle.std.specs.Prelude.{◌≡◌, ◌↔◌, IfOk, IsTrue, MatchOption, bytes_eq};
ghost use Rattle.std.specs.List.{list_any};
ghost use Rattle.serde_json.specs.View.{items_view, view};
ghost use Rattle.meson_json.specs.Each.{each_of};
ghost use Rattle.meson_json.specs.TextsFile.{AreTexts, HasNoTexts, HasTexts, listed_texts, text_of_data, texts_of_data};

use crate::log::has_members;
use crate::members::{owned, text_at};
use meson_calls::MAX_FILES;
use meson_calls::folders::is_file_name;
use meson_splice::{Many, Text};
use serde_json::Value;
use std::alloc::{AllocError, Global};

/// A name and a text, if the value is an object of these two.
#[tactic(auto, unfolding(crate::specs::TextsFile::text_of_data))]
fn text_from(alloc: Global, value: &Value) -> Result<Option<(Text, Text)>, AllocError>
    ensures { IfOk result (λ o. o ≡ text_of_data (view value.now)) }
{
    if !has_members(value, 2) {
        return Ok(None);
    }
    let Some(file) = text_at(value, "file") else {
        return Ok(None);
    };
    let Some(text) = text_at(value, "text") else {
        return Ok(None);
    };
    Ok(Some((owned(alloc, file)?, owned(alloc, text)?)))
}

/// Each item of an array as such a pair, if all are such.
fn each_text(alloc: Global, list: &[Value]) -> Result<Option<Many<(Text, Text)>>, AllocError>
    ensures { IfOk result (λ o. o ≡ each_of text_of_data (items_view list.now)) }
{
    let mut all = Vec::new(alloc);
    for value in list {
        let Some(text) = text_from(alloc, value)? else {
            return Ok(None);
        };
        all.push(text)?;
    }
    Ok(Some(Many::of(all)))
}

/// The pairs that a value lists.
#[tactic(auto, unfolding(crate::specs::TextsFile::texts_of_data))]
fn texts_from(alloc: Global, value: &Value) -> Result<Option<Many<(Text, Text)>>, AllocError>
    ensures { IfOk result (λ o. o ≡ texts_of_data (view value.now)) }
{
    if !has_members(value, 1) {
        return Ok(None);
    }
    match value.get("texts").and_then(Value::as_array) {
        Some(list) => each_text(alloc, list),
        None => Ok(None),
    }
}

/// Whether one of these has that name.
fn has_name(texts: &[(Text, Text)], name: &str) -> bool
    ensures { result ≡ list_any (λ t. bytes_eq t.0 name.now) texts.now }
{
    texts.iter().any(|t| t.0.get() == name)
}

/// Whether these are texts of build files: not too many, and no name twice.
fn are_texts(texts: &[(Text, Text)]) -> bool
    ensures { IsTrue result ↔ AreTexts texts.now }
{
    if texts.len() > MAX_FILES {
        return false;
    }
    for i in 0..texts.len() {
        let name = texts[i].0.get();
        if !is_file_name(name.as_bytes()) {
            return false;
        }
        if has_name(&texts[..i], name) {
            return false;
        }
    }
    true
}

/// The pairs that a text lists.
#[tactic(auto, unfolding(crate::specs::TextsFile::listed_texts))]
fn listed(alloc: Global, bytes: &[u8]) -> Result<Option<Many<(Text, Text)>>, AllocError>
    ensures { IfOk result (λ o. o ≡ listed_texts bytes.now) }
{
    let value = match Value::from_slice(alloc, bytes) {
        Ok(value) => value,
        Err(error) if error.is_memory() => return Err(AllocError),
        Err(_) => return Ok(None),
    };
    texts_from(alloc, &value)
}

/// The names and texts of a file `{"texts":[{"file":NAME,"text":TEXT},..]}`, or none if it has another shape, more texts than a project may have files,
/// a name that is not that of a build file, or a name twice.
///
/// # Errors
/// Out of memory.
pub fn read_texts(alloc: Global, bytes: &[u8]) -> Result<Option<Many<(Text, Text)>>, AllocError>
    ensures { IfOk result (λ read. MatchOption read (HasNoTexts bytes.now) (HasTexts bytes.now)) }
{
    match listed(alloc, bytes)? {
        Some(texts) if are_texts(texts.get()) => Ok(Some(texts)),
        _ => Ok(None),
    }
}
