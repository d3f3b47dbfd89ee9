//! The parts of a listing.

ghost use Rattle.std.specs.Prelude.{◌≡◌, IfOk, OnOk, codes};
ghost use Rattle.serde_json.specs.Data.{member, no_members, number, put as with_member, string, unsigned};
ghost use Rattle.serde_json.specs.View.{members_view, view};
ghost use Rattle.meson_calls.specs.Loading.{name_of_file};
ghost use Rattle.meson_listing.specs.Entries.{id_data, ids_data, item_data, items_data, keywords_data, shown_data, text_or_null, texts_data};

use meson_details::Shown;
use meson_splice::{FileSet, Many, Text};
use meson_variables::SourceItem;
use serde_json::{Map, Value, json, put};
use std::alloc::{AllocError, Global};

/// The name of the file of a number; the empty name if there is no such file.
pub fn file_name(files: &FileSet, file: usize) -> &str
    ensures { result.now ≡ name_of_file file files.now }
{
    if file < files.len() {
        files.name(file)
    } else {
        ""
    }
}

/// A text, or null.
pub fn text_or_null(text: Option<Text>) -> Value
    ensures { view result ≡ text_or_null text }
{
    match text {
        Some(text) => Value::String(text.take()),
        None => Value::Null,
    }
}

/// The place of a call, a source or an extra file: the offset in bytes and the name of the file.
///
/// # Errors
/// Out of memory.
pub fn spot_members(alloc: Global, at: usize, file: &str) -> Result<Map<String, Value>, AllocError>
    ensures { IfOk result (λ m. members_view m.entries ≡ member (codes "at") (number (unsigned at)) (member (codes "file") (string file.now) no_members)) }
{
    let mut members = Map::new(alloc);
    put(&mut members, alloc, "at", Value::from(at))?;
    put(
        &mut members,
        alloc,
        "file",
        Value::try_from_str(alloc, file)?,
    )?;
    Ok(members)
}

/// A source or an extra file.
fn item_value(alloc: Global, files: &FileSet, item: SourceItem) -> Result<Value, AllocError>
    ensures { IfOk result (λ v. view v ≡ item_data files.now item) }
{
    let SourceItem {
        value,
        file,
        span,
        list: _,
        variable,
    } = item;
    let mut members = spot_members(alloc, span.from, file_name(files, file))?;
    put(&mut members, alloc, "value", Value::String(value.take()))?;
    put(&mut members, alloc, "variable", text_or_null(variable))?;
    Ok(Value::Object(members))
}

/// Sources or extra files, in their order.
pub(crate) fn items_value(
    alloc: Global,
    files: &FileSet,
    items: Many<SourceItem>,
) -> Result<Value, AllocError>
    ensures { IfOk result (λ v. view v ≡ items_data files.now items) }
{
    let mut list = Vec::new(alloc);
    for item in items.take() {
        list.push(item_value(alloc, files, item)?)?;
    }
    Ok(Value::Array(list))
}

/// A variable.
fn id_value(alloc: Global, name: Text) -> Result<Value, AllocError>
    ensures { IfOk result (λ v. view v ≡ id_data name) }
{
    let name = name.take();
    json!(in alloc; {"id": name})
}

pub(crate) fn texts_value(alloc: Global, texts: Many<Text>) -> Result<Value, AllocError>
    ensures { IfOk result (λ v. view v ≡ texts_data texts) }
{
    let mut list = Vec::new(alloc);
    for text in texts.take() {
        list.push(Value::String(text.take()))?;
    }
    Ok(Value::Array(list))
}

fn ids_value(alloc: Global, names: Many<Text>) -> Result<Value, AllocError>
    ensures { IfOk result (λ v. view v ≡ ids_data names) }
{
    let mut list = Vec::new(alloc);
    for name in names.take() {
        list.push(id_value(alloc, name)?)?;
    }
    Ok(Value::Array(list))
}

/// The value of a keyword argument.
pub(crate) fn shown_value(alloc: Global, shown: Shown) -> Result<Value, AllocError>
    ensures { IfOk result (λ v. view v ≡ shown_data shown) }
{
    match shown {
        Shown::Text(text) => Ok(Value::String(text.take())),
        Shown::Bool(value) => Ok(Value::Bool(value)),
        Shown::Id(name) => id_value(alloc, name),
        Shown::Texts(texts) => texts_value(alloc, texts),
        Shown::Ids(names) => ids_value(alloc, names),
        Shown::Opaque(text) => {
            let text = text.take();
            json!(in alloc; {"opaque": text})
        }
    }
}

/// Puts a keyword argument at its name.
fn put_keyword(
    alloc: Global,
    members: &mut Map<String, Value>,
    key: Text,
    shown: Shown,
) -> Result<(), AllocError>
    ensures { OnOk result (members_view members.new.entries ≡ with_member key (shown_data shown) (members_view members.old.entries)) }
{
    let value = shown_value(alloc, shown)?;
    let _none = members.insert(key.take(), value)?;
    Ok(())
}

/// Keyword arguments, by their names.
pub(crate) fn keywords_value(alloc: Global, pairs: Vec<(Text, Shown)>) -> Result<Value, AllocError>
    ensures { IfOk result (λ v. view v ≡ keywords_data pairs.items) }
{
    let mut members = Map::new(alloc);
    for (key, shown) in pairs {
        put_keyword(alloc, &mut members, key, shown)?;
    }
    Ok(Value::Object(members))
}
