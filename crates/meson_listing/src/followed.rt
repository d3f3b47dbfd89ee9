//! The listing of a target whose variables are followed.

ghost use Rattle.std.specs.Prelude.{◌≡◌, IfOk, OnOk, map};
ghost use Rattle.serde_json.specs.View.{members_view, view};
ghost use Rattle.meson_sharing.specs.CodeTold.{told_item_view, told_view};
ghost use Rattle.meson_listing.specs.Followed.{folder_data, folder_named, followed_data, names_or_null, target_with, told_item_data, told_items_data, with_told};

use crate::entries::{file_name, spot_members, text_or_null, texts_value};
use crate::objects::{target_members, typed_object};
use meson_details::Head;
use meson_sharing::{Told, ToldItem};
use meson_splice::{FileSet, Many, Text};
use meson_variables::Sources;
use serde_json::{Map, Value, put};
use std::alloc::{AllocError, Global};

/// The folder of the build file of a name, as `--in` takes it: `.` is the root folder.
fn folder_named(name: &str) -> &str
    ensures { result.now ≡ folder_named name.entry.now }
{
    match name.strip_suffix("/meson.build") {
        Some(folder) => folder,
        None => ".",
    }
}

/// The folder of the file of a number, or null.
fn folder_value(alloc: Global, files: &FileSet, file: Option<usize>) -> Result<Value, AllocError>
    ensures { IfOk result (λ v. view v ≡ folder_data files.now file) }
{
    match file {
        Some(file) => Value::try_from_str(alloc, folder_named(file_name(files, file))),
        None => Ok(Value::Null),
    }
}

/// Names, or null.
fn names_or_null(alloc: Global, names: Option<Many<Text>>) -> Result<Value, AllocError>
    ensures { IfOk result (λ v. view v ≡ names_or_null names) }
{
    match names {
        Some(names) => texts_value(alloc, names),
        None => Ok(Value::Null),
    }
}

/// Puts the members that say what a source is: `folder`, `shared`, `sure`, `value` and `variable`.
///
/// # Errors
/// Out of memory.
pub fn put_told(
    alloc: Global,
    files: &FileSet,
    told: ToldItem,
    members: &mut Map<String, Value>,
) -> Result<(), AllocError>
    ensures { OnOk result (members_view members.new.entries ≡ with_told files.now (told_item_view told) (members_view members.old.entries)) }
{
    let ToldItem {
        item,
        variable,
        shared,
    } = told;
    let folder = folder_value(alloc, files, item.way.files)?;
    put(members, alloc, "folder", folder)?;
    let shared = names_or_null(alloc, shared)?;
    put(members, alloc, "shared", shared)?;
    put(members, alloc, "sure", Value::Bool(item.way.sure))?;
    put(members, alloc, "value", Value::String(item.text.take()))?;
    put(members, alloc, "variable", text_or_null(variable))
}

/// A source.
fn told_item_value(alloc: Global, files: &FileSet, told: ToldItem) -> Result<Value, AllocError>
    ensures { IfOk result (λ v. view v ≡ told_item_data files.now (told_item_view told)) }
{
    let file = file_name(files, told.item.place.file);
    let mut members = spot_members(alloc, told.item.span.from, file)?;
    put_told(alloc, files, told, &mut members)?;
    Ok(Value::Object(members))
}

/// Sources, in their order.
fn told_items_value(
    alloc: Global,
    files: &FileSet,
    items: Vec<ToldItem>,
) -> Result<Value, AllocError>
    ensures { IfOk result (λ v. view v ≡ told_items_data files.now (map told_item_view items.items)) }
{
    let mut list = Vec::new(alloc);
    for item in items {
        list.push(told_item_value(alloc, files, item)?)?;
    }
    Ok(Value::Array(list))
}

/// The listing of a target whose call is in the file of this number, with the sources that this value lists, and the number of those that are not known.
///
/// # Errors
/// Out of memory.
#[tactic(auto, unfolding(crate::specs::Followed::target_with))]
pub fn target_with(
    alloc: Global,
    files: &FileSet,
    file: usize,
    head: Head,
    sources: Value,
    unknown: usize,
    extra: Sources,
) -> Result<Value, AllocError>
    ensures { IfOk result (λ v. view v ≡ target_with files.now file head (view sources) unknown extra) }
{
    let mut members = target_members(alloc, files, file, head, extra)?;
    put(&mut members, alloc, "sources", sources)?;
    put(&mut members, alloc, "opaque_sources", Value::from(unknown))?;
    typed_object(alloc, members, "target")
}

/// The listing of a target whose call is in the file of this number, with the sources that are followed.
///
/// # Errors
/// Out of memory.
pub fn followed_object(
    alloc: Global,
    files: &FileSet,
    file: usize,
    head: Head,
    told: Told,
    extra: Sources,
) -> Result<Value, AllocError>
    ensures { IfOk result (λ v. view v ≡ followed_data files.now file head (told_view told) extra) }
{
    let Told { items, unknown } = told;
    let sources = told_items_value(alloc, files, items)?;
    target_with(alloc, files, file, head, sources, unknown, extra)
}
