//! Whole listings, member by member.

ghost use Rattle.std.specs.Prelude.{◌≡◌, IfOk, OnOk, codes};
ghost use Rattle.serde_json.specs.Data.{boolean, member, no_members, number, object, put as with_member, string, unsigned};
ghost use Rattle.serde_json.specs.View.{members_view, view};
ghost use Rattle.meson_listing.specs.Entries.{call_data, items_data, target_data, target_members};

use crate::entries::{file_name, items_value, keywords_value, spot_members, text_or_null};
use meson_details::{Head, Shown};
use meson_splice::{FileSet, Text};
use meson_variables::Sources;
use serde_json::{Map, Value, put};
use std::alloc::{AllocError, Global};

/// The start of each listing: the place of the call, its function, and whether arguments are hidden.
fn head_members(
    alloc: Global,
    at: usize,
    file: &str,
    function: Text,
    hidden: bool,
) -> Result<Map<String, Value>, AllocError>
    ensures { IfOk result (λ m. members_view m.entries ≡ member (codes "at") (number (unsigned at)) (member (codes "file") (string file.now)
        (member (codes "function") (string function) (member (codes "hidden") (boolean hidden) no_members)))) }
{
    let mut members = spot_members(alloc, at, file)?;
    put(
        &mut members,
        alloc,
        "function",
        Value::String(function.take()),
    )?;
    put(&mut members, alloc, "hidden", Value::Bool(hidden))?;
    Ok(members)
}

/// The listing of this type.
pub(crate) fn typed_object(
    alloc: Global,
    members: Map<String, Value>,
    kind: &str,
) -> Result<Value, AllocError>
    ensures { IfOk result (λ v. view v ≡ object (with_member (codes "type") (string kind.now) (members_view members.entries))) }
{
    let mut members = members;
    let kind = Value::try_from_str(alloc, kind)?;
    put(&mut members, alloc, "type", kind)?;
    Ok(Value::Object(members))
}

/// Puts sources or extra files at a name, and at another one the number of expressions that are not known.
fn put_sources(
    alloc: Global,
    members: &mut Map<String, Value>,
    key: &str,
    opaque_key: &str,
    files: &FileSet,
    sources: Sources,
) -> Result<(), AllocError>
    ensures { OnOk result (members_view members.new.entries ≡ with_member opaque_key.now (number (unsigned sources.opaque))
        (with_member key.now (items_data files.now sources.items) (members_view members.old.entries))) }
{
    let items = items_value(alloc, files, sources.items)?;
    put(members, alloc, key, items)?;
    put(members, alloc, opaque_key, Value::from(sources.opaque))
}

/// What a listing says of a target whose call is in the file of this number, but of its sources.
pub(crate) fn target_members(
    alloc: Global,
    files: &FileSet,
    file: usize,
    head: Head,
    extra: Sources,
) -> Result<Map<String, Value>, AllocError>
    ensures { IfOk result (λ m. members_view m.entries ≡ target_members files.now file head extra) }
{
    let file = file_name(files, file);
    let mut members = head_members(alloc, head.at, file, head.function, head.hidden)?;
    put(&mut members, alloc, "name", text_or_null(head.name))?;
    put_sources(
        alloc,
        &mut members,
        "extra_files",
        "opaque_extra_files",
        files,
        extra,
    )?;
    Ok(members)
}

/// The listing of a target whose call is in the file of this number.
///
/// # Errors
/// Out of memory.
#[tactic(auto, unfolding(crate::specs::Entries::target_data))]
pub fn target_object(
    alloc: Global,
    files: &FileSet,
    file: usize,
    head: Head,
    sources: Sources,
    extra: Sources,
) -> Result<Value, AllocError>
    ensures { IfOk result (λ v. view v ≡ target_data files.now file head sources extra) }
{
    let mut members = target_members(alloc, files, file, head, extra)?;
    put_sources(
        alloc,
        &mut members,
        "sources",
        "opaque_sources",
        files,
        sources,
    )?;
    typed_object(alloc, members, "target")
}

/// The listing of the keyword arguments of a call that is in the file of this number.
///
/// # Errors
/// Out of memory.
#[tactic(auto, unfolding(crate::specs::Entries::call_data))]
pub fn call_object(
    alloc: Global,
    files: &FileSet,
    file: usize,
    head: Head,
    keywords: Vec<(Text, Shown)>,
) -> Result<Value, AllocError>
    ensures { IfOk result (λ v. view v ≡ call_data files.now file head keywords.items) }
{
    let keywords = keywords_value(alloc, keywords)?;
    let file = file_name(files, file);
    let mut members = head_members(alloc, head.at, file, head.function, head.hidden)?;
    put(&mut members, alloc, "kwargs", keywords)?;
    typed_object(alloc, members, "kwargs")
}
