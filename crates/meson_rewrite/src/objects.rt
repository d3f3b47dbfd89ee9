//! Answers as JSON.

ghost use Rattle.std.specs.Prelude.{◌≡◌, IfOk, List, false, map, reverse};
ghost use Rattle.std.specs.List.{All};
ghost use Rattle.std.specs.Str.{IsUtf8};
ghost use Rattle.serde_json.specs.Data.{Data, array, string};
ghost use Rattle.serde_json.specs.View.{items_of, view};
ghost use Rattle.serde_json.specs.Written.{compact_text, has_float};
ghost use Rattle.meson_ranges.specs.Files.{AreFileEdits};
ghost use Rattle.meson_ranges.specs.declared.files.FileEdits.{FileEdits};
ghost use Rattle.meson_script.specs.Listings.{listings_text};
ghost use Rattle.meson_rewrite.specs.Lines.{line};
ghost use Rattle.meson_rewrite.specs.Objects.{changes_data, change_data, done_data, done_members, edit_data, file_edits_data, forgot_data, history_data, position_data, range_data, sum_data, sums_data};

use crate::changes::count_files;
use crate::said::json_line;
use meson_ranges::{FileEdits, Position, Range, RangedEdit, compare};
use meson_script::Report;
use meson_splice::{Bytes, Change, FileSet, History};
use meson_sums::digest;
use serde_json::{Value, json};
use std::alloc::{AllocError, Global};
use std::str::from_utf8;

/// A position in a text.
fn position_object(alloc: Global, position: Position) -> Result<Value, AllocError>
    ensures { IfOk result (λ v. view v ≡ position_data position) }
{
    json!(in alloc; {"character": position.character, "line": position.line})
}

/// The part of a text from one position up to another.
fn range_object(alloc: Global, range: Range) -> Result<Value, AllocError>
    ensures { IfOk result (λ v. view v ≡ range_data range) }
{
    let end = position_object(alloc, range.end)?;
    let start = position_object(alloc, range.start)?;
    json!(in alloc; {"end": end, "start": start})
}

/// Bytes of a file of a project, which is text.
fn text_value(alloc: Global, bytes: &[u8]) -> Result<Value, AllocError>
    requires { IsUtf8 bytes.now }
    ensures { IfOk result (λ v. view v ≡ string bytes.now) }
{
    match from_utf8(bytes) {
        Ok(text) => Value::try_from_str(alloc, text),
        Err(_) => unreachable!(),
    }
}

/// An edit of a text.
fn edit_object(alloc: Global, ranged: &RangedEdit<'_>) -> Result<Value, AllocError>
    requires was { IsUtf8 ranged.now.edit.was }
    requires now { IsUtf8 ranged.now.edit.now }
    ensures { IfOk result (λ v. view v ≡ edit_data ranged.now) }
{
    let at = ranged.edit.at();
    let new = text_value(alloc, ranged.edit.now())?;
    let old = text_value(alloc, ranged.edit.was())?;
    let range = range_object(alloc, ranged.range)?;
    json!(in alloc; {"at": at, "newText": new, "oldText": old, "range": range})
}

/// The edits of a text, from the first to the last.
fn edits_array(alloc: Global, edits: &[RangedEdit<'_>]) -> Result<Value, AllocError>
    requires { All (λ r. IsUtf8 r.edit.was × IsUtf8 r.edit.now) edits.now }
    ensures { IfOk result (λ v. view v ≡ array (items_of (map edit_data edits.now))) }
{
    let mut list = Vec::new(alloc);
    for edit in edits {
        list.push(edit_object(alloc, edit)?)?;
    }
    Ok(Value::Array(list))
}

/// A file that differs.
fn file_object(alloc: Global, change: &FileEdits<'_>) -> Result<Value, AllocError>
    requires { All (λ r. IsUtf8 r.edit.was × IsUtf8 r.edit.now) change.now.edits.items }
    ensures { IfOk result (λ v. view v ≡ file_edits_data change.now) }
{
    let edits = edits_array(alloc, change.edits.as_slice())?;
    json!(in alloc; {"edits": edits, "file": change.name})
}

/// The files that differ, in order.
fn files_array(alloc: Global, changes: &[FileEdits<'_>]) -> Result<Value, AllocError>
    requires { All (λ f. All (λ r. IsUtf8 r.edit.was × IsUtf8 r.edit.now) f.edits.items) changes.now }
    ensures { IfOk result (λ v. view v ≡ array (items_of (map file_edits_data changes.now))) }
{
    let mut list = Vec::new(alloc);
    for change in changes {
        list.push(file_object(alloc, change)?)?;
    }
    Ok(Value::Array(list))
}

/// What differs in two sets of the same files, which are text.
fn changes_array(alloc: Global, old: &FileSet, new: &FileSet) -> Result<Value, AllocError>
    requires same_files { map (λ f. f.name) old.now ≡ map (λ f. f.name) new.now }
    requires old_text { All (λ f. IsUtf8 f.bytes) old.now }
    requires new_text { All (λ f. IsUtf8 f.bytes) new.now }
    ensures { IfOk result (λ v. (changes : List FileEdits) × AreFileEdits old.now new.now changes
        × (view v ≡ array (items_of (map file_edits_data changes)))) }
{
    let changes = compare(alloc, old, new)?;
    files_array(alloc, changes.as_slice())
}

/// The text of an array of what was listed.
fn info_array(info: Bytes) -> Result<Vec<u8>, AllocError>
    ensures { IfOk result (λ text. (listings : List Data) → info ≡ listings_text listings → text.items ≡ compact_text (array (items_of listings))) }
{
    let mut text = info.take();
    if text.as_slice().is_empty() {
        text.extend_from_slice(b"[]")?;
        return Ok(text);
    }
    Ok(text)
}

/// The line that says what a step made of the files, as these changes. What was listed is text, and is put in as it is.
fn done_line(alloc: Global, changes: &Value, report: Report) -> Result<Vec<u8>, AllocError>
    requires { has_float (view changes.now) ≡ false }
    ensures { IfOk result (λ text. (listings : List Data) → report.info ≡ listings_text listings
        → text.items ≡ line (compact_text (done_members (view changes.now) listings report))) }
{
    let Report {
        files,
        splices,
        relexed: _,
        info,
        title,
    } = report;
    let changes = changes.to_string(alloc)?;
    let quoted = Value::try_from_str(alloc, title.get())?.to_string(alloc)?;
    let before = format!(in alloc; "{{\"changes\":{changes},\"files\":{files},\"info\":")?;
    let after = format!(in alloc; ",\"splices\":{splices},\"title\":{quoted}}}\n")?;
    let mut rest = info_array(info)?;
    rest.extend_from_slice(after.as_bytes())?;
    let mut text = before.into_bytes();
    text.append(&mut rest)?;
    Ok(text)
}

/// The line that says what a step made of these files.
pub(crate) fn done_object_line(
    alloc: Global,
    old: &FileSet,
    new: &FileSet,
    report: Report,
) -> Result<Vec<u8>, AllocError>
    requires same_files { map (λ f. f.name) old.now ≡ map (λ f. f.name) new.now }
    requires old_text { All (λ f. IsUtf8 f.bytes) old.now }
    requires new_text { All (λ f. IsUtf8 f.bytes) new.now }
    requires listed { (listings : List Data) × (report.info ≡ listings_text listings) }
    ensures { IfOk result (λ text. (changes : List FileEdits) × AreFileEdits old.now new.now changes
        × (listings : List Data) × (report.info ≡ listings_text listings)
        × (text.items ≡ line (compact_text (done_data changes listings report)))) }
{
    let changes = changes_array(alloc, old, new)?;
    done_line(alloc, &changes, report)
}

/// What the log lost.
fn forgot_object(alloc: Global, which: Value) -> Result<Value, AllocError>
    ensures { IfOk result (λ v. view v ≡ forgot_data (view which)) }
{
    json!(in alloc; {"forgot": which})
}

/// The line that says how many of the oldest changes were dropped, or that all were.
pub(crate) fn forgot_object_line(alloc: Global, which: Value) -> Result<Vec<u8>, AllocError>
    requires { has_float (view which) ≡ false }
    ensures { IfOk result (λ text. text.items ≡ line (compact_text (forgot_data (view which)))) }
{
    let forgot = forgot_object(alloc, which)?;
    json_line(alloc, &forgot)
}

/// A change of a history.
fn change_object(alloc: Global, change: &Change) -> Result<Value, AllocError>
    ensures { IfOk result (λ v. view v ≡ change_data change.now) }
{
    let splices = change.splices.get();
    let files = count_files(alloc, splices)?;
    json!(in alloc; {"files": files, "splices": splices.len(), "title": change.title.get()})
}

/// Changes of a history, the last one first.
fn history_array(alloc: Global, changes: &[Change]) -> Result<Value, AllocError>
    ensures { IfOk result (λ v. view v ≡ changes_data (reverse changes.now)) }
{
    let mut list = Vec::new(alloc);
    for change in changes.iter().rev() {
        list.push(change_object(alloc, change)?)?;
    }
    Ok(Value::Array(list))
}

/// A history.
pub(crate) fn history_object(alloc: Global, history: &History) -> Result<Value, AllocError>
    ensures { IfOk result (λ v. view v ≡ history_data history.now) }
{
    let future = history_array(alloc, history.future.get())?;
    let past = history_array(alloc, history.past.get())?;
    json!(in alloc; {"future": future, "past": past})
}

/// The digest of a file.
fn sum_object(alloc: Global, name: &str, bytes: &[u8]) -> Result<Value, AllocError>
    ensures { IfOk result (λ v. view v ≡ sum_data (record { name = name.now; bytes = bytes.now })) }
{
    let digits = digest(alloc, bytes)?;
    json!(in alloc; {"file": name, "sha256": digits})
}

/// The digests of files, in order.
pub(crate) fn sums_object(alloc: Global, files: &FileSet) -> Result<Value, AllocError>
    ensures { IfOk result (λ v. view v ≡ sums_data files.now) }
{
    let mut list = Vec::new(alloc);
    for i in 0..files.len() {
        list.push(sum_object(alloc, files.name(i), files.bytes(i))?)?;
    }
    json!(in alloc; {"sums": list})
}
