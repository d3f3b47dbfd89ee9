//! The undo log as text: a history of changes as JSON.

ghost use Rattle.std.specs.Prelude.{◌≡◌, ◌≢◌, Err, IfErr, IfOk, None, Ok, OnOk, Some, codes, false, map, option_map, true};
ghost use Rattle.std.specs.List.{list_all};
ghost use Rattle.std.specs.Str.{is_utf8};
ghost use Rattle.serde_json.specs.Data.{array, member, no_members, number, object, string, unsigned};
ghost use Rattle.serde_json.specs.View.{items_of, items_view, view};
ghost use Rattle.meson_json.specs.Each.{each_of};
ghost use Rattle.meson_json.specs.Log.{are_placed, are_text, change_data, change_has_text, change_of, changes_at, changes_data, is_text_history, history_of, is_placed, is_text, log_data, log_of, logged, splice_data, splice_of_data, titled_change_of};
ghost use Rattle.meson_json.specs.Members.{has_members, whole_at};
ghost use Rattle.meson_json.specs.declared.fault.ScriptFault.TheVariants.{BadLog, OutOfMemory};
ghost use Rattle.meson_json.specs.declared.version.Version.TheVariants.{Bare};

use crate::fault::ScriptFault;
use crate::members::{owned, text_at};
use crate::title::is_title;
use crate::version::{Version, version_of};
use meson_splice::{Bytes, Change, History, Many, Splice};
use serde_json::{Value, json};
use std::alloc::{AllocError, Global};
use std::str::from_utf8;

fn splice_object(
    alloc: Global,
    at: u64,
    file: &str,
    now: &str,
    was: &str,
) -> Result<Value, AllocError>
    ensures { IfOk result (λ v. view v ≡ splice_data (record { file = file.now; at = at; was = was.now; now = now.now })) }
{
    json!(in alloc; {"at": at, "file": file, "now": now, "was": was})
}

/// A splice as JSON, if its bytes are text.
fn splice_value(alloc: Global, splice: &Splice) -> Result<Value, ScriptFault>
    ensures ok { IfOk result (λ v. view v ≡ splice_data splice.entry.now) }
    ensures text { OnOk result (is_text splice.entry.now ≡ true) }
    ensures placed { OnOk result (is_placed splice.entry.now ≡ true) }
    ensures refused { IfErr result (λ e. e ≢ OutOfMemory → (e ≡ BadLog) × (is_text splice.entry.now ≡ false)) }
{
    let Ok(was) = from_utf8(splice.was.get()) else {
        return Err(ScriptFault::BadLog);
    };
    let Ok(now) = from_utf8(splice.now.get()) else {
        return Err(ScriptFault::BadLog);
    };
    let at = splice.at as u64;
    Ok(splice_object(alloc, at, splice.file.get(), now, was)?)
}

fn splices_value(alloc: Global, splices: &[Splice]) -> Result<Value, ScriptFault>
    ensures ok { IfOk result (λ v. view v ≡ array (items_of (map splice_data splices.now))) }
    ensures text { OnOk result (list_all is_text splices.now ≡ true) }
    ensures placed { OnOk result (list_all is_placed splices.now ≡ true) }
    ensures refused { IfErr result (λ e. e ≢ OutOfMemory → (e ≡ BadLog) × (list_all is_text splices.now ≡ false)) }
{
    let mut list = Vec::new(alloc);
    for splice in splices {
        list.push(splice_value(alloc, splice)?)?;
    }
    Ok(Value::Array(list))
}

fn change_object(alloc: Global, splices: Value, title: &str) -> Result<Value, AllocError>
    ensures { IfOk result (λ v. view v ≡ object (member (codes "splices") (view splices) (member (codes "title") (string title.now) no_members))) }
{
    json!(in alloc; {"splices": splices, "title": title})
}

/// A change as JSON, if its bytes are text and its title is valid.
fn change_value(alloc: Global, change: &Change) -> Result<Value, ScriptFault>
    ensures ok { IfOk result (λ v. view v ≡ change_data change.now) }
    ensures text { OnOk result (change_has_text change.now ≡ true) }
    ensures placed { OnOk result (list_all is_placed change.now.splices ≡ true) }
    ensures refused { IfErr result (λ e. e ≢ OutOfMemory → (e ≡ BadLog) × (change_has_text change.now ≡ false)) }
{
    if !is_title(change.title.get()) {
        return Err(ScriptFault::BadLog);
    }
    let splices = splices_value(alloc, change.splices.get())?;
    Ok(change_object(alloc, splices, change.title.get())?)
}

fn changes_value(alloc: Global, changes: &[Change]) -> Result<Value, ScriptFault>
    ensures ok { IfOk result (λ v. view v ≡ changes_data changes.now) }
    ensures text { OnOk result (are_text changes.now ≡ true) }
    ensures placed { OnOk result (are_placed changes.now ≡ true) }
    ensures refused { IfErr result (λ e. e ≢ OutOfMemory → (e ≡ BadLog) × (are_text changes.now ≡ false)) }
{
    let mut list = Vec::new(alloc);
    for change in changes {
        list.push(change_value(alloc, change)?)?;
    }
    Ok(Value::Array(list))
}

fn log_object(alloc: Global, future: Value, past: Value) -> Result<Value, AllocError>
    ensures { IfOk result (λ v. view v ≡ object (member (codes "future") (view future)
        (member (codes "past") (view past) (member (codes "version") (number (unsigned 2)) no_members)))) }
{
    json!(in alloc; {"future": future, "past": past, "version": 2u64})
}

/// A history as JSON, if the bytes of its splices are text and its titles are titles.
#[tactic(auto, unfolding(crate::specs::Log::log_data))]
fn log_value(alloc: Global, history: &History) -> Result<Value, ScriptFault>
    ensures ok { IfOk result (λ v. view v ≡ log_data history.now) }
    ensures text { OnOk result (is_text_history history.now ≡ true) }
    ensures placed { OnOk result ((are_placed history.now.future ≡ true) × (are_placed history.now.past ≡ true)) }
    ensures refused { IfErr result (λ e. e ≢ OutOfMemory → (e ≡ BadLog) × (is_text_history history.now ≡ false)) }
{
    let future = changes_value(alloc, history.future.get())?;
    let past = changes_value(alloc, history.past.get())?;
    Ok(log_object(alloc, future, past)?)
}

/// The log of a history: compact JSON and a line end. Reading it gives that history.
///
/// # Errors
/// The bytes of a splice are not UTF-8, a title is not valid, or out of memory.
pub fn history_text(alloc: Global, history: &History) -> Result<Vec<u8>, ScriptFault>
    ensures text { IfOk result (λ b. log_of history.now ≡ Ok b.items) }
    ensures refused { IfErr result (λ e. e ≢ OutOfMemory → log_of history.now ≡ Err e) }
    ensures reads_back { IfOk result (λ b. logged b.items ≡ Some history.now) }
{
    let value = log_value(alloc, history)?;
    let mut text = value.to_vec(alloc)?;
    text.push(b'\n')?;
    Ok(text)
}

/// The log of a history without changes.
///
/// # Errors
/// Out of memory.
pub fn empty_log(alloc: Global) -> Result<Vec<u8>, ScriptFault>
    ensures text { IfOk result (λ b. b.items ≡ codes "{\"future\":[],\"past\":[],\"version\":2}\n") }
    ensures refused { IfErr result (λ e. e ≡ OutOfMemory) }
{
    history_text(alloc, &History::new(alloc))
}

fn whole_at(value: &Value, name: &str) -> Option<u64>
    ensures { result ≡ whole_at name.now (view value.now) }
{
    value.get(name).and_then(Value::as_u64)
}

pub(crate) fn has_members(value: &Value, count: usize) -> bool
    ensures { result ≡ has_members count (view value.now) }
{
    match value.as_object() {
        Some(members) => members.len() == count,
        None => false,
    }
}

/// The bytes of a text.
fn bytes_of(alloc: Global, text: &str) -> Result<Bytes, AllocError>
    ensures bytes { IfOk result (λ b. b ≡ text.now) }
    ensures text { IfOk result (λ b. is_utf8 b ≡ true) }
{
    Ok(Bytes::of(Vec::from_slice(alloc, text.as_bytes())?))
}

#[tactic(auto, unfolding(crate::specs::Log::splice_of_data))]
fn splice_from(alloc: Global, value: &Value) -> Result<Splice, ScriptFault>
    ensures ok { IfOk result (λ s. splice_of_data (view value.now) ≡ Some s) }
    ensures text { IfOk result (λ s. is_text s ≡ true) }
    ensures refused { IfErr result (λ e. e ≢ OutOfMemory → (e ≡ BadLog) × (splice_of_data (view value.now) ≡ None)) }
{
    if !has_members(value, 4) {
        return Err(ScriptFault::BadLog);
    }
    let Some(at) = whole_at(value, "at") else {
        return Err(ScriptFault::BadLog);
    };
    let Some(file) = text_at(value, "file") else {
        return Err(ScriptFault::BadLog);
    };
    let Some(now) = text_at(value, "now") else {
        return Err(ScriptFault::BadLog);
    };
    let Some(was) = text_at(value, "was") else {
        return Err(ScriptFault::BadLog);
    };
    Ok(Splice {
        file: owned(alloc, file)?,
        at: at as usize,
        was: bytes_of(alloc, was)?,
        now: bytes_of(alloc, now)?,
    })
}

fn splices_from(alloc: Global, list: &[Value]) -> Result<Many<Splice>, ScriptFault>
    ensures ok { IfOk result (λ ss. each_of splice_of_data (items_view list.now) ≡ Some ss) }
    ensures text { IfOk result (λ ss. list_all is_text ss ≡ true) }
    ensures refused { IfErr result (λ e. e ≢ OutOfMemory → (e ≡ BadLog) × (each_of splice_of_data (items_view list.now) ≡ None)) }
{
    let mut splices = Vec::new(alloc);
    for value in list {
        let splice = splice_from(alloc, value)?;
        splices.push(splice)?;
    }
    Ok(Many::of(splices))
}

/// A change of the first version.
fn bare_change(alloc: Global, value: &Value) -> Result<Change, ScriptFault>
    ensures ok { IfOk result (λ c. change_of Bare (view value.now) ≡ Some c) }
    ensures text { IfOk result (λ c. change_has_text c ≡ true) }
    ensures refused { IfErr result (λ e. e ≢ OutOfMemory → (e ≡ BadLog) × (change_of Bare (view value.now) ≡ None)) }
{
    let Some(list) = value.as_array() else {
        return Err(ScriptFault::BadLog);
    };
    let splices = splices_from(alloc, list)?;
    Ok(Change::untitled(alloc, splices))
}

/// A change of the second version.
#[tactic(auto, unfolding(crate::specs::Log::titled_change_of))]
fn titled_change(alloc: Global, value: &Value) -> Result<Change, ScriptFault>
    ensures ok { IfOk result (λ c. titled_change_of (view value.now) ≡ Some c) }
    ensures text { IfOk result (λ c. change_has_text c ≡ true) }
    ensures refused { IfErr result (λ e. e ≢ OutOfMemory → (e ≡ BadLog) × (titled_change_of (view value.now) ≡ None)) }
{
    if !has_members(value, 2) {
        return Err(ScriptFault::BadLog);
    }
    let Some(list) = value.get("splices").and_then(Value::as_array) else {
        return Err(ScriptFault::BadLog);
    };
    let splices = splices_from(alloc, list)?;
    let Some(title) = text_at(value, "title") else {
        return Err(ScriptFault::BadLog);
    };
    if !is_title(title) {
        return Err(ScriptFault::BadLog);
    }
    Ok(Change {
        splices,
        title: owned(alloc, title)?,
    })
}

fn change_from(alloc: Global, version: Version, value: &Value) -> Result<Change, ScriptFault>
    ensures ok { IfOk result (λ c. change_of version (view value.now) ≡ Some c) }
    ensures text { IfOk result (λ c. change_has_text c ≡ true) }
    ensures refused { IfErr result (λ e. e ≢ OutOfMemory → (e ≡ BadLog) × (change_of version (view value.now) ≡ None)) }
{
    match version {
        Version::Bare => bare_change(alloc, value),
        Version::Titled => titled_change(alloc, value),
    }
}

fn changes_from(
    alloc: Global,
    version: Version,
    list: &[Value],
) -> Result<Many<Change>, ScriptFault>
    ensures ok { IfOk result (λ cs. each_of (change_of version) (items_view list.now) ≡ Some cs) }
    ensures text { IfOk result (λ cs. are_text cs ≡ true) }
    ensures refused { IfErr result (λ e. e ≢ OutOfMemory → (e ≡ BadLog) × (each_of (change_of version) (items_view list.now) ≡ None)) }
{
    let mut changes = Vec::new(alloc);
    for value in list {
        let change = change_from(alloc, version, value)?;
        changes.push(change)?;
    }
    Ok(Many::of(changes))
}

fn changes_at(
    alloc: Global,
    version: Version,
    value: &Value,
    name: &str,
) -> Result<Many<Change>, ScriptFault>
    ensures ok { IfOk result (λ cs. changes_at version name.now (view value.now) ≡ Some cs) }
    ensures text { IfOk result (λ cs. are_text cs ≡ true) }
    ensures refused { IfErr result (λ e. e ≢ OutOfMemory → (e ≡ BadLog) × (changes_at version name.now (view value.now) ≡ None)) }
{
    let Some(list) = value.get(name).and_then(Value::as_array) else {
        return Err(ScriptFault::BadLog);
    };
    changes_from(alloc, version, list)
}

#[tactic(auto, unfolding(crate::specs::Log::history_of))]
fn history_from(alloc: Global, value: &Value) -> Result<History, ScriptFault>
    ensures ok { IfOk result (λ h. history_of (view value.now) ≡ Some h) }
    ensures text { IfOk result (λ h. is_text_history h ≡ true) }
    ensures refused { IfErr result (λ e. e ≢ OutOfMemory → (e ≡ BadLog) × (history_of (view value.now) ≡ None)) }
{
    if !has_members(value, 3) {
        return Err(ScriptFault::BadLog);
    }
    let Some(number) = whole_at(value, "version") else {
        return Err(ScriptFault::BadLog);
    };
    let Some(version) = version_of(number) else {
        return Err(ScriptFault::BadLog);
    };
    let future = changes_at(alloc, version, value, "future")?;
    let past = changes_at(alloc, version, value, "past")?;
    Ok(History { past, future })
}

/// The history of a log.
///
/// # Errors
/// The bytes are not a valid log, or out of memory.
#[tactic(auto, unfolding(crate::specs::Log::logged))]
pub fn read_log(alloc: Global, bytes: &[u8]) -> Result<History, ScriptFault>
    ensures ok { IfOk result (λ h. logged bytes.now ≡ Some h) }
    ensures text { IfOk result (λ h. is_text_history h ≡ true) }
    ensures refused { IfErr result (λ e. e ≢ OutOfMemory → (e ≡ BadLog) × (logged bytes.now ≡ None)) }
{
    match Value::from_slice(alloc, bytes) {
        Ok(value) => history_from(alloc, &value),
        Err(error) => match ScriptFault::from(error) {
            // What is not JSON is not a log.
            ScriptFault::NotJson => Err(ScriptFault::BadLog),
            fault => Err(fault),
        },
    }
}
