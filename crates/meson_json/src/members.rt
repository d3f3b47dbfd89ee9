//! The members of an entry of a script.

ghost use Rattle.std.specs.Prelude.{◌≡◌, ◌≢◌, [], Err, IfErr, IfOk, Ok, option_and_then, option_map};
ghost use Rattle.serde_json.specs.Find.{as_array, as_object, as_str, get};
ghost use Rattle.serde_json.specs.View.{items_view, members_view, view};
ghost use Rattle.meson_json.specs.Each.{each_member, each_of, names_of_members};
ghost use Rattle.meson_json.specs.Members.{member_text};
ghost use Rattle.meson_json.specs.Scripts.{flag_at, folder_at, given, required_text, sorted_unless};
ghost use Rattle.meson_json.specs.Settings.{given_value, option_value, setting_of};
ghost use Rattle.meson_json.specs.declared.fault.ScriptFault.TheVariants.{BadField, OutOfMemory};

use crate::fault::ScriptFault;
use meson_splice::{Many, Text};
use meson_steps::code::Code;
use meson_steps::command::Setting;
use meson_steps::given::Given;
use serde_json::{Map, Value};
use std::alloc::{AllocError, Global};

pub(crate) fn text_at<'a>(value: &'a Value, name: &str) -> Option<&'a str>
    ensures { option_map (λ s. s.now) result ≡ member_text name.now (view value.now) }
{
    value.get(name).and_then(Value::as_str)
}

/// A copy of a text.
pub fn owned(alloc: Global, text: &str) -> Result<Text, AllocError>
    ensures { IfOk result (λ t. t ≡ text.now) }
{
    Ok(Text::of(String::from_str(alloc, text)?))
}

/// The fault that the member of this name is missing or of another kind.
pub(crate) fn bad_field(alloc: Global, index: usize, name: &str) -> Result<ScriptFault, AllocError>
    ensures { IfOk result (λ fault. fault ≡ BadField index name.now) }
{
    Ok(ScriptFault::BadField(index, owned(alloc, name)?))
}

pub(crate) fn required_text(
    alloc: Global,
    index: usize,
    entry: &Value,
    name: &str,
) -> Result<Text, ScriptFault>
    ensures ok { IfOk result (λ t. required_text index name.now (view entry.now) ≡ Ok t) }
    ensures refused { IfErr result (λ e. e ≢ OutOfMemory → required_text index name.now (view entry.now) ≡ Err e) }
{
    match text_at(entry, name) {
        Some(text) => Ok(owned(alloc, text)?),
        None => Err(bad_field(alloc, index, name)?),
    }
}

pub(crate) fn text_or(
    alloc: Global,
    index: usize,
    entry: &Value,
    name: &str,
    otherwise: &str,
) -> Result<Text, ScriptFault>
    ensures ok { IfOk result (λ t. given as_str index name.now otherwise.now (get name.now (view entry.now)) ≡ Ok t) }
    ensures refused { IfErr result (λ e. e ≢ OutOfMemory → given as_str index name.now otherwise.now (get name.now (view entry.now)) ≡ Err e) }
{
    let Some(member) = entry.get(name) else {
        return Ok(owned(alloc, otherwise)?);
    };
    match member.as_str() {
        Some(text) => Ok(owned(alloc, text)?),
        None => Err(bad_field(alloc, index, name)?),
    }
}

/// The folder of an entry, if it names one.
pub(crate) fn folder_at(
    alloc: Global,
    index: usize,
    entry: &Value,
) -> Result<Option<Text>, ScriptFault>
    ensures ok { IfOk result (λ f. folder_at index (view entry.now) ≡ Ok f) }
    ensures refused { IfErr result (λ e. e ≢ OutOfMemory → folder_at index (view entry.now) ≡ Err e) }
{
    let Some(member) = entry.get("in") else {
        return Ok(None);
    };
    match member.as_str() {
        Some(folder) => Ok(Some(owned(alloc, folder)?)),
        None => Err(bad_field(alloc, index, "in")?),
    }
}

/// The truth value of this name, or `false` if the entry has no such member.
pub(crate) fn flag_at(
    alloc: Global,
    index: usize,
    entry: &Value,
    name: &str,
) -> Result<bool, ScriptFault>
    ensures ok { IfOk result (λ b. flag_at index name.now (view entry.now) ≡ Ok b) }
    ensures refused { IfErr result (λ e. e ≢ OutOfMemory → flag_at index name.now (view entry.now) ≡ Err e) }
{
    let Some(member) = entry.get(name) else {
        return Ok(false);
    };
    match member.as_bool() {
        Some(flag) => Ok(flag),
        None => Err(bad_field(alloc, index, name)?),
    }
}

/// Whether the member `sorted` of an entry is `true`. It may not be so where something else says where values go.
pub(crate) fn sorted_unless(
    alloc: Global,
    index: usize,
    placed: bool,
    entry: &Value,
) -> Result<bool, ScriptFault>
    ensures ok { IfOk result (λ b. sorted_unless index placed (view entry.now) ≡ Ok b) }
    ensures refused { IfErr result (λ e. e ≢ OutOfMemory → sorted_unless index placed (view entry.now) ≡ Err e) }
{
    let sorted = flag_at(alloc, index, entry, "sorted")?;
    if sorted && placed {
        return Err(bad_field(alloc, index, "sorted")?);
    }
    Ok(sorted)
}

/// The texts of an array that holds nothing else.
pub(crate) fn texts(alloc: Global, list: &[Value]) -> Result<Option<Many<Text>>, AllocError>
    ensures { IfOk result (λ o. o ≡ each_of as_str (items_view list.now)) }
{
    let mut all = Vec::new(alloc);
    for value in list {
        let Some(text) = value.as_str() else {
            return Ok(None);
        };
        all.push(owned(alloc, text)?)?;
    }
    Ok(Some(Many::of(all)))
}

pub(crate) fn texts_or_none(
    alloc: Global,
    index: usize,
    entry: &Value,
    name: &str,
) -> Result<Many<Text>, ScriptFault>
    ensures ok { IfOk result (λ ts. given (λ d. option_and_then (each_of as_str) (as_array d)) index name.now [] (get name.now (view entry.now)) ≡ Ok ts) }
    ensures refused { IfErr result (λ e. e ≢ OutOfMemory
        → given (λ d. option_and_then (each_of as_str) (as_array d)) index name.now [] (get name.now (view entry.now)) ≡ Err e) }
{
    let Some(member) = entry.get(name) else {
        return Ok(Many::new(alloc));
    };
    let Some(list) = member.as_array() else {
        return Err(bad_field(alloc, index, name)?);
    };
    match texts(alloc, list)? {
        Some(all) => Ok(all),
        None => Err(bad_field(alloc, index, name)?),
    }
}

/// The object of this name, or another one if the entry has no such member.
pub(crate) fn members_or<'a>(
    alloc: Global,
    index: usize,
    entry: &'a Value,
    name: &str,
    otherwise: &'a Map<String, Value>,
) -> Result<&'a Map<String, Value>, ScriptFault>
    ensures ok { IfOk result (λ m. given as_object index name.now (members_view otherwise.now.entries) (get name.now (view entry.now))
        ≡ Ok (members_view m.now.entries)) }
    ensures refused { IfErr result (λ e. e ≢ OutOfMemory
        → given as_object index name.now (members_view otherwise.now.entries) (get name.now (view entry.now)) ≡ Err e) }
{
    let Some(member) = entry.get(name) else {
        return Ok(otherwise);
    };
    match member.as_object() {
        Some(members) => Ok(members),
        None => Err(bad_field(alloc, index, name)?),
    }
}

/// The value of a keyword argument, if it is a text, `true`, `false` or an array of texts.
fn setting(alloc: Global, value: &Value) -> Result<Option<Setting>, AllocError>
    ensures { IfOk result (λ o. o ≡ setting_of (view value.now)) }
{
    match value {
        Value::String(text) => Ok(Some(Setting::Text(owned(alloc, text.as_str())?))),
        Value::Bool(flag) => Ok(Some(Setting::Bool(*flag))),
        Value::Array(list) => Ok(texts(alloc, list)?.map(Setting::Texts)),
        Value::Null | Value::Number(_) | Value::Object(_) => Ok(None),
    }
}

/// A value that is given: a text, `true`, `false`, or the code of an object's member `code`.
pub(crate) fn given_value(alloc: Global, value: &Value) -> Result<Option<Given>, AllocError>
    ensures { IfOk result (λ o. o ≡ given_value (view value.now)) }
{
    match value {
        Value::String(text) => Ok(Some(Given::Text(owned(alloc, text.as_str())?))),
        Value::Bool(flag) => Ok(Some(Given::Switch(*flag))),
        Value::Object(_) => match text_at(value, "code") {
            Some(code) => Ok(Code::of(alloc, code)?.map(Given::Code)),
            None => Ok(None),
        },
        Value::Null | Value::Number(_) | Value::Array(_) => Ok(None),
    }
}

/// The values of an array, if all of its elements are such values.
pub(crate) fn given_values(alloc: Global, list: &[Value]) -> Result<Option<Vec<Given>>, AllocError>
    ensures { IfOk result (λ o. option_map (λ v. v.items) o ≡ each_of given_value (items_view list.now)) }
{
    let mut all = Vec::new(alloc);
    for value in list {
        let Some(given) = given_value(alloc, value)? else {
            return Ok(None);
        };
        all.push(given)?;
    }
    Ok(Some(all))
}

/// The value of an option, if it is a text, `true`, `false` or a whole number of 64 bits with sign.
fn option_text(alloc: Global, value: &Value) -> Result<Option<Text>, AllocError>
    ensures { IfOk result (λ o. o ≡ option_value (view value.now)) }
{
    match value {
        Value::String(text) => Ok(Some(owned(alloc, text.as_str())?)),
        Value::Bool(true) => Ok(Some(owned(alloc, "true")?)),
        Value::Bool(false) => Ok(Some(owned(alloc, "false")?)),
        Value::Number(number) => match number.as_i64() {
            Some(whole) => Ok(Some(Text::of(format!(in alloc; "{whole}")?))),
            None => Ok(None),
        },
        Value::Null | Value::Array(_) | Value::Object(_) => Ok(None),
    }
}

/// Each name with its value as that of a keyword argument, if all are such values.
pub(crate) fn settings(
    alloc: Global,
    members: &Map<String, Value>,
) -> Result<Option<Many<(Text, Setting)>>, AllocError>
    ensures { IfOk result (λ o. o ≡ each_member setting_of (members_view members.now.entries)) }
{
    let mut pairs = Vec::new(alloc);
    for (name, value) in members.iter() {
        let Some(setting) = setting(alloc, value)? else {
            return Ok(None);
        };
        pairs.push((owned(alloc, name.as_str())?, setting))?;
    }
    Ok(Some(Many::of(pairs)))
}

/// Each name with its value as that of an option, if all are such values.
pub(crate) fn option_texts(
    alloc: Global,
    members: &Map<String, Value>,
) -> Result<Option<Many<(Text, Text)>>, AllocError>
    ensures { IfOk result (λ o. o ≡ each_member option_value (members_view members.now.entries)) }
{
    let mut pairs = Vec::new(alloc);
    for (name, value) in members.iter() {
        let Some(text) = option_text(alloc, value)? else {
            return Ok(None);
        };
        pairs.push((owned(alloc, name.as_str())?, text))?;
    }
    Ok(Some(Many::of(pairs)))
}

pub(crate) fn names(alloc: Global, members: &Map<String, Value>) -> Result<Many<Text>, AllocError>
    ensures { IfOk result (λ names. names ≡ names_of_members (members_view members.now.entries)) }
{
    let mut names = Vec::new(alloc);
    for (name, _) in members.iter() {
        names.push(owned(alloc, name.as_str())?)?;
    }
    Ok(Many::of(names))
}
