//! The text that is written for the value of a keyword argument.

ghost use Rattle.std.specs.Prelude.{◌≡◌, ◌++◌, ◌∷◌, [], All, IfErr, IfOk, Ok, OnOk, codes, map, option_map};
ghost use Rattle.std.specs.Str.{IsUtf8};
ghost use Rattle.meson_calls.specs.Refusals.{RefusedAs};
ghost use Rattle.meson_lex.specs.Literals.{literal};
ghost use Rattle.meson_keywords.specs.ValueKinds.{element_bytes, list_values, setting_texts, truth_text, truth_of, written_value};
ghost use Rattle.meson_steps.specs.inside.WrittenValues.{IsSet};
ghost use Rattle.meson_steps.specs.WrittenTexts.{comma_between};
ghost use Rattle.meson_keywords.specs.Tasking.{AreElements};

use crate::value_kinds::{ElementKind, ValueKind, are_elements};
use meson_calls::Refusal;
use meson_splice::{Bytes, Text};
use meson_steps::command::Setting;
use meson_steps::literals::{key_of, push_literal, written_text};
use std::alloc::{AllocError, Global};

/// Writes an element of a list after what is there.
fn push_element(
    alloc: Global,
    to: &mut Vec<u8>,
    kind: ElementKind,
    text: &Text,
) -> Result<(), Refusal>
    ensures done { OnOk result (to.new.items ≡ to.old.items ++ element_bytes kind text.now) }
    ensures utf8 { IsUtf8 text.now }
    ensures refused { IfErr result (λ e. e ≡ Refusal.OutOfMemory) }
{
    let text = text.get();
    match kind {
        ElementKind::Text => push_literal(alloc, to, text),
        ElementKind::Identifier => {
            to.extend_from_slice(text.as_bytes())?;
            Ok(())
        }
    }
}

/// The text that is written for one element.
pub(crate) fn written_element(
    alloc: Global,
    kind: ElementKind,
    text: &Text,
) -> Result<Bytes, Refusal>
    ensures done { IfOk result (λ b. b ≡ element_bytes kind text.now) }
    ensures utf8 { IsUtf8 text.now }
    ensures refused { IfErr result (λ e. e ≡ Refusal.OutOfMemory) }
{
    let mut out = Vec::new(alloc);
    push_element(alloc, &mut out, kind, text)?;
    Ok(Bytes::of(out))
}

/// The text that is written for a list of elements.
pub(crate) fn written_list(
    alloc: Global,
    kind: ElementKind,
    texts: &[&Text],
) -> Result<Bytes, Refusal>
    ensures done { IfOk result (λ b. b ≡ 91 ∷ (comma_between (map (element_bytes kind) (map (λ x. x.now) texts.now)) ++ 93 ∷ [])) }
    ensures utf8 { IfOk result (λ b. All IsUtf8 (map (λ x. x.now) texts.now)) }
    ensures refused { IfErr result (λ e. e ≡ Refusal.OutOfMemory) }
{
    let mut out = Vec::new(alloc);
    out.extend_from_slice(b"[")?;
    for i in 0..texts.len() {
        if i > 0 {
            out.extend_from_slice(b", ")?;
        }
        push_element(alloc, &mut out, kind, texts[i])?;
    }
    out.extend_from_slice(b"]")?;
    Ok(Bytes::of(out))
}

/// `KEY: VALUE`.
pub(crate) fn written_named(alloc: Global, key: &[u8], value: &Bytes) -> Result<Bytes, AllocError>
    ensures { IfOk result (λ b. b ≡ key.now ++ (codes ": " ++ value.now)) }
{
    let mut out = Vec::new(alloc);
    out.extend_from_slice(key)?;
    out.extend_from_slice(b": ")?;
    out.extend_from_slice(value.get())?;
    Ok(Bytes::of(out))
}

/// `'TEXT'`.
pub(crate) fn written_literal(alloc: Global, text: &str) -> Result<Bytes, Refusal>
    ensures done { IfOk result (λ b. b ≡ literal text.now) }
    ensures refused { IfErr result (λ e. e ≡ Refusal.OutOfMemory) }
{
    let mut out = Vec::new(alloc);
    push_literal(alloc, &mut out, text)?;
    Ok(Bytes::of(out))
}

/// `'NAME': 'VALUE'`.
pub(crate) fn written_pair(alloc: Global, name: &Text, value: &str) -> Result<Bytes, Refusal>
    ensures done { IfOk result (λ b. b ≡ literal name.now ++ (codes ": " ++ literal value.now)) }
    ensures refused { IfErr result (λ e. e ≡ Refusal.OutOfMemory) }
{
    let mut out = Vec::new(alloc);
    push_literal(alloc, &mut out, name.get())?;
    out.extend_from_slice(b": ")?;
    push_literal(alloc, &mut out, value)?;
    Ok(Bytes::of(out))
}

/// The value to which a switch is set.
fn truth_of(setting: &Setting) -> Option<bool>
    ensures { result ≡ truth_of setting.now }
{
    match setting {
        Setting::Text(text) => {
            if text.get() == "true" {
                return Some(true);
            }
            if text.get() == "false" {
                return Some(false);
            }
            None
        }
        Setting::Bool(truth) => Some(*truth),
        Setting::Texts(_) => None,
    }
}

/// `true` or `false`.
fn written_switch(alloc: Global, yes: bool) -> Result<Bytes, AllocError>
    ensures { IfOk result (λ b. b ≡ truth_text yes) }
{
    let mut out = Vec::new(alloc);
    if yes {
        out.extend_from_slice(b"true")?;
    } else {
        out.extend_from_slice(b"false")?;
    }
    Ok(Bytes::of(out))
}

/// The values for a list: one text is a list of one.
fn texts_of<'c>(alloc: Global, setting: &'c Setting) -> Result<Option<Vec<&'c Text>>, AllocError>
    ensures { IfOk result (λ o. option_map (λ v. map (λ x. x.now) v.items) o ≡ setting_texts setting.now) }
{
    let mut all = Vec::new(alloc);
    match setting {
        Setting::Text(text) => all.push(text)?,
        Setting::Bool(_) => return Ok(None),
        Setting::Texts(texts) => {
            let texts = texts.get();
            for i in 0..texts.len() {
                all.push(&texts[i])?;
            }
        }
    }
    Ok(Some(all))
}

/// The elements that a list gets.
///
/// # Errors
/// The value is not one for a list, or one of its elements is not of the kind, or out of memory.
pub(crate) fn list_values<'c>(
    alloc: Global,
    kind: ElementKind,
    key: &Text,
    setting: &'c Setting,
) -> Result<Vec<&'c Text>, Refusal>
    ensures found { IfOk result (λ v. list_values kind key.now setting.now ≡ Ok (map (λ x. x.now) v.items)) }
    ensures good { IfOk result (λ v. AreElements kind (map (λ x. x.now) v.items)) }
    ensures refused { RefusedAs result (list_values kind key.now setting.now) }
{
    let Some(texts) = texts_of(alloc, setting)? else {
        return Err(Refusal::WrongKind(key_of(key)?));
    };
    if !are_elements(kind, texts.as_slice()) {
        return Err(Refusal::BadName);
    }
    Ok(texts)
}

/// The text that is written for a value of a keyword argument that is one text.
///
/// # Errors
/// The value is not a text, or out of memory.
fn text_value(alloc: Global, key: &Text, setting: &Setting) -> Result<Bytes, Refusal>
    ensures done { IfOk result (IsSet (written_value ValueKind.Text key.now setting.now)) }
    ensures refused { RefusedAs result (written_value ValueKind.Text key.now setting.now) }
{
    match setting {
        Setting::Text(text) => written_text(alloc, text),
        Setting::Bool(_) => Err(Refusal::WrongKind(key_of(key)?)),
        Setting::Texts(_) => Err(Refusal::WrongKind(key_of(key)?)),
    }
}

/// The text that is written for one that is `true` or `false`.
///
/// # Errors
/// The value is neither, or out of memory.
fn switch_value(alloc: Global, key: &Text, setting: &Setting) -> Result<Bytes, Refusal>
    ensures done { IfOk result (IsSet (written_value ValueKind.Switch key.now setting.now)) }
    ensures refused { RefusedAs result (written_value ValueKind.Switch key.now setting.now) }
{
    match truth_of(setting) {
        Some(truth) => {
            let written = written_switch(alloc, truth)?;
            Ok(written)
        }
        None => Err(Refusal::WrongKind(key_of(key)?)),
    }
}

/// The text that is written for one that is a list.
///
/// # Errors
/// The value is not one for such a list, or out of memory.
fn list_value(
    alloc: Global,
    kind: ElementKind,
    key: &Text,
    setting: &Setting,
) -> Result<Bytes, Refusal>
    ensures done { IfOk result (IsSet (written_value (ValueKind.ListOf kind) key.now setting.now)) }
    ensures refused { RefusedAs result (written_value (ValueKind.ListOf kind) key.now setting.now) }
{
    let texts = list_values(alloc, kind, key, setting)?;
    written_list(alloc, kind, texts.as_slice())
}

/// The text that is written for a value of a keyword argument.
///
/// # Errors
/// It can't have such a value, or out of memory.
pub(crate) fn written_value(
    alloc: Global,
    kind: ValueKind,
    key: &Text,
    setting: &Setting,
) -> Result<Bytes, Refusal>
    ensures done { IfOk result (IsSet (written_value kind key.now setting.now)) }
    ensures refused { RefusedAs result (written_value kind key.now setting.now) }
{
    match kind {
        ValueKind::Text => text_value(alloc, key, setting),
        ValueKind::Switch => switch_value(alloc, key, setting),
        ValueKind::ListOf(element) => list_value(alloc, element, key, setting),
    }
}
