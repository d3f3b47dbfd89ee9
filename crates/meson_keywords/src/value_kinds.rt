//! The kinds of the values of keyword arguments.

ghost use Rattle.std.specs.Prelude.{◌≡◌, ◌∷◌, [], IfOk, Ok, map, true};
ghost use Rattle.std.specs.Str.{IsUtf8};
ghost use Rattle.meson_keywords.specs.ValueKinds.{are_elements, key_kind, list_kind};
ghost use Rattle.meson_calls.specs.Refusals.{RefusedAs};
ghost use Rattle.meson_keywords.specs.Tasking.{AreElements, IsKey};

use meson_calls::keys::{is_identifier_list_key, is_switch_key, is_text_key, is_text_list_key};
use meson_calls::{Refusal, Role};
use meson_splice::Text;
use meson_steps::literals::key_of;

/// What the elements of a list are.
#[derive(Clone, Copy)]
pub(crate) enum ElementKind {
    Text,
    Identifier,
}

/// What the value of a keyword argument is.
#[derive(Clone, Copy)]
pub(crate) enum ValueKind {
    Text,
    Switch,
    ListOf(ElementKind),
}

/// The kind of the values of a keyword argument.
///
/// # Errors
/// Commands don't change it in such a call, or out of memory.
pub(crate) fn kind_of(role: Role, key: &Text) -> Result<ValueKind, Refusal>
    ensures found { IfOk result (λ k. key_kind role key.now ≡ Ok k) }
    ensures key { IfOk result (λ k. IsKey key.now) }
    ensures refused { RefusedAs result (key_kind role key.now) }
{
    let name = key.get().as_bytes();
    if is_text_key(role, name) {
        return Ok(ValueKind::Text);
    }
    if is_switch_key(role, name) {
        return Ok(ValueKind::Switch);
    }
    if is_text_list_key(role, name) {
        return Ok(ValueKind::ListOf(ElementKind::Text));
    }
    if is_identifier_list_key(role, name) {
        return Ok(ValueKind::ListOf(ElementKind::Identifier));
    }
    Err(Refusal::UnknownKey(key_of(key)?))
}

/// What the elements are, of a kind that is a list.
///
/// # Errors
/// The kind is not a list, or out of memory.
pub(crate) fn list_kind(key: &Text, kind: ValueKind) -> Result<ElementKind, Refusal>
    ensures found { IfOk result (λ e. list_kind key.now kind ≡ Ok e) }
    ensures refused { RefusedAs result (list_kind key.now kind) }
{
    match kind {
        ValueKind::Text => Err(Refusal::WrongKind(key_of(key)?)),
        ValueKind::Switch => Err(Refusal::WrongKind(key_of(key)?)),
        ValueKind::ListOf(element) => Ok(element),
    }
}

/// Whether a text may be an element of a list.
fn is_element(kind: ElementKind, text: &Text) -> bool
    ensures known { result ≡ are_elements kind (text.now ∷ []) }
    ensures utf8 { IsUtf8 text.now }
{
    let text = text.get();
    match kind {
        ElementKind::Text => true,
        ElementKind::Identifier => meson_lex::is_identifier(text),
    }
}

/// Whether texts may be the elements of a list.
pub(crate) fn are_elements(kind: ElementKind, texts: &[&Text]) -> bool
    ensures known { result ≡ are_elements kind (map (λ x. x.now) texts.now) }
    ensures good { result ≡ true → AreElements kind (map (λ x. x.now) texts.now) }
{
    for i in 0..texts.len() {
        if !is_element(kind, texts[i]) {
            return false;
        }
    }
    true
}
