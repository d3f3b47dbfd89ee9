//! Notes of the keys of keyword arguments.

ghost use Rattle.std.specs.Prelude.{◌≡◌, IfOk, find, flat_map, map, option_map, string_bytes};
ghost use Rattle.meson_explaining.specs.Keys.{after_space, is_edits, keys, kind_words, nearest_key, role_words, unknown_notes, wrong_notes};

use crate::calls::plain_note;
use crate::distance;
use crate::explanation::Note;
use crate::nearest::MOST_BYTES;
use meson_calls::keys::{is_identifier_list_key, is_switch_key, is_text_key, is_text_list_key};
use meson_plan::Role;
use std::alloc::{AllocError, Global};

const PROJECT_KEYS: [&str; 5] = [
    "version",
    "meson_version",
    "subproject_dir",
    "license",
    "default_options",
];

const DEPENDENCY_KEYS: [&str; 8] = [
    "language",
    "method",
    "not_found_message",
    "native",
    "required",
    "static",
    "version",
    "modules",
];

const TARGET_KEYS: [&str; 11] = [
    "build_rpath",
    "install_dir",
    "install_rpath",
    "build_by_default",
    "export_dynamic",
    "gui_app",
    "implib",
    "install",
    "pie",
    "dependencies",
    "link_with",
];

/// The keys of the keyword arguments that commands change in calls of a role.
pub(crate) fn keys(role: Role) -> &'static [&'static str]
    ensures { map (λ k. k.now) result.now ≡ keys role }
{
    match role {
        Role::Project => &PROJECT_KEYS,
        Role::Dependency => &DEPENDENCY_KEYS,
        Role::Target => &TARGET_KEYS,
    }
}

/// The first of some keys that is so many edits away from a key.
fn key_at<'k>(
    alloc: Global,
    key: &str,
    edits: usize,
    keys: &[&'k str],
) -> Result<Option<&'k str>, AllocError>
    ensures { IfOk result (λ found. option_map (λ k. k.now) found ≡ find (is_edits key.now edits) (map (λ k. k.now) keys.entry.now)) }
{
    for i in 0..keys.len() {
        if distance::edits(alloc, key, keys[i])? == edits {
            return Ok(Some(keys[i]));
        }
    }
    Ok(None)
}

/// The first of the keys that are nearest to a key, up to a third of its length away.
pub(crate) fn nearest_key<'k>(
    alloc: Global,
    key: &str,
    keys: &[&'k str],
) -> Result<Option<&'k str>, AllocError>
    ensures { IfOk result (λ found. option_map (λ k. k.now) found ≡ nearest_key key.now (map (λ k. k.now) keys.entry.now)) }
{
    if key.len() > MOST_BYTES {
        return Ok(None);
    }
    for edits in 0..key.len() / 3 + 1 {
        if let Some(found) = key_at(alloc, key, edits, keys)? {
            return Ok(Some(found));
        }
    }
    Ok(None)
}

fn role_words(role: Role) -> &'static str
    ensures { result.now ≡ role_words role }
{
    match role {
        Role::Project => "the project",
        Role::Dependency => "a dependency",
        Role::Target => "a target",
    }
}

/// Some keys, with a space before each.
fn listed(alloc: Global, keys: &[&str]) -> Result<String, AllocError>
    ensures { IfOk result (λ text. string_bytes text ≡ flat_map after_space (map (λ k. k.now) keys.now)) }
{
    let mut text = String::new(alloc);
    for i in 0..keys.len() {
        text.push_str(" ")?;
        text.push_str(keys[i])?;
    }
    Ok(text)
}

/// The notes where commands do not change a key in calls of a role.
pub(crate) fn unknown_notes(alloc: Global, role: Role, key: &str) -> Result<Vec<Note>, AllocError>
    ensures { IfOk result (λ notes. notes.items ≡ unknown_notes role key.now) }
{
    let role_words = role_words(role);
    let unknown = format!(in alloc; "kwargs does not change the key {key} of {role_words}")?;
    let keys = listed(alloc, keys(role))?;
    let known = format!(in alloc; "keys that it changes there:{keys}")?;
    let mut notes = Vec::new(alloc);
    notes.push(plain_note(unknown))?;
    notes.push(plain_note(known))?;
    Ok(notes)
}

/// What a key takes as its value.
fn kind_words(role: Role, key: &str) -> &'static str
    ensures { result.now ≡ kind_words role key.now }
{
    let name = key.as_bytes();
    if is_text_key(role, name) {
        return "one text";
    }
    if is_switch_key(role, name) {
        return "true or false";
    }
    if is_text_list_key(role, name) {
        return "a list of texts";
    }
    if is_identifier_list_key(role, name) {
        return "a list of variables";
    }
    "a function that makes targets, as executable or library"
}

/// The note where a value is not of the kind that a key takes.
pub(crate) fn wrong_notes(alloc: Global, role: Role, key: &str) -> Result<Vec<Note>, AllocError>
    ensures { IfOk result (λ notes. notes.items ≡ wrong_notes role key.now) }
{
    let kind = kind_words(role, key);
    let text = format!(in alloc; "{key} takes {kind}")?;
    let mut notes = Vec::new(alloc);
    notes.push(plain_note(text))?;
    Ok(notes)
}
