//! Names of variables that `kwargs set` or `kwargs add` writes, and that no build file sets.

ghost use Rattle.std.specs.Prelude.{◌≡◌, ◌++◌, IfOk, OnOk, flat_map, map, string_bytes};
ghost use Rattle.std.specs.List.{list_any};
ghost use Rattle.meson_calls.specs.Notes.{note_view, note_views};
ghost use Rattle.meson_calls.specs.Searching.{name_at};
ghost use Rattle.meson_warnings.specs.UnsetNames.{assigns, is_assigned, is_set, names_in, texts_in, unset_among, unset_at, unset_names};
ghost use Rattle.meson_warnings.specs.UnsetNames.{unset_note, unset_words};

use crate::known::{names_one, setters_known};
use crate::left_variables::add_texts;
use meson_calls::keys::is_identifier_list_key;
use meson_calls::note::What;
use meson_calls::notes::notes_of;
use meson_calls::roles::text_of;
use meson_explaining::Note;
use meson_explaining::calls::add_each;
use meson_explaining::subject::Subject;
use meson_inventory::holdings::{HeldCall, calls_held, calls_named};
use meson_plan::{Project, Role};
use meson_splice::Text;
use meson_steps::command::Setting;
use meson_steps::names::distinct;
use meson_variables::setters::one_of;
use std::alloc::{AllocError, Global};

/// The most names that are looked for.
const MOST_NAMES: usize = 100;

/// Adds the texts of a value.
fn add_texts_in(names: &mut Vec<Text>, value: &Setting) -> Result<(), AllocError>
    ensures { OnOk result (names.new.items ≡ names.old.items ++ texts_in value.now) }
{
    match value {
        Setting::Text(text) => {
            names.push(text.clone()?)?;
            Ok(())
        }
        Setting::Bool(_) => Ok(()),
        Setting::Texts(texts) => add_texts(names, texts.get()),
    }
}

/// Adds the names of a value, if that is a list of variables.
fn add_names_in(
    names: &mut Vec<Text>,
    role: Role,
    key: &str,
    value: &Setting,
) -> Result<(), AllocError>
    ensures { OnOk result (names.new.items ≡ names.old.items ++ names_in role (key.now, value.now)) }
{
    if !is_identifier_list_key(role, key.as_bytes()) {
        return Ok(());
    }
    add_texts_in(names, value)
}

/// The names of variables that are written.
fn all_names(alloc: Global, role: Role, pairs: &[(Text, Setting)]) -> Result<Vec<Text>, AllocError>
    ensures { IfOk result (λ names. names.items ≡ flat_map (names_in role) pairs.now) }
{
    let mut names = Vec::new(alloc);
    for (key, value) in pairs {
        add_names_in(&mut names, role, key.get(), value)?;
    }
    Ok(names)
}

/// Whether an assignment or a loop sets a variable.
fn assigns(part: &meson_calls::note::Note<'_, '_>, name: &[u8]) -> bool
    ensures { result ≡ assigns name.now (note_view part.now).it }
{
    match part.what {
        What::Assign { name: variable, .. } => text_of(part.source, variable) == name,
        What::Loop { names } => one_of(part.source, names, name),
        What::Call { .. } => false,
    }
}

/// Whether one of them does.
fn any_assigns(parts: &[meson_calls::note::Note<'_, '_>], name: &[u8]) -> bool
    ensures { result ≡ list_any (λ n. assigns name.now (note_view n).it) parts.now }
{
    parts.iter().any(|part| assigns(part, name))
}

/// The same, by what they mean.
fn is_assigned(parts: &[meson_calls::note::Note<'_, '_>], name: &[u8]) -> bool
    ensures { result ≡ is_assigned name.now (note_views parts.now) }
{
    any_assigns(parts, name)
}

/// The calls that are named, those of `set_variable`, and what else sets variables.
#[derive(Clone, Copy)]
struct Written<'w> {
    named: &'w [HeldCall],
    setters: &'w [HeldCall],
    parts: &'w [meson_calls::note::Note<'w, 'w>],
}

/// Whether a variable is set.
fn is_set(written: Written<'_>, name: &str) -> bool
    ensures { result ≡ is_set written.entry.setters.now (note_views written.entry.parts.now) name.now }
{
    is_assigned(written.parts, name.as_bytes()) || names_one(written.setters, name)
}

/// What is said of a name.
fn unset_words(alloc: Global, name: &str) -> Result<String, AllocError>
    ensures { IfOk result (λ words. string_bytes words ≡ unset_words name.now) }
{
    format!(in alloc; ": {name} is written here, and no build file sets it")
}

/// Adds the warning of a name, if nothing sets it.
fn add_unset(
    alloc: Global,
    notes: &mut Vec<Note>,
    written: Written<'_>,
    name: &str,
) -> Result<(), AllocError>
    ensures { let written = written.entry in OnOk result (notes.new.items
        ≡ notes.old.items ++ unset_note written.named.now written.setters.now (note_views written.parts.now) name.now) }
{
    if is_set(written, name) {
        return Ok(());
    }
    let words = unset_words(alloc, name)?;
    add_each(alloc, notes, words.as_str(), written.named)
}

/// The warnings of some names.
fn all_unset(alloc: Global, written: Written<'_>, names: &[&Text]) -> Result<Vec<Note>, AllocError>
    ensures { let written = written.entry in IfOk result (λ notes. notes.items
        ≡ flat_map (unset_note written.named.now written.setters.now (note_views written.parts.now)) (map (λ x. x.now) names.now)) }
{
    let mut notes = Vec::new(alloc);
    for i in 0..names.len() {
        add_unset(alloc, &mut notes, written, names[i].get())?;
    }
    Ok(notes)
}

/// The warnings of names that nothing sets.
fn unset_at(
    alloc: Global,
    project: &Project,
    subject: Subject<'_>,
    names: &[&Text],
) -> Result<Vec<Note>, AllocError>
    ensures { let subject = subject.entry in
        IfOk result (λ notes. notes.items ≡ unset_at project.now subject.role (name_at subject.name) (map (λ x. x.now) names.now)) }
{
    let named = calls_named(alloc, project, subject.role, subject.name)?;
    let setters = calls_held(alloc, project, "set_variable")?;
    project.reads();
    let taken = notes_of(alloc, project.files(), project.trees())?;
    let parts = taken.all(alloc)?;
    let written = Written {
        named: named.get(),
        setters: setters.get(),
        parts: parts.as_slice(),
    };
    all_unset(alloc, written, names)
}

/// The warnings of names that are written at the call that is named.
fn unset_among(
    alloc: Global,
    project: &Project,
    subject: Subject<'_>,
    names: &[Text],
) -> Result<Vec<Note>, AllocError>
    ensures { IfOk result (λ notes. notes.items ≡ unset_among project.now subject.entry.role (name_at subject.entry.name) names.now) }
{
    if names.is_empty() {
        return Ok(Vec::new(alloc));
    }
    if !setters_known(alloc, project)? {
        return Ok(Vec::new(alloc));
    }
    let mut names = distinct(alloc, names)?;
    names.truncate(MOST_NAMES);
    unset_at(alloc, project, subject, names.as_slice())
}

/// The warnings of the names of variables that pairs of keys and values write.
pub(crate) fn unset_names(
    alloc: Global,
    project: &Project,
    subject: Subject<'_>,
    pairs: &[(Text, Setting)],
) -> Result<Vec<Note>, AllocError>
    ensures { IfOk result (λ notes. notes.items ≡ unset_names project.now subject.entry.role (name_at subject.entry.name) pairs.now) }
{
    let names = all_names(alloc, subject.role, pairs)?;
    unset_among(alloc, project, subject, names.as_slice())
}
