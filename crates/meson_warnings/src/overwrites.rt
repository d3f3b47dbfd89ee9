//! Values that `kwargs set` writes over and that no words of a command can write again.

ghost use Rattle.std.specs.Prelude.{◌≡◌, ◌++◌, IfOk, IsTrue, OnOk, flat_map, map};
ghost use Rattle.std.specs.List.{list_any};
ghost use Rattle.meson_calls.specs.Loading.{project as trees_of};
ghost use Rattle.meson_details.specs.Details.{is_call, keywords};
ghost use Rattle.meson_warnings.specs.Overwrites.{is_computed, is_lost, keywords_at, lost_note, lost_value, pairs_of};
ghost use Rattle.meson_calls.specs.Searching.{name_at};

use meson_calls::keys::is_identifier_list_key;
use meson_calls::{CallRef, Refusal};
use meson_details::Shown;
use meson_explaining::Note;
use meson_explaining::subject::Subject;
use meson_explaining::values::value_notes;
use meson_plan::{Project, Role};
use meson_splice::Text;
use meson_steps::command::Setting;
use std::alloc::{AllocError, Global};

/// Whether a value is an expression, or variables where the key takes none.
fn is_computed(role: Role, key: &str, value: &Shown) -> bool
    ensures { result ≡ is_computed role key.now value.now }
{
    match value {
        Shown::Opaque(_) => true,
        Shown::Id(_) | Shown::Ids(_) => !is_identifier_list_key(role, key.as_bytes()),
        Shown::Text(_) | Shown::Bool(_) | Shown::Texts(_) => false,
    }
}

/// The keyword arguments of a call; none where they are refused.
fn keywords_of(
    alloc: Global,
    project: &Project,
    role: Role,
    call: &CallRef,
) -> Result<Vec<(Text, Shown)>, AllocError>
    requires { IsTrue (is_call (trees_of project.now) call.now) }
    ensures { IfOk result (λ pairs. pairs.items ≡ pairs_of (keywords project.now role call.now)) }
{
    match project.keywords(alloc, role, call) {
        Ok(pairs) => Ok(pairs),
        Err(Refusal::OutOfMemory) => Err(AllocError),
        Err(_) => Ok(Vec::new(alloc)),
    }
}

/// The keyword arguments of the call that an id names; none if it names no one call.
#[tactic(auto, unfolding(crate::specs::Overwrites::keywords_at))]
pub(crate) fn keywords_at(
    alloc: Global,
    project: &Project,
    subject: Subject<'_>,
) -> Result<Vec<(Text, Shown)>, AllocError>
    ensures { IfOk result (λ pairs. pairs.items ≡ keywords_at project.now subject.entry.role (name_at subject.entry.name)) }
{
    match project.find_one(alloc, subject.role, subject.name) {
        Ok(call) => keywords_of(alloc, project, subject.role, &call),
        Err(Refusal::OutOfMemory) => Err(AllocError),
        Err(_) => Ok(Vec::new(alloc)),
    }
}

/// Whether one of the keyword arguments has this key and a value that no words of a command can write again.
fn is_lost(role: Role, key: &str, pairs: &[(Text, Shown)]) -> bool
    ensures { result ≡ list_any (is_lost role key.now) pairs.now }
{
    pairs.iter().any(|(name, value)| name.get() == key && is_computed(role, key, value))
}

/// The warning of a value that is written over.
fn lost_note(alloc: Global, note: &Note) -> Result<Note, AllocError>
    ensures { IfOk result (λ lost. lost ≡ lost_note note.now) }
{
    let value = note.text.get();
    let text = format!(in alloc; "writes over {value}")?;
    Ok(Note {
        spot: note.spot,
        text: Text::of(text),
    })
}

/// Adds the warning of each value.
fn add_lost(alloc: Global, notes: &mut Vec<Note>, values: &[Note]) -> Result<(), AllocError>
    ensures { OnOk result (notes.new.items ≡ notes.old.items ++ map lost_note values.now) }
{
    for value in values {
        notes.push(lost_note(alloc, value)?)?;
    }
    Ok(())
}

/// Adds the warnings of the values of a key that `kwargs set` writes over.
fn add_lost_value(
    alloc: Global,
    notes: &mut Vec<Note>,
    project: &Project,
    subject: Subject<'_>,
    key: &str,
) -> Result<(), AllocError>
    ensures { OnOk result (notes.new.items ≡ notes.old.items ++ lost_value project.now subject.entry.role (name_at subject.entry.name) key.now) }
{
    let pairs = keywords_at(alloc, project, subject)?;
    if !is_lost(subject.role, key, pairs.as_slice()) {
        return Ok(());
    }
    let values = value_notes(alloc, project, subject, key)?;
    add_lost(alloc, notes, values.as_slice())
}

/// The warnings of the values that `kwargs set` writes over.
pub(crate) fn lost_values(
    alloc: Global,
    project: &Project,
    subject: Subject<'_>,
    pairs: &[(Text, Setting)],
) -> Result<Vec<Note>, AllocError>
    ensures { IfOk result (λ notes. notes.items ≡ flat_map (λ p. lost_value project.now subject.entry.role (name_at subject.entry.name) p.0) pairs.now) }
{
    let mut notes = Vec::new(alloc);
    for (key, _) in pairs {
        add_lost_value(alloc, &mut notes, project, subject, key.get())?;
    }
    Ok(notes)
}
