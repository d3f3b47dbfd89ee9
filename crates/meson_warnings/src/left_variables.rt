//! Variables that a removed target leaves, and that nothing reads then.

ghost use Rattle.std.specs.Prelude.{◌≡◌, ◌++◌, IfOk, OnOk, codes, flat_map, map, not};
ghost use Rattle.std.specs.List.{list_any};
ghost use Rattle.meson_calls.specs.Notes.{note_view, note_views};
ghost use Rattle.meson_calls.specs.ChosenNotes.{Source};
ghost use Rattle.meson_syntax.specs.View.{expr_view};
ghost use Rattle.meson_warnings.specs.LeftVariables.{all_left, few_left, is_read_outside, left_by, left_in, left_note, left_of};
ghost use Rattle.meson_warnings.specs.LeftVariables.{left_named, left_variables, readers, variables_at, variables_shown};
ghost use Rattle.meson_warnings.specs.Reads.{is_in_one, reads};
ghost use Rattle.meson_warnings.specs.SharedLists.{variable_in};
ghost use Rattle.meson_calls.specs.Searching.{name_at};

use crate::known::{names_one, readers_known};
use crate::overwrites::keywords_at;
use crate::reads::{add_reads, is_in_one};
use crate::shared_lists::add_variable;
use meson_calls::BorrowedName;
use meson_calls::note::What;
use meson_calls::notes::notes_of;
use meson_calls::roles::text_of;
use meson_details::Shown;
use meson_edit::span_of;
use meson_explaining::calls::add_further;
use meson_explaining::sources::sources_at;
use meson_explaining::subject::Subject;
use meson_explaining::{Note, Spot};
use meson_inventory::holdings::{HeldCall, calls_held, calls_named};
use meson_plan::{Project, Role};
use meson_splice::Text;
use meson_steps::names::distinct;
use meson_syntax::Expr;
use meson_variables::SourceItem;
use std::alloc::{AllocError, Global};

/// The most assignments that are reported.
const MOST_TOLD: usize = 5;

/// Adds copies of texts.
pub(crate) fn add_texts(texts: &mut Vec<Text>, more: &[Text]) -> Result<(), AllocError>
    ensures { OnOk result (texts.new.items ≡ texts.old.items ++ more.now) }
{
    for text in more {
        texts.push(text.clone()?)?;
    }
    Ok(())
}

/// Adds the variables that a value of a keyword argument is or has.
fn add_shown(variables: &mut Vec<Text>, value: &Shown) -> Result<(), AllocError>
    ensures { OnOk result (variables.new.items ≡ variables.old.items ++ variables_shown value.now) }
{
    match value {
        Shown::Id(name) => {
            variables.push(name.clone()?)?;
            Ok(())
        }
        Shown::Ids(names) => add_texts(variables, names.get()),
        Shown::Text(_) | Shown::Bool(_) | Shown::Texts(_) | Shown::Opaque(_) => Ok(()),
    }
}

/// Adds the variables of keyword arguments.
fn add_all_shown(variables: &mut Vec<Text>, pairs: &[(Text, Shown)]) -> Result<(), AllocError>
    ensures { OnOk result (variables.new.items ≡ variables.old.items ++ flat_map (λ p. variables_shown p.1) pairs.now) }
{
    for (_, value) in pairs {
        add_shown(variables, value)?;
    }
    Ok(())
}

/// Adds the variables that were followed to sources.
fn add_followed(variables: &mut Vec<Text>, items: &[SourceItem]) -> Result<(), AllocError>
    ensures { OnOk result (variables.new.items ≡ variables.old.items ++ flat_map variable_in items.now) }
{
    for item in items {
        add_variable(variables, item)?;
    }
    Ok(())
}

/// The variables of the target that an id names.
fn variables_at(
    alloc: Global,
    project: &Project,
    target: BorrowedName<'_>,
) -> Result<Vec<Text>, AllocError>
    ensures { IfOk result (λ variables. variables.items ≡ variables_at project.now (name_at target.entry)) }
{
    let mut variables = Vec::new(alloc);
    let items = sources_at(alloc, project, target)?;
    add_followed(&mut variables, items.get())?;
    let subject = Subject {
        role: Role::Target,
        name: target,
    };
    let pairs = keywords_at(alloc, project, subject)?;
    add_all_shown(&mut variables, pairs.as_slice())?;
    Ok(variables)
}

/// The calls that read a variable by its name.
fn readers(alloc: Global, project: &Project) -> Result<Vec<HeldCall>, AllocError>
    ensures { IfOk result (λ calls. calls.items ≡ readers project.now) }
{
    let gets = calls_held(alloc, project, "get_variable")?;
    let tests = calls_held(alloc, project, "is_variable")?;
    let mut calls = gets.take();
    let mut more = tests.take();
    calls.append(&mut more)?;
    Ok(calls)
}

/// The calls that are named, those that read a variable by its name, and what a project sets.
#[derive(Clone, Copy)]
struct Removed<'r> {
    named: &'r [HeldCall],
    readers: &'r [HeldCall],
    parts: &'r [meson_calls::note::Note<'r, 'r>],
}

/// Whether one of some places is outside the calls.
fn any_outside(calls: &[HeldCall], spots: &[Spot]) -> bool
    ensures { result ≡ list_any (λ s. not (is_in_one calls.now s)) spots.now }
{
    spots.iter().any(|spot| !is_in_one(calls, spot))
}

/// Whether a variable, which is read at these places, is read outside the calls, or by its name.
fn is_read_outside(removed: Removed<'_>, name: &str, spots: &[Spot]) -> bool
    ensures { result ≡ is_read_outside removed.entry.named.now removed.entry.readers.now name.now spots.now }
{
    any_outside(removed.named, spots) || names_one(removed.readers, name)
}

/// What is said of a variable.
fn left_words(alloc: Global, name: &str) -> Result<Text, AllocError>
    ensures { IfOk result (λ words. words ≡ name.now ++ codes " is set here, and nothing reads it then") }
{
    Ok(Text::of(format!(in alloc; "{name} is set here, and nothing reads it then")?))
}

/// The warning of a variable with this value.
fn left_note(alloc: Global, name: &str, file: usize, value: &Expr) -> Result<Note, AllocError>
    ensures { (source : Source) → IfOk result (λ note. note ≡ left_note name.now file (expr_view source value.now)) }
{
    let span = span_of(value);
    let text = left_words(alloc, name)?;
    Ok(Note {
        spot: Some(Spot {
            file,
            at: span.from,
            end: span.to,
        }),
        text,
    })
}

/// Adds the warning of an assignment to a variable.
fn add_left_by(
    alloc: Global,
    notes: &mut Vec<Note>,
    name: &str,
    part: &meson_calls::note::Note<'_, '_>,
) -> Result<(), AllocError>
    ensures { OnOk result (notes.new.items ≡ notes.old.items ++ left_by name.now (note_view part.now).place.file (note_view part.now).it) }
{
    match part.what {
        What::Assign {
            name: variable,
            value,
            ..
        } => {
            if text_of(part.source, variable) != name.as_bytes() {
                return Ok(());
            }
            notes.push(left_note(alloc, name, part.place.file, value)?)?;
            Ok(())
        }
        _ => Ok(()),
    }
}

/// Adds the warnings of the assignments to a variable.
fn add_left_in(
    alloc: Global,
    notes: &mut Vec<Note>,
    name: &str,
    parts: &[meson_calls::note::Note<'_, '_>],
) -> Result<(), AllocError>
    ensures { OnOk result (notes.new.items ≡ notes.old.items ++ left_in name.now (note_views parts.now)) }
{
    for i in 0..parts.len() {
        add_left_by(alloc, notes, name, &parts[i])?;
    }
    Ok(())
}

/// Adds the warnings of a variable, if it is left and nothing reads it.
fn add_left_of(
    alloc: Global,
    notes: &mut Vec<Note>,
    project: &Project,
    removed: Removed<'_>,
    name: &str,
) -> Result<(), AllocError>
    ensures { let removed = removed.entry in OnOk result (notes.new.items
        ≡ notes.old.items ++ left_of removed.named.now removed.readers.now (note_views removed.parts.now) name.now (reads project.now name.now)) }
{
    let mut spots = Vec::new(alloc);
    add_reads(alloc, &mut spots, project, name)?;
    if is_read_outside(removed, name, spots.as_slice()) {
        return Ok(());
    }
    add_left_in(alloc, notes, name, removed.parts)
}

/// The warnings of some variables.
fn left_among(
    alloc: Global,
    project: &Project,
    removed: Removed<'_>,
    names: &[&Text],
) -> Result<Vec<Note>, AllocError>
    ensures { let removed = removed.entry in IfOk result (λ notes. notes.items ≡ flat_map
        (λ x. left_of removed.named.now removed.readers.now (note_views removed.parts.now) x (reads project.now x)) (map (λ x. x.now) names.now)) }
{
    let mut notes = Vec::new(alloc);
    for i in 0..names.len() {
        add_left_of(alloc, &mut notes, project, removed, names[i].get())?;
    }
    Ok(notes)
}

/// The warnings of some variables, which are read in calls or by these calls.
fn left_named(
    alloc: Global,
    project: &Project,
    named: &[HeldCall],
    readers: &[HeldCall],
    names: &[&Text],
) -> Result<Vec<Note>, AllocError>
    ensures { IfOk result (λ notes. notes.items ≡ left_named project.now named.now readers.now (map (λ x. x.now) names.now)) }
{
    project.reads();
    let taken = notes_of(alloc, project.files(), project.trees())?;
    let parts = taken.all(alloc)?;
    let removed = Removed {
        named,
        readers,
        parts: parts.as_slice(),
    };
    left_among(alloc, project, removed, names)
}

/// The warnings of the variables of the target that an id names.
fn all_left(
    alloc: Global,
    project: &Project,
    target: BorrowedName<'_>,
) -> Result<Vec<Note>, AllocError>
    ensures { IfOk result (λ notes. notes.items ≡ all_left project.now (name_at target.entry)) }
{
    let named = calls_named(alloc, project, Role::Target, target)?;
    let readers = readers(alloc, project)?;
    let variables = variables_at(alloc, project, target)?;
    let names = distinct(alloc, variables.as_slice())?;
    left_named(
        alloc,
        project,
        named.get(),
        readers.as_slice(),
        names.as_slice(),
    )
}

/// The first of some warnings, and how many others there are.
fn few_left(alloc: Global, all: Vec<Note>) -> Result<Vec<Note>, AllocError>
    ensures { IfOk result (λ few. few.items ≡ few_left all.items) }
{
    let mut notes = all;
    let others = notes.len().saturating_sub(MOST_TOLD);
    notes.truncate(MOST_TOLD);
    add_further(
        alloc,
        &mut notes,
        "further assignments to variables that nothing reads then",
        others,
    )?;
    Ok(notes)
}

/// The warnings of variables that a removed target leaves, and that nothing reads then.
pub(crate) fn left_variables(
    alloc: Global,
    project: &Project,
    target: BorrowedName<'_>,
) -> Result<Vec<Note>, AllocError>
    ensures { IfOk result (λ notes. notes.items ≡ left_variables project.now (name_at target.entry)) }
{
    if !readers_known(alloc, project)? {
        return Ok(Vec::new(alloc));
    }
    let notes = all_left(alloc, project, target)?;
    few_left(alloc, notes)
}
