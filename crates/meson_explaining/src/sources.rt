//! Notes of names that a target does not have among its sources or extra files.

ghost use Rattle.std.specs.Prelude.{◌≡◌, IfOk, IsTrue, filter, find, map, option_map};
ghost use Rattle.meson_calls.specs.Loading.{project as trees_of};
ghost use Rattle.meson_calls.specs.Roles.{is_target};
ghost use Rattle.meson_sources.specs.Extras.{extra_files};
ghost use Rattle.meson_variables.specs.TargetSources.{sources};
ghost use Rattle.meson_explaining.specs.Sources.{close_notes, extras_at, few_missing, has, is_close, is_missing, item_note, items_of, missing_note, source_notes, sources_at};
ghost use Rattle.meson_calls.specs.Searching.{name_at};

use crate::calls::{add_further, plain_note};
use crate::distance::edits;
use crate::explanation::{Note, Spot};
use crate::nearest::MOST_BYTES;
use meson_calls::{BorrowedName, CallRef, Refusal};
use meson_plan::{Project, Role};
use meson_splice::{Many, Text};
use meson_variables::SourceItem;
use std::alloc::{AllocError, Global};

/// The most names and the most sources that a note has.
const MOST_TOLD: usize = 3;

/// The sources of a target; none where they are refused.
fn sources_of(
    alloc: Global,
    project: &Project,
    target: &CallRef,
) -> Result<Many<SourceItem>, AllocError>
    requires { IsTrue (is_target (trees_of project.now) target.now) }
    ensures { IfOk result (λ items. items ≡ items_of (sources (trees_of project.now) target.now)) }
{
    match project.sources(alloc, target) {
        Ok(found) => Ok(found.items),
        Err(Refusal::OutOfMemory) => Err(AllocError),
        Err(_) => Ok(Many::new(alloc)),
    }
}

/// The extra files of a target; none where they are refused.
fn extras_of(
    alloc: Global,
    project: &Project,
    target: &CallRef,
) -> Result<Many<SourceItem>, AllocError>
    requires { IsTrue (is_target (trees_of project.now) target.now) }
    ensures { IfOk result (λ items. items ≡ items_of (extra_files (trees_of project.now) target.now)) }
{
    match project.extra_files(alloc, target) {
        Ok(found) => Ok(found.items),
        Err(Refusal::OutOfMemory) => Err(AllocError),
        Err(_) => Ok(Many::new(alloc)),
    }
}

/// The sources of the target that is named; none if no one target is.
///
/// # Errors
/// Out of memory.
#[tactic(auto, unfolding(crate::specs::Sources::sources_at))]
pub fn sources_at(
    alloc: Global,
    project: &Project,
    name: BorrowedName<'_>,
) -> Result<Many<SourceItem>, AllocError>
    ensures { IfOk result (λ items. items ≡ sources_at project.now (name_at name.entry)) }
{
    match project.find_one(alloc, Role::Target, name) {
        Ok(target) => sources_of(alloc, project, &target),
        Err(Refusal::OutOfMemory) => Err(AllocError),
        Err(_) => Ok(Many::new(alloc)),
    }
}

/// The extra files of the target that is named; none if no one target is.
#[tactic(auto, unfolding(crate::specs::Sources::extras_at))]
pub(crate) fn extras_at(
    alloc: Global,
    project: &Project,
    name: BorrowedName<'_>,
) -> Result<Many<SourceItem>, AllocError>
    ensures { IfOk result (λ items. items ≡ extras_at project.now (name_at name.entry)) }
{
    match project.find_one(alloc, Role::Target, name) {
        Ok(target) => extras_of(alloc, project, &target),
        Err(Refusal::OutOfMemory) => Err(AllocError),
        Err(_) => Ok(Many::new(alloc)),
    }
}

/// Whether one of the items has this name.
fn has(items: &[SourceItem], name: &str) -> bool
    ensures { result ≡ has items.now name.now }
{
    items.iter().any(|item| item.value.get() == name)
}

/// Whether none of the items has this name.
pub fn is_missing(items: &[SourceItem], name: &str) -> bool
    ensures { result ≡ is_missing items.now name.now }
{
    !has(items, name)
}

/// The note of an item.
fn item_note(alloc: Global, item: &SourceItem) -> Result<Note, AllocError>
    ensures { IfOk result (λ note. note ≡ item_note item.now) }
{
    let value = item.value.get();
    let text = format!(in alloc; "it has {value}")?;
    Ok(Note {
        spot: Some(Spot {
            file: item.file,
            at: item.span.from,
            end: item.span.to,
        }),
        text: Text::of(text),
    })
}

/// The note of a name that is not there.
pub(crate) fn missing_note(alloc: Global, name: &str) -> Result<Note, AllocError>
    ensures { IfOk result (λ note. note ≡ missing_note name.now) }
{
    let text = format!(in alloc; "the target does not have {name}")?;
    Ok(plain_note(text))
}

/// Whether a name is close to that of an item: one ends in the other, or few edits lead from one to the other.
fn is_close(alloc: Global, name: &str, item: &SourceItem) -> Result<bool, AllocError>
    ensures { IfOk result (λ close. close ≡ is_close name.now item.now) }
{
    let value = item.value.get();
    if value.as_bytes().ends_with(name.as_bytes()) {
        return Ok(true);
    }
    if name.as_bytes().ends_with(value.as_bytes()) {
        return Ok(true);
    }
    if name.len() > MOST_BYTES || value.len() > MOST_BYTES {
        return Ok(false);
    }
    let edits = edits(alloc, name, value)?;
    Ok(edits <= name.len() / 3)
}

/// The notes of the items whose names are close to a name.
fn close_notes(alloc: Global, name: &str, items: &[SourceItem]) -> Result<Vec<Note>, AllocError>
    ensures { IfOk result (λ notes. notes.items ≡ map item_note (filter (is_close name.now) items.now)) }
{
    let mut notes = Vec::new(alloc);
    for i in 0..items.len() {
        if is_close(alloc, name, &items[i])? {
            notes.push(item_note(alloc, &items[i])?)?;
        }
    }
    Ok(notes)
}

/// The notes of the names that no item has.
fn all_missing(alloc: Global, items: &[SourceItem], names: &[Text]) -> Result<Vec<Note>, AllocError>
    ensures { IfOk result (λ notes. notes.items ≡ map missing_note (filter (is_missing items.now) names.now)) }
{
    let mut notes = Vec::new(alloc);
    for i in 0..names.len() {
        if is_missing(items, names[i].get()) {
            notes.push(missing_note(alloc, names[i].get())?)?;
        }
    }
    Ok(notes)
}

/// The first name that no item has.
pub(crate) fn first_missing<'n>(items: &[SourceItem], names: &'n [Text]) -> Option<&'n str>
    ensures { option_map (λ name. name.now) result ≡ find (is_missing items.now) names.entry.now }
{
    for i in 0..names.len() {
        if is_missing(items, names[i].get()) {
            return Some(names[i].get());
        }
    }
    None
}

/// The notes of the first items whose names are close to a name, if there is one.
pub(crate) fn few_close_notes(
    alloc: Global,
    name: Option<&str>,
    items: &[SourceItem],
) -> Result<Vec<Note>, AllocError>
    ensures { IfOk result (λ notes. notes.items ≡ close_notes items.now (option_map (λ name. name.now) name.entry)) }
{
    match name {
        Some(name) => {
            let mut close = close_notes(alloc, name, items)?;
            close.truncate(MOST_TOLD);
            Ok(close)
        }
        None => Ok(Vec::new(alloc)),
    }
}

/// The first of some notes of names that are not there, and how many others there are.
pub(crate) fn few_missing(alloc: Global, all: Vec<Note>) -> Result<Vec<Note>, AllocError>
    ensures { IfOk result (λ few. few.items ≡ few_missing all.items) }
{
    let mut notes = all;
    let others = notes.len().saturating_sub(MOST_TOLD);
    notes.truncate(MOST_TOLD);
    add_further(
        alloc,
        &mut notes,
        "further names that it does not have",
        others,
    )?;
    Ok(notes)
}

/// The notes of the first names that no item has, and of items that are close to the first of them.
pub(crate) fn source_notes(
    alloc: Global,
    items: &[SourceItem],
    names: &[Text],
) -> Result<Vec<Note>, AllocError>
    ensures { IfOk result (λ notes. notes.items ≡ source_notes items.now names.now) }
{
    let missing = all_missing(alloc, items, names)?;
    let mut notes = few_missing(alloc, missing)?;
    let mut close = few_close_notes(alloc, first_missing(items, names), items)?;
    notes.append(&mut close)?;
    Ok(notes)
}
