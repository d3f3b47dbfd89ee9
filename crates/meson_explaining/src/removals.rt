//! Notes of names that cannot be removed from a target: they are in no list, or are not among what is known of it.

ghost use Rattle.std.specs.Prelude.{◌≡◌, IfOk, codes, filter, map, option_map};
ghost use Rattle.meson_explaining.specs.Removals.{few_unnamed, fixed_note, fixed_notes, folder_help, has_no_name, is_fixed, is_in_root, is_one_of, not_known};
ghost use Rattle.meson_explaining.specs.Removals.{not_known_help, not_known_notes, setter_notes, unknown_notes};
ghost use Rattle.meson_calls.specs.Loading.{project as project_of};
ghost use Rattle.meson_plan.specs.Details.{target_place};
ghost use Rattle.meson_explaining.specs.Notes.{call_note};
ghost use Rattle.meson_calls.specs.Searching.{name_at};

use crate::bad_names::{one_line, one_note};
use crate::calls::{Telling, add_few, add_further, call_note};
use crate::explanation::{Explanation, Note, Spot};
use crate::sources::{few_close_notes, first_missing};
use crate::subject::Subject;
use crate::unknown::unknown_arguments;
use crate::values::value_notes;
use crate::written::written_notes;
use meson_calls::{BorrowedName, Reading, Refusal};
use meson_inventory::holdings::{HeldCall, calls_held, holdings_of};
use meson_plan::{Project, Role};
use meson_splice::{Many, Text};
use meson_variables::SourceItem;
use std::alloc::{AllocError, Global};

/// What changes one list, for a name that is removed and for one that gets another.
pub(crate) const REMOVAL_WAY: &str =
    "arg remove at FILE:LINE . SOURCE removes it from the list that is set on that line";

pub(crate) const RENAMING_WAY: &str =
    "arg replace at FILE:LINE . OLD NEW renames it in the list that is set on that line";
/// The most items that are reported.
const MOST_FIXED: usize = 3;
/// The most calls of one function that are reported.
const MOST_SETTERS: usize = 2;

/// Names, and the known items of a target, which are of a key; and what else changes the list in which a name is.
#[derive(Clone, Copy)]
pub(crate) struct Lost<'l> {
    pub target: BorrowedName<'l>,
    pub key: &'l str,
    pub way: &'l str,
    pub items: &'l [SourceItem],
    pub names: &'l [Text],
}

/// Whether a text is one of the names.
pub fn is_one_of(names: &[Text], text: &str) -> bool
    ensures { result ≡ is_one_of names.now text.now }
{
    names.iter().any(|name| name.get() == text)
}

/// Whether an item is in no list and has one of the names.
fn is_fixed(item: &SourceItem, names: &[Text]) -> bool
    ensures { result ≡ is_fixed names.now item.now }
{
    item.list.is_none() && is_one_of(names, item.value.get())
}

/// The note of an item that is in no list.
fn fixed_note(alloc: Global, item: &SourceItem) -> Result<Note, AllocError>
    ensures { IfOk result (λ note. note ≡ fixed_note item.now) }
{
    let value = item.value.get();
    let text = format!(in alloc; "{value} is not in a list")?;
    Ok(Note {
        spot: Some(Spot {
            file: item.file,
            at: item.span.from,
            end: item.span.to,
        }),
        text: Text::of(text),
    })
}

/// The notes of all items that are in no list and have one of the names.
fn all_fixed(alloc: Global, items: &[SourceItem], names: &[Text]) -> Result<Vec<Note>, AllocError>
    ensures { IfOk result (λ notes. notes.items ≡ map fixed_note (filter (is_fixed names.now) items.now)) }
{
    let mut notes = Vec::new(alloc);
    for i in 0..items.len() {
        if is_fixed(&items[i], names) {
            notes.push(fixed_note(alloc, &items[i])?)?;
        }
    }
    Ok(notes)
}

/// The notes of the first of them.
pub(crate) fn fixed_notes(
    alloc: Global,
    items: &[SourceItem],
    names: &[Text],
) -> Result<Vec<Note>, AllocError>
    ensures { IfOk result (λ notes. notes.items ≡ fixed_notes items.now names.now) }
{
    let mut notes = all_fixed(alloc, items, names)?;
    notes.truncate(MOST_FIXED);
    Ok(notes)
}

/// The note of a name that is not among what is known.
pub(crate) fn unknown_notes(alloc: Global, name: Option<&str>) -> Result<Vec<Note>, AllocError>
    ensures { IfOk result (λ notes. notes.items ≡ unknown_notes (option_map (λ name. name.now) name.entry)) }
{
    match name {
        Some(name) => {
            let text = format!(in alloc;
                "{name} is not known to be one of them, and not all of them are known"
            )?;
            one_note(alloc, text)
        }
        None => Ok(Vec::new(alloc)),
    }
}

/// Whether a call has no literal name.
fn has_no_name(call: &HeldCall) -> bool
    ensures { result ≡ has_no_name call.now }
{
    call.head.name.is_none()
}

/// The notes of the calls that have no literal name.
fn all_unnamed(alloc: Global, calls: &[HeldCall]) -> Result<Vec<Note>, AllocError>
    ensures { IfOk result (λ notes. notes.items ≡ map (call_note (codes ": it may set any variable")) (filter has_no_name calls.now)) }
{
    let mut notes = Vec::new(alloc);
    for i in 0..calls.len() {
        if has_no_name(&calls[i]) {
            notes.push(call_note(alloc, ": it may set any variable", &calls[i])?)?;
        }
    }
    Ok(notes)
}

/// The notes of the first of them, and of how many others there are.
fn few_unnamed(alloc: Global, calls: &[HeldCall]) -> Result<Vec<Note>, AllocError>
    ensures { IfOk result (λ notes. notes.items ≡ few_unnamed calls.now) }
{
    let mut notes = all_unnamed(alloc, calls)?;
    let others = notes.len().saturating_sub(MOST_SETTERS);
    notes.truncate(MOST_SETTERS);
    add_further(
        alloc,
        &mut notes,
        "further set_variable calls without a literal name",
        others,
    )?;
    Ok(notes)
}

/// The notes of the calls that may set any variable.
fn setter_notes(alloc: Global, project: &Project) -> Result<Vec<Note>, AllocError>
    ensures { IfOk result (λ notes. notes.items ≡ setter_notes project.now) }
{
    let held = holdings_of(alloc, Reading::Written, project)?;
    let subdirs = Telling {
        most: MOST_SETTERS,
        more: ", not entered: it may set any variable",
        others: "further subdir calls that are not entered",
    };
    let mut notes = Vec::new(alloc);
    add_few(alloc, &mut notes, subdirs, held.not_entered.get())?;
    let calls = calls_held(alloc, project, "set_variable")?;
    let mut unnamed = few_unnamed(alloc, calls.get())?;
    notes.append(&mut unnamed)?;
    Ok(notes)
}

/// The notes where one of the names is not among the known items of a target.
fn not_known_notes(
    alloc: Global,
    project: &Project,
    lost: Lost<'_>,
) -> Result<Vec<Note>, AllocError>
    ensures { let lost = lost.entry in
        IfOk result (λ notes. notes.items ≡ not_known_notes project.now (name_at lost.target) lost.key.now lost.items.now lost.names.now) }
{
    let name = first_missing(lost.items, lost.names);
    let mut notes = unknown_notes(alloc, name)?;
    let mut written = written_notes(alloc, project, name)?;
    notes.append(&mut written)?;
    let mut close = few_close_notes(alloc, name, lost.items)?;
    notes.append(&mut close)?;
    let mut unknown = unknown_arguments(alloc, project, lost.target, lost.key)?;
    notes.append(&mut unknown)?;
    let subject = Subject {
        role: Role::Target,
        name: lost.target,
    };
    let mut hidden = value_notes(alloc, project, subject, "kwargs")?;
    notes.append(&mut hidden)?;
    let mut setters = setter_notes(alloc, project)?;
    notes.append(&mut setters)?;
    Ok(notes)
}

/// Whether the target that an id names is in the root file.
fn is_in_root(
    alloc: Global,
    project: &Project,
    target: BorrowedName<'_>,
) -> Result<bool, AllocError>
    ensures { IfOk result (λ root. root ≡ is_in_root (target_place (project_of project.now) (name_at target.entry))) }
{
    match project.find_one(alloc, Role::Target, target) {
        Ok(place) => Ok(place.file == 0),
        Err(Refusal::OutOfMemory) => Err(AllocError),
        Err(_) => Ok(false),
    }
}

/// What the folder of a target does as the root folder.
fn folder_help(root: bool) -> &'static str
    ensures { result.now ≡ folder_help root }
{
    if root {
        "--sourcedir does not help, since the target is in the root file; info counts what is not known"
    } else {
        "--sourcedir with the folder of the target leaves out what other folders set; info counts what is not known"
    }
}

/// What may be done where one of the names is not among the known items of a target.
fn not_known_help(alloc: Global, project: &Project, lost: Lost<'_>) -> Result<Vec<Text>, AllocError>
    ensures { let lost = lost.entry in IfOk result (λ help. help.items ≡ not_known_help project.now (name_at lost.target) lost.way.now) }
{
    let root = is_in_root(alloc, project, lost.target)?;
    let mut help = one_line(alloc, lost.way)?;
    help.push(Text::of(String::from_str(alloc, folder_help(root))?))?;
    Ok(help)
}

/// Which of the names is not among the known items of a target, and what is not known.
pub(crate) fn not_known(
    alloc: Global,
    project: &Project,
    lost: Lost<'_>,
) -> Result<Explanation, AllocError>
    ensures { let lost = lost.entry in
        IfOk result (λ e. e ≡ not_known project.now (name_at lost.target) lost.key.now lost.way.now lost.items.now lost.names.now) }
{
    let notes = not_known_notes(alloc, project, lost)?;
    let help = not_known_help(alloc, project, lost)?;
    Ok(Explanation {
        notes: Many::of(notes),
        help: Many::of(help),
    })
}
