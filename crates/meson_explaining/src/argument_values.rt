//! Notes of the value that keys name, where it is not found or may not be changed.

ghost use Rattle.std.specs.Prelude.{◌≡◌, IfOk, List, length, option_map, ℕ};
ghost use Rattle.std.specs.List.{filter_map};
ghost use Rattle.meson_splice.specs.Files.{bytes_at};
ghost use Rattle.meson_edit.specs.Standing.{expression_span};
ghost use Rattle.meson_explaining.specs.Keys.{or_then};
ghost use Rattle.meson_syntax.specs.View.{arg_view, args_view, expr_view};
ghost use Rattle.meson_calls.specs.Loading.{AreParsed, project as project_of};
ghost use Rattle.meson_calls.specs.Project.{expression_at};
ghost use Rattle.meson_explaining.specs.ArgumentValues.{call_arguments, call_elements, deepest, found_place, hiding_notes, is_wanted, keyword_note, named_note};
ghost use Rattle.meson_explaining.specs.ArgumentValues.{keyword_notes, other_keywords, reached_notes, shown_note, shown_notes, span_by};
ghost use Rattle.meson_places.specs.Names.{loaded_in, the_place};

use crate::explanation::{Note, Spot};
use crate::names::is_bad_variable;
use crate::values::start_of;
use meson_calls::roles::text_of;
use meson_calls::{CallRef, Refusal};
use meson_edit::span_of;
use meson_inventory::file_bytes;
use meson_lex::Span;
use meson_places::Sources;
use meson_places::lookup::find_place;
use meson_places::slots::find_slot;
use meson_places::spans::slot_span;
use meson_plan::Project;
use meson_splice::{FileSet, Text};
use meson_steps::argument::ValueName;
use meson_syntax::{Arg, Expr};
use std::alloc::{AllocError, Global};

/// The most keyword arguments that are reported.
const MOST_KEYWORDS: usize = 5;

/// The files and trees of a project.
fn sources_of(project: &Project) -> Sources<'_>
    ensures parsed { AreParsed result.files.now result.trees.now }
    ensures loaded { loaded_in result ≡ project.entry.now }
{
    project.reads();
    Sources {
        files: project.files(),
        trees: project.trees(),
    }
}

/// The place that a name finds, if it finds one.
fn place_of(
    alloc: Global,
    project: &Project,
    name: &ValueName,
) -> Result<Option<CallRef>, AllocError>
    ensures { IfOk result (λ place. place ≡ found_place (the_place project.now name.now.place)) }
{
    match find_place(alloc, sources_of(project), &name.place) {
        Ok(place) => Ok(Some(place)),
        Err(Refusal::OutOfMemory) => Err(AllocError),
        Err(_) => Ok(None),
    }
}

/// Where the value is that keys lead to from a place, if they lead to one.
fn span_by(
    alloc: Global,
    project: &Project,
    place: &CallRef,
    keys: &[Text],
) -> Result<Option<Span>, AllocError>
    ensures { IfOk result (λ span. span ≡ span_by project.now place.now keys.now) }
{
    let sources = sources_of(project);
    match find_slot(alloc, sources, place, keys) {
        Ok(slot) => Ok(slot_span(sources, &slot)),
        Err(Refusal::OutOfMemory) => Err(AllocError),
        Err(_) => Ok(None),
    }
}

/// The first of two spans that is there.
fn first_there(first: Option<Span>, second: Option<Span>) -> Option<Span>
    ensures { result ≡ or_then first second }
{
    match first {
        Some(span) => Some(span),
        None => second,
    }
}

/// Where the value is that the most of some keys lead to.
fn deepest(
    alloc: Global,
    project: &Project,
    place: &CallRef,
    keys: &[Text],
) -> Result<Option<Span>, AllocError>
    ensures { IfOk result (λ span. span ≡ deepest project.now place.now keys.now (length keys.now)) }
{
    let mut found = span_by(alloc, project, place, &[])?;
    for n in 0..keys.len() {
        let further = span_by(alloc, project, place, &keys[..n + 1])?;
        found = first_there(further, found);
    }
    Ok(found)
}

/// The note of what is there, after some words.
fn shown_note(
    alloc: Global,
    files: &FileSet,
    words: &str,
    file: usize,
    span: Span,
) -> Result<Note, AllocError>
    ensures { IfOk result (λ note. note ≡ shown_note files.now words.now file span) }
{
    let text = String::from_utf8_lossy(alloc, text_of(file_bytes(files, file), span))?;
    let start = start_of(alloc, text.as_str())?;
    let text = format!(in alloc; "{words}{start}")?;
    Ok(Note {
        spot: Some(Spot {
            file,
            at: span.from,
            end: span.to,
        }),
        text: Text::of(text),
    })
}

/// The note of what is there, if there is something.
fn shown_notes(
    alloc: Global,
    files: &FileSet,
    words: &str,
    file: usize,
    span: Option<Span>,
) -> Result<Vec<Note>, AllocError>
    ensures { IfOk result (λ notes. notes.items ≡ shown_notes files.now words.now file span) }
{
    let mut notes = Vec::new(alloc);
    if let Some(span) = span {
        notes.push(shown_note(alloc, files, words, file, span)?)?;
    }
    Ok(notes)
}

/// The note of the value that the most of the keys of a name lead to.
pub(crate) fn reached_notes(
    alloc: Global,
    project: &Project,
    name: &ValueName,
) -> Result<Vec<Note>, AllocError>
    ensures { IfOk result (λ notes. notes.items ≡ reached_notes project.now name.now) }
{
    match place_of(alloc, project, name)? {
        Some(place) => {
            let span = deepest(alloc, project, &place, name.keys.get())?;
            shown_notes(alloc, project.files(), "the value is ", place.file, span)
        }
        None => Ok(Vec::new(alloc)),
    }
}

/// The note of `kwargs:` of the call that a name finds.
pub(crate) fn hiding_notes(
    alloc: Global,
    project: &Project,
    name: &ValueName,
) -> Result<Vec<Note>, AllocError>
    ensures { IfOk result (λ notes. notes.items ≡ hiding_notes project.now name.now) }
{
    match place_of(alloc, project, name)? {
        Some(place) => {
            let key = Text::of(String::from_str(alloc, "kwargs")?);
            let span = span_by(alloc, project, &place, &[key])?;
            shown_notes(alloc, project.files(), "kwargs: ", place.file, span)
        }
        None => Ok(Vec::new(alloc)),
    }
}

/// Whether a name is one of those of which something is said.
fn is_wanted(key: Option<&str>, name: &[u8]) -> bool
    ensures { result ≡ is_wanted (option_map (λ key. key.now) key.entry) name.now }
{
    match key {
        Some(key) => name == key.as_bytes(),
        None => true,
    }
}

/// The note of a value with its name.
fn named_note(
    alloc: Global,
    files: &FileSet,
    file: usize,
    name: &[u8],
    value: &Expr,
) -> Result<Note, AllocError>
    ensures { let source = bytes_at file files.now in
        IfOk result (λ note. note ≡ named_note files.now file name.now (expression_span (expr_view source value.now))) }
{
    let name = String::from_utf8_lossy(alloc, name)?;
    let words = format!(in alloc; "{name}: ")?;
    shown_note(alloc, files, words.as_str(), file, span_of(value))
}

/// The note of an argument, if it has a name of which something is said.
fn keyword_note(
    alloc: Global,
    files: &FileSet,
    file: usize,
    key: Option<&str>,
    arg: &Arg,
) -> Result<Option<Note>, AllocError>
    ensures { let source = bytes_at file files.now in
        IfOk result (λ note. note ≡ keyword_note files.now file (option_map (λ key. key.now) key.entry) (arg_view source arg.now)) }
{
    match arg {
        Arg::Named { name, value, .. } => {
            let name = text_of(file_bytes(files, file), *name);
            if is_wanted(key, name) {
                Ok(Some(named_note(alloc, files, file, name, value)?))
            } else {
                Ok(None)
            }
        }
        Arg::Plain(_) | Arg::Pair { .. } => Ok(None),
    }
}

/// The arguments of a call; none of what is not a call.
fn call_arguments(value: &Expr) -> &[Arg]
    ensures { (source : List ℕ) → args_view source result.now ≡ call_arguments (expr_view source value.entry.now) }
{
    match value {
        Expr::Call { arguments, .. } => arguments.items.get(),
        _ => &[],
    }
}

/// The arguments of the call at a place; none if no call is there.
fn arguments_at<'p>(project: &'p Project, place: &CallRef) -> &'p [Arg]
    ensures { let l = project.entry.now in
        args_view (bytes_at place.now.file l.files) result.now ≡ call_elements (expression_at (project_of l) place.now) }
{
    project.reads();
    let trees = project.trees();
    if place.file >= trees.len() {
        return &[];
    }
    match trees[place.file].expr_at(&place.path) {
        Some(value) => call_arguments(value),
        None => &[],
    }
}

/// The notes of the keyword arguments among some arguments, of one name or of all.
fn all_keywords(
    alloc: Global,
    files: &FileSet,
    file: usize,
    key: Option<&str>,
    args: &[Arg],
) -> Result<Vec<Note>, AllocError>
    ensures { let note = keyword_note files.now file (option_map (λ key. key.now) key.entry) in
        IfOk result (λ notes. notes.items ≡ filter_map note (args_view (bytes_at file files.now) args.now)) }
{
    let mut notes = Vec::new(alloc);
    for i in 0..args.len() {
        if let Some(note) = keyword_note(alloc, files, file, key, &args[i])? {
            notes.push(note)?;
        }
    }
    Ok(notes)
}

/// The notes of the first keyword arguments of the call that a name finds, of one name or of all.
pub(crate) fn keyword_notes(
    alloc: Global,
    project: &Project,
    key: Option<&str>,
    name: &ValueName,
) -> Result<Vec<Note>, AllocError>
    ensures { IfOk result (λ notes. notes.items ≡ keyword_notes project.now (option_map (λ key. key.now) key.entry) name.now) }
{
    match place_of(alloc, project, name)? {
        Some(place) => {
            let args = arguments_at(project, &place);
            let mut notes = all_keywords(alloc, project.files(), place.file, key, args)?;
            notes.truncate(MOST_KEYWORDS);
            Ok(notes)
        }
        None => Ok(Vec::new(alloc)),
    }
}

/// The notes of the keyword arguments that there are, if a key is the name of one.
pub(crate) fn other_keywords(
    alloc: Global,
    project: &Project,
    key: &str,
    name: &ValueName,
) -> Result<Vec<Note>, AllocError>
    ensures { IfOk result (λ notes. notes.items ≡ other_keywords project.now key.now name.now) }
{
    if is_bad_variable(key) {
        Ok(Vec::new(alloc))
    } else {
        keyword_notes(alloc, project, None, name)
    }
}
