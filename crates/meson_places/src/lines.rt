//! What begins on a line of a file.

ghost use Rattle.std.specs.Prelude.{◌≡◌, ◌==◌, IfOk, Ok};
ghost use Rattle.meson_splice.specs.Files.{bytes_at};
ghost use Rattle.std.specs.List.{filter_map, list_all};
ghost use Rattle.meson_calls.specs.Notes.{note_view};
ghost use Rattle.meson_calls.specs.Refusals.{RefusedAs};
ghost use Rattle.meson_places.specs.Names.{beginning_at, first_around, leads_into, line_of, offset_of, opens_on, place_on};
ghost use Rattle.meson_places.specs.inside.Lines.{IsLine};

use meson_calls::keeper::Opened;
use meson_calls::note::{Note, What};
use meson_calls::place::{child_place, copy_place, place_of};
use meson_calls::{CallRef, Refusal};
use meson_edit::span_of;
use meson_splice::FileSet;
use std::alloc::{AllocError, Global};

/// The bytes of the file of a number; no bytes if there is no such file.
pub(crate) fn file_bytes(files: &FileSet, file: usize) -> &[u8]
    ensures { result.now ≡ bytes_at file files.now }
{
    if file < files.len() {
        files.bytes(file)
    } else {
        &[]
    }
}

/// The first and the last offset on the line of a number, counted from 1. The line feed that ends a line is on it. If there is no such line, the first is greater
/// than the last.
fn find_line(source: &[u8], number: usize) -> (usize, usize)
    ensures { IsLine source.now number result.0 result.1 }
{
    let mut from = 0;
    let mut current = 1;
    for i in 0..source.len() {
        if source[i] == b'\n' {
            if current == number {
                return (from, i);
            }
            current += 1;
            from = i + 1;
        }
    }
    if current == number {
        (from, usize::MAX)
    } else {
        (1, 0)
    }
}

/// A line of a source: its number, counted from 1, and the first and the last offset on it, in bytes.
#[derive(Clone, Copy)]
pub struct Line<'s> {
    pub source: &'s [u8],
    pub number: usize,
    from: usize,
    to: usize,
    ghost is_line: { IsLine source.now number from to },
}

impl<'s> Line<'s> {
    /// The line of a number, counted from 1. The source is read once.
    pub fn find(source: &'s [u8], number: usize) -> Self
        ensures source { result.source.now ≡ source.entry.now }
        ensures number { result.number ≡ number }
    {
        let (from, to) = find_line(source, number);
        Line {
            source,
            number,
            from,
            to,
        }
    }

    /// Whether an offset, in bytes, is on the line.
    pub fn has(self, at: usize) -> bool
        ensures { result ≡ (line_of self.entry.source.now at == self.entry.number) }
    {
        self.from <= at && at <= self.to
    }
}

/// The offset of the opening bracket of a call, or that of the value of an assignment.
fn offset_of(note: &Note<'_, '_>) -> Option<usize>
    ensures { result ≡ offset_of (note_view note.now).it }
{
    match note.what {
        What::Call { arguments, .. } => Some(arguments.span.from),
        What::Assign { value, .. } => Some(span_of(value).from),
        What::Loop { .. } => None,
    }
}

/// The place of a call, or of the value of an assignment.
fn beginning_at(alloc: Global, note: &Note<'_, '_>) -> Result<CallRef, AllocError>
    ensures { IfOk result (λ place. place ≡ beginning_at (note_view note.now).it (note_view note.now).place) }
{
    match note.what {
        What::Assign { .. } => child_place(alloc, note.place, 0),
        _ => place_of(alloc, note.place.file, note.place.path),
    }
}

/// The place of what a note is about, if it begins on this line of the file of this number.
pub(crate) fn place_on(
    alloc: Global,
    file: usize,
    line: Line<'_>,
    note: &Note<'_, '_>,
) -> Result<Option<CallRef>, AllocError>
    ensures { IfOk result (λ place. place ≡ place_on line.entry.source.now file line.entry.number (note_view note.now)) }
{
    if note.place.file != file {
        return Ok(None);
    }
    let Some(at) = offset_of(note) else {
        return Ok(None);
    };
    if !line.has(at) {
        return Ok(None);
    }
    Ok(Some(beginning_at(alloc, note)?))
}

/// The place of an array or a dictionary, if its bracket opens on this line.
fn opens_on(line: Line<'_>, list: Opened) -> Option<CallRef>
    ensures { result ≡ opens_on line.entry.source.now line.entry.number list }
{
    if !line.has(list.at) {
        return None;
    }
    Some(list.place)
}

/// The places of those arrays and dictionaries whose bracket opens on this line.
pub(crate) fn opened_on(
    alloc: Global,
    line: Line<'_>,
    lists: Vec<Opened>,
) -> Result<Vec<CallRef>, AllocError>
    ensures { IfOk result (λ found. found.items ≡ filter_map (opens_on line.entry.source.now line.entry.number) lists.items) }
{
    let mut found = Vec::new(alloc);
    for list in lists {
        if let Some(place) = opens_on(line, list) {
            found.push(place)?;
        }
    }
    Ok(found)
}

/// Whether a path leads to what is at another path, or into it.
fn leads_into(path: &[usize], outer: &[usize]) -> bool
    ensures { result ≡ leads_into path.now outer.now }
{
    match outer {
        [] => true,
        [number, outer @ ..] => match path {
            [] => false,
            [step, path @ ..] => step == number && leads_into(path, outer),
        },
    }
}

/// Whether all these places of one file are in the first one.
fn are_in(first: &CallRef, places: &[CallRef]) -> bool
    ensures { result ≡ list_all (λ c. leads_into c.path.steps first.now.path.steps) places.now }
{
    let outer = first.path.steps.get();
    places
        .iter()
        .all(|place| leads_into(place.path.steps.get(), outer))
}

/// The first of some places of one file, if all others are in it.
///
/// # Errors
/// There is no place, or another one is not in the first; or out of memory.
pub(crate) fn first_around(alloc: Global, places: &[CallRef]) -> Result<CallRef, Refusal>
    ensures found { IfOk result (λ place. first_around places.now ≡ Ok place) }
    ensures refused { RefusedAs result (first_around places.now) }
{
    match places {
        [] => Err(Refusal::NotFound),
        [first, more @ ..] => {
            if !are_in(first, more) {
                return Err(Refusal::Ambiguous);
            }
            Ok(copy_place(alloc, first)?)
        }
    }
}
