//! The colon of a new keyword argument or entry.

ghost use Rattle.std.specs.Prelude.{◌≡◌, ◌++◌, IfOk, OnOk, drop, flat_map};
ghost use Rattle.meson_lex.specs.Bytes.{begins, is_blank};
ghost use Rattle.meson_splice.specs.Files.{bytes_at};
ghost use Rattle.meson_syntax.specs.View.{arg_view, args_view, expr_view, view};
ghost use Rattle.meson_calls.specs.ChosenNotes.{Source};
ghost use Rattle.meson_calls.specs.Loading.{AreParsed};
ghost use Rattle.meson_calls.specs.Notes.{note_view, note_views};
ghost use Rattle.meson_places.specs.Colons.{ends_before, ends_in_file, entry_ends, is_spaced_in, key_end, key_ends, keyword_ends, last_end};
ghost use Rattle.meson_places.specs.Names.{loaded_in};

use crate::name::Sources;
use crate::slots::elements_in;
use meson_calls::keeper::Opened;
use meson_calls::lists::lists_of;
use meson_calls::note::{Note, What};
use meson_calls::notes::notes_in;
use meson_edit::span_of;
use meson_syntax::{Arg, Expr, Parsed};
use std::alloc::{AllocError, Global};

/// Whether the byte at an offset is a blank.
fn blank_at(source: &[u8], at: usize) -> bool
    ensures { result ≡ begins is_blank (drop at source.now) }
{
    if at >= source.len() {
        return false;
    }
    let byte = source[at];
    byte == b' ' || byte == b'\t'
}

/// Adds the offset where the key of an element ends, if it has one.
fn push_key_end(element: &Arg, ends: &mut Vec<usize>) -> Result<(), AllocError>
    ensures { (source : Source) → OnOk result (ends.new.items ≡ ends.old.items ++ key_end (arg_view source element.now)) }
{
    match element {
        Arg::Plain(_) => {}
        Arg::Named { name, .. } => ends.push(name.to)?,
        Arg::Pair { key, .. } => ends.push(span_of(key.get()).to)?,
    }
    Ok(())
}

/// Adds the ends of the keys of some elements.
fn push_key_ends(elements: &[Arg], ends: &mut Vec<usize>) -> Result<(), AllocError>
    ensures { (source : Source) → OnOk result (ends.new.items ≡ ends.old.items ++ key_ends (args_view source elements.now)) }
{
    for i in 0..elements.len() {
        push_key_end(&elements[i], ends)?;
    }
    Ok(())
}

/// Adds those of the keyword arguments of a call that is noted.
fn push_keyword_ends(note: &Note<'_, '_>, ends: &mut Vec<usize>) -> Result<(), AllocError>
    ensures { OnOk result (ends.new.items ≡ ends.old.items ++ keyword_ends (note_view note.now).it) }
{
    match note.what {
        What::Call { arguments, .. } => push_key_ends(arguments.items.get(), ends),
        _ => Ok(()),
    }
}

/// Adds those of the entries of a dictionary that is opened in a file.
fn push_entry_ends(parsed: &Parsed, list: &Opened, ends: &mut Vec<usize>) -> Result<(), AllocError>
    ensures { (source : Source) → OnOk result (ends.new.items ≡ ends.old.items ++ entry_ends (view source parsed.now) list.now) }
{
    match parsed.expr_at(&list.place.path) {
        Some(value) => push_key_ends(elements_in(value), ends),
        None => Ok(()),
    }
}

/// The ends of the keys of the keyword arguments of all calls that are noted.
fn all_keyword_ends(alloc: Global, notes: &[Note<'_, '_>]) -> Result<Vec<usize>, AllocError>
    ensures { IfOk result (λ ends. ends.items ≡ flat_map (λ m. keyword_ends m.it) (note_views notes.now)) }
{
    let mut ends = Vec::new(alloc);
    for i in 0..notes.len() {
        push_keyword_ends(&notes[i], &mut ends)?;
    }
    Ok(ends)
}

/// Adds those of the entries of all dictionaries that are opened in a file.
fn push_all_entry_ends(
    parsed: &Parsed,
    lists: &[Opened],
    ends: &mut Vec<usize>,
) -> Result<(), AllocError>
    ensures { (source : Source) → OnOk result (ends.new.items ≡ ends.old.items ++ flat_map (entry_ends (view source parsed.now)) lists.now) }
{
    for i in 0..lists.len() {
        push_entry_ends(parsed, &lists[i], ends)?;
    }
    Ok(())
}

/// The ends of the keys of all calls of functions and all dictionaries in the file of this number.
fn ends_in_file(alloc: Global, sources: Sources<'_>, file: usize) -> Result<Vec<usize>, AllocError>
    requires { AreParsed sources.files.now sources.trees.now }
    ensures { IfOk result (λ ends. ends.items ≡ ends_in_file (loaded_in sources.entry) file) }
{
    if file >= sources.trees.len() {
        return Ok(Vec::new(alloc));
    }
    let source = sources.files.bytes(file);
    let parsed = &sources.trees[file];
    let taken = notes_in(alloc, file, source, parsed)?;
    let notes = taken.all(alloc)?;
    let mut ends = all_keyword_ends(alloc, notes.as_slice())?;
    let lists = lists_of(alloc, file, source, parsed)?;
    push_all_entry_ends(parsed, lists.as_slice(), &mut ends)?;
    Ok(ends)
}

/// The last end in the file.
fn last_end(ends: &[usize]) -> Option<usize>
    ensures { result ≡ last_end ends.now }
{
    ends.iter().copied().max()
}

/// The last end before an offset.
fn last_before(ends: &[usize], at: usize) -> Option<usize>
    ensures { result ≡ last_end (ends_before at ends.now) }
{
    ends.iter().copied().filter(|end| *end < at).max()
}

/// Whether a blank is before the colon of a new key of a call or a dictionary in the file of this number: as after its last key, else as after the last key before
/// it in the file.
pub(crate) fn is_spaced_in(
    alloc: Global,
    sources: Sources<'_>,
    file: usize,
    source: &[u8],
    value: &Expr,
) -> Result<bool, AllocError>
    requires { AreParsed sources.files.now sources.trees.now }
    ensures { IfOk result (λ spaced. spaced ≡ is_spaced_in source.now (ends_in_file (loaded_in sources.entry) file) (expr_view source.now value.now)) }
{
    let mut own = Vec::new(alloc);
    push_key_ends(elements_in(value), &mut own)?;
    if let Some(end) = last_end(own.as_slice()) {
        return Ok(blank_at(source, end));
    }
    let ends = ends_in_file(alloc, sources, file)?;
    match last_before(ends.as_slice(), span_of(value).from) {
        Some(end) => Ok(blank_at(source, end)),
        None => Ok(false),
    }
}
