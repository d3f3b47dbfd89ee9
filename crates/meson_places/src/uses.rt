//! Where a variable is read or named.

ghost use Rattle.std.specs.Prelude.{◌≡◌, IfOk};
ghost use Rattle.std.specs.List.{list_any};
ghost use Rattle.meson_lex.specs.declared.fault.LexFault.{LexFault as Fault};
ghost use Rattle.meson_lex.specs.declared.kinds.Item.{Item as TheItem};
ghost use Rattle.meson_syntax.specs.Grammar.{listing_words};
ghost use Rattle.meson_syntax.specs.View.{list_view, text_at};
ghost use Rattle.meson_syntax.specs.declared.operator.Bracket.TheVariants as bracket;
ghost use Rattle.meson_calls.specs.ChosenNotes.{call_with};
ghost use Rattle.meson_calls.specs.Loading.{AreParsed, project};
ghost use Rattle.meson_calls.specs.Notes.{note_view, note_views};
ghost use Rattle.meson_calls.specs.Parts.{parts};
ghost use Rattle.meson_calls.specs.Roles.{one_of};
ghost use Rattle.meson_calls.specs.Strings.{AreGood, NotesGood, note_words};
ghost use Rattle.meson_calls.specs.Walks.{read_in};
ghost use Rattle.meson_places.specs.Names.{loaded_in};
ghost use Rattle.meson_places.specs.Uses.{call_names, is_format, is_formatted, is_named, is_only, is_read_once, item_holds, note_names, occurs, placeholder, source_holds, variable_functions};

use crate::name::Sources;
use crate::target_names::is_same;
use memchr::memmem;
use meson_calls::CallRef;
use meson_calls::keeper::Keeper;
use meson_calls::literals::first_literal;
use meson_calls::note::{Note, What};
use meson_calls::notes::notes_of;
use meson_calls::roles::text_of;
use meson_calls::walk_statements::walk_files;
use meson_lex::{Item, Kind, LexFault, Span, items};
use meson_splice::FileSet;
use meson_syntax::List;
use std::alloc::{AllocError, Global};

/// Whether the first argument of a function is the name of a variable.
fn takes_name(function: &[u8]) -> bool
    ensures { result ≡ one_of variable_functions function.now }
{
    b"get_variable".as_slice() == function
        || b"set_variable".as_slice() == function
        || b"is_variable".as_slice() == function
        || b"unset_variable".as_slice() == function
}

/// Whether a call is about the variable: it names it, or gets a variable whose name is computed.
fn call_names(
    alloc: Global,
    source: &[u8],
    function: Span,
    arguments: &List,
    name: &[u8],
) -> Result<bool, AllocError>
    requires { AreGood (listing_words (list_view source.now arguments.now) bracket.Round) }
    ensures { IfOk result (λ b. b ≡ call_names name.now (call_with (text_at source.now function) (list_view source.now arguments.now))) }
{
    let function = text_of(source, function);
    if !takes_name(function) {
        return Ok(false);
    }
    match first_literal(alloc, source, arguments)? {
        Some(text) => Ok(name == text.as_bytes()),
        None => Ok(function == b"get_variable".as_slice()),
    }
}

/// Whether a note is one of such a call.
fn note_names(alloc: Global, note: &Note<'_, '_>, name: &[u8]) -> Result<bool, AllocError>
    requires { AreGood (note_words (note_view note.now).it) }
    ensures { IfOk result (λ b. b ≡ note_names name.now (note_view note.now).it) }
{
    match note.what {
        What::Call {
            function,
            arguments,
        } => call_names(alloc, note.source, function, arguments, name),
        What::Assign { .. } => Ok(false),
        What::Loop { .. } => Ok(false),
    }
}

/// Whether one of some notes is.
///
/// # Errors
/// Out of memory.
pub fn is_named(alloc: Global, notes: &[Note<'_, '_>], name: &[u8]) -> Result<bool, AllocError>
    requires { NotesGood (note_views notes.now) }
    ensures { IfOk result (λ b. b ≡ is_named name.now (note_views notes.now)) }
{
    for i in 0..notes.len() {
        if note_names(alloc, &notes[i], name)? {
            return Ok(true);
        }
    }
    Ok(false)
}

/// The places of the identifiers that are the variable, in file order and source order.
fn reads_of<'p>(
    alloc: Global,
    sources: Sources<'p>,
    name: &'p [u8],
) -> Result<Vec<CallRef>, AllocError>
    requires { AreParsed sources.files.now sources.trees.now }
    ensures { IfOk result (λ found. found.items ≡ read_in name.now (parts (project (loaded_in sources.entry)))) }
{
    let mut keeper = Keeper::Reads {
        name,
        found: Vec::new(alloc),
    };
    walk_files(alloc, sources.files, sources.trees, &mut keeper)?;
    match keeper.reads() {
        Some(found) => Ok(found),
        None => unreachable!(),
    }
}

/// Whether the only one of some places is this one.
fn is_only(place: &CallRef, places: &[CallRef]) -> bool
    ensures { result ≡ is_only place.now places.now }
{
    match places {
        [one] => is_same(one, place),
        _ => false,
    }
}

/// Whether it is a format string.
fn is_format(kind: Kind) -> bool
    ensures { result ≡ is_format kind }
{
    matches!(kind, Kind::FormatString | Kind::FormatMultilineString)
}

/// The name between two `@`: what a format string holds where it has the value of the variable.
///
/// # Errors
/// Out of memory.
pub fn placeholder(alloc: Global, name: &[u8]) -> Result<Vec<u8>, AllocError>
    ensures { IfOk result (λ v. v.items ≡ placeholder name.now) }
{
    let mut text = Vec::new(alloc);
    text.push(b'@')?;
    text.extend_from_slice(name)?;
    text.push(b'@')?;
    Ok(text)
}

/// Whether a text occurs in another one.
fn occurs(part: &[u8], text: &[u8]) -> bool
    ensures { result ≡ occurs part.now text.now }
{
    memmem::find_iter(text, part).next().is_some()
}

/// Whether an item of a source is a format string that holds a text.
fn item_holds(source: &[u8], part: &[u8], item: Result<Item, LexFault>) -> bool
    ensures { result ≡ item_holds source.now part.now item }
{
    match item {
        Ok(item) => is_format(item.kind) && occurs(part, text_of(source, item.span)),
        Err(_) => false,
    }
}

/// Whether a format string of a source holds a text.
pub fn source_holds(source: &[u8], part: &[u8]) -> bool
    ensures { result ≡ source_holds part.now source.now }
{
    for item in items(source) {
        if item_holds(source, part, item) {
            return true;
        }
    }
    false
}

/// Whether a format string of one of the files holds the variable.
///
/// # Errors
/// Out of memory.
pub fn is_formatted(alloc: Global, files: &FileSet, name: &[u8]) -> Result<bool, AllocError>
    ensures { IfOk result (λ b. b ≡ is_formatted name.now files.now) }
{
    let part = placeholder(alloc, name)?;
    for i in 0..files.len() {
        if source_holds(files.bytes(i), part.as_slice()) {
            return Ok(true);
        }
    }
    Ok(false)
}

/// Whether the identifier at a place is the only one that is the variable, and nothing else in the project reads or names it: no call of `get_variable`,
/// `is_variable`, `set_variable` or `unset_variable`, and no format string.
pub(crate) fn is_read_once<'p>(
    alloc: Global,
    sources: Sources<'p>,
    name: &'p [u8],
    place: &CallRef,
) -> Result<bool, AllocError>
    requires { AreParsed sources.files.now sources.trees.now }
    ensures { IfOk result (λ b. b ≡ is_read_once sources.entry.files.now (project (loaded_in sources.entry)) name.now place.now) }
{
    let places = reads_of(alloc, sources, name)?;
    if !is_only(place, places.as_slice()) || is_formatted(alloc, sources.files, name)? {
        return Ok(false);
    }
    let taken = notes_of(alloc, sources.files, sources.trees)?;
    let notes = taken.all(alloc)?;
    Ok(!is_named(alloc, notes.as_slice(), name)?)
}
