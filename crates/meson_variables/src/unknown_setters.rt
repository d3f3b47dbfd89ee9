//! Whether it is known what may set variables.

ghost use Rattle.std.specs.Prelude.{◌≡◌, not, All, IfOk};
ghost use Rattle.meson_syntax.specs.Grammar.{listing_words};
ghost use Rattle.meson_syntax.specs.declared.operator.Bracket.TheVariants as bracket;
ghost use Rattle.meson_syntax.specs.View.{text_at, list_view};
ghost use Rattle.meson_calls.specs.Calls.{first_literal};
ghost use Rattle.meson_calls.specs.Loading.{HasFileName};
ghost use Rattle.meson_calls.specs.FileNames.{AreFileNames, is_entered, meant_in};
ghost use Rattle.meson_variables.specs.UnknownSetters.{is_unknown_in, has_unknown, enters_none};
ghost use Rattle.meson_calls.specs.Notes.{note_view, note_views};
ghost use Rattle.meson_calls.specs.ChosenNotes.{Source, call_with};
ghost use Rattle.meson_calls.specs.Project.{place_at};
ghost use Rattle.meson_calls.specs.Strings.{AreGood, NotesGood, note_words};
ghost use Rattle.meson_variables.specs.Variables.{sets_unknown};

use meson_calls::file_names::{enters, names_of};
use meson_calls::literals::first_literal;
use meson_calls::note::{Note, What};
use meson_calls::roles::text_of;
use meson_lex::Span;
use meson_splice::FileSet;
use meson_syntax::List;
use std::alloc::{AllocError, Global};
use std::collections::HashSet;

/// Whether a call is a `set_variable` of a name that is not a literal.
fn sets_unknown(
    alloc: Global,
    source: &[u8],
    function: Span,
    arguments: &List,
) -> Result<bool, AllocError>
    requires { AreGood (listing_words (list_view source.now arguments.now) bracket.Round) }
    ensures { IfOk result (λ unknown. unknown ≡ sets_unknown (call_with (text_at source.now function) (list_view source.now arguments.now))) }
{
    if text_of(source, function) == b"set_variable".as_slice() {
        let name = first_literal(alloc, source, arguments)?;
        Ok(name.is_none())
    } else {
        Ok(false)
    }
}

/// Whether a `subdir` call in this file enters one of the files.
fn is_entered(
    alloc: Global,
    files: &FileSet,
    names: &HashSet<&str>,
    file: usize,
    source: &[u8],
    arguments: &List,
) -> Result<bool, AllocError>
    requires named { All HasFileName files.now }
    requires names { AreFileNames names.now files.now }
    requires good { AreGood (listing_words (list_view source.now arguments.now) bracket.Round) }
    ensures { (function : Source) → let folder = first_literal (call_with function (list_view source.now arguments.now)) in
        IfOk result (λ there. there ≡ is_entered files.now (meant_in files.now file folder)) }
{
    match first_literal(alloc, source, arguments)? {
        Some(folder) => enters(alloc, files, names, file, folder.as_str()),
        None => Ok(false),
    }
}

/// Whether a call is a `subdir` that enters none of the files.
fn enters_none(
    alloc: Global,
    files: &FileSet,
    names: &HashSet<&str>,
    file: usize,
    source: &[u8],
    function: Span,
    arguments: &List,
) -> Result<bool, AllocError>
    requires named { All HasFileName files.now }
    requires names { AreFileNames names.now files.now }
    requires good { AreGood (listing_words (list_view source.now arguments.now) bracket.Round) }
    ensures { IfOk result (λ unknown.
        unknown ≡ enters_none files.now file (call_with (text_at source.now function) (list_view source.now arguments.now))) }
{
    if text_of(source, function) == b"subdir".as_slice() {
        let there = is_entered(alloc, files, names, file, source, arguments)?;
        Ok(!there)
    } else {
        Ok(false)
    }
}

/// Whether a note is a call that may set any variable.
fn is_unknown(
    alloc: Global,
    files: &FileSet,
    names: &HashSet<&str>,
    note: &Note<'_, '_>,
) -> Result<bool, AllocError>
    requires named { All HasFileName files.now }
    requires names { AreFileNames names.now files.now }
    requires good { AreGood (note_words (note_view note.now).it) }
    ensures { IfOk result (λ unknown. unknown ≡ is_unknown_in files.now (place_at note.now.place) (note_view note.now).it) }
{
    match note.what {
        What::Call {
            function,
            arguments,
        } => {
            if sets_unknown(alloc, note.source, function, arguments)? {
                return Ok(true);
            }
            let unknown = enters_none(
                alloc,
                files,
                names,
                note.place.file,
                note.source,
                function,
                arguments,
            )?;
            Ok(unknown)
        }
        _ => Ok(false),
    }
}

/// Whether no call may set any variable.
pub fn all_known(alloc: Global, files: &FileSet, notes: &[Note<'_, '_>]) -> Result<bool, AllocError>
    requires named { All HasFileName files.now }
    requires good { NotesGood (note_views notes.now) }
    ensures { IfOk result (λ known. known ≡ not (has_unknown files.now (note_views notes.now))) }
{
    let names = names_of(alloc, files)?;
    for i in 0..notes.len() {
        if is_unknown(alloc, files, &names, &notes[i])? {
            return Ok(false);
        }
    }
    Ok(true)
}
