//! The files that `subdir` calls mean.

ghost use Rattle.std.specs.Prelude.{◌≡◌, ◌++◌, [], All, IfOk, OnOk, false, map, string_bytes};
ghost use Rattle.meson_syntax.specs.Grammar.{expression_words, listing_words};
ghost use Rattle.meson_syntax.specs.Reads.{IsSpanned};
ghost use Rattle.meson_syntax.specs.View.{expr_view, list_view, view};
ghost use Rattle.meson_syntax.specs.declared.operator.Bracket.TheVariants as bracket;
ghost use Rattle.std.specs.List.{cons_option};
ghost use Rattle.meson_calls.specs.Calls.{first_argument, literal_of};
ghost use Rattle.meson_calls.specs.ChosenNotes.{Source, call_with};
ghost use Rattle.meson_calls.specs.Folders.{IsFileName};
ghost use Rattle.meson_calls.specs.Notes.{note_view};
ghost use Rattle.meson_calls.specs.Strings.{AreGood, note_words};
ghost use Rattle.meson_entering.specs.Code.{file_view};
ghost use Rattle.meson_entering.specs.Entering.{HasNoSubdir, files_entered, files_meant, folders_of, note_enters};

use crate::loops::loop_texts;
use memchr::memmem;
use meson_calls::Reading;
use meson_calls::entering::file_as;
use meson_calls::literals::literal;
use meson_calls::note::{Note, What};
use meson_calls::notes::notes_in;
use meson_calls::roles::{first_argument, text_of};
use meson_syntax::{Expr, List, Parsed};
use std::alloc::{AllocError, Global};

/// A build file: its name, its bytes, and the tree that they parse as.
#[derive(Clone, Copy)]
pub struct SourceFile<'t> {
    pub name: &'t str,
    pub source: &'t [u8],
    pub tree: &'t Parsed,
}

/// A call of a file: the bytes that it is in, its path, and its arguments.
#[derive(Clone, Copy)]
pub struct SubdirCall<'t> {
    pub source: &'t [u8],
    pub path: &'t [usize],
    pub arguments: &'t List,
}

/// The folder that an argument means, if it is a literal.
fn literal_folder(alloc: Global, source: &[u8], argument: &Expr) -> Result<Vec<String>, AllocError>
    requires { AreGood (expression_words (expr_view source.now argument.now)) }
    ensures { IfOk result (λ folders. map string_bytes folders.items ≡ cons_option (literal_of (expr_view source.now argument.now)) []) }
{
    let mut folders = Vec::new(alloc);
    if let Some(folder) = literal(alloc, source, argument)? {
        folders.push(folder)?;
    }
    Ok(folders)
}

/// The folders that a `subdir` call may mean.
fn folders_meant(
    alloc: Global,
    reading: Reading,
    file: SourceFile<'_>,
    call: SubdirCall<'_>,
) -> Result<Vec<String>, AllocError>
    requires spanned { IsSpanned file.source.now (view file.source.now file.tree.now) }
    requires good { AreGood (listing_words (list_view call.source.now call.arguments.now) bracket.Round) }
    ensures { (function : Source) → IfOk result (λ folders. map string_bytes folders.items
        ≡ folders_of reading (view file.entry.source.now file.entry.tree.now) call.entry.path.now
        (first_argument (call_with function (list_view call.entry.source.now call.entry.arguments.now)))) }
{
    let Some(argument) = first_argument(call.arguments) else {
        return Ok(Vec::new(alloc));
    };
    match (reading, argument) {
        (Reading::Followed, Expr::Identifier(name)) => {
            let name = text_of(call.source, *name);
            loop_texts(alloc, file.source, file.tree, name, call.path)
        }
        _ => literal_folder(alloc, call.source, argument),
    }
}

/// The names of the files that a `subdir` call of a file may mean: one if its argument is a literal. Where the files are followed, the name of a loop around
/// the call means each text that is known of the loop's list.
///
/// # Errors
/// Out of memory.
pub fn files_meant(
    alloc: Global,
    reading: Reading,
    file: SourceFile<'_>,
    call: SubdirCall<'_>,
) -> Result<Vec<String>, AllocError>
    requires named { IsFileName file.name.now }
    requires spanned { IsSpanned file.source.now (view file.source.now file.tree.now) }
    requires good { AreGood (listing_words (list_view call.source.now call.arguments.now) bracket.Round) }
    ensures { (function : Source) → IfOk result (λ names. map string_bytes names.items
        ≡ files_meant reading (file_view file.entry) call.entry.path.now (call_with function (list_view call.entry.source.now call.entry.arguments.now))) }
{
    let folders = folders_meant(alloc, reading, file, call)?;
    let mut names = Vec::new(alloc);
    for i in 0..folders.len() {
        if let Some(name) = file_as(alloc, reading, file.name, folders[i].as_str())? {
            names.push(name)?;
        }
    }
    Ok(names)
}

/// Adds the names of the files that a note enters.
fn add_entered(
    alloc: Global,
    reading: Reading,
    file: SourceFile<'_>,
    note: &Note<'_, '_>,
    names: &mut Vec<String>,
) -> Result<(), AllocError>
    requires named { IsFileName file.name.now }
    requires spanned { IsSpanned file.source.now (view file.source.now file.tree.now) }
    requires good { AreGood (note_words (note_view note.now).it) }
    ensures { OnOk result (map string_bytes names.new.items ≡ map string_bytes names.old.items ++ note_enters reading (file_view file.entry) (note_view note.now)) }
{
    let What::Call {
        function,
        arguments,
    } = note.what
    else {
        return Ok(());
    };
    if text_of(note.source, function) == b"subdir".as_slice() {
        let call = SubdirCall {
            source: note.source,
            path: note.place.path,
            arguments,
        };
        let mut meant = files_meant(alloc, reading, file, call)?;
        names.append(&mut meant)?;
    }
    Ok(())
}

/// Whether `subdir` occurs anywhere in the bytes. If not, the file has no call of that function, and need not be walked.
fn may_enter(bytes: &[u8]) -> bool
    ensures { result ≡ false → HasNoSubdir bytes.now }
{
    memmem::find(bytes, b"subdir".as_slice()).is_some()
}

/// The names of the files that the `subdir` calls of a file may enter, in order, by how build files are read.
///
/// # Errors
/// Out of memory.
pub fn entered_by(
    alloc: Global,
    reading: Reading,
    file: SourceFile<'_>,
) -> Result<Vec<String>, AllocError>
    requires named { IsFileName file.name.now }
    requires spanned { IsSpanned file.source.now (view file.source.now file.tree.now) }
    ensures all { IfOk result (λ names. map string_bytes names.items ≡ files_entered reading (file_view file.entry)) }
    ensures named { IfOk result (λ names. All IsFileName (map string_bytes names.items)) }
{
    let mut names = Vec::new(alloc);
    if !may_enter(file.source) {
        return Ok(names);
    }
    let taken = notes_in(alloc, 0, file.source, file.tree)?;
    let notes = taken.all(alloc)?;
    for i in 0..notes.len() {
        add_entered(alloc, reading, file, &notes[i], &mut names)?;
    }
    Ok(names)
}
