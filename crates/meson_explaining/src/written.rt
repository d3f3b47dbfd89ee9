//! Notes of where the literal of a name is written in the build files.

ghost use Rattle.std.specs.Prelude.{◌≡◌, ◌++◌, IfOk, OnOk, length, option_map, string_bytes};
ghost use Rattle.memchr.specs.Find.{matches};
ghost use Rattle.meson_explaining.specs.Written.{first_of, literal_of, written_below, written_in, written_note, written_notes};

use crate::explanation::{Note, Spot};
use memchr::memmem;
use meson_inventory::file_bytes;
use meson_plan::Project;
use meson_splice::{FileSet, Text};
use std::alloc::{AllocError, Global};

/// The most places that are reported.
const MOST_WRITTEN: usize = 3;

/// The literal of a name.
fn literal_of(alloc: Global, name: &str) -> Result<String, AllocError>
    ensures { IfOk result (λ literal. string_bytes literal ≡ literal_of name.now) }
{
    format!(in alloc; "'{name}'")
}

/// The first place of some bytes among others.
fn first_place(bytes: &[u8], sought: &[u8]) -> Option<usize>
    ensures { result ≡ first_of (matches bytes.now sought.now 0) }
{
    memmem::find_iter(bytes, sought).next()
}

/// The note of the literal of a name at an offset of the file of a number.
fn written_note(alloc: Global, name: &str, file: usize, at: usize) -> Result<Note, AllocError>
    ensures { IfOk result (λ note. note ≡ written_note name.now file at) }
{
    let text = format!(in alloc; "'{name}' is written here")?;
    Ok(Note {
        spot: Some(Spot { file, at, end: at }),
        text: Text::of(text),
    })
}

/// Adds the note of the first place of the literal in the file of a number, if it is written there.
fn add_written(
    alloc: Global,
    notes: &mut Vec<Note>,
    files: &FileSet,
    name: &str,
    file: usize,
) -> Result<(), AllocError>
    ensures { OnOk result (notes.new.items ≡ notes.old.items ++ written_in files.now name.now file) }
{
    let literal = literal_of(alloc, name)?;
    if let Some(at) = first_place(file_bytes(files, file), literal.as_str().as_bytes()) {
        notes.push(written_note(alloc, name, file, at)?)?;
    }
    Ok(())
}

/// The notes of all files in which the literal of a name is written.
fn all_written(alloc: Global, files: &FileSet, name: &str) -> Result<Vec<Note>, AllocError>
    ensures { IfOk result (λ notes. notes.items ≡ written_below files.now name.now (length files.now)) }
{
    let mut notes = Vec::new(alloc);
    for file in 0..files.len() {
        add_written(alloc, &mut notes, files, name, file)?;
    }
    Ok(notes)
}

/// The notes of the first files in which the literal of a name is written, if there is a name.
pub(crate) fn written_notes(
    alloc: Global,
    project: &Project,
    name: Option<&str>,
) -> Result<Vec<Note>, AllocError>
    ensures { IfOk result (λ notes. notes.items ≡ written_notes project.now (option_map (λ name. name.now) name.entry)) }
{
    match name {
        Some(name) => {
            let mut notes = all_written(alloc, project.files(), name)?;
            notes.truncate(MOST_WRITTEN);
            Ok(notes)
        }
        None => Ok(Vec::new(alloc)),
    }
}
