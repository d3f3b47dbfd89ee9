//! An explanation as lines.

ghost use Rattle.std.specs.Prelude.{◌≡◌, ◌≤◌, ◌==◌, ◌++◌, IfOk, OnOk, codes, filter, flat_map, length, string_bytes, take};
ghost use Rattle.meson_explaining.specs.Lines.{begins_character, explanation_lines, help_line, last_line, marked_line, place_part, place_words};
ghost use Rattle.meson_explaining.specs.Lines.{printable, spot_part, warning_lines};

use crate::explanation::{Explanation, Note, Spot};
use crate::printable::printable;
use meson_inventory::file_bytes;
use meson_listing::entries::file_name;
use meson_splice::{FileSet, Text};
use std::alloc::{AllocError, Global};

/// Whether a byte is the first of a character.
fn begins_character(byte: u8) -> bool
    ensures { result ≡ begins_character byte }
{
    byte < 128 || byte >= 192
}

/// The bytes before an offset.
pub(crate) fn before(bytes: &[u8], at: usize) -> &[u8]
    ensures { result.now ≡ take at bytes.now }
{
    &bytes[..at.min(bytes.len())]
}

/// The number of line feeds.
pub(crate) fn line_feeds(bytes: &[u8]) -> usize
    ensures count { result ≡ length (filter (λ b. b == 10) bytes.now) }
    ensures few { result ≤ length bytes.now }
{
    bytes.iter().filter(|b| **b == b'\n').count()
}

/// The number of characters after the last line feed.
pub(crate) fn last_line_len(bytes: &[u8]) -> usize
    ensures count { result ≡ length (filter begins_character (last_line bytes.now)) }
    ensures few { result ≤ length bytes.now }
{
    bytes
        .iter()
        .rev()
        .take_while(|b| **b != b'\n')
        .filter(|b| begins_character(**b))
        .count()
}

/// A place, as `FILE:LINE:COLUMN: `.
pub(crate) fn place_words(
    alloc: Global,
    file: &str,
    line: usize,
    column: usize,
) -> Result<String, AllocError>
    ensures { IfOk result (λ text. string_bytes text ≡ place_words file.now line column) }
{
    format!(in alloc; "{file}:{line}:{column}: ")
}

/// What a line begins with for a place.
fn spot_part(alloc: Global, files: &FileSet, spot: &Spot) -> Result<String, AllocError>
    ensures { IfOk result (λ text. string_bytes text ≡ spot_part files.now spot.now) }
{
    let file = file_name(files, spot.file);
    let bytes = file_bytes(files, spot.file);
    let before = before(bytes, spot.at);
    place_words(
        alloc,
        file,
        line_feeds(before) + 1,
        last_line_len(before) + 1,
    )
}

/// The same where there may be none.
fn place_part(alloc: Global, files: &FileSet, spot: &Option<Spot>) -> Result<String, AllocError>
    ensures { IfOk result (λ text. string_bytes text ≡ place_part files.now spot.now) }
{
    match spot {
        Some(spot) => spot_part(alloc, files, spot),
        None => Ok(String::new(alloc)),
    }
}

/// Adds a line, without control characters.
pub(crate) fn add_line(alloc: Global, lines: &mut String, line: &str) -> Result<(), AllocError>
    ensures { OnOk result (string_bytes lines.new ≡ string_bytes lines.old ++ (printable line.now ++ codes "\n")) }
{
    let shown = printable(alloc, line)?;
    lines.push_str(shown.as_str())?;
    lines.push_str("\n")
}

/// Adds the line of each note, which begins with this word.
fn add_notes(
    alloc: Global,
    files: &FileSet,
    lines: &mut String,
    word: &str,
    notes: &[Note],
) -> Result<(), AllocError>
    ensures { OnOk result (string_bytes lines.new ≡ string_bytes lines.old ++ flat_map (marked_line word.now files.now) notes.now) }
{
    for note in notes {
        let place = place_part(alloc, files, &note.spot)?;
        let text = note.text.get();
        let line = format!(in alloc; "{word}{place}{text}")?;
        add_line(alloc, lines, line.as_str())?;
    }
    Ok(())
}

/// Adds the lines of help.
fn add_help(alloc: Global, lines: &mut String, help: &[Text]) -> Result<(), AllocError>
    ensures { OnOk result (string_bytes lines.new ≡ string_bytes lines.old ++ flat_map help_line help.now) }
{
    for text in help {
        let text = text.get();
        let line = format!(in alloc; "help: {text}")?;
        add_line(alloc, lines, line.as_str())?;
    }
    Ok(())
}

/// The lines of an explanation: `note: FILE:LINE:COLUMN: TEXT` for each note, without the place if it has none, and `help: TEXT` for each line of help. Lines
/// and columns are counted from 1, columns in characters. Control characters are escaped.
///
/// # Errors
/// Out of memory.
pub fn explanation_lines(
    alloc: Global,
    files: &FileSet,
    explanation: &Explanation,
) -> Result<String, AllocError>
    ensures { IfOk result (λ lines. string_bytes lines ≡ explanation_lines files.now explanation.now) }
{
    let mut lines = String::new(alloc);
    add_notes(alloc, files, &mut lines, "note: ", explanation.notes.get())?;
    add_help(alloc, &mut lines, explanation.help.get())?;
    Ok(lines)
}

/// The lines of warnings: `warning: FILE:LINE:COLUMN: TEXT` for each, as `explanation_lines` has notes.
///
/// # Errors
/// Out of memory.
pub fn warning_lines(alloc: Global, files: &FileSet, notes: &[Note]) -> Result<String, AllocError>
    ensures { IfOk result (λ lines. string_bytes lines ≡ warning_lines files.now notes.now) }
{
    let mut lines = String::new(alloc);
    add_notes(alloc, files, &mut lines, "warning: ", notes)?;
    Ok(lines)
}
