//! What was seen of a refused command, as JSON.

ghost use Rattle.std.specs.Prelude.{◌≡◌, IfOk, Some, map};
ghost use Rattle.serde_json.specs.Data.{array};
ghost use Rattle.serde_json.specs.View.{items_of};
ghost use Rattle.serde_json.specs.Written.{compact_text};
ghost use Rattle.meson_ranges.specs.Positions.{position_of as position_spec};
ghost use Rattle.meson_rewrite.specs.Notes.{note_data, place_of, placed_note};
ghost use Rattle.meson_rewrite.specs.Objects.{range_data};

use crate::quoted::Quoted;
use meson_explaining::{Note, Spot};
use meson_inventory::file_bytes;
use meson_json::owned;
use meson_listing::entries::file_name;
use meson_ranges::{Position, Range, position_of};
use meson_splice::{FileSet, Many, Text};
use std::alloc::{AllocError, Global};
use std::fmt;
use std::fmt::{Display, Formatter, Write};

/// Bytes of a file.
#[derive(Drop)]
pub(crate) struct NotePlace {
    /// The name of the file.
    pub file: Text,
    /// The offset in bytes of the first of them.
    pub at: usize,
    pub range: Range,
}

/// What was seen, and where.
#[derive(Drop)]
pub(crate) struct PlacedNote {
    /// None for what is said of the project as a whole.
    pub place: Option<NotePlace>,
    pub text: Text,
}

/// The position of an offset in a text; of its end for an offset after that.
fn position_in(text: &[u8], offset: usize) -> Position
    ensures { result ≡ position_spec text.now offset }
{
    position_of(text, offset.min(text.len()))
}

/// Where a note is.
fn place_of(alloc: Global, files: &FileSet, spot: &Spot) -> Result<NotePlace, AllocError>
    ensures { IfOk result (λ place. place ≡ place_of files.now spot.now) }
{
    let text = file_bytes(files, spot.file);
    Ok(NotePlace {
        file: owned(alloc, file_name(files, spot.file))?,
        at: spot.at,
        range: Range {
            start: position_in(text, spot.at),
            end: position_in(text, spot.end),
        },
    })
}

/// A note, with its place in lines and UTF-16 units.
fn placed_note(alloc: Global, files: &FileSet, note: &Note) -> Result<PlacedNote, AllocError>
    ensures { IfOk result (λ placed. placed ≡ placed_note files.now note.now) }
{
    let place = match &note.spot {
        Some(spot) => Some(place_of(alloc, files, spot)?),
        None => None,
    };
    Ok(PlacedNote {
        place,
        text: note.text.clone()?,
    })
}

/// Notes, each with its place.
pub(crate) fn placed_notes(
    alloc: Global,
    files: &FileSet,
    notes: &[Note],
) -> Result<Many<PlacedNote>, AllocError>
    ensures { IfOk result (λ placed. placed ≡ map (placed_note files.now) notes.now) }
{
    let mut placed = Vec::new(alloc);
    for note in notes {
        placed.push(placed_note(alloc, files, note)?)?;
    }
    Ok(Many::of(placed))
}

/// A range, displayed as an object of JSON.
#[derive(Drop)]
struct RangeObject(Range);

impl Display for RangeObject {
    ghost output = { λ range. Some (compact_text (range_data range.0)) };

    fn fmt<W: Write>(&self, f: &mut Formatter<W>) -> fmt::Result {
        let Range { start, end } = self.0;
        write!(
            f,
            "{{\"end\":{{\"character\":{},\"line\":{}}},\"start\":{{\"character\":{},\"line\":{}}}}}",
            end.character, end.line, start.character, start.line,
        )
    }
}

impl Display for PlacedNote {
    ghost output = { λ note. Some (compact_text (note_data note)) };

    fn fmt<W: Write>(&self, f: &mut Formatter<W>) -> fmt::Result {
        match &self.place {
            Some(place) => write!(
                f,
                "{{\"at\":{},\"file\":{},\"range\":{},\"text\":{}}}",
                place.at,
                Quoted(&place.file),
                RangeObject(place.range),
                Quoted(&self.text),
            ),
            None => write!(f, "{{\"text\":{}}}", Quoted(&self.text)),
        }
    }
}

/// Notes, displayed as an array of JSON.
#[derive(Drop)]
pub(crate) struct Notes<'a>(pub &'a [PlacedNote]);

impl Display for Notes<'_> {
    ghost output = { λ notes. Some (compact_text (array (items_of (map note_data notes.0.now)))) };

    fn fmt<W: Write>(&self, f: &mut Formatter<W>) -> fmt::Result {
        let [first, rest @ ..] = self.0 else {
            return f.write_str("[]");
        };
        write!(f, "[{first}")?;
        for note in rest {
            write!(f, ",{note}")?;
        }
        f.write_str("]")
    }
}
