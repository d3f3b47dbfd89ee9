//! Laws of positions and edits. The functions do nothing: what they ensure is the law.

ghost use Rattle.meson_ranges.specs.EditLaws.{EditsAreUtf8, EditsKeepLineEnds, EditsMake};
ghost use Rattle.meson_ranges.specs.FileLaws.{FileEditsAreUtf8, FileEditsMake};
ghost use Rattle.meson_ranges.specs.PositionLaws.{RangesAreOffsets, Rows};

/// A position is its offset: `line` is the number of line feeds before the offset, and `character` is the number of UTF-16
/// units between the last of them and the offset.
pub fn ranges_are_offsets()
    ensures { RangesAreOffsets }
{}

/// Positions in texts of characters of one to four bytes, with line feeds, with carriage returns, and with no bytes.
pub fn position_rows()
    ensures { Rows }
{}

/// The edits of two texts make the new text of the old one. What each removes is there, and each is after the one before it.
pub fn edits_make()
    ensures { EditsMake }
{}

/// No edit cuts a character: where both texts are UTF-8, so is what each edit removes, and what it inserts.
pub fn edits_are_utf8()
    ensures { EditsAreUtf8 }
{}

/// No edit begins or ends between the two bytes of a line end CR LF, where the language server protocol has no position.
pub fn edits_keep_line_ends()
    ensures { EditsKeepLineEnds }
{}

/// The edits of two sets of the same files make the new set of the old one. A file that is not listed is as it was.
pub fn file_edits_make()
    ensures { FileEditsMake }
{}

/// Where all files are UTF-8, so is what each edit removes, and what it inserts.
pub fn file_edits_are_utf8()
    ensures { FileEditsAreUtf8 }
{}
