//! The positions of offsets in files, each counted from the last one.

ghost use Rattle.std.specs.Prelude.{◌≡◌, ◌≤◌, min, length};
ghost use Rattle.meson_splice.specs.Files.{bytes_at};
ghost use Rattle.meson_ranges.specs.Positions.{position_of};
ghost use Rattle.meson_inventory.specs.inside.Positions.{IsCounted};

use crate::line_counter::file_bytes;
use meson_ranges::Position;
use meson_splice::FileSet;

/// The position of an offset, counted from that of an earlier one.
fn position_from(bytes: &[u8], from: usize, position: Position, to: usize) -> Position
    requires counted { IsCounted bytes.now from position }
    requires later { from ≤ to }
    requires within { to ≤ length bytes.now }
    ensures { IsCounted bytes.now to result }
{
    position.after(&bytes[from..to])
}

/// Counts the positions in files. It continues from the last offset if the next one is after that in the same file. So one pass over a file serves offsets in
/// their order.
#[derive(Drop)]
pub(crate) struct PositionCounter<'f> {
    files: &'f FileSet,
    file: usize,
    at: usize,
    position: Position,
    ghost counted: { IsCounted (bytes_at file files.now) at position },
}

impl<'f> PositionCounter<'f> {
    /// At the start of the first file.
    pub(crate) fn new(files: &'f FileSet) -> Self
        ensures { result.files.now ≡ files.entry.now }
    {
        PositionCounter {
            files,
            file: 0,
            at: 0,
            position: Position::START,
        }
    }

    /// The position of an offset of a file, which has that many bytes or more.
    fn position_within(&self, file: usize, bytes: &[u8], to: usize) -> Position
        requires bytes { bytes.now ≡ bytes_at file self.now.files.now }
        requires within { to ≤ length bytes.now }
        ensures { IsCounted bytes.now to result }
    {
        if file == self.file && self.at <= to {
            return position_from(bytes, self.at, self.position, to);
        }
        position_from(bytes, 0, Position::START, to)
    }

    /// The position of an offset of a file. It stays where it is.
    pub(crate) fn position_of(&self, file: usize, at: usize) -> Position
        ensures { result ≡ position_of (bytes_at file self.now.files.now) at }
    {
        let bytes = file_bytes(self.files, file);
        self.position_within(file, bytes, at.min(bytes.len()))
    }

    /// Goes on to an offset of a file, and gives its position.
    pub(crate) fn go_to(&mut self, file: usize, at: usize) -> Position
        ensures position { result ≡ position_of (bytes_at file self.old.files.now) at }
        ensures files { self.new.files.now ≡ self.old.files.now }
    {
        let bytes = file_bytes(self.files, file);
        let to = at.min(bytes.len());
        let position = self.position_within(file, bytes, to);
        self.file = file;
        self.at = to;
        self.position = position;
        position
    }
}
