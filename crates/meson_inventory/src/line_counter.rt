//! The numbers of lines in files, each counted from the last one.

ghost use Rattle.std.specs.Prelude.{◌≡◌, ◌≤◌, ◌==◌, filter, length};
ghost use Rattle.meson_splice.specs.Files.{bytes_at};
ghost use Rattle.meson_inventory.specs.Inventory.{line_number};

use meson_splice::FileSet;

/// The bytes of the file of a number; no bytes if there is no such file.
pub fn file_bytes(files: &FileSet, file: usize) -> &[u8]
    ensures { result.now ≡ bytes_at file files.now }
{
    if file < files.len() {
        files.bytes(file)
    } else {
        &[]
    }
}

/// The number of line feeds.
fn line_feeds(bytes: &[u8]) -> usize
    ensures { result ≡ length (filter (λ b. b == 10) bytes.now) }
{
    bytes.iter().filter(|b| **b == b'\n').count()
}

/// The number of the line of the byte at an offset, counted from the line of an earlier offset.
fn line_from(bytes: &[u8], from: usize, line: usize, at: usize) -> usize
    requires found { line ≡ line_number bytes.now from }
    requires later { from ≤ at }
    ensures { result ≡ line_number bytes.now at }
{
    let to = at.min(bytes.len());
    line + line_feeds(&bytes[from.min(to)..to])
}

/// Counts the lines of files. It continues from the last offset if the next one is after that in the same file. So one pass over a file serves offsets in their
/// order.
#[derive(Drop)]
pub(crate) struct LineCounter<'f> {
    files: &'f FileSet,
    file: usize,
    at: usize,
    line: usize,
    ghost counted: { line ≡ line_number (bytes_at file files.now) at },
}

impl<'f> LineCounter<'f> {
    /// At the start of the first file.
    pub(crate) fn new(files: &'f FileSet) -> Self
        ensures { result.files.now ≡ files.entry.now }
    {
        LineCounter {
            files,
            file: 0,
            at: 0,
            line: 1,
        }
    }

    /// The number of the line of the byte at an offset of a file, counted from 1.
    pub(crate) fn line_of(&mut self, file: usize, at: usize) -> usize
        ensures line { result ≡ line_number (bytes_at file self.old.files.now) at }
        ensures files { self.new.files.now ≡ self.old.files.now }
    {
        if file != self.file || at < self.at {
            self.file = file;
            self.at = 0;
            self.line = 1;
        }
        let bytes = file_bytes(self.files, file);
        self.line = line_from(bytes, self.at, self.line, at);
        self.at = at;
        self.line
    }
}
