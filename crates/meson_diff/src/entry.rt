//! The entries of an alignment: lines that are kept, removed or added.

ghost use Rattle.std.specs.Prelude.{◌≡◌, ◌++◌, OnOk, flat_map};
ghost use Rattle.meson_diff.specs.Alignment.{is_changed, is_new, is_old, marked};
ghost use Rattle.meson_diff.specs.Hunks.{entry_text, mark_byte, missing_end};

use crate::line::Line;
use std::alloc::AllocError;

/// What is done with a line.
#[derive(Clone, Copy)]
pub enum Mark {
    Kept,
    Gone,
    Come,
}

impl Mark {
    /// Whether a line of this mark is one of the old text.
    pub fn is_old(&self) -> bool
        ensures { result ≡ is_old self.now }
    {
        match self {
            Mark::Kept | Mark::Gone => true,
            Mark::Come => false,
        }
    }

    /// Whether it is a line of the new text.
    pub fn is_new(&self) -> bool
        ensures { result ≡ is_new self.now }
    {
        match self {
            Mark::Kept | Mark::Come => true,
            Mark::Gone => false,
        }
    }

    /// Whether it is removed or added.
    pub fn is_changed(&self) -> bool
        ensures { result ≡ is_changed self.now }
    {
        match self {
            Mark::Kept => false,
            Mark::Gone | Mark::Come => true,
        }
    }

    /// The byte that is written before such a line.
    fn byte(&self) -> u8
        ensures { result ≡ mark_byte self.now }
    {
        match self {
            Mark::Kept => b' ',
            Mark::Gone => b'-',
            Mark::Come => b'+',
        }
    }
}

/// A line, and what is done with it.
#[derive(Drop)]
pub struct Entry<'a> {
    pub mark: Mark,
    pub line: Line<'a>,
}

/// Adds entries of one mark.
pub(crate) fn push_all<'a>(
    entries: &mut Vec<Entry<'a>>,
    mark: Mark,
    lines: &[Line<'a>],
) -> Result<(), AllocError>
    ensures { OnOk result (entries.new.items ≡ entries.old.items ++ marked mark lines.now) }
{
    for line in lines {
        entries.push(Entry {
            mark,
            line: line.again(),
        })?;
    }
    Ok(())
}

/// What is written after a line that has no line end.
fn missing_end(line: &Line<'_>) -> &'static [u8]
    ensures { result.now ≡ missing_end line.now }
{
    if line.is_ended() {
        b""
    } else {
        b"\n\\ No newline at end of file\n"
    }
}

/// Writes a line after its mark, and says if its line end is missing.
fn push_entry(to: &mut Vec<u8>, entry: &Entry<'_>) -> Result<(), AllocError>
    ensures { OnOk result (to.new.items ≡ to.old.items ++ entry_text entry.now) }
{
    to.push(entry.mark.byte())?;
    to.extend_from_slice(entry.line.text())?;
    to.extend_from_slice(missing_end(&entry.line))?;
    Ok(())
}

/// Writes entries, one after another.
pub(crate) fn push_entries(to: &mut Vec<u8>, entries: &[Entry<'_>]) -> Result<(), AllocError>
    ensures { OnOk result (to.new.items ≡ to.old.items ++ flat_map entry_text entries.now) }
{
    for entry in entries {
        push_entry(to, entry)?;
    }
    Ok(())
}
