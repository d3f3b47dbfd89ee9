//! The numbers of lines of each text in entries.

ghost use Rattle.std.specs.Prelude.{◌≡◌, ◌+◌, ◌^◌, ◌<◌, if◌then◌else◌, length};
ghost use Rattle.meson_diff.specs.Alignment.{is_new, is_old, new_lines, old_lines};

use crate::entry::{Entry, Mark};

/// Numbers of lines of the old text and of the new one.
#[derive(Clone, Copy)]
pub(crate) struct Counts {
    pub of_old: usize,
    pub of_new: usize,
}

impl Counts {
    /// No line.
    pub const NONE: Counts = Counts {
        of_old: 0,
        of_new: 0,
    };

    /// Counts one more line of that mark.
    pub fn add(&mut self, mark: Mark)
        requires old_fits { self.old.of_old < 2 ^ 63 }
        requires new_fits { self.old.of_new < 2 ^ 63 }
        ensures of_old { self.new.of_old ≡ self.old.of_old + (if is_old mark then 1 else 0) }
        ensures of_new { self.new.of_new ≡ self.old.of_new + (if is_new mark then 1 else 0) }
    {
        if mark.is_old() {
            self.of_old += 1;
        }
        if mark.is_new() {
            self.of_new += 1;
        }
    }
}

/// The numbers of lines of each text in these entries.
pub(crate) fn counted(entries: &[Entry<'_>]) -> Counts
    ensures of_old { result.of_old ≡ length (old_lines entries.now) }
    ensures of_new { result.of_new ≡ length (new_lines entries.now) }
{
    let mut so_far = Counts::NONE;
    for entry in entries {
        so_far.add(entry.mark);
    }
    so_far
}
