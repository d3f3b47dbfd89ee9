//! Laws of diffs. The functions do nothing: what they ensure is the law.

ghost use Rattle.meson_diff.specs.Laws.{EmptyMeansEqual, GoneBeforeCome, HiddenAreKept, HunksAreRuns, HunksHoldAll, LinesAreTheText, PatchedIsNew, TextsAreReadOff};

/// A text is its lines, one after another; each but the last ends with a line feed, and has no other.
pub fn lines_are_the_text()
    ensures { LinesAreTheText }
{}

/// The lines that are kept or removed are the old text, and those that are kept or added are the new one.
pub fn texts_are_read_off()
    ensures { TextsAreReadOff }
{}

/// No added line is directly before a removed one.
pub fn gone_before_come()
    ensures { GoneBeforeCome }
{}

/// A diff is empty exactly if no file differs.
pub fn empty_means_equal()
    ensures { EmptyMeansEqual }
{}

/// A hunk is a longest run of the entries that are changed or at most three away from a changed one. The hunks and the entries in none of them are all entries,
/// each once and in order. Those in none are kept.
pub fn hunks_are_runs()
    ensures runs { HunksAreRuns }
    ensures all { HunksHoldAll }
    ensures kept { HiddenAreKept }
{}

/// The old text with the new lines of each hunk in place of its old ones is the new text.
pub fn patched_is_new()
    ensures { PatchedIsNew }
{}
