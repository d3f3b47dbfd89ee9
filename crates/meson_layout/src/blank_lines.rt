//! Blank lines that are removed along with a statement.

ghost use Rattle.std.specs.Prelude.{◌≡◌, ◌+◌, ◌≤◌, length, reverse};
ghost use Rattle.meson_layout.specs.BlankLines.{begins_with_note, blank_above_len, blank_below_len, blank_growth, ends_with_note, trimmed, white_len};
ghost use Rattle.meson_layout.specs.StatementRemoval.{growth_by, statement_growth};

use crate::lexemes::Lexeme;
use crate::line_spots::{comment_line_len, in_line_len, rest_of_line_len};
use crate::looks::{at_line_start, begins_comment, blanks, is_white, last_blanks};
use crate::primitive::BlankLines;
use crate::removal::Growth;

/// The number of blanks and line ends at the front.
fn white_len(items: &[Lexeme<'_>]) -> usize
    ensures value { result ≡ white_len items.now }
    ensures within { result ≤ length items.now }
{
    items.iter().take_while(|x| is_white(x.kind)).count()
}

/// The number of blanks and line ends at the end.
fn last_white_len(items: &[Lexeme<'_>]) -> usize
    ensures value { result ≡ white_len (reverse items.now) }
    ensures within { result ≤ length items.now }
{
    items.iter().rev().take_while(|x| is_white(x.kind)).count()
}

/// The number of items of the blank lines directly above a line: those that end the items before it.
fn blank_above_len(before: &[Lexeme<'_>]) -> usize
    ensures value { result ≡ blank_above_len before.now }
    ensures within { result ≤ length before.now }
{
    let n = last_white_len(before);
    if n == before.len() {
        return n;
    }
    n.saturating_sub(rest_of_line_len(&before[before.len() - n..]))
}

/// The number of items of the blank lines directly below a line: those that begin the items after it.
fn blank_below_len(behind: &[Lexeme<'_>]) -> usize
    ensures value { result ≡ blank_below_len behind.now }
    ensures within { result ≤ length behind.now }
{
    let n = white_len(behind);
    if n == behind.len() {
        return n;
    }
    n.saturating_sub(last_blanks(&behind[..n]))
}

/// Whether a comment line ends there.
fn ends_with_note(before: &[Lexeme<'_>]) -> bool
    ensures { result ≡ ends_with_note before.now }
{
    comment_line_len(before) != 0
}

/// Whether a comment line begins there.
fn begins_with_note(behind: &[Lexeme<'_>]) -> bool
    ensures { result ≡ begins_with_note behind.now }
{
    begins_comment(&behind[blanks(behind)..])
}

/// The numbers of items of the blank lines that would be too many without the lines between them.
fn trimmed(first: bool, last: bool, before: &[Lexeme<'_>], behind: &[Lexeme<'_>]) -> Growth
    ensures value { result ≡ trimmed first last before.now behind.now }
    ensures before { result.before ≤ length before.now }
    ensures behind { result.behind ≤ length behind.now }
{
    let above = blank_above_len(before);
    let below = blank_below_len(behind);
    let is_first = first && !ends_with_note(&before[..before.len() - above]);
    let is_last = last && !begins_with_note(&behind[below..]);
    Growth {
        before: if is_last { above } else { 0 },
        behind: if above != 0 || is_first || is_last {
            below
        } else {
            0
        },
    }
}

impl BlankLines {
    /// The numbers of items of the blank lines that are removed, among the items before and after the lines between them.
    fn growth(self, before: &[Lexeme<'_>], behind: &[Lexeme<'_>]) -> Growth
        ensures value { result ≡ blank_growth self before.now behind.now }
        ensures before { result.before ≤ length before.now }
        ensures behind { result.behind ≤ length behind.now }
    {
        match self {
            BlankLines::Stay => Growth {
                before: 0,
                behind: 0,
            },
            BlankLines::Trim { first, last } => trimmed(first, last, before, behind),
        }
    }
}

/// The numbers of items that are removed along with a statement, of those before it and of those after it.
pub(crate) fn statement_growth(
    blank: BlankLines,
    left: &[Lexeme<'_>],
    right: &[Lexeme<'_>],
) -> Growth
    ensures value { result ≡ statement_growth blank left.now right.now }
    ensures before { result.before ≤ length left.now }
    ensures behind { result.behind ≤ length right.now }
{
    let n = last_blanks(left);
    let m = blanks(right);
    let before = &left[..left.len() - n];
    let behind = &right[m..];
    if !at_line_start(before) || in_line_len(behind) != 0 {
        return Growth {
            before: n,
            behind: m,
        };
    }
    let end = rest_of_line_len(behind);
    let more = blank.growth(before, &behind[end..]);
    Growth {
        before: n + more.before,
        behind: m + (end + more.behind),
    }
}
