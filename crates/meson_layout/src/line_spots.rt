//! Where whole lines are inserted.

ghost use Rattle.std.specs.Prelude.{◌≡◌, ◌+◌, ◌-◌, ◌<◌, ◌≤◌, ◌^◌, IfErr, IfOk, length, reverse};
ghost use Rattle.meson_lex.specs.Items.{joined};
ghost use Rattle.meson_layout.specs.LineSpots.{above_len, comment_line_len, comment_lines_len, in_line_len, lines_after, rest_of_line_len};
ghost use Rattle.meson_layout.specs.Pieces.{as_one, splices};
ghost use Rattle.meson_splice.specs.declared.fault.SpliceFault.TheVariants.{OutOfMemory};

use crate::lexemes::Lexeme;
use crate::looks::{at_line_start, begins_line_end, is_comment, is_line_end, last_blanks};
use crate::place::{addition, text_len};
use crate::statements::line_end;
use meson_splice::{Splice, SpliceFault};
use std::alloc::Global;

/// The number of items after the last line end.
fn last_in_line_len(items: &[Lexeme<'_>]) -> usize
    ensures value { result ≡ in_line_len (reverse items.now) }
    ensures within { result ≤ length items.now }
{
    items
        .iter()
        .rev()
        .take_while(|x| !is_line_end(x.kind))
        .count()
}

/// The number of items before the next line end.
pub(crate) fn in_line_len(items: &[Lexeme<'_>]) -> usize
    ensures value { result ≡ in_line_len items.now }
    ensures within { result ≤ length items.now }
{
    items.iter().take_while(|x| !is_line_end(x.kind)).count()
}

/// The number of items of the rest of a line, with its line end.
pub(crate) fn rest_of_line_len(items: &[Lexeme<'_>]) -> usize
    ensures value { result ≡ rest_of_line_len items.now }
    ensures within { result ≤ length items.now }
{
    let n = in_line_len(items);
    if begins_line_end(&items[n..]) {
        n + 1
    } else {
        n
    }
}

/// The number of items of the comment line at the end: 0 if there is no such line.
pub(crate) fn comment_line_len(items: &[Lexeme<'_>]) -> usize
    ensures value { result ≡ comment_line_len (reverse items.now) }
    ensures within { result ≤ length items.now }
{
    match items {
        [before @ .., note, end] if is_line_end(end.kind) && is_comment(note.kind) => {
            let n = last_blanks(before);
            if at_line_start(&before[..before.len() - n]) {
                n + 2
            } else {
                0
            }
        }
        _ => 0,
    }
}

/// The number of items before the comment lines at the end.
fn before_comment_lines(items: &[Lexeme<'_>]) -> usize
    ensures value { result ≡ length items.now - comment_lines_len (reverse items.now) }
    ensures within { result ≤ length items.now }
{
    let mut rest = items;
    let mut n = comment_line_len(rest);
    while n > 0 {
        rest = &rest[..rest.len() - n];
        n = comment_line_len(rest);
    }
    rest.len()
}

/// The number of items before the last line, and before the comment lines directly above that one.
pub(crate) fn above_len(left: &[Lexeme<'_>]) -> usize
    ensures value { result ≡ above_len left.now }
    ensures within { result ≤ length left.now }
{
    before_comment_lines(&left[..left.len() - last_in_line_len(left)])
}

/// New lines after n items.
#[tactic(auto, using(crate::proofs::Texts::joined_take), unfolding(crate::specs::LineSpots::lines_after))]
pub(crate) fn lines_after(
    alloc: Global,
    file: &str,
    items: &[Lexeme<'_>],
    n: usize,
    new: &[u8],
) -> Result<Vec<Splice>, SpliceFault>
    requires fits { length (joined items.now) < 2 ^ 64 }
    requires within { n ≤ length items.now }
    ensures done { IfOk result (λ v. v.items ≡ splices file.now 0 (lines_after n items.now (as_one new.now))) }
    ensures refused { IfErr result (λ e. e ≡ OutOfMemory) }
{
    let before = &items[..n];
    let mut now = Vec::new(alloc);
    if !at_line_start(before) {
        now.extend_from_slice(line_end(items))?;
    }
    now.extend_from_slice(new)?;
    addition(alloc, file, text_len(before), now)
}
