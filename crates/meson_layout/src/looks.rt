//! Looks at the items beside an element or a statement.

ghost use Rattle.std.specs.Prelude.{◌≡◌, ◌≤◌, ◌+◌, IfSome, length, reverse};
ghost use Rattle.meson_layout.specs.Looks.{all_white, at_most_blank, first_is, closing_follows, comma_note_len, gap_len, is_blank_kind, is_closing, is_comma, is_comment, is_gap, is_line_end, is_white, line_before, line_behind, line_near, note_len, one_if};
ghost use Rattle.meson_layout.specs.Statements.{at_line_start};

use crate::lexemes::Lexeme;
use meson_lex::Kind;

fn is_blank(kind: Kind) -> bool
    ensures { result ≡ is_blank_kind kind }
{
    matches!(kind, Kind::Blank)
}

/// Whether it is a line end by itself: a continuation is not.
pub(crate) fn is_line_end(kind: Kind) -> bool
    ensures { result ≡ is_line_end kind }
{
    matches!(kind, Kind::LineEnd)
}

pub(crate) fn is_comment(kind: Kind) -> bool
    ensures { result ≡ is_comment kind }
{
    matches!(kind, Kind::Comment)
}

/// Whether it is a blank or a line end.
pub(crate) fn is_white(kind: Kind) -> bool
    ensures { result ≡ is_white kind }
{
    matches!(kind, Kind::Blank | Kind::LineEnd)
}

fn is_closing(kind: Kind) -> bool
    ensures { result ≡ is_closing kind }
{
    matches!(
        kind,
        Kind::CloseRound | Kind::CloseSquare | Kind::CloseCurly
    )
}

/// Whether it is not a token inside brackets.
fn is_gap(kind: Kind) -> bool
    ensures { result ≡ is_gap kind }
{
    matches!(
        kind,
        Kind::Blank | Kind::LineEnd | Kind::Comment | Kind::Continuation
    )
}

pub(crate) fn begins_line_end(items: &[Lexeme<'_>]) -> bool
    ensures { result ≡ first_is is_line_end items.now }
{
    match items {
        [x, ..] => is_line_end(x.kind),
        [] => false,
    }
}

pub(crate) fn begins_comma(items: &[Lexeme<'_>]) -> bool
    ensures { result ≡ first_is is_comma items.now }
{
    match items {
        [x, ..] => matches!(x.kind, Kind::Comma),
        [] => false,
    }
}

pub(crate) fn begins_comment(items: &[Lexeme<'_>]) -> bool
    ensures { result ≡ first_is is_comment items.now }
{
    match items {
        [x, ..] => is_comment(x.kind),
        [] => false,
    }
}

/// Whether the last item is a comma.
pub(crate) fn ends_comma(items: &[Lexeme<'_>]) -> bool
    ensures { result ≡ first_is is_comma (reverse items.now) }
{
    match items {
        [.., x] => matches!(x.kind, Kind::Comma),
        [] => false,
    }
}

fn begins_closing(items: &[Lexeme<'_>]) -> bool
    ensures { result ≡ first_is is_closing items.now }
{
    match items {
        [x, ..] => is_closing(x.kind),
        [] => false,
    }
}

/// The number of blanks at the front: one at most.
pub(crate) fn blanks(items: &[Lexeme<'_>]) -> usize
    ensures value { result ≡ one_if is_blank_kind items.now }
    ensures within { result ≤ length items.now }
{
    match items {
        [x, ..] if is_blank(x.kind) => 1,
        _ => 0,
    }
}

/// The number of comments at the front: one at most.
fn comments(items: &[Lexeme<'_>]) -> usize
    ensures value { result ≡ one_if is_comment items.now }
    ensures within { result ≤ length items.now }
{
    match items {
        [x, ..] if is_comment(x.kind) => 1,
        _ => 0,
    }
}

/// The number of blanks at the end: one at most.
pub(crate) fn last_blanks(items: &[Lexeme<'_>]) -> usize
    ensures value { result ≡ one_if is_blank_kind (reverse items.now) }
    ensures within { result ≤ length items.now }
{
    match items {
        [.., x] if is_blank(x.kind) => 1,
        _ => 0,
    }
}

/// Whether there are no items, or the last one is a line end.
pub(crate) fn at_line_start(items: &[Lexeme<'_>]) -> bool
    ensures { result ≡ at_line_start (reverse items.now) }
{
    match items {
        [.., x] => is_line_end(x.kind),
        [] => true,
    }
}

/// The number of items after the last line end, if these are none or one blank.
pub(crate) fn line_before(items: &[Lexeme<'_>]) -> Option<usize>
    ensures value { result ≡ line_before items.now }
    ensures within { IfSome result (λ n. n + 1 ≤ length items.now) }
{
    match items {
        [.., end] if is_line_end(end.kind) => Some(0),
        [.., end, blank] if is_line_end(end.kind) && is_blank(blank.kind) => Some(1),
        _ => None,
    }
}

/// The number of items at the front that end a line: at most one blank, and a line end.
pub(crate) fn line_behind(items: &[Lexeme<'_>]) -> Option<usize>
    ensures value { result ≡ line_behind items.now }
    ensures within { IfSome result (λ n. n ≤ length items.now) }
{
    let n = blanks(items);
    if begins_line_end(&items[n..]) {
        Some(n + 1)
    } else {
        None
    }
}

/// The number of items before the line end of this line, if these are at most a blank and a comment.
pub(crate) fn note_len(items: &[Lexeme<'_>]) -> Option<usize>
    ensures value { result ≡ note_len items.now }
    ensures within { IfSome result (λ n. n + 1 ≤ length items.now) }
{
    let n = blanks(items);
    let rest = &items[n..];
    let m = comments(rest);
    if begins_line_end(&rest[m..]) {
        Some(n + m)
    } else {
        None
    }
}

/// The same, if a comma is before these, with at most a blank before it.
pub(crate) fn comma_note_len(items: &[Lexeme<'_>]) -> Option<usize>
    ensures value { result ≡ comma_note_len items.now }
    ensures within { IfSome result (λ n. n + 1 ≤ length items.now) }
{
    let n = blanks(items);
    let rest = &items[n..];
    if !begins_comma(rest) {
        return None;
    }
    match note_len(&rest[1..]) {
        Some(m) => Some(n + 1 + m),
        None => None,
    }
}

/// Whether a closing bracket follows, and before it at most a blank.
pub(crate) fn closes(items: &[Lexeme<'_>]) -> bool
    ensures { result ≡ closing_follows items.now }
{
    begins_closing(&items[blanks(items)..])
}

/// The number of items at the front that are not tokens.
pub(crate) fn gap_len(items: &[Lexeme<'_>]) -> usize
    ensures value { result ≡ gap_len items.now }
    ensures within { result ≤ length items.now }
{
    items.iter().take_while(|x| is_gap(x.kind)).count()
}

/// The number of items at the end that are not tokens.
pub(crate) fn last_gap_len(items: &[Lexeme<'_>]) -> usize
    ensures value { result ≡ gap_len (reverse items.now) }
    ensures within { result ≤ length items.now }
{
    items.iter().rev().take_while(|x| is_gap(x.kind)).count()
}

/// Whether all are blanks or line ends.
pub(crate) fn all_white(items: &[Lexeme<'_>]) -> bool
    ensures { result ≡ all_white items.now }
{
    items.iter().all(|x| is_white(x.kind))
}

/// Whether there are no items, or one blank.
pub(crate) fn at_most_blank(items: &[Lexeme<'_>]) -> bool
    ensures { result ≡ at_most_blank items.now }
{
    match items {
        [] => true,
        [x] => is_blank(x.kind),
        _ => false,
    }
}
