//! Code as it is written at its place in a file.

ghost use Rattle.std.specs.Prelude.{◌≡◌, ◌≤◌, IfOk, List, length, reverse};
ghost use Rattle.std.specs.List.{prefix_len};
ghost use Rattle.meson_lex.specs.Bytes.{is_blank};
ghost use Rattle.meson_lex.specs.Items.{IsItemList, Lexeme};
ghost use Rattle.meson_statements.specs.Gaps.{gap_between, has_several_lines, indent_at, last_blanks, line_ends};
ghost use Rattle.meson_statements.specs.Places.{IsBeside, gap_at, gap_beside, side_indent, text_at, wanted_at_end};

use crate::endings::{blank_lines_at_end, line_end};
use crate::indenting::indented;
use meson_lex::{Span, text};
use std::alloc::{AllocError, Global};

/// Where code is inserted into a file.
#[derive(Clone, Copy, Debug)]
pub enum Side {
    /// Above a statement.
    Above(Span),
    /// Below a statement.
    Below(Span),
    /// At the end of a file, which has this last statement.
    End(Option<Span>),
}

/// The file around code that is inserted into it.
#[derive(Clone, Copy)]
pub struct Surroundings<'s> {
    /// The bytes of the file.
    pub source: &'s [u8],
    /// Where in the file it is inserted.
    pub side: Side,
    /// The number of blank lines between the code and the statement beside it, if that is requested.
    pub blank: Option<usize>,
}

/// Whether it is a space or a TAB.
fn is_blank(byte: u8) -> bool
    ensures { result ≡ is_blank byte }
{
    byte == b' ' || byte == b'\t'
}

/// The number of spaces and TABs at the end of a text.
fn last_blank_count(text: &[u8]) -> usize
    ensures value { result ≡ prefix_len is_blank (reverse text.now) }
    ensures within { result ≤ length text.now }
{
    text.iter()
        .rev()
        .take_while(|byte| is_blank(**byte))
        .count()
}

/// The spaces and TABs at the end of a text.
fn last_blanks(text: &[u8]) -> &[u8]
    ensures { result.now ≡ last_blanks text.now }
{
    &text[text.len() - last_blank_count(text)..]
}

/// The spaces and TABs directly before an offset.
fn indent_at(source: &[u8], from: usize) -> &[u8]
    requires { from ≤ length source.now }
    ensures { result.now ≡ indent_at source.now from }
{
    last_blanks(&source[..from])
}

/// Whether a text has more than one line.
fn has_several_lines(text: &[u8]) -> bool
    ensures { result ≡ has_several_lines text.now }
{
    text.contains(&b'\n')
}

/// The number of blank lines between a statement and the code beside it.
fn gap_between(blank: Option<usize>, statement: &[u8], code: &[u8]) -> usize
    ensures { result ≡ gap_between blank statement.now code.now }
{
    match blank {
        Some(lines) => lines,
        None => usize::from(has_several_lines(statement) || has_several_lines(code)),
    }
}

/// This number of line ends.
fn line_ends(alloc: Global, n: usize, end: &[u8]) -> Result<Vec<u8>, AllocError>
    ensures { IfOk result (λ v. v.items ≡ line_ends n end.now) }
{
    end.repeat(alloc, n)
}

impl<'s> Surroundings<'s> {
    /// The number of blank lines between the code and a statement.
    fn gap_beside(self, statement: Span, code: &[u8]) -> usize
        requires inside { statement.to ≤ length self.source.now }
        requires ordered { statement.from ≤ statement.to }
        ensures { result ≡ gap_beside self.entry.source.now self.entry.blank code.now statement }
    {
        gap_between(self.blank, text(self.source, statement), code)
    }

    /// The number of blank lines that are wanted between the end of the file and the code.
    fn wanted_at_end(self, last: Option<Span>, code: &[u8]) -> usize
        requires { IsBeside (Side.End last) (length self.source.now) }
        ensures { result ≡ wanted_at_end self.entry.source.now self.entry.blank code.now last }
    {
        match last {
            Some(last) => self.gap_beside(last, code),
            None => self.blank.unwrap_or(0),
        }
    }

    /// The number of blank lines that are written with the code.
    fn gap(self, code: &[u8]) -> usize
        requires { IsBeside self.side (length self.source.now) }
        ensures { (xs : List Lexeme) → IsItemList self.entry.source.now xs
            → result ≡ gap_at self.entry.source.now xs self.entry.blank code.now self.entry.side }
    {
        match self.side {
            Side::Above(statement) => self.gap_beside(statement, code),
            Side::Below(statement) => self.gap_beside(statement, code),
            Side::End(last) => self
                .wanted_at_end(last, code)
                .saturating_sub(blank_lines_at_end(self.source)),
        }
    }

    /// The indent of the statement beside the code, and none at the end of the file.
    fn indent(self) -> &'s [u8]
        requires { IsBeside self.side (length self.source.now) }
        ensures { result.now ≡ side_indent self.entry.source.now self.entry.side }
    {
        match self.side {
            Side::Above(statement) => indent_at(self.source, statement.from),
            Side::Below(statement) => indent_at(self.source, statement.from),
            Side::End(_) => b"",
        }
    }

    /// What is inserted for code: its lines, each with the indent of the statement beside it and the line end of the file, and the blank lines that part them
    /// from what is there.
    ///
    /// # Errors
    /// Out of memory.
    pub(crate) fn placed(self, alloc: Global, code: &[u8]) -> Result<Vec<u8>, AllocError>
        requires { IsBeside self.side (length self.source.now) }
        ensures { (xs ys : List Lexeme) → IsItemList self.entry.source.now xs → IsItemList code.now ys
            → IfOk result (λ v. v.items ≡ text_at self.entry.source.now xs self.entry.blank code.now ys self.entry.side) }
    {
        let end = line_end(self.source);
        let mut blank = line_ends(alloc, self.gap(code), end)?;
        let mut lines = indented(alloc, code, self.indent(), end)?;
        match self.side {
            Side::Above(_) => {
                lines.extend_from_slice(&blank)?;
                Ok(lines)
            }
            _ => {
                blank.extend_from_slice(&lines)?;
                Ok(blank)
            }
        }
    }
}
