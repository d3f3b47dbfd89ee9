//! The lines of a text.

ghost use Rattle.std.specs.Prelude.{◌≡◌, ◌==◌, ◌≤◌, IfOk, length, position};
ghost use Rattle.meson_diff.specs.Lines.{is_ended, line_len, lines};

use std::alloc::{AllocError, Global};
use std::marker::Model;

/// A line with its line end, a line feed. The last one of a text may have none. Contracts see its bytes.
#[derive(Drop)]
pub struct Line<'a> {
    text: &'a [u8],
}

impl<'a> Model for Line<'a> {
    ghost use Rattle.std.specs.Prelude.{ℕ, List};

    ghost Value = { List ℕ };

    ghost view = { λ line. line.text.now };
}

impl<'a> Line<'a> {
    /// The bytes.
    pub fn text(&self) -> &'a [u8]
        ensures { result.now ≡ self.now }
    {
        self.text
    }

    /// The same line.
    pub fn again(&self) -> Line<'a>
        ensures { result ≡ self.now }
    {
        Line { text: self.text }
    }

    /// Whether the line has its line end.
    pub fn is_ended(&self) -> bool
        ensures { result ≡ is_ended self.now }
    {
        self.text.ends_with(b"\n")
    }
}

/// The place of the first line feed.
fn line_feed(text: &[u8]) -> Option<usize>
    ensures { result ≡ position (λ b. b == 10) text.now }
{
    text.iter().position(|b| *b == b'\n')
}

/// The number of bytes of the first line.
fn line_len(text: &[u8]) -> usize
    ensures value { result ≡ line_len text.now }
    ensures within { result ≤ length text.now }
{
    match line_feed(text) {
        Some(at) => at + 1,
        None => text.len(),
    }
}

/// The lines of a text.
pub(crate) fn lines(alloc: Global, text: &[u8]) -> Result<Vec<Line<'_>>, AllocError>
    ensures { IfOk result (λ v. v.items ≡ lines text.now) }
{
    let mut all = Vec::new(alloc);
    let mut rest = text;
    while !rest.is_empty() {
        let (line, left) = rest.split_at(line_len(rest));
        all.push(Line { text: line })?;
        rest = left;
    }
    Ok(all)
}
