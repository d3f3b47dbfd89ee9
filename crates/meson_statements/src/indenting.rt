//! Lines as they are written in another file.

ghost use Rattle.std.specs.Prelude.{◌≡◌, ◌≤◌, ◌∷◌, ◌++◌, IfOk, List, OnOk, length, true};
ghost use Rattle.meson_lex.specs.Bytes.{is_line_byte};
ghost use Rattle.meson_lex.specs.Items.{IsItemList, Lexeme, joined};
ghost use Rattle.meson_statements.specs.Indented.{before_end, indented, lexeme, line_len};
ghost use Rattle.meson_statements.specs.inside.Lines.{before, left_of};

use meson_lex::{Kind, items, text};
use std::alloc::{AllocError, Global};

/// What each line begins and ends with.
#[derive(Clone, Copy)]
struct Lines<'a> {
    indent: &'a [u8],
    end: &'a [u8],
}

/// Where in its line an item comes.
#[derive(Clone, Copy)]
enum Spot<'a> {
    /// It is the first one.
    Start,
    /// Only these blanks come before it.
    Blanks(&'a [u8]),
    /// A token or a comment comes before it.
    Inside,
}

fn is_line_byte(byte: u8) -> bool
    ensures { result ≡ is_line_byte byte }
{
    byte == b'\n' || byte == b'\r'
}

/// The number of bytes before a line end.
fn line_len(text: &[u8]) -> usize
    ensures value { result ≡ line_len text.now }
    ensures within { result ≤ length text.now }
{
    text.iter().take_while(|byte| !is_line_byte(**byte)).count()
}

/// The bytes of a continuation before its line end.
fn before_end(text: &[u8]) -> &[u8]
    ensures { result.now ≡ before_end text.now }
{
    &text[..line_len(text)]
}

impl<'a> Lines<'a> {
    /// Writes what comes before an item that is no line end.
    fn begin(self, spot: Spot<'_>, now: &mut Vec<u8>) -> Result<(), AllocError>
        ensures { OnOk result (now.new.items ≡ now.old.items ++ before self.entry spot.entry) }
    {
        match spot {
            Spot::Start => now.extend_from_slice(self.indent),
            Spot::Blanks(blanks) => {
                now.extend_from_slice(self.indent)?;
                now.extend_from_slice(blanks)
            }
            Spot::Inside => Ok(()),
        }
    }

    /// Writes an item that is no line end.
    fn add(self, spot: Spot<'_>, text: &[u8], now: &mut Vec<u8>) -> Result<(), AllocError>
        ensures { OnOk result (now.new.items ≡ now.old.items ++ (before self.entry spot.entry ++ text.now)) }
    {
        self.begin(spot, now)?;
        now.extend_from_slice(text)
    }

    /// Writes an item, and says where in its line the next one comes.
    fn put<'s>(
        self,
        spot: Spot<'s>,
        kind: Kind,
        text: &'s [u8],
        now: &mut Vec<u8>,
    ) -> Result<Spot<'s>, AllocError>
        ensures { (xs : List Lexeme) → IfOk result (λ next. now.new.items ++ left_of self.entry next xs
            ≡ now.old.items ++ left_of self.entry spot.entry (lexeme kind text.now ∷ xs)) }
    {
        match (kind, spot) {
            (Kind::LineEnd, _) => {
                now.extend_from_slice(self.end)?;
                Ok(Spot::Start)
            }
            (Kind::Continuation, _) => {
                self.add(spot, before_end(text), now)?;
                now.extend_from_slice(self.end)?;
                Ok(Spot::Start)
            }
            (Kind::Blank, Spot::Start) => Ok(Spot::Blanks(text)),
            (_, _) => {
                self.add(spot, text, now)?;
                Ok(Spot::Inside)
            }
        }
    }
}

/// The lines of a text, each with this indent and this line end. A line without text stays empty, and what is within a string stays as it is.
///
/// # Errors
/// Out of memory.
pub fn indented(
    alloc: Global,
    source: &[u8],
    indent: &[u8],
    end: &[u8],
) -> Result<Vec<u8>, AllocError>
    ensures { (xs : List Lexeme) → IsItemList source.now xs → IfOk result (λ v. v.items ≡ joined (indented indent.now end.now true xs)) }
{
    let lines = Lines { indent, end };
    let mut now = Vec::new(alloc);
    let mut spot = Spot::Start;
    for item in items(source) {
        if let Ok(item) = item {
            spot = lines.put(spot, item.kind, text(source, item.span), &mut now)?;
        }
    }
    now.extend_from_slice(end)?;
    Ok(now)
}
