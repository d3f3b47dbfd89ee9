//! A text as a JSON string, escaped while it is written: nothing is allocated.

ghost use Rattle.std.specs.Prelude.{◌≡◌, ◌<◌, MatchOption, encode_utf8, option_map};
ghost use Rattle.std.specs.Fmt.{DisplaysOnOk, HasWritten, IsPlainFormatter, WritesOnOk};
ghost use Rattle.json.specs.Print.{escape, escape_letter, quoted};

use std::fmt;
use std::fmt::{Display, Formatter, Write};

/// A text that is displayed as a JSON string.
#[derive(Drop)]
pub(crate) struct Quoted<D>(pub D);

/// A writer into a JSON string: what it gets, it escapes.
#[derive(Drop)]
struct Inside<'f, W> {
    to: &'f mut Formatter<W>,
}

/// The letter after the backslash of a character's short escape, if it has one.
fn letter_of(c: char) -> Option<char>
    ensures { MatchOption result (escape_letter c ≡ 0) (λ letter. (escape_letter c ≡ letter) × (c < 128) × (0 < letter) × (letter < 128)) }
{
    match c {
        '"' | '\\' => Some(c),
        '\u{8}' => Some('b'),
        '\t' => Some('t'),
        '\n' => Some('n'),
        '\u{c}' => Some('f'),
        '\r' => Some('r'),
        _ => None,
    }
}

/// Writes a character of a JSON string.
fn write_escaped<W: Write>(f: &mut Formatter<W>, c: char) -> fmt::Result
    ensures { WritesOnOk W.write_str_gives f.old result (escape (encode_utf8 c)) f.new }
{
    if let Some(letter) = letter_of(c) {
        return write!(f, "\\{letter}");
    }
    if c < ' ' {
        return write!(f, "\\u00{:02x}", c as u32);
    }
    f.write_char(c)
}

impl<W: Write> Write for Inside<'_, W> {
    ghost write_str_gives = { λ s text t. (t.to.ghost_name ≡ s.to.ghost_name)
        × (IsPlainFormatter s.to.now → HasWritten W.write_str_gives s.to.now (escape text) t.to.now) };

    fn write_str(&mut self, s: &str) -> fmt::Result {
        for c in s.chars() {
            write_escaped(self.to, c)?;
        }
        Ok(())
    }
}

/// Writes a text inside a JSON string.
fn write_inside<D: Display, W: Write>(f: &mut Formatter<W>, text: &D) -> fmt::Result
    ensures { DisplaysOnOk W.write_str_gives f.old result (option_map escape (D.output text.now)) f.new }
{
    let mut inside = Inside { to: f };
    inside.write(text)
}

impl<D: Display> Display for Quoted<D> {
    ghost output = { λ text. option_map quoted (D.output text.0) };

    fn fmt<W: Write>(&self, f: &mut Formatter<W>) -> fmt::Result {
        f.write_str("\"")?;
        write_inside(f, &self.0)?;
        f.write_str("\"")
    }
}
