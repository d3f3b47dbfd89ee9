//! Text for a terminal.

ghost use Rattle.std.specs.Prelude.{◌≡◌, ◌++◌, IfOk, OnOk, chars, encode_utf8_all, string_bytes};
ghost use Rattle.std.specs.Char.Escape.{escape_unicode};
ghost use Rattle.meson_explaining.specs.Lines.{printable, shown_char};

use std::alloc::{AllocError, Global};

/// Adds the escape of a character, as `\u{1b}`.
fn push_escape(text: &mut String, c: char) -> Result<(), AllocError>
    ensures { OnOk result (string_bytes text.new ≡ string_bytes text.old ++ encode_utf8_all (escape_unicode c)) }
{
    for letter in c.escape_unicode() {
        text.push(letter)?;
    }
    Ok(())
}

/// Adds a character, or the escape of a control character.
fn push_shown(text: &mut String, c: char) -> Result<(), AllocError>
    ensures { OnOk result (string_bytes text.new ≡ string_bytes text.old ++ shown_char c) }
{
    if c.is_control() {
        push_escape(text, c)
    } else {
        text.push(c)
    }
}

/// The characters of a text.
pub(crate) fn chars_of(alloc: Global, text: &str) -> Result<Vec<char>, AllocError>
    ensures { IfOk result (λ found. found.items ≡ chars text.now) }
{
    text.chars().collect(alloc)
}

/// A text with its control characters escaped.
pub(crate) fn printable(alloc: Global, text: &str) -> Result<String, AllocError>
    ensures { IfOk result (λ shown. string_bytes shown ≡ printable text.now) }
{
    let chars = chars_of(alloc, text)?;
    let mut shown = String::new(alloc);
    for c in chars.as_slice() {
        push_shown(&mut shown, *c)?;
    }
    Ok(shown)
}
