//! Literals: the text that a string means, and the string that is written for a text.
ghost use Rattle.std.specs.Prelude.{◌≡◌, ◌<◌, ◌++◌, ◌≤◌, IfOk, OnOk, length, option_map};
ghost use Rattle.std.specs.Char.{digit_char};
ghost use Rattle.std.specs.Str.{chars, encode_utf8_all};
ghost use Rattle.std.specs.String.{string_bytes};
ghost use Rattle.meson_lex.specs.declared.kinds.Kind.TheVariants.{PlainString, MultilineString};
ghost use Rattle.meson_lex.specs.Kinds.{IsString};
ghost use Rattle.meson_lex.specs.Literals.{written_byte, literal, unescaped, value};

use crate::escapes::escape;
use crate::fault::LiteralFault;
use crate::kinds::Kind;
use std::alloc::{AllocError, Global};

/// The text between single quotes; none if it is opaque.
fn unescaped(alloc: Global, inner: &str) -> Result<Option<String>, AllocError>
    ensures { IfOk result (λ text. option_map string_bytes text ≡ option_map encode_utf8_all (unescaped (chars inner.now))) }
{
    let mut text = String::new(alloc);
    let mut rest = inner;
    while let Some((front, after)) = rest.split_once('\\') {
        text.push_str(front)?;
        let Some(escape) = escape(after.as_bytes()) else {
            return Ok(None);
        };
        text.push(escape.character)?;
        rest = &after[escape.taken..];
    }
    text.push_str(rest)?;
    Ok(Some(text))
}

fn plain_value(alloc: Global, token: &[u8]) -> Result<Option<String>, AllocError>
    requires { IsString PlainString token.now }
    ensures { IfOk result (λ text. option_map string_bytes text ≡ value PlainString token.now) }
{
    match str::from_utf8(&token[1..token.len() - 1]) {
        Ok(inner) => unescaped(alloc, inner),
        Err(_) => Ok(None),
    }
}

fn multiline_value(alloc: Global, token: &[u8]) -> Result<Option<String>, AllocError>
    requires { IsString MultilineString token.now }
    ensures { IfOk result (λ text. option_map string_bytes text ≡ value MultilineString token.now) }
{
    let Ok(inner) = str::from_utf8(&token[3..token.len() - 3]) else {
        return Ok(None);
    };
    let mut text = String::new(alloc);
    text.push_str(inner)?;
    Ok(Some(text))
}

/// The text that a string means, from the string's bytes with its quotes.
///
/// The answer is `None` if the string is opaque: a format string, one with `\N{` or with a number that is not a character's, or one that is not UTF-8.
pub fn literal_value(
    alloc: Global,
    token: &[u8],
    kind: Kind,
) -> Result<Option<String>, LiteralFault>
    requires { IsString kind token.now }
    ensures { IfOk result (λ text. option_map string_bytes text ≡ value kind token.now) }
{
    match kind {
        Kind::PlainString => Ok(plain_value(alloc, token)?),
        Kind::MultilineString => Ok(multiline_value(alloc, token)?),
        _ => Ok(None),
    }
}

/// A digit of base 16, if the number is below 16.
fn hexadecimal_digit(n: u8) -> u8
    requires { n < 16 }
    ensures { result ≡ digit_char n }
{
    if n < 10 { b'0' + n } else { b'a' + (n - 10) }
}

fn push_written(out: &mut Vec<u8>, b: u8) -> Result<(), AllocError>
    ensures { OnOk result (out.new.items ≡ out.old.items ++ written_byte b) }
{
    match b {
        b'\'' => out.extend_from_slice(b"\\'"),
        b'\\' => out.extend_from_slice(b"\\\\"),
        b'\n' => out.extend_from_slice(b"\\n"),
        b'\r' => out.extend_from_slice(b"\\r"),
        b'\t' => out.extend_from_slice(b"\\t"),
        0..=31 | 127 => out.extend_from_slice(&[
            b'\\',
            b'x',
            hexadecimal_digit(b / 16),
            hexadecimal_digit(b % 16),
        ]),
        _ => out.extend_from_slice(&[b]),
    }
}

fn written_literal(alloc: Global, text: &[u8]) -> Result<Vec<u8>, AllocError>
    ensures { IfOk result (λ token. token.items ≡ literal text.now) }
{
    let mut out = Vec::new(alloc);
    out.push(b'\'')?;
    for b in text {
        push_written(&mut out, *b)?;
    }
    out.push(b'\'')?;
    Ok(out)
}

/// The plain string, quotes and all, that is written for a text.
pub fn write_literal(alloc: Global, text: &str) -> Result<Vec<u8>, LiteralFault>
    ensures { IfOk result (λ token. token.items ≡ literal text.now) }
{
    Ok(written_literal(alloc, text.as_bytes())?)
}
