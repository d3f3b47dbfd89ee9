//! Escapes: what a backslash and the bytes after it mean in a plain string.
ghost use Rattle.std.specs.Prelude.{◌≡◌, ◌≤◌, ◌<◌, take, length};
ghost use Rattle.std.specs.Char.{digit_value};
ghost use Rattle.std.specs.List.{take_while, prefix_len};
ghost use Rattle.std.specs.Str.Parse.{digits_value, AllDigits};
ghost use Rattle.meson_lex.specs.Bytes.{is_octal, is_hexadecimal};
ghost use Rattle.meson_lex.specs.Literals.{letter_escape, character_of, octal_escape, hexadecimal_escape, escape};

use crate::bytes::{begins_byte, is_hexadecimal, is_octal};

/// The character that a backslash and the bytes after it mean, and how many bytes after the backslash belong to it.
#[derive(Clone, Copy)]
pub struct Escaped {
    pub character: char,
    pub taken: usize,
}

/// A backslash that means itself.
const KEPT: Escaped = Escaped {
    character: '\\',
    taken: 0,
};

/// The escape of one byte, or the backslash itself.
fn letter_escape(letter: u8) -> Escaped
    ensures { result ≡ letter_escape letter }
{
    let character = match letter {
        b'\\' => '\\',
        b'\'' => '\'',
        b'a' => '\u{7}',
        b'b' => '\u{8}',
        b'f' => '\u{c}',
        b'n' => '\n',
        b'r' => '\r',
        b't' => '\t',
        b'v' => '\u{b}',
        _ => return KEPT,
    };
    Escaped {
        character,
        taken: 1,
    }
}

/// The value of a digit or a letter, and 36 for any other byte.
fn digit_value(b: u8) -> u32
    ensures { result ≡ digit_value b }
{
    match b {
        b'0'..=b'9' => u32::from(b - b'0'),
        b'A'..=b'Z' => u32::from(b - b'A') + 10,
        b'a'..=b'z' => u32::from(b - b'a') + 10,
        _ => 36,
    }
}

/// The number that at most eight digits of a base up to 16 write.
fn digits_value(base: u32, digits: &[u8]) -> u32
    requires small { base ≤ 16 }
    requires few { length digits.now ≤ 8 }
    requires each { AllDigits base digits.now }
    ensures { result ≡ digits_value base digits.now }
{
    let mut value = 0;
    for b in digits {
        value = value * base + digit_value(*b);
    }
    value
}

/// The first `most` bytes, or all.
fn first(bytes: &[u8], most: usize) -> &[u8]
    ensures { result.now ≡ take most bytes.now }
{
    bytes.get(..most).unwrap_or(bytes)
}

/// The number of octal digits at the front.
fn octal_len(bytes: &[u8]) -> usize
    ensures within { result ≤ length bytes.now }
    ensures value { result ≡ prefix_len is_octal bytes.now }
{
    bytes.iter().take_while(|b| is_octal(**b)).count()
}

/// The octal digits at the front.
fn octal_digits(bytes: &[u8]) -> &[u8]
    ensures value { result.now ≡ take_while is_octal bytes.now }
    ensures each { AllDigits 8 result.now }
{
    &bytes[..octal_len(bytes)]
}

/// The number of hexadecimal digits at the front.
fn hexadecimal_len(bytes: &[u8]) -> usize
    ensures within { result ≤ length bytes.now }
    ensures value { result ≡ prefix_len is_hexadecimal bytes.now }
{
    bytes.iter().take_while(|b| is_hexadecimal(**b)).count()
}

/// The hexadecimal digits at the front.
fn hexadecimal_digits(bytes: &[u8]) -> &[u8]
    ensures value { result.now ≡ take_while is_hexadecimal bytes.now }
    ensures each { AllDigits 16 result.now }
{
    &bytes[..hexadecimal_len(bytes)]
}

/// The character of a number, if the number is that of a character.
fn numbered(number: u32, taken: usize) -> Option<Escaped>
    ensures { result ≡ character_of number taken }
{
    let character = char::from_u32(number)?;
    Some(Escaped { character, taken })
}

fn octal_escape(digits: &[u8]) -> Option<Escaped>
    requires few { length digits.now ≤ 3 }
    requires each { AllDigits 8 digits.now }
    ensures { result ≡ octal_escape digits.now }
{
    numbered(digits_value(8, digits), digits.len())
}

fn hexadecimal_escape(wanted: usize, digits: &[u8]) -> Option<Escaped>
    requires small { wanted ≤ 8 }
    requires each { AllDigits 16 digits.now }
    ensures { result ≡ hexadecimal_escape wanted digits.now }
{
    if digits.len() == wanted {
        numbered(digits_value(16, digits), wanted + 1)
    } else {
        Some(KEPT)
    }
}

/// What a backslash and the bytes after it mean; none if that makes the literal opaque.
pub fn escape(after: &[u8]) -> Option<Escaped>
    ensures { result ≡ escape after.now }
{
    let [letter, digits @ ..] = after else {
        return Some(KEPT);
    };
    if is_octal(*letter) {
        return octal_escape(octal_digits(first(after, 3)));
    }
    match *letter {
        b'x' => hexadecimal_escape(2, hexadecimal_digits(first(digits, 2))),
        b'u' => hexadecimal_escape(4, hexadecimal_digits(first(digits, 4))),
        b'U' => hexadecimal_escape(8, hexadecimal_digits(first(digits, 8))),
        b'N' if begins_byte(digits, b'{') => None,
        _ => Some(letter_escape(*letter)),
    }
}
