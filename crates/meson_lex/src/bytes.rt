//! Tests of single bytes, and of what a text begins with.
ghost use Rattle.std.specs.Prelude.{◌≡◌, ◌==◌, ◌<◌, length, not, IfSome};
ghost use Rattle.std.specs.List.{prefix_len};
ghost use Rattle.meson_lex.specs.Bytes.{is_blank, is_line_byte, is_word_start, is_word_byte, is_digit, is_hexadecimal, is_octal, is_binary, begins, begins_three_quotes, begins_bare_return, first_bare_return};

use memchr::memchr;

pub fn is_blank(b: u8) -> bool
    ensures { result ≡ is_blank b }
{
    b == b' ' || b == b'\t'
}

pub fn is_line_byte(b: u8) -> bool
    ensures { result ≡ is_line_byte b }
{
    b == b'\n' || b == b'\r'
}

pub fn is_word_start(b: u8) -> bool
    ensures { result ≡ is_word_start b }
{
    b >= b'a' && b <= b'z' || b >= b'A' && b <= b'Z' || b == b'_'
}

pub fn is_digit(b: u8) -> bool
    ensures { result ≡ is_digit b }
{
    b >= b'0' && b <= b'9'
}

/// For each byte: itself, if it is a letter, a digit or `_`; else a dot.
static WORD_BYTES: [u8; 256] = *b"\
    ................................\
    ................0123456789......\
    .ABCDEFGHIJKLMNOPQRSTUVWXYZ...._\
    .abcdefghijklmnopqrstuvwxyz.....\
    ................................\
    ................................\
    ................................\
    ................................";

#[inline]
pub fn is_word_byte(b: u8) -> bool
    ensures { result ≡ is_word_byte b }
{
    WORD_BYTES[b as usize] != b'.'
}

pub fn is_hexadecimal(b: u8) -> bool
    ensures { result ≡ is_hexadecimal b }
{
    is_digit(b) || b >= b'a' && b <= b'f' || b >= b'A' && b <= b'F'
}

pub fn is_octal(b: u8) -> bool
    ensures { result ≡ is_octal b }
{
    b >= b'0' && b <= b'7'
}

pub fn is_binary(b: u8) -> bool
    ensures { result ≡ is_binary b }
{
    b >= b'0' && b <= b'1'
}

/// The first byte is this one.
pub fn begins_byte(bytes: &[u8], b: u8) -> bool
    ensures { result ≡ begins (λ x. x == b) bytes.now }
{
    match bytes {
        [first, ..] => *first == b,
        [] => false,
    }
}

pub fn begins_three_quotes(bytes: &[u8]) -> bool
    ensures { result ≡ begins_three_quotes bytes.now }
{
    match bytes {
        [first, second, rest @ ..] => *first == b'\''
            && (*second == b'\'' && begins_byte(rest, b'\'')),
        _ => false,
    }
}

/// Whether a CR is at the front, with no LF after it.
pub fn begins_bare_return(bytes: &[u8]) -> bool
    ensures { result ≡ begins_bare_return bytes.now }
{
    match bytes {
        [first, rest @ ..] => *first == b'\r' && !begins_byte(rest, b'\n'),
        [] => false,
    }
}

/// The place of the first CR that no LF follows.
pub fn first_bare_return(bytes: &[u8]) -> Option<usize>
    ensures value { result ≡ first_bare_return bytes.now }
    ensures within { IfSome result (λ place. place < length bytes.now) }
{
    let mut rest = bytes;
    let mut place = 0;
    while let Some(i) = memchr(b'\r', rest) {
        let after = &rest[i + 1..];
        if !begins_byte(after, b'\n') {
            return Some(place + i);
        }
        rest = after;
        place += i + 1;
    }
    None
}
