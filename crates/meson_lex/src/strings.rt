//! Strings: what opens one, and its end.
ghost use Rattle.std.specs.Prelude.{◌≡◌, ◌+◌, ◌<◌, ◌≤◌, ◌^◌, Some, None, length, take, IfSome};
ghost use Rattle.meson_lex.specs.Bytes.{first_bare_return};
ghost use Rattle.meson_lex.specs.Kinds.{opener};
ghost use Rattle.meson_lex.specs.Faults.{quote_kind, opened_string};
ghost use Rattle.meson_lex.specs.Scan.{quoted_len, tripled_len, rest_len, string_front};

use crate::bytes::{begins_byte, begins_three_quotes, first_bare_return};
use crate::fault::LexFault;
use crate::kinds::Kind;
use memchr::{memchr, memchr2, memchr3};

/// The kind of string that quotes at the front open.
fn quote_kind(bytes: &[u8]) -> Option<Kind>
    ensures { result ≡ quote_kind bytes.now }
{
    if !begins_byte(bytes, b'\'') {
        None
    } else if begins_three_quotes(bytes) {
        Some(Kind::MultilineString)
    } else {
        Some(Kind::PlainString)
    }
}

/// The kind of string that `bytes` open, with or without an `f`.
pub fn opens(bytes: &[u8]) -> Option<Kind>
    ensures { result ≡ opened_string bytes.now }
{
    match bytes {
        [] => None,
        [b, rest @ ..] => {
            if *b == b'f' {
                match quote_kind(rest) {
                    Some(Kind::MultilineString) => Some(Kind::FormatMultilineString),
                    Some(_) => Some(Kind::FormatString),
                    None => None,
                }
            } else {
                quote_kind(bytes)
            }
        }
    }
}

/// The number of bytes that open a string of the kind.
fn opener_len(kind: Kind) -> usize
    ensures value { result ≡ length (opener kind) }
    ensures small { result ≤ 4 }
{
    match kind {
        Kind::PlainString => 1,
        Kind::MultilineString => 3,
        Kind::FormatString => 2,
        Kind::FormatMultilineString => 4,
        _ => 0,
    }
}

/// The number of bytes after a quote, up to the closing one and with it.
fn quoted_len(bytes: &[u8]) -> Option<usize>
    ensures value { result ≡ quoted_len bytes.now }
    ensures within { IfSome result (λ len. len ≤ length bytes.now) }
{
    let mut rest = bytes;
    let mut len = 0;
    while let Some(i) = memchr2(b'\'', b'\\', rest) {
        if rest[i] == b'\'' {
            return Some(len + i + 1);
        }
        if i + 1 == rest.len() {
            return None;
        }
        rest = &rest[i + 2..];
        len += i + 2;
    }
    None
}

/// The number of bytes after three quotes, up to the first three quotes and with them.
fn tripled_len(bytes: &[u8]) -> Option<usize>
    ensures value { result ≡ tripled_len bytes.now }
    ensures within { IfSome result (λ len. len ≤ length bytes.now) }
{
    let mut rest = bytes;
    let mut len = 0;
    while let Some(i) = memchr(b'\'', rest) {
        if begins_three_quotes(&rest[i..]) {
            return Some(len + i + 3);
        }
        rest = &rest[i + 1..];
        len += i + 1;
    }
    None
}

/// The number of bytes after what opens a string of the kind, up to its end.
fn rest_len(kind: Kind, rest: &[u8]) -> Option<usize>
    ensures value { result ≡ rest_len kind rest.now }
    ensures within { IfSome result (λ len. len ≤ length rest.now) }
{
    match kind {
        Kind::PlainString | Kind::FormatString => quoted_len(rest),
        _ => tripled_len(rest),
    }
}

/// The string that `bytes` open, by one search for its end and one for a bare CR.
#[inline(never)]
#[tactic(auto, unfolding(crate::specs::Scan::string_front))]
fn searched_front(bytes: &[u8], kind: Kind, at: usize) -> Result<(Kind, usize), LexFault>
    requires fits { at + length bytes.now < 2 ^ 64 }
    requires opened { length (opener kind) ≤ length bytes.now }
    ensures { result ≡ string_front at kind bytes.now }
{
    let open = opener_len(kind);
    match rest_len(kind, &bytes[open..]) {
        None => match first_bare_return(bytes) {
            None => Err(LexFault::OpenString(at)),
            Some(place) => Err(LexFault::BareCarriageReturn(at + place)),
        },
        Some(len) => match first_bare_return(&bytes[..open + len]) {
            None => Ok((kind, open + len)),
            Some(place) => Err(LexFault::BareCarriageReturn(at + place)),
        },
    }
}

/// The number of bytes after a quote, up to the closing one and with it, if no backslash and no CR is before that.
#[inline(always)]
fn simple_len(bytes: &[u8]) -> Option<usize>
    ensures value { IfSome result (λ len. quoted_len bytes.now ≡ Some len) }
    ensures no_return { IfSome result (λ len. first_bare_return (take len bytes.now) ≡ None) }
    ensures within { IfSome result (λ len. len ≤ length bytes.now) }
{
    let i = memchr3(b'\'', b'\\', b'\r', bytes)?;
    if bytes[i] == b'\'' { Some(i + 1) } else { None }
}

/// The string that `bytes` open.
#[inline(always)]
pub fn string_front(bytes: &[u8], kind: Kind, at: usize) -> Result<(Kind, usize), LexFault>
    requires fits { at + length bytes.now < 2 ^ 64 }
    requires opened { length (opener kind) ≤ length bytes.now }
    requires opens { opened_string bytes.now ≡ Some kind }
    ensures { result ≡ string_front at kind bytes.now }
{
    if let Kind::PlainString = kind {
        if let Some(len) = simple_len(&bytes[1..]) {
            return Ok((kind, 1 + len));
        }
    }
    searched_front(bytes, kind, at)
}
