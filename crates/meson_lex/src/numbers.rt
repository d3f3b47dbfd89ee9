//! Integers.
ghost use Rattle.std.specs.Prelude.{◌≡◌};
ghost use Rattle.std.specs.List.{list_all};
ghost use Rattle.meson_lex.specs.Bytes.{is_digit, is_hexadecimal, is_octal, is_binary};
ghost use Rattle.meson_lex.specs.Kinds.{is_run, is_after_zero, is_integer};
ghost use Rattle.meson_lex.specs.Scan.{number_front};

use crate::bytes::{is_binary, is_digit, is_hexadecimal, is_octal};
use crate::fault::LexFault;
use crate::kinds::Kind;
use crate::words::word_len;

fn are_digits(bytes: &[u8]) -> bool
    ensures { result ≡ list_all is_digit bytes.now }
{
    bytes.iter().all(|b| is_digit(*b))
}

fn are_hexadecimal(bytes: &[u8]) -> bool
    ensures { result ≡ list_all is_hexadecimal bytes.now }
{
    bytes.iter().all(|b| is_hexadecimal(*b))
}

fn are_octal(bytes: &[u8]) -> bool
    ensures { result ≡ list_all is_octal bytes.now }
{
    bytes.iter().all(|b| is_octal(*b))
}

fn are_binary(bytes: &[u8]) -> bool
    ensures { result ≡ list_all is_binary bytes.now }
{
    bytes.iter().all(|b| is_binary(*b))
}

fn is_hexadecimal_run(bytes: &[u8]) -> bool
    ensures { result ≡ is_run is_hexadecimal bytes.now }
{
    match bytes {
        [first, rest @ ..] => is_hexadecimal(*first) && are_hexadecimal(rest),
        [] => false,
    }
}

fn is_octal_run(bytes: &[u8]) -> bool
    ensures { result ≡ is_run is_octal bytes.now }
{
    match bytes {
        [first, rest @ ..] => is_octal(*first) && are_octal(rest),
        [] => false,
    }
}

fn is_binary_run(bytes: &[u8]) -> bool
    ensures { result ≡ is_run is_binary bytes.now }
{
    match bytes {
        [first, rest @ ..] => is_binary(*first) && are_binary(rest),
        [] => false,
    }
}

/// What may follow a first digit 0.
fn is_after_zero(bytes: &[u8]) -> bool
    ensures { result ≡ is_after_zero bytes.now }
{
    match bytes {
        [] => true,
        [letter, digits @ ..] => {
            (*letter == b'x' || *letter == b'X') && is_hexadecimal_run(digits)
                || (*letter == b'o' || *letter == b'O') && is_octal_run(digits)
                || (*letter == b'b' || *letter == b'B') && is_binary_run(digits)
        }
    }
}

fn is_integer(bytes: &[u8]) -> bool
    ensures { result ≡ is_integer bytes.now }
{
    match bytes {
        [] => false,
        [first, rest @ ..] => {
            *first == b'0' && is_after_zero(rest)
                || (*first >= b'1' && *first <= b'9') && are_digits(rest)
        }
    }
}

/// The integer that `bytes` begin with: all letters, digits and `_` up to the next other byte.
#[tactic(auto, unfolding(crate::specs::Scan::number_front))]
pub fn number_front(bytes: &[u8], at: usize) -> Result<(Kind, usize), LexFault>
    ensures { result ≡ number_front at bytes.now }
{
    let len = word_len(bytes);
    if is_integer(&bytes[..len]) {
        Ok((Kind::Integer, len))
    } else {
        Err(LexFault::BadNumber(at))
    }
}
