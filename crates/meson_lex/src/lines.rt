//! Blanks, line ends, comments and continuations at the front of a text.
ghost use Rattle.std.specs.Prelude.{◌≡◌, ◌+◌, ◌<◌, ◌≤◌, ◌^◌, length, not};
ghost use Rattle.std.specs.List.{prefix_len};
ghost use Rattle.meson_lex.specs.Bytes.{is_blank, is_line_byte};
ghost use Rattle.meson_lex.specs.Scan.{comment_len, continuation_of, continuation_front, comment_front, line_front};

use crate::bytes::{begins_bare_return, begins_byte, is_blank};
use crate::fault::LexFault;
use crate::kinds::Kind;
use memchr::memchr2;

pub fn blank_len(bytes: &[u8]) -> usize
    ensures within { result ≤ length bytes.now }
    ensures value { result ≡ prefix_len is_blank bytes.now }
{
    bytes.iter().take_while(|b| is_blank(**b)).count()
}

/// The number of bytes before the first CR or LF.
fn line_len(bytes: &[u8]) -> usize
    ensures within { result ≤ length bytes.now }
    ensures value { result ≡ prefix_len (λ b. not (is_line_byte b)) bytes.now }
{
    match memchr2(b'\n', b'\r', bytes) {
        Some(len) => len,
        None => bytes.len(),
    }
}

/// The line end whose first byte is `b`.
#[tactic(auto, unfolding(crate::specs::Scan::line_front))]
pub fn line_front(b: u8, after: &[u8], at: usize) -> Result<(Kind, usize), LexFault>
    ensures { result ≡ line_front at b after.now }
{
    if b == b'\n' {
        Ok((Kind::LineEnd, 1))
    } else if begins_byte(after, b'\n') {
        Ok((Kind::LineEnd, 2))
    } else {
        Err(LexFault::BareCarriageReturn(at))
    }
}

/// The comment that `bytes` begin with.
#[tactic(auto, unfolding(crate::specs::Scan::comment_front))]
pub fn comment_front(bytes: &[u8], at: usize) -> Result<(Kind, usize), LexFault>
    requires { at + length bytes.now < 2 ^ 64 }
    ensures { result ≡ comment_front at bytes.now }
{
    let len = line_len(bytes);
    if begins_bare_return(&bytes[len..]) {
        return Err(LexFault::BareCarriageReturn(at + len));
    }
    Ok((Kind::Comment, len))
}

/// The length of a comment at the front; 0 if there is no comment.
fn note_len(bytes: &[u8]) -> usize
    ensures within { result ≤ length bytes.now }
    ensures value { result ≡ comment_len bytes.now }
{
    match bytes {
        [b'#', ..] => line_len(bytes),
        _ => 0,
    }
}

/// The continuation of which `len` bytes were read, and which has to end here.
fn continuation_of(at: usize, len: usize, tail: &[u8]) -> Result<(Kind, usize), LexFault>
    requires { at + len + length tail.now < 2 ^ 64 }
    ensures { result ≡ continuation_of at len tail.now }
{
    match tail {
        [] => Err(LexFault::StrayByte(at)),
        [b, rest @ ..] => {
            if *b == b'\n' {
                Ok((Kind::Continuation, len + 1))
            } else if *b == b'\r' {
                if begins_byte(rest, b'\n') {
                    Ok((Kind::Continuation, len + 2))
                } else {
                    Err(LexFault::BareCarriageReturn(at + len))
                }
            } else {
                Err(LexFault::StrayByte(at))
            }
        }
    }
}

/// The continuation whose backslash is at `at`, before `after`.
#[tactic(auto, unfolding(crate::specs::Scan::continuation_front))]
pub fn continuation_front(after: &[u8], at: usize) -> Result<(Kind, usize), LexFault>
    requires { at + 1 + length after.now < 2 ^ 64 }
    ensures { result ≡ continuation_front at after.now }
{
    let blanks = blank_len(after);
    let behind = &after[blanks..];
    let note = note_len(behind);
    continuation_of(at, 1 + (blanks + note), &behind[note..])
}
