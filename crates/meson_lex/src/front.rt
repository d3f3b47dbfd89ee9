//! The item at the front of a text.
ghost use Rattle.std.specs.Prelude.{◌≡◌, ◌+◌, ◌<◌, ◌^◌, ◌∷◌, length};
ghost use Rattle.meson_lex.specs.Scan.{plain, front};

use crate::bytes::{is_blank, is_digit, is_line_byte, is_word_start};
use crate::fault::LexFault;
use crate::kinds::Kind;
use crate::lines::{blank_len, comment_front, continuation_front, line_front};
use crate::marks::{lone_mark, mark_front};
use crate::numbers::number_front;
use crate::strings::{opens, string_front};
use crate::words::word_front;

/// The item at the front, if it is not a string.
#[inline(always)]
#[tactic(auto, unfolding(crate::specs::Scan::plain))]
fn plain(b: u8, after: &[u8], bytes: &[u8], at: usize) -> Result<(Kind, usize), LexFault>
    requires fits { at + length bytes.now < 2 ^ 64 }
    requires whole { bytes.now ≡ b ∷ after.now }
    ensures { result ≡ plain at b after.now }
{
    if is_blank(b) {
        Ok((Kind::Blank, blank_len(bytes)))
    } else if is_line_byte(b) {
        line_front(b, after, at)
    } else if b == b'#' {
        comment_front(bytes, at)
    } else if b == b'\\' {
        continuation_front(after, at)
    } else if is_word_start(b) {
        word_front(bytes)
    } else if is_digit(b) {
        number_front(bytes, at)
    } else {
        mark_front(b, after, at)
    }
}

/// The kind and the length of the item at the front, or the fault there.
#[inline(always)]
#[tactic(auto, unfolding(crate::specs::Scan::front))]
pub fn front(bytes: &[u8], at: usize) -> Result<(Kind, usize), LexFault>
    requires { at + length bytes.now < 2 ^ 64 }
    ensures { result ≡ front at bytes.now }
{
    let [b, after @ ..] = bytes else {
        return Err(LexFault::StrayByte(at));
    };
    // Brackets, commas and dots are nearly half of all items that are not blanks.
    if let Some(kind) = lone_mark(*b) {
        return Ok((kind, 1));
    }
    match opens(bytes) {
        Some(kind) => string_front(bytes, kind, at),
        None => plain(*b, after, bytes, at),
    }
}
