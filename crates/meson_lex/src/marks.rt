//! Punctuation.
ghost use Rattle.std.specs.Prelude.{◌≡◌, ℕ, List, ◌∷◌, Ok, IfSome};
ghost use Rattle.meson_lex.specs.Scan.{plain_mark, equal_mark, mark_front, front};

use crate::bytes::begins_byte;
use crate::fault::LexFault;
use crate::kinds::Kind;

/// The mark that a byte is, whatever is after it.
#[inline(always)]
pub fn lone_mark(b: u8) -> Option<Kind>
    ensures { IfSome result (λ kind. (at : ℕ) → (after : List ℕ) → front at (b ∷ after) ≡ Ok (kind, 1)) }
{
    match b {
        b'(' => Some(Kind::OpenRound),
        b')' => Some(Kind::CloseRound),
        b'[' => Some(Kind::OpenSquare),
        b']' => Some(Kind::CloseSquare),
        b'{' => Some(Kind::OpenCurly),
        b'}' => Some(Kind::CloseCurly),
        b',' => Some(Kind::Comma),
        b'.' => Some(Kind::Dot),
        b':' => Some(Kind::Colon),
        b'?' => Some(Kind::Question),
        _ => None,
    }
}

/// The mark that a byte is by itself.
fn plain_mark(b: u8) -> Option<Kind>
    ensures { result ≡ plain_mark b }
{
    match b {
        b'(' => Some(Kind::OpenRound),
        b')' => Some(Kind::CloseRound),
        b'[' => Some(Kind::OpenSquare),
        b']' => Some(Kind::CloseSquare),
        b'{' => Some(Kind::OpenCurly),
        b'}' => Some(Kind::CloseCurly),
        b',' => Some(Kind::Comma),
        b'.' => Some(Kind::Dot),
        b':' => Some(Kind::Colon),
        b'?' => Some(Kind::Question),
        b'-' => Some(Kind::Minus),
        b'*' => Some(Kind::Star),
        b'/' => Some(Kind::Slash),
        b'%' => Some(Kind::Percent),
        b'+' => Some(Kind::Plus),
        b'=' => Some(Kind::Assign),
        b'<' => Some(Kind::Less),
        b'>' => Some(Kind::Greater),
        _ => None,
    }
}

/// The mark that a byte is with a `=` after it.
fn equal_mark(b: u8) -> Option<Kind>
    ensures { result ≡ equal_mark b }
{
    match b {
        b'+' => Some(Kind::PlusAssign),
        b'=' => Some(Kind::Equal),
        b'!' => Some(Kind::NotEqual),
        b'<' => Some(Kind::LessEqual),
        b'>' => Some(Kind::GreaterEqual),
        _ => None,
    }
}

/// The mark whose first byte is `b`.
#[tactic(auto, unfolding(crate::specs::Scan::mark_front))]
pub fn mark_front(b: u8, after: &[u8], at: usize) -> Result<(Kind, usize), LexFault>
    ensures { result ≡ mark_front at b after.now }
{
    if begins_byte(after, b'=') {
        if let Some(kind) = equal_mark(b) {
            return Ok((kind, 2));
        }
    }
    match plain_mark(b) {
        Some(kind) => Ok((kind, 1)),
        None => Err(LexFault::StrayByte(at)),
    }
}
