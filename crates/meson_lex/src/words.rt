//! Identifiers and reserved words.
ghost use Rattle.std.specs.Prelude.{◌≡◌, ◌≤◌, ◌↔◌, All, IsTrue, length, map};
ghost use Rattle.std.specs.List.{prefix_len, list_all};
ghost use Rattle.meson_lex.specs.Bytes.{is_word_byte};
ghost use Rattle.meson_lex.specs.Kinds.{IsWord, IsNoneOf, IsIdentifier, reserved, spelling};
ghost use Rattle.meson_lex.specs.Scan.{kind_among, word_kind, word_front};

use crate::bytes::{is_word_byte, is_word_start};
use crate::fault::LexFault;
use crate::kinds::Kind;

/// The number of letters, digits and `_` at the front.
pub fn word_len(bytes: &[u8]) -> usize
    ensures within { result ≤ length bytes.now }
    ensures value { result ≡ prefix_len is_word_byte bytes.now }
{
    bytes.iter().take_while(|b| is_word_byte(**b)).count()
}

/// The reserved words, each as it is spelled and with its kind.
const RESERVED: [(&str, Kind); 14] = [
    ("true", Kind::WordTrue),
    ("false", Kind::WordFalse),
    ("if", Kind::WordIf),
    ("elif", Kind::WordElif),
    ("else", Kind::WordElse),
    ("endif", Kind::WordEndif),
    ("and", Kind::WordAnd),
    ("or", Kind::WordOr),
    ("not", Kind::WordNot),
    ("in", Kind::WordIn),
    ("foreach", Kind::WordForeach),
    ("endforeach", Kind::WordEndforeach),
    ("break", Kind::WordBreak),
    ("continue", Kind::WordContinue),
];

/// The kind among these with this word, else `Identifier`.
fn kind_among(words: &[(&str, Kind)], word: &[u8]) -> Kind
    requires { All (λ w. w.0.now ≡ spelling w.1) words.now }
    ensures { result ≡ kind_among (map (λ w. w.1) words.now) word.now }
{
    for i in 0..words.len() {
        if word == words[i].0.as_bytes() {
            return words[i].1;
        }
    }
    Kind::Identifier
}

/// The reserved word with this spelling, else `Identifier`.
fn word_kind(word: &[u8]) -> Kind
    ensures { result ≡ word_kind word.now }
{
    kind_among(&RESERVED, word)
}

fn are_word_bytes(bytes: &[u8]) -> bool
    ensures { result ≡ list_all is_word_byte bytes.now }
{
    bytes.iter().all(|b| is_word_byte(*b))
}

fn is_word(bytes: &[u8]) -> bool
    ensures { IsTrue result ↔ IsWord bytes.now }
{
    match bytes {
        [first, rest @ ..] => is_word_start(*first) && are_word_bytes(rest),
        [] => false,
    }
}

fn is_unreserved(word: &[u8]) -> bool
    ensures { IsTrue result ↔ IsNoneOf reserved word.now }
{
    matches!(word_kind(word), Kind::Identifier)
}

/// Whether the text is an identifier: a letter or `_`, then letters, digits and `_`, and not a reserved word. Does not allocate.
pub fn is_identifier(name: &str) -> bool
    ensures { IsTrue result ↔ IsIdentifier name.now }
{
    let bytes = name.as_bytes();
    is_word(bytes) && is_unreserved(bytes)
}

/// The word that `bytes` begin with.
#[inline(always)]
#[tactic(auto, unfolding(crate::specs::Scan::word_front))]
pub fn word_front(bytes: &[u8]) -> Result<(Kind, usize), LexFault>
    ensures { result ≡ word_front bytes.now }
{
    let len = word_len(bytes);
    Ok((word_kind(&bytes[..len]), len))
}
