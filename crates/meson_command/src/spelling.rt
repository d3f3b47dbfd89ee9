//! The words of a command line as clap gets them.
//!
//! The contracts of clap say nothing of an option whose value may be left out, as that of `--follow`. So the program has a flag for each value, and the words
//! with a value go to clap as these flags.

ghost use Rattle.std.specs.Prelude.{◌≡◌, IfOk, map, string_bytes};
ghost use Rattle.meson_command.specs.Spelling.{as_flag, clap_words, is_option, kind_after, passed, takes_next};

use std::alloc::{AllocError, Global};

/// What a word is.
#[derive(Clone, Copy)]
pub(crate) enum WordKind {
    /// The name of the program, or the value of an option before it.
    Value,
    /// An option of the program, or the name of a subcommand.
    Own,
    /// A word of a subcommand.
    Inner,
}

/// The flag that stands for a form of `--follow` with a value.
fn as_flag<'w>(word: &'w str) -> &'w str
    ensures { result.now ≡ as_flag word.entry.now }
{
    if word == "--follow=own" {
        "--follow"
    } else if word == "--follow=shared" {
        "--follow-shared"
    } else {
        word
    }
}

/// What clap gets of a word.
fn passed<'w>(kind: WordKind, word: &'w str) -> &'w str
    ensures { result.now ≡ passed kind word.entry.now }
{
    match kind {
        WordKind::Own => as_flag(word),
        WordKind::Value | WordKind::Inner => word,
    }
}

/// Whether a word begins with a hyphen.
fn is_option(word: &str) -> bool
    ensures { result ≡ is_option word.now }
{
    matches!(word.as_bytes(), [b'-', ..])
}

/// Whether the next word is the value of an option of the program.
fn takes_next(word: &str) -> bool
    ensures { result ≡ takes_next word.now }
{
    word == "--sourcedir"
        || word == "-s"
        || word == "--in"
        || word == "--title"
        || word == "--texts"
}

/// What the word after one is.
fn kind_after(kind: WordKind, word: &str) -> WordKind
    ensures { result ≡ kind_after kind word.now }
{
    match kind {
        WordKind::Value => WordKind::Own,
        WordKind::Own if !is_option(word) => WordKind::Inner,
        WordKind::Own if takes_next(word) => WordKind::Value,
        WordKind::Own => WordKind::Own,
        WordKind::Inner => WordKind::Inner,
    }
}

/// The words of a command line, of which the first is the program's name, as clap gets them.
#[tactic(auto, unfolding(crate::specs::Spelling::passed_from))]
pub(crate) fn clap_words<'w>(alloc: Global, words: &'w [String]) -> Result<Vec<&'w str>, AllocError>
    ensures { IfOk result (λ given. map (λ w. w.now) given.items ≡ clap_words (map string_bytes words.entry.now)) }
{
    let mut given = Vec::new(alloc);
    let mut kind = WordKind::Value;
    for word in words {
        given.push(passed(kind, word.as_str()))?;
        kind = kind_after(kind, word.as_str());
    }
    Ok(given)
}
