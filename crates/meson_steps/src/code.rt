//! Code that is given for a value: a text that is one expression of the grammar.

ghost use Rattle.std.specs.Prelude.{◌≡◌, ◌≢◌, ◌∷◌, ◌++◌, [], IfOk, false, reverse, string_bytes, true};
ghost use Rattle.meson_lex.specs.Significant.{role};
ghost use Rattle.meson_lex.specs.Words.{speaks};
ghost use Rattle.meson_layout.specs.Words.{is_remark};
ghost use Rattle.meson_syntax.specs.declared.fault.ParseFault.TheVariants.{OutOfMemory};
ghost use Rattle.meson_syntax.specs.View.{arg_view, args_view, list_view};
ghost use Rattle.meson_calls.specs.ChosenNotes.{Source};
ghost use Rattle.meson_steps.specs.Code.{IsExpression, code_of};
ghost use Rattle.meson_steps.specs.inside.Bare.{AreKinds, has_token_ends, is_bare, is_lone, is_plain, is_quiet, one_plain, speaks_first};

use meson_lex::{Kind, items};
use meson_splice::Text;
use meson_syntax::{Arg, Bracket, List, MAX_DEPTH, ParseFault, parse_list_within};
use std::alloc::{AllocError, Global};
use std::marker::Model;

/// A text that is one expression of the grammar, as `is_expression` says. Contracts see its bytes.
#[derive(Debug, Drop)]
pub struct Code {
    text: Text,
}

impl Model for Code {
    ghost use Rattle.std.specs.Prelude.{ℕ, List};
    ghost use Rattle.meson_steps.specs.Code.{IsExpression};

    ghost Value = { List ℕ };

    ghost view = { λ c. c.text };

    ghost invariant = { λ c. IsExpression c.text };
}

impl Code {
    /// The code of a text, if that is one expression.
    ///
    /// # Errors
    /// Out of memory.
    pub fn of(alloc: Global, text: &str) -> Result<Option<Code>, AllocError>
        ensures { IfOk result (λ code. code ≡ code_of text.now) }
    {
        if !is_expression(alloc, text)? {
            return Ok(None);
        }
        let text = Text::of(String::from_str(alloc, text)?);
        Ok(Some(Code { text }))
    }

    /// The text.
    pub fn get(&self) -> &str
        ensures text { result.now ≡ self.now }
        ensures code { IsExpression self.now }
    {
        self.text.get()
    }
}

/// Whether it is a comment or a continuation.
fn is_remark(kind: Kind) -> bool
    ensures { result ≡ is_remark kind }
{
    matches!(kind, Kind::Comment | Kind::Continuation)
}

/// Whether it is a token inside brackets.
fn is_token(kind: Kind) -> bool
    ensures { result ≡ speaks (role kind) }
{
    !matches!(
        kind,
        Kind::Blank | Kind::LineEnd | Kind::Comment | Kind::Continuation
    )
}

/// Whether the first one is a token.
fn begins_token(kinds: &[Kind]) -> bool
    ensures { result ≡ speaks_first kinds.now }
{
    match kinds {
        [kind, ..] => is_token(*kind),
        [] => false,
    }
}

/// Whether the last one is a token.
fn ends_token(kinds: &[Kind]) -> bool
    ensures { result ≡ speaks_first (reverse kinds.now) }
{
    match kinds {
        [.., kind] => is_token(*kind),
        [] => false,
    }
}

/// Whether the first and the last one are tokens.
fn has_token_ends(kinds: &[Kind]) -> bool
    ensures { result ≡ has_token_ends kinds.now }
{
    begins_token(kinds) && ends_token(kinds)
}

/// Whether none is a comment or a continuation.
fn is_quiet(kinds: &[Kind]) -> bool
    ensures { result ≡ is_quiet kinds.now }
{
    kinds.iter().all(|kind| !is_remark(*kind))
}

/// Whether the first and the last one are tokens, and none is a comment or a continuation.
fn is_bare(kinds: &[Kind]) -> bool
    ensures { result ≡ is_bare kinds.now }
{
    is_quiet(kinds) && has_token_ends(kinds)
}

/// The kinds of the items of a source.
fn kinds_of(alloc: Global, source: &[u8]) -> Result<Vec<Kind>, AllocError>
    ensures { IfOk result (λ v. AreKinds source.now v.items) }
{
    let mut kinds = Vec::new(alloc);
    for item in items(source) {
        if let Ok(item) = item {
            kinds.push(item.kind)?;
        }
    }
    Ok(kinds)
}

/// Whether an element has no name and no key.
fn is_plain(element: &Arg) -> bool
    ensures { (source : Source) → result ≡ is_plain (arg_view source element.now) }
{
    match element {
        Arg::Plain(_) => true,
        Arg::Named { .. } => false,
        Arg::Pair { .. } => false,
    }
}

/// Whether there is one element, which has no name and no key.
fn one_plain(elements: &[Arg]) -> bool
    ensures { (source : Source) → result ≡ one_plain (args_view source elements.now) }
{
    if elements.len() != 1 {
        return false;
    }
    let element = &elements[0];
    is_plain(element)
}

/// Whether a list has one such element, and no comma after it.
fn is_lone(list: &List) -> bool
    ensures { (source : Source) → result ≡ is_lone (list_view source list.now) }
{
    one_plain(list.items.get()) && !list.trailing
}

/// The text in square brackets.
fn bracketed(alloc: Global, text: &str) -> Result<String, AllocError>
    ensures { IfOk result (λ s. string_bytes s ≡ 91 ∷ (text.now ++ 93 ∷ [])) }
{
    let mut all = String::from_str(alloc, "[")?;
    all.push_str(text)?;
    all.push_str("]")?;
    Ok(all)
}

/// That a text is not a list, by why it was refused.
///
/// # Errors
/// Out of memory.
pub fn not_list(fault: ParseFault) -> Result<bool, AllocError>
    ensures { IfOk result (λ b. (b ≡ false) × (fault ≢ OutOfMemory)) }
{
    match fault {
        ParseFault::OutOfMemory => Err(AllocError),
        _ => Ok(false),
    }
}

/// Whether a text is one expression of the grammar from its first token to its last, in which constructs nest at most `MAX_DEPTH` deep, without a comment or a
/// continuation.
///
/// # Errors
/// Out of memory.
pub fn is_expression(alloc: Global, text: &str) -> Result<bool, AllocError>
    ensures yes { IfOk result (λ b. b ≡ true → IsExpression text.now) }
    ensures no { IsExpression text.now → IfOk result (λ b. b ≡ true) }
{
    let kinds = kinds_of(alloc, text.as_bytes())?;
    if !is_bare(kinds.as_slice()) {
        return Ok(false);
    }
    let whole = bracketed(alloc, text)?;
    let bytes = whole.as_str().as_bytes();
    match parse_list_within(alloc, bytes, Bracket::Square, MAX_DEPTH + 1) {
        Ok(list) => Ok(is_lone(&list)),
        Err(fault) => not_list(fault),
    }
}
