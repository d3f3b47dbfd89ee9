//! The texts that the strings of a file mean.

ghost use Rattle.std.specs.Prelude.{◌≡◌, IfOk, option_map, string_bytes};
ghost use Rattle.meson_syntax.specs.Operators.{string_kind};
ghost use Rattle.meson_syntax.specs.Grammar.{expression_words, listing_words};
ghost use Rattle.meson_syntax.specs.View.{expr_view, list_view};
ghost use Rattle.meson_calls.specs.Calls.{literal_of, first_literal, is};
ghost use Rattle.meson_calls.specs.ChosenNotes.{Source, call_with};
ghost use Rattle.meson_calls.specs.Strings.{AreGood};

use crate::roles::{first_argument, text_of};
use meson_lex::{Kind, literal_value};
use meson_syntax::{Bracket, Expr, List, StringKind};
use std::alloc::{AllocError, Global};

fn token_kind(kind: StringKind) -> Kind
    ensures { result ≡ string_kind kind }
{
    match kind {
        StringKind::Plain => Kind::PlainString,
        StringKind::Multiline => Kind::MultilineString,
        StringKind::Format => Kind::FormatString,
        StringKind::FormatMultiline => Kind::FormatMultilineString,
    }
}

/// The text that an expression means, if it is a literal.
pub fn literal(alloc: Global, source: &[u8], expr: &Expr) -> Result<Option<String>, AllocError>
    requires { AreGood (expression_words (expr_view source.now expr.now)) }
    ensures { IfOk result (λ text. option_map string_bytes text ≡ literal_of (expr_view source.now expr.now)) }
{
    match expr {
        Expr::String { span, kind } => {
            let text = literal_value(alloc, text_of(source, *span), token_kind(*kind))?;
            Ok(text)
        }
        _ => Ok(None),
    }
}

/// The text of the first argument without a name, if that is a literal.
pub fn first_literal(
    alloc: Global,
    source: &[u8],
    arguments: &List,
) -> Result<Option<String>, AllocError>
    requires { AreGood (listing_words (list_view source.now arguments.now) Bracket.Round) }
    ensures { (function : Source) → IfOk result (λ text.
        option_map string_bytes text ≡ first_literal (call_with function (list_view source.now arguments.now))) }
{
    match first_argument(arguments) {
        Some(value) => {
            let text = literal(alloc, source, value)?;
            Ok(text)
        }
        None => Ok(None),
    }
}

/// Whether the first argument without a name is a literal of this text.
pub(crate) fn first_literal_is(
    alloc: Global,
    source: &[u8],
    arguments: &List,
    text: &str,
) -> Result<bool, AllocError>
    requires { AreGood (listing_words (list_view source.now arguments.now) Bracket.Round) }
    ensures { (function : Source) → IfOk result (λ b. b ≡ is text.now (first_literal (call_with function (list_view source.now arguments.now)))) }
{
    match first_literal(alloc, source, arguments)? {
        Some(found) => Ok(text == found.as_str()),
        None => Ok(false),
    }
}
