//! Whether elements say a value that is given.

ghost use Rattle.std.specs.Prelude.{◌≡◌, IfErr, IfOk};
ghost use Rattle.std.specs.List.{list_any};
ghost use Rattle.meson_lex.specs.declared.kinds.Span.{Span};
ghost use Rattle.meson_lex.specs.Significant.{role};
ghost use Rattle.meson_lex.specs.Words.{speaks};
ghost use Rattle.meson_syntax.specs.Grammar.{argument_words, expression_words};
ghost use Rattle.meson_syntax.specs.View.{arg_view, args_view, expr_view};
ghost use Rattle.meson_calls.specs.Calls.{is, literal_of};
ghost use Rattle.meson_calls.specs.GoodLists.{GoodArgs};
ghost use Rattle.meson_calls.specs.Strings.{AreGood};
ghost use Rattle.meson_calls.specs.declared.refusal.Refusal.TheVariants.{OutOfMemory};
ghost use Rattle.meson_places.specs.Equality.{element_says, lists_say, same_code, same_given, says, tokens};
ghost use Rattle.meson_places.specs.inside.Found.{AreGoodLists, found_lists};

use crate::value_lists::FoundList;
use crate::values::{given_bytes, switch_text};
use meson_calls::Refusal;
use meson_calls::literals::literal;
use meson_calls::roles::text_of;
use meson_edit::span_of;
use meson_lex::{Kind, items};
use meson_splice::Text;
use meson_steps::given::Given;
use meson_syntax::{Arg, Expr};
use std::alloc::{AllocError, Global};

/// Whether it is a token inside brackets.
fn is_token(kind: Kind) -> bool
    ensures { result ≡ speaks (role kind) }
{
    !matches!(
        kind,
        Kind::Blank | Kind::LineEnd | Kind::Comment | Kind::Continuation
    )
}

/// The tokens of a text inside brackets, each with a byte 0 after it.
fn tokens(alloc: Global, text: &[u8]) -> Result<Vec<u8>, AllocError>
    ensures { IfOk result (λ v. v.items ≡ tokens text.now) }
{
    let mut all = Vec::new(alloc);
    for item in items(text) {
        if let Ok(item) = item {
            if is_token(item.kind) {
                all.extend_from_slice(text_of(text, item.span))?;
                all.push(0)?;
            }
        }
    }
    Ok(all)
}

/// Whether two texts have the same tokens.
fn same_code(alloc: Global, one: &[u8], other: &[u8]) -> Result<bool, AllocError>
    ensures { IfOk result (λ b. b ≡ same_code one.now other.now) }
{
    let one = tokens(alloc, one)?;
    let other = tokens(alloc, other)?;
    Ok(one.as_slice() == other.as_slice())
}

/// Whether an expression is a literal of this text.
fn says_text(alloc: Global, source: &[u8], text: &Text, value: &Expr) -> Result<bool, AllocError>
    requires { AreGood (expression_words (expr_view source.now value.now)) }
    ensures { IfOk result (λ b. b ≡ is text.now (literal_of (expr_view source.now value.now))) }
{
    match literal(alloc, source, value)? {
        Some(found) => Ok(text.get() == found.as_str()),
        None => Ok(false),
    }
}

/// Whether an expression says a value: a literal says its text, and any expression what has the same tokens.
pub(crate) fn says(
    alloc: Global,
    source: &[u8],
    given: &Given,
    value: &Expr,
) -> Result<bool, AllocError>
    requires { AreGood (expression_words (expr_view source.now value.now)) }
    ensures { IfOk result (λ b. b ≡ says source.now given.now (expr_view source.now value.now)) }
{
    let own = text_of(source, span_of(value));
    match given {
        Given::Text(text) => says_text(alloc, source, text, value),
        Given::Switch(yes) => same_code(alloc, switch_text(*yes).as_bytes(), own),
        Given::Code(code) => same_code(alloc, code.get().as_bytes(), own),
    }
}

/// Whether an element without a name says a value.
pub(crate) fn element_says(
    alloc: Global,
    source: &[u8],
    given: &Given,
    element: &Arg,
) -> Result<bool, AllocError>
    requires { AreGood (argument_words (arg_view source.now element.now)) }
    ensures { IfOk result (λ b. b ≡ element_says source.now given.now (arg_view source.now element.now)) }
{
    match element {
        Arg::Plain(value) => says(alloc, source, given, value),
        Arg::Named { .. } => Ok(false),
        Arg::Pair { .. } => Ok(false),
    }
}

/// Whether one of some elements says a value.
fn any_says(
    alloc: Global,
    source: &[u8],
    given: &Given,
    elements: &[Arg],
) -> Result<bool, AllocError>
    requires { GoodArgs source.now elements.now }
    ensures { IfOk result (λ b. b ≡ list_any (element_says source.now given.now) (args_view source.now elements.now)) }
{
    for i in 0..elements.len() {
        if element_says(alloc, source, given, &elements[i])? {
            return Ok(true);
        }
    }
    Ok(false)
}

/// Whether an element of one of some lists says a value.
pub(crate) fn lists_say(
    alloc: Global,
    source: &[u8],
    given: &Given,
    lists: &[FoundList<'_>],
) -> Result<bool, AllocError>
    requires { AreGoodLists source.now lists.now }
    ensures { IfOk result (λ b. b ≡ lists_say source.now (found_lists source.now lists.now) given.now) }
{
    for i in 0..lists.len() {
        if any_says(alloc, source, given, lists[i].elements)? {
            return Ok(true);
        }
    }
    Ok(false)
}

/// Whether the same is written for two values.
fn same_given(alloc: Global, one: &Given, other: &Given) -> Result<bool, Refusal>
    ensures same { IfOk result (λ b. b ≡ same_given one.now other.now) }
    ensures refused { IfErr result (λ e. e ≡ OutOfMemory) }
{
    let one = given_bytes(alloc, one)?;
    let other = given_bytes(alloc, other)?;
    Ok(same_code(alloc, one.get(), other.get())?)
}

/// Whether the same is written for one of some values.
pub(crate) fn is_given(alloc: Global, given: &Given, before: &[Given]) -> Result<bool, Refusal>
    ensures same { IfOk result (λ b. b ≡ list_any (same_given given.now) before.now) }
    ensures refused { IfErr result (λ e. e ≡ OutOfMemory) }
{
    for i in 0..before.len() {
        if same_given(alloc, given, &before[i])? {
            return Ok(true);
        }
    }
    Ok(false)
}
