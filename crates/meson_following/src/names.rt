//! Whether a variable is the one that a call names.

ghost use Rattle.std.specs.Prelude.{◌≡◌, [], IfOk, option_map, position, string_bytes};
ghost use Rattle.meson_syntax.specs.Grammar.{expression_words, listing_words};
ghost use Rattle.meson_syntax.specs.Tree.{operands_of, tails_of};
ghost use Rattle.meson_syntax.specs.View.{expr_view, list_view, operands_view, tail_view, tails_view};
ghost use Rattle.meson_syntax.specs.declared.operator.Bracket.TheVariants as bracket;
ghost use Rattle.meson_calls.specs.Calls.{literal_of};
ghost use Rattle.meson_calls.specs.ChosenNotes.{Source, call_with};
ghost use Rattle.meson_calls.specs.GoodLists.{GoodRow};
ghost use Rattle.meson_calls.specs.Strings.{AreGood};
ghost use Rattle.meson_following.specs.Names.{after_placeholders, are_format, before_placeholders, between, computed, exactly, fit, format_naming, formatted, is_at_sign, is_format, last_of, may_be, named_by, sum_naming, text_or_empty};

use meson_calls::literals::literal;
use meson_calls::roles::{first_argument, text_of};
use meson_syntax::{Expr, List, Operand, Tail};
use meson_variables::sums::are_plus;
use std::alloc::{AllocError, Global};

/// Whether a variable is the one that a call names.
#[derive(Clone, Copy, Debug, PartialEq, Eq)]
pub enum Fit {
    Not,
    /// The name is computed, and may be its name.
    Perhaps,
    Surely,
}

impl Fit {
    /// Whether the variable may be the one.
    pub fn may_be(self) -> bool
        ensures { result ≡ may_be self }
    {
        !matches!(self, Fit::Not)
    }
}

/// Whether the variable has this name.
fn fit_exactly(variable: &[u8], name: &[u8]) -> Fit
    ensures { result ≡ fit variable.now (exactly name.now) }
{
    if variable == name {
        Fit::Surely
    } else {
        Fit::Not
    }
}

/// Whether the variable's name begins and ends so.
fn fit_between(variable: &[u8], front: &[u8], back: &[u8]) -> Fit
    ensures { result ≡ fit variable.now (between front.now back.now) }
{
    if variable.starts_with(front) && variable.ends_with(back) {
        Fit::Perhaps
    } else {
        Fit::Not
    }
}

/// Where the first placeholder begins.
fn at_sign(text: &[u8]) -> Option<usize>
    ensures { result ≡ position is_at_sign text.now }
{
    text.iter().position(|byte| *byte == b'@')
}

/// What is before the first placeholder.
fn before_placeholders(text: &[u8]) -> &[u8]
    ensures { result.now ≡ before_placeholders text.now }
{
    match at_sign(text) {
        Some(end) => &text[..end],
        None => text,
    }
}

/// What is after the last placeholder.
fn after_placeholders(text: &[u8]) -> &[u8]
    ensures { result.now ≡ after_placeholders [] text.now }
{
    let mut from = 0;
    for i in 0..text.len() {
        if text[i] == b'@' {
            from = i + 1;
        }
    }
    &text[from..]
}

/// The text of a literal; of all else the empty text.
fn text_or_empty(alloc: Global, source: &[u8], expr: &Expr) -> Result<String, AllocError>
    requires { AreGood (expression_words (expr_view source.now expr.now)) }
    ensures { IfOk result (λ text. string_bytes text ≡ text_or_empty (literal_of (expr_view source.now expr.now))) }
{
    match literal(alloc, source, expr)? {
        Some(text) => Ok(text),
        None => Ok(String::new(alloc)),
    }
}

/// The last operand of a row.
fn last_of<'e>(first: &'e Expr, rest: &'e [Operand]) -> &'e Expr
    ensures { (source : Source) → expr_view source result.now ≡ last_of (expr_view source first.now) (operands_of (operands_view source rest.now)) }
{
    let mut last = first;
    for i in 0..rest.len() {
        last = &rest[i].value;
    }
    last
}

/// Whether the variable's name may be a sum.
fn fit_sum(
    alloc: Global,
    variable: &[u8],
    source: &[u8],
    first: &Expr,
    rest: &[Operand],
) -> Result<Fit, AllocError>
    requires { GoodRow source.now first.now rest.now }
    ensures { IfOk result (λ found. found
        ≡ fit variable.now (sum_naming (expr_view source.now first.now) (operands_of (operands_view source.now rest.now)))) }
{
    let front = text_or_empty(alloc, source, first)?;
    let back = text_or_empty(alloc, source, last_of(first, rest))?;
    Ok(fit_between(variable, front.as_bytes(), back.as_bytes()))
}

/// Whether what is behind an expression is a call of `format`.
fn is_format(source: &[u8], tail: &Tail) -> bool
    ensures { result ≡ is_format (tail_view source.now tail.now) }
{
    match tail {
        Tail::Method { name, .. } => text_of(source, *name) == b"format".as_slice(),
        Tail::Index { .. } => false,
    }
}

/// Whether it is that alone.
fn are_format(source: &[u8], tails: &[Tail]) -> bool
    ensures { result ≡ are_format (tails_of (tails_view source.now tails.now)) }
{
    tails.len() == 1 && is_format(source, &tails[0])
}

/// The text whose one method call is `format`, if that is what the expression is.
fn formatted(
    alloc: Global,
    source: &[u8],
    base: &Expr,
    tails: &[Tail],
) -> Result<Option<String>, AllocError>
    requires { AreGood (expression_words (expr_view source.now base.now)) }
    ensures { IfOk result (λ text. option_map string_bytes text
        ≡ formatted (expr_view source.now base.now) (tails_of (tails_view source.now tails.now))) }
{
    if are_format(source, tails) {
        literal(alloc, source, base)
    } else {
        Ok(None)
    }
}

/// Whether the variable's name may be what `format` makes of a text.
fn fit_format(variable: &[u8], text: Option<&str>) -> Fit
    ensures { result ≡ fit variable.now (format_naming (option_map (λ t. t.now) text.entry)) }
{
    match text {
        Some(text) => {
            let text = text.as_bytes();
            fit_between(
                variable,
                before_placeholders(text),
                after_placeholders(text),
            )
        }
        None => Fit::Perhaps,
    }
}

/// Whether the variable's name may be the value of an expression that is no literal.
fn fit_computed(
    alloc: Global,
    variable: &[u8],
    source: &[u8],
    expr: &Expr,
) -> Result<Fit, AllocError>
    requires { AreGood (expression_words (expr_view source.now expr.now)) }
    ensures { IfOk result (λ found. found ≡ fit variable.now (computed (expr_view source.now expr.now))) }
{
    match expr {
        Expr::Row { first, rest, .. } => {
            let rest = rest.get();
            if are_plus(rest) {
                fit_sum(alloc, variable, source, first.get(), rest)
            } else {
                Ok(Fit::Perhaps)
            }
        }
        Expr::Postfix { base, tails, .. } => {
            let text = formatted(alloc, source, base.get(), tails.get())?;
            Ok(fit_format(variable, text.as_deref()))
        }
        _ => Ok(Fit::Perhaps),
    }
}

/// Whether the variable is the one that a call with these arguments names.
///
/// # Errors
/// Out of memory.
pub fn fit_of(
    alloc: Global,
    variable: &[u8],
    source: &[u8],
    arguments: &List,
) -> Result<Fit, AllocError>
    requires { AreGood (listing_words (list_view source.now arguments.now) bracket.Round) }
    ensures { (function : Source) → IfOk result (λ found. found
        ≡ fit variable.now (named_by (call_with function (list_view source.now arguments.now)))) }
{
    match first_argument(arguments) {
        Some(name) => match literal(alloc, source, name)? {
            Some(text) => Ok(fit_exactly(variable, text.as_bytes())),
            None => fit_computed(alloc, variable, source, name),
        },
        None => Ok(Fit::Perhaps),
    }
}
