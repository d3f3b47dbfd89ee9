//! The texts that a list is known to hold.

ghost use Rattle.std.specs.Prelude.{◌≡◌, ◌++◌, IfOk, OnOk, map, option_map, string_bytes};
ghost use Rattle.meson_syntax.specs.Grammar.{argument_words, expression_words};
ghost use Rattle.meson_syntax.specs.Tree.{operands_of};
ghost use Rattle.meson_syntax.specs.View.{arg_view, expr_view, list_view, operands_view};
ghost use Rattle.meson_calls.specs.ChosenNotes.{Source};
ghost use Rattle.meson_calls.specs.GoodLists.{GoodListing};
ghost use Rattle.meson_calls.specs.Strings.{AreGood};
ghost use Rattle.meson_entering.specs.Lists.{added, element_text, listed_texts, own_texts, summands, value_texts};

use meson_calls::literals::literal;
use meson_syntax::{Arg, Expr, List, Operand};
use meson_variables::sums::are_plus;
use std::alloc::{AllocError, Global};

/// Adds what is summed in an expression, with parentheses and sums opened, to what was found.
#[cycle(sums)]
fn add_summands<'e>(expr: &'e Expr, found: &mut Vec<&'e Expr>) -> Result<(), AllocError>
    ensures { (source : Source) → let views = map (λ e. expr_view source e.now) in
        OnOk result (views found.new.items ≡ views found.old.items ++ summands (expr_view source expr.now)) }
{
    match expr {
        Expr::Paren { inside, .. } => add_summands(inside.get(), found),
        Expr::Row { first, rest, .. } => {
            if are_plus(rest.get()) {
                add_summands(first.get(), found)?;
                add_operands(rest.get(), found)
            } else {
                found.push(expr)?;
                Ok(())
            }
        }
        _ => {
            found.push(expr)?;
            Ok(())
        }
    }
}

/// The same of what is added to a first operand.
#[cycle(sums)]
fn add_operands<'e>(operands: &'e [Operand], found: &mut Vec<&'e Expr>) -> Result<(), AllocError>
    ensures { (source : Source) → let views = map (λ e. expr_view source e.now) in
        OnOk result (views found.new.items ≡ views found.old.items ++ added (operands_of (operands_view source operands.now))) }
{
    for i in 0..operands.len() {
        add_summands(&operands[i].value, found)?;
    }
    Ok(())
}

/// What is summed in an expression, with parentheses and sums opened.
pub(crate) fn summands(alloc: Global, expr: &Expr) -> Result<Vec<&Expr>, AllocError>
    ensures { (source : Source) → IfOk result (λ found. map (λ e. expr_view source e.now) found.items ≡ summands (expr_view source expr.now)) }
{
    let mut found = Vec::new(alloc);
    add_summands(expr, &mut found)?;
    Ok(found)
}

/// An element of an array, or the key of an entry, if it is a literal.
fn element_text(alloc: Global, source: &[u8], arg: &Arg) -> Result<Option<String>, AllocError>
    requires { AreGood (argument_words (arg_view source.now arg.now)) }
    ensures { IfOk result (λ text. option_map string_bytes text ≡ element_text (arg_view source.now arg.now)) }
{
    match arg {
        Arg::Plain(value) => literal(alloc, source, value),
        Arg::Named { .. } => Ok(None),
        Arg::Pair { key, .. } => literal(alloc, source, key.get()),
    }
}

/// Adds the literals among the elements of an array, or the keys of a dictionary.
fn add_elements(
    alloc: Global,
    source: &[u8],
    list: &List,
    texts: &mut Vec<String>,
) -> Result<(), AllocError>
    requires { GoodListing (list_view source.now list.now) }
    ensures { OnOk result (map string_bytes texts.new.items ≡ map string_bytes texts.old.items ++ listed_texts (list_view source.now list.now)) }
{
    let args = list.items.get();
    for i in 0..args.len() {
        if let Some(text) = element_text(alloc, source, &args[i])? {
            texts.push(text)?;
        }
    }
    Ok(())
}

/// Adds the texts of a list that is written here, or the one that is a further element of a sum.
pub(crate) fn add_own(
    alloc: Global,
    source: &[u8],
    expr: &Expr,
    texts: &mut Vec<String>,
) -> Result<(), AllocError>
    requires { AreGood (expression_words (expr_view source.now expr.now)) }
    ensures { OnOk result (map string_bytes texts.new.items ≡ map string_bytes texts.old.items ++ own_texts (expr_view source.now expr.now)) }
{
    match expr {
        Expr::Array(list) => add_elements(alloc, source, list, texts),
        Expr::Dictionary(list) => add_elements(alloc, source, list, texts),
        _ => {
            if let Some(text) = literal(alloc, source, expr)? {
                texts.push(text)?;
            }
            Ok(())
        }
    }
}

/// Adds the texts that a value is known to hold.
pub(crate) fn add_value(
    alloc: Global,
    source: &[u8],
    value: &Expr,
    texts: &mut Vec<String>,
) -> Result<(), AllocError>
    requires { AreGood (expression_words (expr_view source.now value.now)) }
    ensures { OnOk result (map string_bytes texts.new.items ≡ map string_bytes texts.old.items ++ value_texts (expr_view source.now value.now)) }
{
    let summands = summands(alloc, value)?;
    for i in 0..summands.len() {
        add_own(alloc, source, summands[i], texts)?;
    }
    Ok(())
}
