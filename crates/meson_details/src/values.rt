//! What is reported of a value, and of what is in it.

ghost use Rattle.std.specs.Prelude.{◌≡◌, ◌+◌, ◌<◌, ◌≤◌, ◌^◌, All, IfOk};
ghost use Rattle.std.specs.Str.{IsUtf8};
ghost use Rattle.meson_syntax.specs.Grammar.{argument_words, expression_words};
ghost use Rattle.meson_syntax.specs.View.{arg_view, args_view, expr_view};
ghost use Rattle.meson_calls.specs.ChosenNotes.{Source};
ghost use Rattle.meson_calls.specs.GoodLists.{GoodArgs};
ghost use Rattle.meson_calls.specs.Strings.{AreGood};
ghost use Rattle.meson_details.specs.Details.{source_text};
ghost use Rattle.meson_details.specs.Values.{AreTextsOf, HasTexts, content, contents, entry_key, number_after, value_details};

use crate::details::{ArgumentKey, Shown, ValueDetails};
use crate::showing::{name_of, name_text, opaque, shown_value};
use meson_calls::literals::literal;
use meson_calls::roles::text_of;
use meson_splice::{Many, Text};
use meson_syntax::{Arg, Expr};
use std::alloc::{AllocError, Global};

/// The key of an entry: the text of a literal, or else its code.
fn entry_key(alloc: Global, source: &[u8], key: &Expr) -> Result<ArgumentKey, AllocError>
    requires good { AreGood (expression_words (expr_view source.now key.now)) }
    requires text { IsUtf8 (source_text source.now (expr_view source.now key.now)) }
    ensures { IfOk result (λ k. k ≡ entry_key source.now (expr_view source.now key.now)) }
{
    match literal(alloc, source, key)? {
        Some(text) => Ok(ArgumentKey::Text(Text::of(text))),
        None => Ok(ArgumentKey::Code(opaque(alloc, source, key)?)),
    }
}

/// The key and the value of an element, which has this number if it has no name.
fn content(
    alloc: Global,
    source: &[u8],
    number: usize,
    element: &Arg,
) -> Result<(ArgumentKey, Shown), AllocError>
    requires good { AreGood (argument_words (arg_view source.now element.now)) }
    requires texts { AreTextsOf source.now (arg_view source.now element.now) }
    ensures { IfOk result (λ c. c ≡ content source.now number (arg_view source.now element.now)) }
{
    match element {
        Arg::Plain(value) => {
            let shown = shown_value(alloc, source, value)?;
            Ok((ArgumentKey::Number(number), shown))
        }
        Arg::Named { name, value, .. } => {
            let shown = shown_value(alloc, source, value)?;
            let name = name_text(alloc, text_of(source, *name))?;
            Ok((ArgumentKey::Text(name), shown))
        }
        Arg::Pair { key, value, .. } => {
            let shown = shown_value(alloc, source, value.get())?;
            Ok((entry_key(alloc, source, key.get())?, shown))
        }
    }
}

/// The number of the next element without a name, where an element has this number if it has no name.
fn number_after(number: usize, element: &Arg) -> usize
    requires { number + 1 < 2 ^ 64 }
    ensures next { (source : Source) → result ≡ number_after number (arg_view source element.now) }
    ensures few { result ≤ number + 1 }
{
    match element {
        Arg::Plain(_) => number + 1,
        Arg::Named { .. } => number,
        Arg::Pair { .. } => number,
    }
}

/// The keys and values of elements, in their order.
fn contents(
    alloc: Global,
    source: &[u8],
    elements: &[Arg],
) -> Result<Many<(ArgumentKey, Shown)>, AllocError>
    requires good { GoodArgs source.now elements.now }
    requires texts { All (AreTextsOf source.now) (args_view source.now elements.now) }
    ensures { IfOk result (λ all. all ≡ contents source.now (args_view source.now elements.now)) }
{
    let mut all = Vec::new(alloc);
    let mut number = 0;
    for i in 0..elements.len() {
        let element = &elements[i];
        all.push(content(alloc, source, number, element)?)?;
        number = number_after(number, element);
    }
    Ok(Many::of(all))
}

/// What is reported of a value.
///
/// # Errors
/// Out of memory.
pub fn value_details(alloc: Global, source: &[u8], value: &Expr) -> Result<ValueDetails, AllocError>
    requires good { AreGood (expression_words (expr_view source.now value.now)) }
    requires texts { HasTexts source.now (expr_view source.now value.now) }
    ensures { IfOk result (λ d. d ≡ value_details source.now (expr_view source.now value.now)) }
{
    match value {
        Expr::Call {
            name,
            arguments,
            ..
        } => Ok(ValueDetails::Call {
            function: name_text(alloc, text_of(source, *name))?,
            name: name_of(alloc, source, arguments)?,
            arguments: contents(alloc, source, arguments.items.get())?,
        }),
        Expr::Array(list) => {
            let inside = contents(alloc, source, list.items.get())?;
            Ok(ValueDetails::List(inside))
        }
        Expr::Dictionary(list) => {
            let inside = contents(alloc, source, list.items.get())?;
            Ok(ValueDetails::List(inside))
        }
        _ => Ok(ValueDetails::Other(shown_value(alloc, source, value)?)),
    }
}
