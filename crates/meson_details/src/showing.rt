//! The head of a call, and the values of its keyword arguments.

ghost use Rattle.std.specs.Prelude.{◌≡◌, IfOk, Ok, Some};
ghost use Rattle.std.specs.List.{filter_map};
ghost use Rattle.std.specs.Str.{IsUtf8};
ghost use Rattle.meson_lex.specs.Kinds.{IsIdentifier};
ghost use Rattle.meson_syntax.specs.Grammar.{argument_words, expression_words, listing_words};
ghost use Rattle.meson_syntax.specs.View.{arg_view, args_view, expr_view, list_view, text_at};
ghost use Rattle.meson_calls.specs.Calls.{first_literal};
ghost use Rattle.meson_calls.specs.GoodLists.{GoodArgs, GoodListing};
ghost use Rattle.meson_calls.specs.ChosenNotes.{Source, call_with};
ghost use Rattle.meson_calls.specs.Refusals.{RefusedAs};
ghost use Rattle.meson_calls.specs.Strings.{AreGood};
ghost use Rattle.meson_details.specs.Called.{called_view};
ghost use Rattle.meson_details.specs.Details.{head_of, is_hidden, keywords_of_call, literal_in, of_each, shown_argument, shown_list, shown_value, source_text, variable_in};
ghost use Rattle.meson_details.specs.ValueTexts.{ArgsHaveTexts, HasText, ListHasTexts};

use crate::called::Called;
use crate::details::{Head, Shown};
use crate::duplicates::call_told;
use meson_calls::arguments::count_named;
use meson_calls::keys::is_key;
use meson_calls::literals::{first_literal, literal};
use meson_calls::roles::{identifier_text, text_of, text_of_name};
use meson_calls::{Refusal, Role};
use meson_edit::span_of;
use meson_splice::{Many, Text};
use meson_syntax::{Arg, Bracket, Expr, List};
use std::alloc::{AllocError, Global};

/// The text of an identifier.
pub(crate) fn name_text(alloc: Global, name: &[u8]) -> Result<Text, AllocError>
    requires { IsIdentifier name.now }
    ensures { IfOk result (λ text. text ≡ name.now) }
{
    let text = String::from_str(alloc, identifier_text(name))?;
    Ok(Text::of(text))
}

/// Whether a call may have hidden arguments.
fn is_hidden(source: &[u8], arguments: &List) -> bool
    ensures { (function : Source) → result ≡ is_hidden (call_with function (list_view source.now arguments.now)) }
{
    count_named(source, arguments.items.get(), b"kwargs".as_slice()) > 0
}

/// The text of the first argument without a name, if that is a literal.
pub(crate) fn name_of(
    alloc: Global,
    source: &[u8],
    arguments: &List,
) -> Result<Option<Text>, AllocError>
    requires { AreGood (listing_words (list_view source.now arguments.now) Bracket.Round) }
    ensures { (function : Source) → IfOk result (λ name. name ≡ first_literal (call_with function (list_view source.now arguments.now))) }
{
    match first_literal(alloc, source, arguments)? {
        Some(text) => Ok(Some(Text::of(text))),
        None => Ok(None),
    }
}

/// What is reported of a call before its arguments.
pub fn head_of(alloc: Global, called: Called<'_>) -> Result<Head, AllocError>
    requires named { IsIdentifier (text_at called.source.now called.name) }
    requires words { AreGood (listing_words (list_view called.source.now called.arguments.now) Bracket.Round) }
    ensures { IfOk result (λ head. head_of (called_view called.entry) ≡ Some head) }
{
    let function = name_text(alloc, text_of(called.source, called.name))?;
    let name = name_of(alloc, called.source, called.arguments)?;
    Ok(Head {
        at: called.span.from,
        function,
        hidden: is_hidden(called.source, called.arguments),
        name,
    })
}

/// The text of an element that is a literal.
fn literal_in(alloc: Global, source: &[u8], element: &Arg) -> Result<Option<Text>, AllocError>
    requires { AreGood (argument_words (arg_view source.now element.now)) }
    ensures { IfOk result (λ text. text ≡ literal_in (arg_view source.now element.now)) }
{
    match element {
        Arg::Plain(value) => Ok(literal(alloc, source, value)?.map(Text::of)),
        Arg::Named { .. } => Ok(None),
        Arg::Pair { .. } => Ok(None),
    }
}

/// The name of an element that is a variable.
fn variable_in(alloc: Global, source: &[u8], element: &Arg) -> Result<Option<Text>, AllocError>
    requires { AreGood (argument_words (arg_view source.now element.now)) }
    ensures { IfOk result (λ name. name ≡ variable_in (arg_view source.now element.now)) }
{
    match element {
        Arg::Plain(value) => match value {
            Expr::Identifier(name) => Ok(Some(name_text(alloc, text_of(source, *name))?)),
            _ => Ok(None),
        },
        Arg::Named { .. } => Ok(None),
        Arg::Pair { .. } => Ok(None),
    }
}

/// The texts of elements, if all are literals.
fn literals_in(
    alloc: Global,
    source: &[u8],
    elements: &[Arg],
) -> Result<Option<Many<Text>>, AllocError>
    requires { GoodArgs source.now elements.now }
    ensures { IfOk result (λ texts. texts ≡ of_each literal_in (args_view source.now elements.now)) }
{
    let mut texts = Vec::new(alloc);
    for i in 0..elements.len() {
        match literal_in(alloc, source, &elements[i])? {
            Some(text) => texts.push(text)?,
            None => return Ok(None),
        }
    }
    Ok(Some(Many::of(texts)))
}

/// The names of elements, if all are variables.
fn variables_in(
    alloc: Global,
    source: &[u8],
    elements: &[Arg],
) -> Result<Option<Many<Text>>, AllocError>
    requires { GoodArgs source.now elements.now }
    ensures { IfOk result (λ names. names ≡ of_each variable_in (args_view source.now elements.now)) }
{
    let mut names = Vec::new(alloc);
    for i in 0..elements.len() {
        match variable_in(alloc, source, &elements[i])? {
            Some(name) => names.push(name)?,
            None => return Ok(None),
        }
    }
    Ok(Some(Many::of(names)))
}

/// A value by its text in the file.
pub(crate) fn opaque(alloc: Global, source: &[u8], value: &Expr) -> Result<Text, AllocError>
    requires { IsUtf8 (source_text source.now (expr_view source.now value.now)) }
    ensures { IfOk result (λ text. text ≡ source_text source.now (expr_view source.now value.now)) }
{
    text_of_name(alloc, text_of(source, span_of(value)))
}

/// The value of a keyword argument that is an array of these elements.
fn shown_array(
    alloc: Global,
    source: &[u8],
    value: &Expr,
    elements: &[Arg],
) -> Result<Shown, AllocError>
    requires good { GoodArgs source.now elements.now }
    requires text { IsUtf8 (source_text source.now (expr_view source.now value.now)) }
    ensures { let inside = args_view source.now elements.now in let text = source_text source.now (expr_view source.now value.now) in
        IfOk result (λ s. s ≡ shown_list text (of_each literal_in inside) (of_each variable_in inside)) }
{
    if let Some(texts) = literals_in(alloc, source, elements)? {
        return Ok(Shown::Texts(texts));
    }
    match variables_in(alloc, source, elements)? {
        Some(names) => Ok(Shown::Ids(names)),
        None => Ok(Shown::Opaque(opaque(alloc, source, value)?)),
    }
}

/// The value of a keyword argument.
pub(crate) fn shown_value(alloc: Global, source: &[u8], value: &Expr) -> Result<Shown, AllocError>
    requires good { AreGood (expression_words (expr_view source.now value.now)) }
    requires text { IsUtf8 (source_text source.now (expr_view source.now value.now)) }
    ensures { IfOk result (λ s. s ≡ shown_value source.now (expr_view source.now value.now)) }
{
    match value {
        Expr::Identifier(name) => Ok(Shown::Id(name_text(alloc, text_of(source, *name))?)),
        Expr::Boolean { span: _, value } => Ok(Shown::Bool(*value)),
        Expr::String { .. } => match literal(alloc, source, value)? {
            Some(text) => Ok(Shown::Text(Text::of(text))),
            None => Ok(Shown::Opaque(opaque(alloc, source, value)?)),
        },
        Expr::Array(list) => shown_array(alloc, source, value, list.items.get()),
        _ => Ok(Shown::Opaque(opaque(alloc, source, value)?)),
    }
}

/// The name and the value of an argument, if commands change it in such a call.
fn shown_argument(
    alloc: Global,
    source: &[u8],
    role: Role,
    arg: &Arg,
) -> Result<Option<(Text, Shown)>, AllocError>
    requires good { AreGood (argument_words (arg_view source.now arg.now)) }
    requires text { HasText source.now (arg_view source.now arg.now) }
    ensures { IfOk result (λ pair. pair ≡ shown_argument source.now role (arg_view source.now arg.now)) }
{
    match arg {
        Arg::Named {
            span: _,
            name,
            value,
        } => {
            let key = text_of(source, *name);
            if !is_key(role, key) {
                return Ok(None);
            }
            let shown = shown_value(alloc, source, value)?;
            Ok(Some((name_text(alloc, key)?, shown)))
        }
        Arg::Plain(_) => Ok(None),
        Arg::Pair { .. } => Ok(None),
    }
}

/// The arguments that commands change, in their order.
fn shown_arguments(
    alloc: Global,
    source: &[u8],
    role: Role,
    args: &[Arg],
) -> Result<Vec<(Text, Shown)>, AllocError>
    requires good { GoodArgs source.now args.now }
    requires texts { ArgsHaveTexts source.now args.now }
    ensures { IfOk result (λ pairs. pairs.items ≡ filter_map (shown_argument source.now role) (args_view source.now args.now)) }
{
    let mut pairs = Vec::new(alloc);
    for i in 0..args.len() {
        if let Some(pair) = shown_argument(alloc, source, role, &args[i])? {
            pairs.push(pair)?;
        }
    }
    Ok(pairs)
}

/// The keyword arguments of a call that commands change, in its order.
///
/// # Errors
/// One of them is there twice, the first such in its order, or out of memory.
pub fn keywords_of(
    alloc: Global,
    role: Role,
    source: &[u8],
    arguments: &List,
) -> Result<Vec<(Text, Shown)>, Refusal>
    requires good { GoodListing (list_view source.now arguments.now) }
    requires texts { ListHasTexts source.now (list_view source.now arguments.now) }
    ensures shown { (function : Source) → let call = call_with function (list_view source.now arguments.now) in
        IfOk result (λ pairs. keywords_of_call source.now role call ≡ Ok pairs.items) }
    ensures refused { (function : Source) → let call = call_with function (list_view source.now arguments.now) in
        RefusedAs result (keywords_of_call source.now role call) }
{
    call_told(alloc, source, arguments, role)?;
    let pairs = shown_arguments(alloc, source, role, arguments.items.get())?;
    Ok(pairs)
}
