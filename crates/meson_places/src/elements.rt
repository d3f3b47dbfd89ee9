//! The elements of a list that a key names, and their values.

ghost use Rattle.std.specs.Prelude.{◌≡◌, IfOk, Ok};
ghost use Rattle.meson_syntax.specs.Grammar.{argument_words, expression_words};
ghost use Rattle.meson_syntax.specs.View.{arg_view, args_view, expr_view};
ghost use Rattle.meson_calls.specs.GoodLists.{GoodArgs};
ghost use Rattle.meson_calls.specs.Calls.{is, literal_of};
ghost use Rattle.meson_calls.specs.ChosenNotes.{Source};
ghost use Rattle.meson_calls.specs.Strings.{AreGood};
ghost use Rattle.meson_calls.specs.Refusals.{RefusedAs};
ghost use Rattle.meson_places.specs.Slots.{at_most_one, entry_number, keyword_number, list_kind, may_hide, number_by, number_in_array, number_in_call, passing};
ghost use Rattle.meson_places.specs.inside.Wanted.{is_wanted};

use crate::keys::number_of;
use meson_calls::Refusal;
use meson_calls::literals::literal;
use meson_calls::roles::text_of;
use meson_splice::Text;
use meson_syntax::{Arg, Expr};
use std::alloc::{AllocError, Global};

/// What a list belongs to.
#[derive(Clone, Copy, Debug, PartialEq, Eq)]
pub enum ListKind {
    Call,
    Array,
    Dictionary,
}

/// What the list of an expression belongs to, if it has a list.
pub(crate) fn list_kind(value: &Expr) -> Option<ListKind>
    ensures { (source : Source) → result ≡ list_kind (expr_view source value.now) }
{
    match value {
        Expr::Call { .. } => Some(ListKind::Call),
        Expr::Array(_) => Some(ListKind::Array),
        Expr::Dictionary(_) => Some(ListKind::Dictionary),
        _ => None,
    }
}

/// Which elements of a list are wanted.
#[derive(Clone, Copy)]
pub(crate) enum Wanted<'k> {
    /// Those without a name and without a key.
    Unnamed,
    /// Keyword arguments of this name.
    Name(&'k [u8]),
    /// Entries whose key is a literal of this text.
    Entry(&'k str),
}

/// Whether an expression is a literal of this text.
fn says(alloc: Global, source: &[u8], text: &str, value: &Expr) -> Result<bool, AllocError>
    requires { AreGood (expression_words (expr_view source.now value.now)) }
    ensures { IfOk result (λ b. b ≡ is text.now (literal_of (expr_view source.now value.now))) }
{
    match literal(alloc, source, value)? {
        Some(found) => Ok(text == found.as_str()),
        None => Ok(false),
    }
}

/// Whether an element is wanted.
fn is_wanted(
    alloc: Global,
    source: &[u8],
    wanted: Wanted<'_>,
    element: &Arg,
) -> Result<bool, AllocError>
    requires { AreGood (argument_words (arg_view source.now element.now)) }
    ensures { IfOk result (λ b. b ≡ is_wanted wanted.entry (arg_view source.now element.now)) }
{
    match element {
        Arg::Plain(_) => match wanted {
            Wanted::Unnamed => Ok(true),
            Wanted::Name(_) => Ok(false),
            Wanted::Entry(_) => Ok(false),
        },
        Arg::Named { name, .. } => match wanted {
            Wanted::Unnamed => Ok(false),
            Wanted::Name(key) => Ok(text_of(source, *name) == key),
            Wanted::Entry(_) => Ok(false),
        },
        Arg::Pair { key: held, .. } => match wanted {
            Wanted::Unnamed => Ok(false),
            Wanted::Name(_) => Ok(false),
            Wanted::Entry(key) => says(alloc, source, key, held.get()),
        },
    }
}

/// The numbers of the elements that are wanted.
fn numbers(
    alloc: Global,
    source: &[u8],
    wanted: Wanted<'_>,
    elements: &[Arg],
) -> Result<Vec<usize>, AllocError>
    requires { GoodArgs source.now elements.now }
    ensures { IfOk result (λ v. v.items ≡ passing (is_wanted wanted.entry) 0 (args_view source.now elements.now)) }
{
    let mut all = Vec::new(alloc);
    for i in 0..elements.len() {
        if is_wanted(alloc, source, wanted, &elements[i])? {
            all.push(i)?;
        }
    }
    Ok(all)
}

/// The only number, if there is one.
///
/// # Errors
/// There is more than one, of elements with this key; or out of memory.
fn at_most_one(key: &Text, numbers: &[usize]) -> Result<Option<usize>, Refusal>
    ensures found { IfOk result (λ n. at_most_one key.now numbers.now ≡ Ok n) }
    ensures refused { RefusedAs result (at_most_one key.now numbers.now) }
{
    match numbers {
        [] => Ok(None),
        [number] => Ok(Some(*number)),
        _ => Err(Refusal::DuplicateKeyword(key.clone()?)),
    }
}

/// Whether a call may have the keyword argument of a name in `kwargs:`.
fn may_hide(alloc: Global, source: &[u8], key: &Text, args: &[Arg]) -> Result<bool, AllocError>
    requires { GoodArgs source.now args.now }
    ensures { IfOk result (λ b. b ≡ may_hide key.now (args_view source.now args.now)) }
{
    let hiding = b"kwargs".as_slice();
    if key.get().as_bytes() == hiding {
        return Ok(false);
    }
    let found = numbers(alloc, source, Wanted::Name(hiding), args)?;
    Ok(!found.is_empty())
}

/// The number of the keyword argument of a name, if the call has it.
///
/// # Errors
/// The call may have it in `kwargs:`, or has it twice; or out of memory.
fn keyword_number(
    alloc: Global,
    source: &[u8],
    key: &Text,
    args: &[Arg],
) -> Result<Option<usize>, Refusal>
    requires { GoodArgs source.now args.now }
    ensures found { IfOk result (λ n. keyword_number key.now (args_view source.now args.now) ≡ Ok n) }
    ensures refused { RefusedAs result (keyword_number key.now (args_view source.now args.now)) }
{
    if may_hide(alloc, source, key, args)? {
        return Err(Refusal::HiddenKeywords);
    }
    let name = key.get().as_bytes();
    let found = numbers(alloc, source, Wanted::Name(name), args)?;
    at_most_one(key, found.as_slice())
}

/// The number of the argument of a call that a key names: by a number the argument without a name so far from the first, else the keyword argument.
///
/// # Errors
/// There is no argument of that number, or the faults of `keyword_number`.
fn number_in_call(
    alloc: Global,
    source: &[u8],
    key: &Text,
    number: Option<usize>,
    args: &[Arg],
) -> Result<Option<usize>, Refusal>
    requires { GoodArgs source.now args.now }
    ensures found { IfOk result (λ n. number_in_call key.now number (args_view source.now args.now) ≡ Ok n) }
    ensures refused { RefusedAs result (number_in_call key.now number (args_view source.now args.now)) }
{
    let Some(number) = number else {
        return keyword_number(alloc, source, key, args);
    };
    let unnamed = numbers(alloc, source, Wanted::Unnamed, args)?;
    if number < unnamed.len() {
        Ok(Some(unnamed[number]))
    } else {
        Err(Refusal::NoSuchValue(key.clone()?))
    }
}

/// The number of the element of an array that a key names.
///
/// # Errors
/// There is no element of that number, or out of memory.
fn number_in_array(key: &Text, number: Option<usize>, many: usize) -> Result<Option<usize>, Refusal>
    ensures found { IfOk result (λ n. number_in_array key.now number many ≡ Ok n) }
    ensures refused { RefusedAs result (number_in_array key.now number many) }
{
    match number {
        Some(number) if number < many => Ok(Some(number)),
        _ => Err(Refusal::NoSuchValue(key.clone()?)),
    }
}

/// The number of the entry of a dictionary that a key names.
///
/// # Errors
/// The key is there twice, or out of memory.
fn entry_number(
    alloc: Global,
    source: &[u8],
    key: &Text,
    entries: &[Arg],
) -> Result<Option<usize>, Refusal>
    requires { GoodArgs source.now entries.now }
    ensures found { IfOk result (λ n. entry_number key.now (args_view source.now entries.now) ≡ Ok n) }
    ensures refused { RefusedAs result (entry_number key.now (args_view source.now entries.now)) }
{
    let found = numbers(alloc, source, Wanted::Entry(key.get()), entries)?;
    at_most_one(key, found.as_slice())
}

/// The number of the element that a key names in a list of this kind, or nothing if it may be added there.
///
/// # Errors
/// There is no list; the key is there twice or may be hidden; no element has this number; or out of memory.
pub(crate) fn number_by(
    alloc: Global,
    source: &[u8],
    kind: Option<ListKind>,
    key: &Text,
    elements: &[Arg],
) -> Result<Option<usize>, Refusal>
    requires { GoodArgs source.now elements.now }
    ensures found { IfOk result (λ n. number_by kind key.now (args_view source.now elements.now) ≡ Ok n) }
    ensures refused { RefusedAs result (number_by kind key.now (args_view source.now elements.now)) }
{
    let number = number_of(key.get());
    match kind {
        Some(ListKind::Call) => number_in_call(alloc, source, key, number, elements),
        Some(ListKind::Array) => number_in_array(key, number, elements.len()),
        Some(ListKind::Dictionary) => entry_number(alloc, source, key, elements),
        None => Err(Refusal::NotLiteral(key.clone()?)),
    }
}
