//! The present keyword argument, and what the elements of its value say.

ghost use Rattle.std.specs.Prelude.{◌≡◌, ◌∷◌, [], ◌||◌, IfOk, MatchOption, None, Ok, Some, bytes_eq, is_some, map, option_map};
ghost use Rattle.std.specs.List.{filter_map, list_any};
ghost use Rattle.std.specs.Str.{IsUtf8};
ghost use Rattle.meson_syntax.specs.Grammar.{argument_words, expression_words};
ghost use Rattle.meson_syntax.specs.View.{arg_view, args_view, expr_view};
ghost use Rattle.meson_calls.specs.Calls.{is, literal_of};
ghost use Rattle.meson_calls.specs.GoodLists.{GoodArgs};
ghost use Rattle.meson_calls.specs.Keys.{name_of};
ghost use Rattle.meson_keywords.specs.KeywordEdits.{all_of_kind, an_array, element_text, no_array, passing, says, value_shape, text_in, the_value};
ghost use Rattle.meson_keywords.specs.Options.{entries, is_entry, keys_known};
ghost use Rattle.meson_calls.specs.ChosenNotes.{Source};
ghost use Rattle.meson_calls.specs.Refusals.{RefusedAs};
ghost use Rattle.meson_steps.specs.Names.{distinct_by};
ghost use Rattle.meson_calls.specs.Strings.{AreGood};
ghost use Rattle.meson_keywords.specs.inside.Tasking.{args_of, found_argument, test_of};

use crate::tasks::before_equals;
use crate::value_kinds::ElementKind;
use meson_calls::arguments::{count_named, first_named};
use meson_calls::literals::literal;
use meson_calls::roles::{text_of, text_of_name};
use meson_calls::{CallRef, Refusal};
use meson_splice::Text;
use meson_steps::names::is_among;
use meson_syntax::{Arg, Expr};
use std::alloc::{AllocError, Global};

/// The call whose arguments are changed: its place, and its arguments in its source.
#[derive(Clone, Copy)]
pub(crate) struct Subject<'t> {
    pub call: &'t CallRef,
    pub source: &'t [u8],
    pub args: &'t [Arg],
}

/// The value of an argument, with the argument's number.
#[derive(Clone, Copy)]
pub(crate) struct NumberedValue<'t> {
    pub number: usize,
    pub value: &'t Expr,
}

/// The value of the argument of a name, if there is one.
///
/// # Errors
/// There is more than one, or out of memory.
pub(crate) fn the_value<'t>(
    alloc: Global,
    subject: Subject<'t>,
    key: &[u8],
) -> Result<Option<NumberedValue<'t>>, Refusal>
    requires good { GoodArgs subject.source.now subject.args.now }
    requires utf8 { IsUtf8 key.now }
    ensures good { IfOk result (λ o. MatchOption o (Unit {0}) (λ f. AreGood (expression_words (expr_view subject.entry.source.now f.value.now)))) }
    ensures found { IfOk result (λ o. the_value key.now (args_of subject.entry) ≡ Ok (option_map (found_argument subject.entry.source.now) o)) }
    ensures refused { RefusedAs result (the_value key.now (args_of subject.entry)) }
{
    let args = subject.args;
    if count_named(subject.source, args, key) > 1 {
        let key = text_of_name(alloc, key)?;
        return Err(Refusal::DuplicateKeyword(key));
    }
    match first_named(subject.source, args, key) {
        Some(number) => {
            if number >= args.len() {
                unreachable!();
            }
            match &args[number] {
                Arg::Named { value, .. } => Ok(Some(NumberedValue { number, value })),
                Arg::Plain(_) => unreachable!(),
                Arg::Pair { .. } => unreachable!(),
            }
        }
        None => Ok(None),
    }
}

/// The elements of a value that is an array.
pub(crate) fn array_in(value: &Expr) -> Option<&[Arg]>
    ensures shape { (source : Source) → MatchOption result (value_shape (expr_view source value.now) ≡ no_array)
        (λ args. value_shape (expr_view source value.now) ≡ an_array (args_view source args.now)) }
    ensures good { (source : Source) → AreGood (expression_words (expr_view source value.now))
        → MatchOption result (Unit {0}) (λ args. GoodArgs source args.now) }
{
    match value {
        Expr::Array(list) => Some(list.items.get()),
        _ => None,
    }
}

/// The entries of a value that is a dictionary.
pub(crate) fn entries_in(value: &Expr) -> Option<&[Arg]>
    ensures entries { (source : Source) → MatchOption result (entries (expr_view source value.now) ≡ None)
        (λ args. entries (expr_view source value.now) ≡ Some (args_view source args.now)) }
    ensures good { (source : Source) → AreGood (expression_words (expr_view source value.now))
        → MatchOption result (Unit {0}) (λ args. GoodArgs source args.now) }
{
    match value {
        Expr::Dictionary(list) => Some(list.items.get()),
        _ => None,
    }
}

/// The name of a variable.
fn name_of<'t>(source: &'t [u8], value: &Expr) -> Option<&'t [u8]>
    ensures { MatchOption result (name_of (expr_view source.entry.now value.now) ≡ None)
        (λ name. name_of (expr_view source.entry.now value.now) ≡ Some name.now) }
{
    match value {
        Expr::Identifier(span) => Some(text_of(source, *span)),
        _ => None,
    }
}

/// Whether a value is an element of the kind.
pub(crate) fn is_element(
    alloc: Global,
    source: &[u8],
    kind: ElementKind,
    value: &Expr,
) -> Result<bool, AllocError>
    requires { AreGood (expression_words (expr_view source.now value.now)) }
    ensures { IfOk result (λ b. b ≡ is_some (text_in kind (expr_view source.now value.now))) }
{
    match kind {
        ElementKind::Text => {
            let text = literal(alloc, source, value)?;
            Ok(text.is_some())
        }
        ElementKind::Identifier => Ok(name_of(source, value).is_some()),
    }
}

/// Whether a value is an element of the kind with this text.
pub(crate) fn says(
    alloc: Global,
    source: &[u8],
    kind: ElementKind,
    text: &Text,
    value: &Expr,
) -> Result<bool, AllocError>
    requires { AreGood (expression_words (expr_view source.now value.now)) }
    ensures { IfOk result (λ b. b ≡ is text.now (text_in kind (expr_view source.now value.now))) }
{
    let wanted = text.get();
    match kind {
        ElementKind::Text => match literal(alloc, source, value)? {
            Some(found) => Ok(wanted == found.as_str()),
            None => Ok(false),
        },
        ElementKind::Identifier => match name_of(source, value) {
            Some(found) => Ok(wanted.as_bytes() == found),
            None => Ok(false),
        },
    }
}

/// Whether a value is an entry of the option.
pub(crate) fn is_entry(
    alloc: Global,
    source: &[u8],
    name: &Text,
    value: &Expr,
) -> Result<bool, AllocError>
    requires { AreGood (expression_words (expr_view source.now value.now)) }
    ensures { IfOk result (λ b. b ≡ is_entry name.now (literal_of (expr_view source.now value.now))) }
{
    match literal(alloc, source, value)? {
        Some(found) => match before_equals(found.as_str().as_bytes()) {
            Some(front) => Ok(name.get().as_bytes() == front),
            None => Ok(false),
        },
        None => Ok(false),
    }
}

/// A test of each element of a list.
#[derive(Clone, Copy)]
pub(crate) enum Test<'c> {
    /// An element of the kind with this text.
    Says(ElementKind, &'c Text),
    /// An entry of the option.
    IsEntry(&'c Text),
    /// An entry of a dictionary with this key.
    HasKey(&'c Text),
}

/// Whether an element passes.
fn passes(alloc: Global, source: &[u8], test: Test<'_>, element: &Arg) -> Result<bool, AllocError>
    requires { AreGood (argument_words (arg_view source.now element.now)) }
    ensures { IfOk result (λ b. b ≡ test_of test.entry (arg_view source.now element.now)) }
{
    match element {
        Arg::Plain(value) => match test {
            Test::Says(kind, text) => says(alloc, source, kind, text, value),
            Test::IsEntry(name) => is_entry(alloc, source, name, value),
            Test::HasKey(_) => Ok(false),
        },
        Arg::Named { .. } => Ok(false),
        Arg::Pair { key, .. } => match test {
            Test::Says(_, _) => Ok(false),
            Test::IsEntry(_) => Ok(false),
            Test::HasKey(name) => says(alloc, source, ElementKind::Text, name, key.get()),
        },
    }
}

/// The numbers of the elements that pass.
pub(crate) fn passing(
    alloc: Global,
    source: &[u8],
    test: Test<'_>,
    elements: &[Arg],
) -> Result<Vec<usize>, AllocError>
    requires { GoodArgs source.now elements.now }
    ensures { IfOk result (λ v. v.items ≡ passing (test_of test.entry) 0 (args_view source.now elements.now)) }
{
    let mut all = Vec::new(alloc);
    for i in 0..elements.len() {
        if passes(alloc, source, test, &elements[i])? {
            all.push(i)?;
        }
    }
    Ok(all)
}

/// Whether all elements are of the kind.
pub(crate) fn all_known(
    alloc: Global,
    source: &[u8],
    kind: ElementKind,
    elements: &[Arg],
) -> Result<bool, AllocError>
    requires { GoodArgs source.now elements.now }
    ensures { IfOk result (λ b. b ≡ all_of_kind kind (args_view source.now elements.now)) }
{
    for i in 0..elements.len() {
        match &elements[i] {
            Arg::Plain(value) => {
                if !is_element(alloc, source, kind, value)? {
                    return Ok(false);
                }
            }
            Arg::Named { .. } => return Ok(false),
            Arg::Pair { .. } => return Ok(false),
        }
    }
    Ok(true)
}

/// Whether all elements are entries of a dictionary whose keys are literals.
pub(crate) fn keys_known(alloc: Global, source: &[u8], elements: &[Arg]) -> Result<bool, AllocError>
    requires { GoodArgs source.now elements.now }
    ensures { IfOk result (λ b. b ≡ keys_known (args_view source.now elements.now)) }
{
    for i in 0..elements.len() {
        match &elements[i] {
            Arg::Pair { key, .. } => {
                if !is_element(alloc, source, ElementKind::Text, key.get())? {
                    return Ok(false);
                }
            }
            Arg::Plain(_) => return Ok(false),
            Arg::Named { .. } => return Ok(false),
        }
    }
    Ok(true)
}

/// Whether some element of the kind has this text.
fn is_there(
    alloc: Global,
    source: &[u8],
    kind: ElementKind,
    text: &Text,
    elements: &[Arg],
) -> Result<bool, AllocError>
    requires { GoodArgs source.now elements.now }
    ensures { IfOk result (λ b. b ≡ list_any (says kind text.now) (args_view source.now elements.now)) }
{
    for i in 0..elements.len() {
        if passes(alloc, source, Test::Says(kind, text), &elements[i])? {
            return Ok(true);
        }
    }
    Ok(false)
}

/// Whether a value is known, or one of those that are new.
fn is_seen(known: bool, new: &[&Text], value: &Text) -> bool
    ensures { result ≡ list_any (λ x. bytes_eq x value.now) (map (λ x. x.now) new.now) || known }
{
    is_among(new, value) || known
}

/// The values that no element has, each once.
pub(crate) fn new_values<'c>(
    alloc: Global,
    source: &[u8],
    kind: ElementKind,
    elements: &[Arg],
    values: &[&'c Text],
) -> Result<Vec<&'c Text>, AllocError>
    requires { GoodArgs source.now elements.now }
    ensures { let there = filter_map (element_text kind) (args_view source.now elements.now) in
        IfOk result (λ v. map (λ x. x.now) v.items ≡ distinct_by there (map (λ x. x.now) values.now)) }
{
    let mut all = Vec::new(alloc);
    for i in 0..values.len() {
        let value = values[i];
        let known = is_there(alloc, source, kind, value, elements)?;
        if !is_seen(known, all.as_slice(), value) {
            all.push(value)?;
        }
    }
    Ok(all)
}

/// The values that a lone element of the kind does not have, each once.
pub(crate) fn other_values<'c>(
    alloc: Global,
    source: &[u8],
    kind: ElementKind,
    element: &Expr,
    values: &[&'c Text],
) -> Result<Vec<&'c Text>, AllocError>
    requires { AreGood (expression_words (expr_view source.now element.now)) }
    ensures { (text : Source) → text_in kind (expr_view source.now element.now) ≡ Some text
        → IfOk result (λ v. map (λ x. x.now) v.items ≡ distinct_by (text ∷ []) (map (λ x. x.now) values.now)) }
{
    let mut all = Vec::new(alloc);
    for i in 0..values.len() {
        let value = values[i];
        let known = says(alloc, source, kind, value, element)?;
        if !is_seen(known, all.as_slice(), value) {
            all.push(value)?;
        }
    }
    Ok(all)
}
