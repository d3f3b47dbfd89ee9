//! The lists of a value: an array, a call of `files`, or those of the operands of a sum.

ghost use Rattle.std.specs.Prelude.{◌≡◌, ◌++◌, [], ◌-◌, IfOk, OnOk, length, option_copied, slice_get};
ghost use Rattle.std.specs.List.{list_all};
ghost use Rattle.meson_syntax.specs.Grammar.{expression_words};
ghost use Rattle.meson_syntax.specs.Tree.{operands_of};
ghost use Rattle.meson_syntax.specs.View.{arg_view, args_view, expr_view, operands_view};
ghost use Rattle.meson_calls.specs.ChosenNotes.{Source};
ghost use Rattle.meson_calls.specs.GoodLists.{GoodRow};
ghost use Rattle.meson_calls.specs.Project.{child};
ghost use Rattle.meson_calls.specs.Strings.{AreGood};
ghost use Rattle.meson_places.specs.Slots.{has_no_name};
ghost use Rattle.meson_places.specs.ValueLists.{and_more, are_plus, is_list, is_plus, lists_of, operand_lists, own_list};
ghost use Rattle.meson_places.specs.inside.Found.{AreGoodLists, found_lists};

use crate::slots::elements_in;
use meson_calls::CallRef;
use meson_calls::place::{child_place, copy_place};
use meson_calls::roles::text_of;
use meson_syntax::{Arg, Expr, Operand, Operator};
use std::alloc::{AllocError, Global};

/// A list that is there: the place of its array or call, and its elements.
#[derive(Drop)]
pub struct FoundList<'t> {
    pub place: CallRef,
    pub elements: &'t [Arg],
}

/// The last of some lists.
pub(crate) fn last_list<'l, 't>(lists: &'l [FoundList<'t>]) -> Option<&'l FoundList<'t>>
    ensures { option_copied result ≡ slice_get lists.now (length lists.now - 1) }
{
    lists.last()
}

/// Whether an element has no name and no key.
fn has_no_name(element: &Arg) -> bool
    ensures { (source : Source) → result ≡ has_no_name (arg_view source element.now) }
{
    match element {
        Arg::Plain(_) => true,
        Arg::Named { .. } => false,
        Arg::Pair { .. } => false,
    }
}

/// Whether no element has a name or a key.
fn are_plain(elements: &[Arg]) -> bool
    ensures { (source : Source) → result ≡ list_all has_no_name (args_view source elements.now) }
{
    for i in 0..elements.len() {
        if !has_no_name(&elements[i]) {
            return false;
        }
    }
    true
}

/// Whether an expression is an array, or a call of `files` without a named argument.
fn is_list(source: &[u8], value: &Expr) -> bool
    ensures { result ≡ is_list (expr_view source.now value.now) }
{
    match value {
        Expr::Array(_) => true,
        Expr::Call { name, .. } => {
            text_of(source, *name) == b"files".as_slice() && are_plain(elements_in(value))
        }
        _ => false,
    }
}

/// Adds the list that an expression is itself, if it is one.
fn push_list<'t>(
    source: &[u8],
    place: CallRef,
    value: &'t Expr,
    lists: &mut Vec<FoundList<'t>>,
) -> Result<(), AllocError>
    requires { AreGood (expression_words (expr_view source.now value.now)) }
    ensures lists { OnOk result (found_lists source.now lists.new.items
        ≡ found_lists source.now lists.old.items ++ and_more (own_list place (expr_view source.now value.entry.now)) []) }
    ensures good { AreGoodLists source.now lists.old.items → OnOk result (AreGoodLists source.now lists.new.items) }
{
    if !is_list(source, value) {
        return Ok(());
    }
    let elements = elements_in(value);
    lists.push(FoundList { place, elements })?;
    Ok(())
}

/// Whether the operator before an operand is `+`.
fn is_plus(operand: &Operand) -> bool
    ensures { result ≡ is_plus operand.now.operator }
{
    matches!(operand.operator, Operator::Plus)
}

/// Whether all operators of a row are `+`.
pub(crate) fn are_plus(rest: &[Operand]) -> bool
    ensures { (source : Source) → result ≡ are_plus (operands_of (operands_view source rest.now)) }
{
    for i in 0..rest.len() {
        if !is_plus(&rest[i]) {
            return false;
        }
    }
    true
}

/// The lists of the operands of a row at a place.
fn sum_lists<'t>(
    alloc: Global,
    source: &[u8],
    place: &CallRef,
    first: &'t Expr,
    rest: &'t [Operand],
) -> Result<Vec<FoundList<'t>>, AllocError>
    requires { GoodRow source.now first.now rest.now }
    ensures lists { let more = operands_of (operands_view source.now rest.entry.now) in let own = own_list (child place.now 0) (expr_view source.now first.entry.now) in
        IfOk result (λ v. found_lists source.now v.items ≡ and_more own (operand_lists place.now 1 more)) }
    ensures good { IfOk result (λ v. AreGoodLists source.now v.items) }
{
    let mut lists = Vec::new(alloc);
    let here = child_place(alloc, place.as_place(), 0)?;
    push_list(source, here, first, &mut lists)?;
    for i in 0..rest.len() {
        let here = child_place(alloc, place.as_place(), i + 1)?;
        push_list(source, here, &rest[i].value, &mut lists)?;
    }
    Ok(lists)
}

/// The list that the expression at a place is itself, if it is one.
fn lone_list<'t>(
    alloc: Global,
    source: &[u8],
    place: &CallRef,
    value: &'t Expr,
) -> Result<Vec<FoundList<'t>>, AllocError>
    requires { AreGood (expression_words (expr_view source.now value.now)) }
    ensures lists { let own = own_list place.now (expr_view source.now value.entry.now) in
        IfOk result (λ v. found_lists source.now v.items ≡ and_more own []) }
    ensures good { IfOk result (λ v. AreGoodLists source.now v.items) }
{
    let mut lists = Vec::new(alloc);
    let here = copy_place(alloc, place)?;
    push_list(source, here, value, &mut lists)?;
    Ok(lists)
}

/// The lists of the expression at a place, from left to right.
///
/// # Errors
/// Out of memory.
pub fn lists_of<'t>(
    alloc: Global,
    source: &[u8],
    place: &CallRef,
    value: &'t Expr,
) -> Result<Vec<FoundList<'t>>, AllocError>
    requires { AreGood (expression_words (expr_view source.now value.now)) }
    ensures lists { IfOk result (λ v. found_lists source.now v.items ≡ lists_of place.now (expr_view source.now value.entry.now)) }
    ensures good { IfOk result (λ v. AreGoodLists source.now v.items) }
{
    match value {
        Expr::Row { first, rest, .. } => {
            let rest = rest.get();
            if are_plus(rest) {
                sum_lists(alloc, source, place, first.get(), rest)
            } else {
                Ok(Vec::new(alloc))
            }
        }
        _ => lone_list(alloc, source, place, value),
    }
}
