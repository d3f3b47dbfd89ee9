//! Slots: where the value of an argument, an entry or an element is, or where it would be added.

ghost use Rattle.std.specs.Prelude.{◌≡◌, ◌+◌, ◌≤◌, ◌<◌, ◌^◌, IfOk, MatchOption, Ok, option_map};
ghost use Rattle.meson_syntax.specs.Grammar.{argument_words, expression_words};
ghost use Rattle.meson_syntax.specs.View.{arg_view, args_view, expr_view};
ghost use Rattle.meson_calls.specs.GoodLists.{GoodArgs};
ghost use Rattle.meson_calls.specs.ChosenNotes.{Source};
ghost use Rattle.meson_calls.specs.Loading.{AreParsed, project};
ghost use Rattle.meson_calls.specs.Parts.{argument_child_count};
ghost use Rattle.meson_calls.specs.Strings.{AreGood};
ghost use Rattle.meson_calls.specs.Refusals.{RefusedAs};
ghost use Rattle.meson_places.specs.Names.{loaded_in};
ghost use Rattle.meson_places.specs.Slots.{absent_slot, child_of, elements_in, nth_child, number_in, slot_in, the_slot};
ghost use Rattle.meson_places.specs.inside.Wanted.{child_view};

use crate::elements::{list_kind, number_by};
use crate::name::Sources;
use meson_calls::place::{child_place, copy_place};
use meson_calls::{CallRef, Refusal};
use meson_splice::Text;
use meson_syntax::{Arg, Expr};
use std::alloc::{AllocError, Global};

/// Where a value is, or where it would be added.
#[derive(Debug, Drop)]
pub enum Slot {
    /// It is the value of the element of this number, counted from 0, of the list of the call, dictionary or array at a place. Of an entry it is the part after
    /// the colon.
    Element { list: CallRef, number: usize },
    /// The call or dictionary at a place has no such key. It would be added after the last element.
    Absent { list: CallRef, key: Text },
    /// It is the expression at a place.
    Whole(CallRef),
}

/// An expression, its number among the children of the one that it is in.
#[derive(Clone, Copy)]
pub(crate) struct ChildValue<'t> {
    pub number: usize,
    pub value: &'t Expr,
}

/// An expression that keys have led to: its place, and the slot whose value it is.
#[derive(Drop)]
struct Reached<'t> {
    place: CallRef,
    value: &'t Expr,
    slot: Slot,
}

/// The elements of a call, a dictionary or an array.
pub(crate) fn elements_in(value: &Expr) -> &[Arg]
    ensures elements { (source : Source) → args_view source result.now ≡ elements_in (expr_view source value.entry.now) }
    ensures good { (source : Source) → AreGood (expression_words (expr_view source value.entry.now)) → GoodArgs source result.now }
{
    match value {
        Expr::Call { arguments, .. } => arguments.items.get(),
        Expr::Array(list) => list.items.get(),
        Expr::Dictionary(list) => list.items.get(),
        _ => &[],
    }
}

/// The number of children of an element.
fn child_count(element: &Arg) -> usize
    ensures count { (source : Source) → result ≡ argument_child_count (arg_view source element.now) }
    ensures few { result ≤ 2 }
{
    match element {
        Arg::Plain(_) => 1,
        Arg::Named { .. } => 1,
        Arg::Pair { .. } => 2,
    }
}

/// The value of an element, with this number of children before the element's own.
fn child_of(before: usize, element: &Arg) -> ChildValue<'_>
    requires { before + 1 < 2 ^ 64 }
    ensures child { (source : Source) → child_view source result ≡ child_of before (arg_view source element.entry.now) }
    ensures good { (source : Source) → AreGood (argument_words (arg_view source element.entry.now))
        → AreGood (expression_words (expr_view source result.value.now)) }
{
    match element {
        Arg::Plain(value) => ChildValue {
            number: before,
            value,
        },
        Arg::Named { value, .. } => ChildValue {
            number: before,
            value,
        },
        Arg::Pair { value, .. } => ChildValue {
            number: before + 1,
            value: value.get(),
        },
    }
}

/// The value of the n-th element.
pub(crate) fn nth_child(elements: &[Arg], n: usize) -> Option<ChildValue<'_>>
    ensures child { (source : Source) → option_map (child_view source) result ≡ nth_child 0 (args_view source elements.entry.now) n }
    ensures good { (source : Source) → GoodArgs source elements.entry.now
        → MatchOption result (Unit {0}) (λ c. AreGood (expression_words (expr_view source c.value.now))) }
{
    let mut before = 0;
    for i in 0..elements.len() {
        let element = &elements[i];
        if i == n {
            return Some(child_of(before, element));
        }
        before += child_count(element);
    }
    None
}

/// The number of the element that a key names in an expression, or nothing if it may be added there.
///
/// # Errors
/// The expression has no elements, or the faults of `number_by`.
fn number_in(
    alloc: Global,
    source: &[u8],
    key: &Text,
    value: &Expr,
) -> Result<Option<usize>, Refusal>
    requires { AreGood (expression_words (expr_view source.now value.now)) }
    ensures found { IfOk result (λ n. number_in key.now (expr_view source.now value.now) ≡ Ok n) }
    ensures refused { RefusedAs result (number_in key.now (expr_view source.now value.now)) }
{
    number_by(alloc, source, list_kind(value), key, elements_in(value))
}

/// The slot of a key that is not there: it has to be the last one.
///
/// # Errors
/// More keys come after it, or out of memory.
fn absent_slot(list: CallRef, key: &Text, more: &[Text]) -> Result<Slot, Refusal>
    ensures found { IfOk result (λ slot. absent_slot list key.now more.now ≡ Ok slot) }
    ensures refused { RefusedAs result (absent_slot list key.now more.now) }
{
    let key = key.clone()?;
    if more.is_empty() {
        Ok(Slot::Absent { list, key })
    } else {
        Err(Refusal::NoSuchValue(key))
    }
}

/// The slot that further keys name, one step each.
///
/// # Errors
/// A key names no value that is there, though it is not the last one; or the faults of `number_in`.
fn slot_in(
    alloc: Global,
    source: &[u8],
    reached: Reached<'_>,
    keys: &[Text],
) -> Result<Slot, Refusal>
    requires { AreGood (expression_words (expr_view source.now reached.value.now)) }
    ensures found { let wanted = slot_in reached.entry.place (expr_view source.now reached.entry.value.now) reached.entry.slot keys.now in
        IfOk result (λ slot. wanted ≡ Ok slot) }
    ensures refused { let wanted = slot_in reached.entry.place (expr_view source.now reached.entry.value.now) reached.entry.slot keys.now in
        RefusedAs result wanted }
{
    let Reached { place, value, slot } = reached;
    match keys {
        [] => Ok(slot),
        [key, rest @ ..] => match number_in(alloc, source, key, value)? {
            Some(number) => match nth_child(elements_in(value), number) {
                Some(child) => {
                    let inner = child_place(alloc, place.as_place(), child.number)?;
                    let further = Reached {
                        place: inner,
                        value: child.value,
                        slot: Slot::Element {
                            list: place,
                            number,
                        },
                    };
                    slot_in(alloc, source, further, rest)
                }
                None => Err(Refusal::NoSuchValue(key.clone()?)),
            },
            None => absent_slot(place, key, rest),
        },
    }
}

/// The slot that keys name in the expression at a place, one step each: the number of an argument without a name or of an element, the name of a keyword
/// argument, or the text of an entry's key. No key names the expression itself.
///
/// # Errors
/// No expression is at the place; an expression has no elements; a key is there twice, may be hidden by `kwargs:`, or is not there though more keys come after
/// it; no argument or element has a number; or out of memory.
pub fn find_slot(
    alloc: Global,
    sources: Sources<'_>,
    place: &CallRef,
    keys: &[Text],
) -> Result<Slot, Refusal>
    requires { AreParsed sources.files.now sources.trees.now }
    ensures found { IfOk result (λ slot. the_slot (project (loaded_in sources.entry)) place.now keys.now ≡ Ok slot) }
    ensures refused { RefusedAs result (the_slot (project (loaded_in sources.entry)) place.now keys.now) }
{
    if place.file >= sources.trees.len() {
        return Err(Refusal::NotFound);
    }
    match sources.trees[place.file].expr_at(&place.path) {
        Some(value) => {
            let source = sources.files.bytes(place.file);
            let whole = copy_place(alloc, place)?;
            let reached = Reached {
                place: copy_place(alloc, place)?,
                value,
                slot: Slot::Whole(whole),
            };
            slot_in(alloc, source, reached, keys)
        }
        None => Err(Refusal::NotFound),
    }
}
