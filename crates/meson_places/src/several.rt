//! The steps that set a value to several ones.

ghost use Rattle.std.specs.Prelude.{◌≡◌, ◌++◌, ◌∷◌, [], ◌+◌, ◌-◌, ◌<◌, ◌^◌, IfErr, IfOk, List, OnOk, Some, length, map, not, ◌&&◌};
ghost use Rattle.std.specs.List.{list_all};
ghost use Rattle.meson_edit.specs.Edits.{Written};
ghost use Rattle.meson_syntax.specs.Grammar.{expression_words};
ghost use Rattle.meson_syntax.specs.Tree.{Expression, Nowhere};
ghost use Rattle.meson_syntax.specs.View.{expr_view};
ghost use Rattle.meson_calls.specs.declared.refusal.Refusal.TheVariants.{OutOfMemory};
ghost use Rattle.meson_calls.specs.Loading.{AreParsed};
ghost use Rattle.meson_calls.specs.Project.{child};
ghost use Rattle.meson_calls.specs.Refusals.{RefusedAs};
ghost use Rattle.meson_calls.specs.Strings.{AreGood};
ghost use Rattle.meson_steps.specs.ListSteps.{AreBare, bare};
ghost use Rattle.meson_steps.specs.Meanings.{AreMeant};
ghost use Rattle.meson_steps.specs.ResultLimits.{plain_trees};
ghost use Rattle.meson_places.specs.Names.{loaded_in};
ghost use Rattle.meson_places.specs.Room.{has_room, list_in_trees};
ghost use Rattle.meson_places.specs.Several.{AllMayBeGiven, add_array, all_written, any_code, array_bytes, becomes_array, is_code, is_text_given, put_all, put_at, put_each, set_all, set_all_there, set_array, set_elements};
ghost use Rattle.meson_places.specs.Values.{are_texts, given_bytes};
ghost use Rattle.meson_places.specs.inside.Wanted.{child_view};

use crate::additions::added_to;
use crate::changes::{are_texts, element_child, is_array, is_literal, push_edit, remove_rest};
use crate::name::Sources;
use crate::room::{has_room, has_room_for};
use crate::slots::{ChildValue, Slot, elements_in};
use crate::values::given_bytes;
use meson_calls::place::child_place;
use meson_calls::{CallRef, Refusal};
use meson_splice::{Bytes, Text};
use meson_steps::given::Given;
use meson_steps::step::{ListEdit, ListStep};
use meson_syntax::Expr;
use std::alloc::{AllocError, Global};

/// The text that is written for an array of values.
pub(crate) fn array_bytes(alloc: Global, values: &[Given]) -> Result<Bytes, Refusal>
    ensures done { IfOk result (λ b. b ≡ array_bytes values.now) }
    ensures refused { IfErr result (λ e. e ≡ OutOfMemory) }
{
    let mut out = Vec::new(alloc);
    out.extend_from_slice(b"[")?;
    for i in 0..values.len() {
        if i > 0 {
            out.extend_from_slice(b", ")?;
        }
        let value = given_bytes(alloc, &values[i])?;
        out.extend_from_slice(value.get())?;
    }
    out.extend_from_slice(b"]")?;
    Ok(Bytes::of(out))
}

/// Whether a value is a text.
fn is_text_given(given: &Given) -> bool
    ensures { result ≡ is_text_given given.now }
{
    matches!(given, Given::Text(_))
}

/// Whether a value is code.
fn is_code(given: &Given) -> bool
    ensures { result ≡ is_code given.now }
{
    matches!(given, Given::Code(_))
}

/// Whether one of some values is code.
fn any_code(values: &[Given]) -> bool
    ensures { result ≡ any_code values.now }
{
    for i in 0..values.len() {
        if is_code(&values[i]) {
            return true;
        }
    }
    false
}

/// Whether all values are texts.
fn all_texts_given(values: &[Given]) -> bool
    ensures { result ≡ list_all is_text_given values.now }
{
    values.iter().all(|value| is_text_given(value))
}

/// The edit that puts a value in the place of the i-th element of an array with this number of elements, or after all if it has no such element.
pub(crate) fn put_at(many: usize, i: usize, new: Bytes) -> ListEdit
    ensures { (list : CallRef) (w : Written (Expression Nowhere)) → w.bytes ≡ new → bare (put_at list many i w) ≡ Some (record { list = list; edit = result }) }
{
    if i < many {
        ListEdit::Replace(i, new)
    } else if i == 0 {
        ListEdit::First(new)
    } else {
        ListEdit::After(i - 1, new)
    }
}

/// Adds the steps that put values in the place of the elements of an array, and behind all of them.
pub(crate) fn put_each(
    alloc: Global,
    list: &CallRef,
    many: usize,
    from: usize,
    values: &[Given],
    steps: &mut Vec<ListStep>,
) -> Result<(), Refusal>
    requires { from + length values.now < 2 ^ 64 }
    ensures done { (ws : List (Written (Expression Nowhere))) → map (λ w. w.bytes) ws ≡ map given_bytes values.now
        → OnOk result (map Some steps.new.items ≡ map Some steps.old.items ++ map bare (put_each list.now many from ws)) }
    ensures refused { IfErr result (λ e. e ≡ OutOfMemory) }
{
    for i in 0..values.len() {
        let new = given_bytes(alloc, &values[i])?;
        push_edit(alloc, list, put_at(many, from + i, new), steps)?;
    }
    Ok(())
}

/// How many elements of an array are past a number of values.
fn surplus(many: usize, count: usize) -> usize
    ensures { result ≡ many - count }
{
    many.saturating_sub(count)
}

/// The steps after which the elements of an array with this number of elements are these values.
fn put_all(
    alloc: Global,
    list: &CallRef,
    many: usize,
    values: &[Given],
) -> Result<Vec<ListStep>, Refusal>
    ensures done { (may : AllMayBeGiven values.now) → IfOk result (λ steps. AreBare (put_all list.now many (all_written values.now may)) steps.items) }
    ensures refused { IfErr result (λ e. e ≡ OutOfMemory) }
{
    let mut steps = Vec::new(alloc);
    put_each(alloc, list, many, 0, values, &mut steps)?;
    let count = values.len();
    remove_rest(alloc, list, count, surplus(many, count), &mut steps)?;
    Ok(steps)
}

/// Whether the list at a place has room for each of some values.
pub(crate) fn has_room_for_all(
    alloc: Global,
    sources: Sources<'_>,
    list: &CallRef,
    values: &[Given],
) -> Result<bool, AllocError>
    requires { AreParsed sources.files.now sources.trees.now }
    ensures { (may : AllMayBeGiven values.now) → let trees = plain_trees (loaded_in sources.entry) in
        IfOk result (λ b. b ≡ list_all (λ w. has_room w.node (list_in_trees trees list.now)) (all_written values.now may)) }
{
    for i in 0..values.len() {
        if !has_room(alloc, sources, list, &values[i])? {
            return Ok(false);
        }
    }
    Ok(true)
}

/// A value that is there: the key that a refusal names, the source, and the value as that of an element of the list at a place.
#[derive(Clone, Copy)]
pub(crate) struct Held<'t> {
    pub key: &'t Text,
    pub source: &'t [u8],
    pub list: &'t CallRef,
    pub number: usize,
    pub child: ChildValue<'t>,
}

/// Whether all values are texts, and not all elements of an array are.
fn changes_kind(
    alloc: Global,
    values: &[Given],
    source: &[u8],
    value: &Expr,
) -> Result<bool, AllocError>
    requires { AreGood (expression_words (expr_view source.now value.now)) }
    ensures { IfOk result (λ b. b ≡ (list_all is_text_given values.now && not (are_texts (expr_view source.now value.now)))) }
{
    if !all_texts_given(values) {
        return Ok(false);
    }
    Ok(!are_texts(alloc, source, value)?)
}

/// The steps after which the elements of an array are these values.
///
/// # Errors
/// All values are texts, and an element is of another kind; the file would nest too deep; or out of memory.
fn set_elements(
    alloc: Global,
    sources: Sources<'_>,
    values: &[Given],
    held: Held<'_>,
) -> Result<Vec<ListStep>, Refusal>
    requires parsed { AreParsed sources.files.now sources.trees.now }
    requires good { AreGood (expression_words (expr_view held.source.now held.child.value.now)) }
    ensures meant { (may : AllMayBeGiven values.now) → let h = held.entry in let c = child_view h.source.now h.child in
        IfOk result (λ steps. AreMeant (set_elements (loaded_in sources.entry) values.now may h.key.now (child h.list.now c.number) c.value) steps.items) }
    ensures refused { (may : AllMayBeGiven values.now) → let h = held.entry in let c = child_view h.source.now h.child in
        RefusedAs result (set_elements (loaded_in sources.entry) values.now may h.key.now (child h.list.now c.number) c.value) }
{
    let value = held.child.value;
    if changes_kind(alloc, values, held.source, value)? {
        return Err(Refusal::OtherKind(held.key.clone()?));
    }
    let inner = child_place(alloc, held.list.as_place(), held.child.number)?;
    if !has_room_for_all(alloc, sources, &inner, values)? {
        return Err(Refusal::TooDeep);
    }
    put_all(alloc, &inner, elements_in(value).len(), values)
}

/// Whether a value may become an array of values: a text may, and anything else where one of them is code.
fn becomes_array(
    alloc: Global,
    values: &[Given],
    source: &[u8],
    value: &Expr,
) -> Result<bool, AllocError>
    requires { AreGood (expression_words (expr_view source.now value.now)) }
    ensures { IfOk result (λ b. b ≡ becomes_array values.now (expr_view source.now value.now)) }
{
    if is_literal(alloc, source, value)? {
        return Ok(true);
    }
    Ok(any_code(values))
}

/// The steps that replace a value by an array of values.
///
/// # Errors
/// It is of another kind; the file would nest too deep; or out of memory.
fn set_array(
    alloc: Global,
    sources: Sources<'_>,
    values: &[Given],
    held: Held<'_>,
) -> Result<Vec<ListStep>, Refusal>
    requires parsed { AreParsed sources.files.now sources.trees.now }
    requires good { AreGood (expression_words (expr_view held.source.now held.child.value.now)) }
    ensures meant { (may : AllMayBeGiven values.now) → let h = held.entry in let c = child_view h.source.now h.child in
        IfOk result (λ steps. AreMeant (set_array (loaded_in sources.entry) values.now may h.key.now h.list.now h.number c.value) steps.items) }
    ensures refused { (may : AllMayBeGiven values.now) → let h = held.entry in let c = child_view h.source.now h.child in
        RefusedAs result (set_array (loaded_in sources.entry) values.now may h.key.now h.list.now h.number c.value) }
{
    if !becomes_array(alloc, values, held.source, held.child.value)? {
        return Err(Refusal::OtherKind(held.key.clone()?));
    }
    let new = array_bytes(alloc, values)?;
    if !has_room_for(alloc, sources, held.list, new.get())? {
        return Err(Refusal::TooDeep);
    }
    let mut steps = Vec::new(alloc);
    push_edit(
        alloc,
        held.list,
        ListEdit::Replace(held.number, new),
        &mut steps,
    )?;
    Ok(steps)
}

/// The steps that set a value which is there to several ones.
///
/// # Errors
/// The faults of `set_elements` or of `set_array`.
fn set_all_there(
    alloc: Global,
    sources: Sources<'_>,
    values: &[Given],
    held: Held<'_>,
) -> Result<Vec<ListStep>, Refusal>
    requires parsed { AreParsed sources.files.now sources.trees.now }
    requires good { AreGood (expression_words (expr_view held.source.now held.child.value.now)) }
    ensures meant { (may : AllMayBeGiven values.now) → let h = held.entry in let there = Some (child_view h.source.now h.child) in
        IfOk result (λ steps. AreMeant (set_all_there (loaded_in sources.entry) values.now may h.key.now h.list.now h.number there) steps.items) }
    ensures refused { (may : AllMayBeGiven values.now) → let h = held.entry in let there = Some (child_view h.source.now h.child) in
        RefusedAs result (set_all_there (loaded_in sources.entry) values.now may h.key.now h.list.now h.number there) }
{
    if is_array(held.child.value) {
        set_elements(alloc, sources, values, held)
    } else {
        set_array(alloc, sources, values, held)
    }
}

/// The steps that add an array of values at a key which the call or dictionary at a place does not have.
///
/// # Errors
/// The faults of `added_to`; the file would nest too deep; or out of memory.
pub(crate) fn add_array(
    alloc: Global,
    sources: Sources<'_>,
    values: &[Given],
    key: &Text,
    list: &CallRef,
) -> Result<Vec<ListStep>, Refusal>
    requires { AreParsed sources.files.now sources.trees.now }
    ensures meant { (may : AllMayBeGiven values.now) → let l = loaded_in sources.entry in
        IfOk result (λ steps. AreMeant (add_array l values.now may key.now list.now) steps.items) }
    ensures refused { (may : AllMayBeGiven values.now) → RefusedAs result (add_array (loaded_in sources.entry) values.now may key.now list.now) }
{
    let new = array_bytes(alloc, values)?;
    let steps = added_to(alloc, sources, &new, key, list)?;
    if !has_room_for(alloc, sources, list, new.get())? {
        return Err(Refusal::TooDeep);
    }
    Ok(steps)
}

/// The steps that set the value of a slot to several ones. Of an array the elements become these values; a text, an absent value, and with code any other one
/// becomes the array of them.
///
/// # Errors
/// The value is of another kind; the key of a keyword argument is not an identifier; the slot is an assigned value or a list itself; the file would nest too
/// deep; or out of memory.
pub(crate) fn set_all(
    alloc: Global,
    sources: Sources<'_>,
    values: &[Given],
    key: &Text,
    slot: &Slot,
) -> Result<Vec<ListStep>, Refusal>
    requires { AreParsed sources.files.now sources.trees.now }
    ensures meant { (may : AllMayBeGiven values.now) → let l = loaded_in sources.entry in
        IfOk result (λ steps. AreMeant (set_all l values.now may key.now slot.now) steps.items) }
    ensures refused { (may : AllMayBeGiven values.now) → RefusedAs result (set_all (loaded_in sources.entry) values.now may key.now slot.now) }
{
    match slot {
        Slot::Element { list, number } => match element_child(sources, list, *number) {
            Some(child) => {
                let held = Held {
                    key,
                    source: sources.files.bytes(list.file),
                    list,
                    number: *number,
                    child,
                };
                set_all_there(alloc, sources, values, held)
            }
            None => Err(Refusal::NoSuchValue(key.clone()?)),
        },
        Slot::Absent { list, key } => add_array(alloc, sources, values, key, list),
        Slot::Whole(_) => Err(Refusal::NotLiteral(key.clone()?)),
    }
}
