//! Assigned values that become arrays: of several values, or of the value and further ones.

ghost use Rattle.std.specs.Prelude.{◌≡◌, ◌≢◌, Err, IfOk, IfSome, List, MatchResult, map, option_map};
ghost use Rattle.meson_edit.specs.Edits.{Written};
ghost use Rattle.meson_syntax.specs.Tree.{Expression, Nowhere};
ghost use Rattle.meson_calls.specs.declared.refusal.Refusal.TheVariants.{OutOfMemory};
ghost use Rattle.meson_calls.specs.Loading.{AreParsed, project};
ghost use Rattle.meson_steps.specs.Code.{IsValue};
ghost use Rattle.meson_steps.specs.Meanings.{AreMeant};
ghost use Rattle.meson_places.specs.AssignedArrays.{added_steps, array_assigned, array_beside, assigned_lone, assigned_text, is_line, is_text_at, lone_at, set_all_steps};
ghost use Rattle.meson_places.specs.Names.{loaded_in};
ghost use Rattle.meson_places.specs.Several.{AllMayBeGiven};
ghost use Rattle.meson_places.specs.Values.{given_bytes};
ghost use Rattle.meson_places.specs.inside.Assigned.{IsLoneAt, lone_view};
ghost use Rattle.meson_places.specs.inside.Found.{IsArrayValue};

use crate::assigned::{has_room_at, is_assigned, statement_of};
use crate::changes::{is_literal, push_edit};
use crate::known::{Known, fresh};
use crate::lone_values::{beside_bytes, lone_token};
use crate::name::Sources;
use crate::new_elements::add_steps;
use crate::several::{array_bytes, set_all};
use crate::slots::Slot;
use crate::variables::find_value;
use meson_calls::{CallRef, Refusal};
use meson_splice::{Bytes, Text};
use meson_steps::given::Given;
use meson_steps::step::{ListEdit, ListStep};
use meson_syntax::Expr;
use std::alloc::{AllocError, Global};

/// Whether a text is on one line.
fn is_line(text: &[u8]) -> bool
    ensures { result ≡ is_line text.now }
{
    !text.contains(&b'\n')
}

/// The steps after which an assignment assigns an array, by its text.
///
/// # Errors
/// The text is on several lines; the file would nest too deep; or out of memory.
fn assign_array(
    alloc: Global,
    place: &CallRef,
    key: &Text,
    array: Bytes,
) -> Result<Vec<ListStep>, Refusal>
    ensures made { (w : Written (Expression Nowhere)) → w.bytes ≡ array → (x : IsValue w.bytes) → x.node ≡ w.node
        → let meant = array_assigned key.now place.now w in
        MatchResult result (λ steps. AreMeant meant steps.items) (λ e. e ≢ OutOfMemory → meant ≡ Err e) }
{
    let text = array.get();
    if !is_line(text) {
        return Err(Refusal::NotLiteral(key.clone()?));
    }
    if !has_room_at(alloc, place, text)? {
        return Err(Refusal::TooDeep);
    }
    let statement = statement_of(alloc, place)?;
    let mut steps = Vec::new(alloc);
    push_edit(alloc, &statement, ListEdit::Assign(array), &mut steps)?;
    Ok(steps)
}

/// Whether the expression at a place is a literal that an assignment assigns.
fn is_text_at(alloc: Global, sources: Sources<'_>, place: &CallRef) -> Result<bool, AllocError>
    requires { AreParsed sources.files.now sources.trees.now }
    ensures { IfOk result (λ b. b ≡ is_text_at (project (loaded_in sources.entry)) place.now) }
{
    let Some(found) = find_value(sources, place) else {
        return Ok(false);
    };
    if !is_assigned(alloc, sources, place)? {
        return Ok(false);
    }
    is_literal(alloc, found.source, found.value)
}

/// The place of the value of a slot, if it is a literal that an assignment assigns.
fn assigned_text<'s>(
    alloc: Global,
    sources: Sources<'_>,
    slot: &'s Slot,
) -> Result<Option<&'s CallRef>, AllocError>
    requires { AreParsed sources.files.now sources.trees.now }
    ensures { IfOk result (λ o. option_map (λ c. c.now) o ≡ assigned_text (project (loaded_in sources.entry)) slot.entry.now) }
{
    match slot {
        Slot::Whole(place) => {
            if is_text_at(alloc, sources, place)? {
                Ok(Some(place))
            } else {
                Ok(None)
            }
        }
        Slot::Element { .. } => Ok(None),
        Slot::Absent { .. } => Ok(None),
    }
}

/// The steps that set the value of a slot to several ones. A literal that an assignment assigns becomes the array of them.
///
/// # Errors
/// The array is on several lines, the file would nest too deep, or the faults of `set_all`.
pub(crate) fn set_all_steps(
    alloc: Global,
    sources: Sources<'_>,
    values: &[Given],
    key: &Text,
    slot: &Slot,
) -> Result<Vec<ListStep>, Refusal>
    requires { AreParsed sources.files.now sources.trees.now }
    ensures made { (may : AllMayBeGiven values.now) → let meant = set_all_steps (loaded_in sources.entry) values.now may key.now slot.now in
        MatchResult result (λ steps. AreMeant meant steps.items) (λ e. e ≢ OutOfMemory → meant ≡ Err e) }
{
    match assigned_text(alloc, sources, slot)? {
        Some(place) => {
            let array = array_bytes(alloc, values)?;
            assign_array(alloc, place, key, array)
        }
        None => set_all(alloc, sources, values, key, slot),
    }
}

/// A literal or an identifier that an assignment assigns: its place, its source, and its text.
#[derive(Clone, Copy)]
struct Lone<'t> {
    place: &'t CallRef,
    source: &'t [u8],
    value: &'t Expr,
    token: &'t [u8],
}

/// The expression at a place, if it is a literal or an identifier that an assignment assigns.
fn lone_at<'t>(
    alloc: Global,
    sources: Sources<'t>,
    place: &'t CallRef,
) -> Result<Option<Lone<'t>>, AllocError>
    requires { AreParsed sources.files.now sources.trees.now }
    ensures lone { IfOk result (λ o. option_map lone_view o ≡ lone_at (project (loaded_in sources.entry)) place.entry.now) }
    ensures found { IfOk result (λ o. IfSome o (IsLoneAt sources.entry.files.now)) }
{
    let Some(found) = find_value(sources, place) else {
        return Ok(None);
    };
    if !is_assigned(alloc, sources, place)? {
        return Ok(None);
    }
    let source = found.source;
    let value = found.value;
    match lone_token(alloc, source, value)? {
        Some(token) => Ok(Some(Lone {
            place,
            source,
            value,
            token,
        })),
        None => Ok(None),
    }
}

/// The value of a slot, if it is a literal or an identifier that an assignment assigns.
fn assigned_lone<'t>(
    alloc: Global,
    sources: Sources<'t>,
    slot: &'t Slot,
) -> Result<Option<Lone<'t>>, AllocError>
    requires { AreParsed sources.files.now sources.trees.now }
    ensures lone { IfOk result (λ o. option_map lone_view o ≡ assigned_lone (project (loaded_in sources.entry)) slot.entry.now) }
    ensures found { IfOk result (λ o. IfSome o (IsLoneAt sources.entry.files.now)) }
{
    match slot {
        Slot::Whole(place) => lone_at(alloc, sources, place),
        Slot::Element { .. } => Ok(None),
        Slot::Absent { .. } => Ok(None),
    }
}

/// The steps after which an assignment assigns the array of a value, by its text, and others, if there are any.
///
/// # Errors
/// The faults of `assign_array`.
fn assign_beside(
    alloc: Global,
    lone: Lone<'_>,
    key: &Text,
    new: &[&Given],
) -> Result<Vec<ListStep>, Refusal>
    ensures made { (old : Written (Expression Nowhere)) (ws : List (Written (Expression Nowhere))) → old.bytes ≡ lone.entry.token.now
        → map (λ w. w.bytes) ws ≡ map given_bytes (map (λ x. x.now) new.now) → IsArrayValue old ws
        → let meant = array_beside key.now lone.entry.place.now old ws in
        MatchResult result (λ steps. AreMeant meant steps.items) (λ e. e ≢ OutOfMemory → meant ≡ Err e) }
{
    if new.is_empty() {
        return Ok(Vec::new(alloc));
    }
    let array = beside_bytes(alloc, lone.token, new)?;
    assign_array(alloc, lone.place, key, array)
}

/// The steps that add values to the value of a slot. A literal or an identifier that an assignment assigns becomes the array of it and of those that it does
/// not say.
///
/// # Errors
/// The slot is absent and its key is no name; the value has no list, and is no literal and no identifier; the array is on several lines; the file would nest too
/// deep; or out of memory.
pub fn added_steps(
    alloc: Global,
    sources: Sources<'_>,
    values: &[Given],
    key: &Text,
    slot: &Slot,
) -> Result<Vec<ListStep>, Refusal>
    requires { AreParsed sources.files.now sources.trees.now }
    ensures made { (may : AllMayBeGiven values.now) → let meant = added_steps (loaded_in sources.entry) values.now may key.now slot.now in
        MatchResult result (λ steps. AreMeant meant steps.items) (λ e. e ≢ OutOfMemory → meant ≡ Err e) }
{
    match assigned_lone(alloc, sources, slot)? {
        Some(lone) => {
            let new = fresh(alloc, lone.source, Known::Value(lone.value), values)?;
            assign_beside(alloc, lone, key, new.as_slice())
        }
        None => add_steps(alloc, sources, values, key, slot),
    }
}
