//! Values that are variables.

ghost use Rattle.std.specs.Prelude.{◌≡◌, ◌&&◌, IfOk, IfSome, MatchOption, Ok, not, option_map};
ghost use Rattle.meson_lex.specs.Kinds.{IsIdentifier};
ghost use Rattle.meson_edit.specs.Edits.{is_empty};
ghost use Rattle.meson_splice.specs.Files.{bytes_at};
ghost use Rattle.meson_calls.specs.Loading.{AreParsed, IsProject, project};
ghost use Rattle.meson_calls.specs.Project.{expression_at, placed};
ghost use Rattle.meson_calls.specs.Refusals.{RefusedAs};
ghost use Rattle.meson_variables.specs.CodeValues.{value_view};
ghost use Rattle.meson_variables.specs.Variables.{single};
ghost use Rattle.meson_places.specs.Behind.{added_slot, behind_slot, behind_value, gains, lists_at, own_slot, said_slot, says_one_at, set_slot, slot_behind, variable_of};
ghost use Rattle.meson_places.specs.Names.{loaded_in};
ghost use Rattle.meson_places.specs.Uses.{is_read_once};
ghost use Rattle.meson_places.specs.inside.Found.{AreGoodLists, found_lists};
ghost use Rattle.meson_places.specs.inside.Behind.{IsFoundAt, behind_view, found_value};

use crate::known::{Known, any_known};
use crate::name::Sources;
use crate::named_values::slot_place;
use crate::slots::Slot;
use crate::uses::is_read_once;
use crate::value_lists::{FoundList, lists_of};
use meson_calls::place::{child_place, copy_place};
use meson_calls::roles::{identifier_text, text_of};
use meson_calls::{BorrowedPlace, CallRef, Refusal};
use meson_splice::Text;
use meson_steps::argument::ValueChange;
use meson_steps::given::Given;
use meson_syntax::Expr;
use meson_variables::values::Value;
use meson_variables::variables::Variables;
use std::alloc::{AllocError, Global};
use std::slice;

/// A value that is there, and the source of its file.
#[derive(Clone, Copy)]
pub struct FoundValue<'t> {
    pub source: &'t [u8],
    pub value: &'t Expr,
}

/// A variable that is the value at a place, and the place of the one value that it is set to.
#[derive(Drop)]
pub(crate) struct Variable<'t> {
    pub name: &'t [u8],
    pub read_at: CallRef,
    pub value_at: CallRef,
}

/// The value at a place. `None` if nothing is there.
pub fn find_value<'p>(sources: Sources<'p>, place: &CallRef) -> Option<FoundValue<'p>>
    requires { AreParsed sources.files.now sources.trees.now }
    ensures found { option_map found_value result ≡ expression_at (project (loaded_in sources.entry)) place.now }
    ensures good { MatchOption result (Unit {0}) (IsFoundAt sources.entry.files.now place.now) }
{
    if place.file >= sources.trees.len() {
        return None;
    }
    let source = sources.files.bytes(place.file);
    match sources.trees[place.file].expr_at(&place.path) {
        Some(value) => Some(FoundValue { source, value }),
        None => None,
    }
}

/// The name of the variable that a value is.
fn variable_of(found: FoundValue<'_>) -> Option<&[u8]>
    ensures { option_map (λ x. x.now) result ≡ variable_of (found_value found.entry) }
{
    match found.value {
        Expr::Identifier(name) => Some(text_of(found.source, *name)),
        _ => None,
    }
}

/// The place of the value of a variable.
fn value_place(alloc: Global, value: Value<'_>) -> Result<CallRef, AllocError>
    ensures { IfOk result (λ place. place ≡ (value_view value.entry).place) }
{
    let path = [value.statement];
    let statement = BorrowedPlace {
        file: value.file,
        path: path.as_slice(),
    };
    child_place(alloc, statement, 0)
}

/// The place of the one value that a variable is set to, which is read at a place.
fn single_place(
    alloc: Global,
    sources: Sources<'_>,
    name: &[u8],
    read_at: &CallRef,
) -> Result<Option<CallRef>, AllocError>
    requires { IsProject (loaded_in sources) }
    ensures { IfOk result (λ place. place ≡ option_map (λ v. v.place) (single (project (loaded_in sources.entry)) name.now)) }
{
    let variables = Variables::near(alloc, sources.files, sources.trees, &[], read_at)?;
    match variables.single(name)? {
        Some(value) => Ok(Some(value_place(alloc, value)?)),
        None => Ok(None),
    }
}

/// The variable that the value at a place is, unless the value says one of some others itself.
pub(crate) fn behind_value<'p>(
    alloc: Global,
    sources: Sources<'p>,
    values: &[Given],
    place: &CallRef,
    found: FoundValue<'p>,
) -> Result<Option<Variable<'p>>, AllocError>
    requires project { IsProject (loaded_in sources) }
    requires found { IsFoundAt sources.files.now place.now found }
    ensures behind { IfOk result (λ o. option_map behind_view o ≡ behind_value sources.entry.files.now (project (loaded_in sources.entry)) values.now (placed place.now (found_value found.entry))) }
    ensures named { IfOk result (λ o. IfSome o (λ v. IsIdentifier v.name.now)) }
{
    if any_known(alloc, found.source, Known::Value(found.value), values)? {
        return Ok(None);
    }
    let Some(name) = variable_of(found) else {
        return Ok(None);
    };
    match single_place(alloc, sources, name, place)? {
        Some(value_at) => {
            let read_at = copy_place(alloc, place)?;
            Ok(Some(Variable {
                name,
                read_at,
                value_at,
            }))
        }
        None => Ok(None),
    }
}

/// The variable that the value of a slot is, unless the value says one of some others itself.
fn behind_slot<'p>(
    alloc: Global,
    sources: Sources<'p>,
    values: &[Given],
    slot: &Slot,
) -> Result<Option<Variable<'p>>, AllocError>
    requires { IsProject (loaded_in sources) }
    ensures behind { IfOk result (λ o. option_map behind_view o ≡ behind_slot sources.entry.files.now (project (loaded_in sources.entry)) values.now slot.now) }
    ensures named { IfOk result (λ o. IfSome o (λ v. IsIdentifier v.name.now)) }
{
    match slot_place(alloc, sources, slot)? {
        Some(place) => match find_value(sources, &place) {
            Some(found) => behind_value(alloc, sources, values, &place, found),
            None => Ok(None),
        },
        None => Ok(None),
    }
}

/// The lists of the value at a place, and what says values there.
pub(crate) fn lists_at<'p>(
    alloc: Global,
    sources: Sources<'p>,
    place: &CallRef,
) -> Result<Vec<FoundList<'p>>, AllocError>
    requires { AreParsed sources.files.now sources.trees.now }
    ensures lists { IfOk result (λ v. found_lists (bytes_at place.now.file sources.entry.files.now) v.items ≡ lists_at (project (loaded_in sources.entry)) place.now) }
    ensures good { IfOk result (λ v. AreGoodLists (bytes_at place.now.file sources.entry.files.now) v.items) }
{
    match find_value(sources, place) {
        Some(found) => lists_of(alloc, found.source, place, found.value),
        None => Ok(Vec::new(alloc)),
    }
}

/// Whether an element of the lists of the value at a place says one of some values.
///
/// # Errors
/// Out of memory.
pub fn says_one_at(
    alloc: Global,
    sources: Sources<'_>,
    values: &[Given],
    place: &CallRef,
) -> Result<bool, AllocError>
    requires { AreParsed sources.files.now sources.trees.now }
    ensures { IfOk result (λ b. b ≡ says_one_at sources.entry.files.now (project (loaded_in sources.entry)) values.now place.now) }
{
    match find_value(sources, place) {
        Some(found) => {
            let lists = lists_of(alloc, found.source, place, found.value)?;
            any_known(alloc, found.source, Known::Lists(lists.as_slice()), values)
        }
        None => Ok(false),
    }
}

/// Whether the value that a variable is set to has a list, and nothing else reads the variable.
pub(crate) fn has_own_lists(
    alloc: Global,
    sources: Sources<'_>,
    variable: &Variable<'_>,
) -> Result<bool, AllocError>
    requires { AreParsed sources.files.now sources.trees.now }
    ensures { IfOk result (λ own. own ≡ gains sources.entry.files.now (project (loaded_in sources.entry)) (behind_view variable.now)) }
{
    let lists = lists_at(alloc, sources, &variable.value_at)?;
    if lists.is_empty() {
        return Ok(false);
    }
    is_read_once(alloc, sources, variable.name, &variable.read_at)
}

/// The slot to whose value values are added: that of the value of a variable that nothing else reads, if it has a list; else the slot itself.
fn added_slot(
    alloc: Global,
    sources: Sources<'_>,
    values: &[Given],
    slot: Slot,
) -> Result<Slot, Refusal>
    requires { IsProject (loaded_in sources) }
    ensures found { let fs = sources.entry.files.now in let p = project (loaded_in sources.entry) in
        IfOk result (λ s. added_slot fs p slot (behind_slot fs p values.now slot) ≡ Ok s) }
    ensures refused { let fs = sources.entry.files.now in let p = project (loaded_in sources.entry) in
        RefusedAs result (added_slot fs p slot (behind_slot fs p values.now slot)) }
{
    match behind_slot(alloc, sources, values, &slot)? {
        Some(variable) => {
            if has_own_lists(alloc, sources, &variable)? {
                Ok(Slot::Whole(variable.value_at))
            } else {
                Ok(slot)
            }
        }
        None => Ok(slot),
    }
}

/// The slot of the value of a variable, if nothing else reads it.
///
/// # Errors
/// Something does, or out of memory.
fn own_slot(alloc: Global, sources: Sources<'_>, variable: Variable<'_>) -> Result<Slot, Refusal>
    requires parsed { AreParsed sources.files.now sources.trees.now }
    requires named { IsIdentifier variable.name.now }
    ensures found { let b = behind_view variable.entry in IfOk result (λ s. own_slot sources.entry.files.now (project (loaded_in sources.entry)) b ≡ Ok s) }
    ensures refused { let b = behind_view variable.entry in RefusedAs result (own_slot sources.entry.files.now (project (loaded_in sources.entry)) b) }
{
    if is_read_once(alloc, sources, variable.name, &variable.read_at)? {
        return Ok(Slot::Whole(variable.value_at));
    }
    let name = String::from_str(alloc, identifier_text(variable.name))?;
    Err(Refusal::Shared(Text::of(name)))
}

/// The slot in whose value elements are removed or replaced: that of the value of a variable, if an element of it says one of the values; else the slot itself.
///
/// # Errors
/// The slot would be that of the value of a variable which something else reads, or out of memory.
fn said_slot(
    alloc: Global,
    sources: Sources<'_>,
    values: &[Given],
    slot: Slot,
) -> Result<Slot, Refusal>
    requires { IsProject (loaded_in sources) }
    ensures found { let fs = sources.entry.files.now in let p = project (loaded_in sources.entry) in
        IfOk result (λ s. said_slot fs p values.now slot (behind_slot fs p values.now slot) ≡ Ok s) }
    ensures refused { let fs = sources.entry.files.now in let p = project (loaded_in sources.entry) in
        RefusedAs result (said_slot fs p values.now slot (behind_slot fs p values.now slot)) }
{
    match behind_slot(alloc, sources, values, &slot)? {
        Some(variable) => {
            if says_one_at(alloc, sources, values, &variable.value_at)? {
                own_slot(alloc, sources, variable)
            } else {
                Ok(slot)
            }
        }
        None => Ok(slot),
    }
}

/// The slot whose value is set: for a text or a truth value that of the value of a variable; else the slot itself.
///
/// # Errors
/// Something else reads the variable, or out of memory.
fn set_slot(alloc: Global, sources: Sources<'_>, given: &Given, slot: Slot) -> Result<Slot, Refusal>
    requires { IsProject (loaded_in sources) }
    ensures found { IfOk result (λ s. set_slot sources.entry.files.now (project (loaded_in sources.entry)) given.now slot ≡ Ok s) }
    ensures refused { RefusedAs result (set_slot sources.entry.files.now (project (loaded_in sources.entry)) given.now slot) }
{
    match given {
        Given::Text(_) | Given::Switch(_) => match behind_slot(alloc, sources, &[], &slot)? {
            Some(variable) => own_slot(alloc, sources, variable),
            None => Ok(slot),
        },
        Given::Code(_) => Ok(slot),
    }
}

/// The slot whose value a change is made to: the slot itself, or that of the value of the variable that its value is.
///
/// # Errors
/// A value would be set, an element of a list removed or replaced, or values put after one, that is the value of a variable which something else reads. Or out
/// of memory.
pub(crate) fn slot_behind(
    alloc: Global,
    sources: Sources<'_>,
    change: &ValueChange,
    slot: Slot,
) -> Result<Slot, Refusal>
    requires { IsProject (loaded_in sources) }
    ensures found { IfOk result (λ s. slot_behind sources.entry.files.now (project (loaded_in sources.entry)) change.now slot ≡ Ok s) }
    ensures refused { RefusedAs result (slot_behind sources.entry.files.now (project (loaded_in sources.entry)) change.now slot) }
{
    match change {
        ValueChange::Set(given) => set_slot(alloc, sources, given, slot),
        ValueChange::Add(values) | ValueChange::AddSorted(values) => {
            added_slot(alloc, sources, values.get(), slot)
        }
        ValueChange::AddAfter { after, .. } => {
            said_slot(alloc, sources, slice::from_ref(after), slot)
        }
        ValueChange::Remove(values) => said_slot(alloc, sources, values.get(), slot),
        ValueChange::Replace { old, .. } => said_slot(alloc, sources, slice::from_ref(old), slot),
        _ => Ok(slot),
    }
}
