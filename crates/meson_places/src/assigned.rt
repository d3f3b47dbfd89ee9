//! Assigned values: which places have one, and the step that assigns another value there.

ghost use Rattle.std.specs.Prelude.{◌≡◌, ◌+◌, ◌<◌, ◌^◌, nat_le, IfOk};
ghost use Rattle.meson_edit.specs.Edits.{Written};
ghost use Rattle.meson_syntax.specs.Grammar.{expression_depth};
ghost use Rattle.meson_syntax.specs.Tree.{Expression, Nowhere};
ghost use Rattle.meson_calls.specs.Loading.{AreParsed, project};
ghost use Rattle.meson_calls.specs.Refusals.{RefusedAs};
ghost use Rattle.meson_steps.specs.Code.{IsValue};
ghost use Rattle.meson_steps.specs.GivenWords.{MayBeGiven};
ghost use Rattle.meson_steps.specs.Meanings.{AreMeant};
ghost use Rattle.meson_places.specs.AssignedValues.{around, assigned_if, assigned_room, is_assigned, is_one_line, statement_of};
ghost use Rattle.meson_places.specs.Names.{loaded_in};
ghost use Rattle.meson_places.specs.Values.{given_node, written_given};

use crate::changes::push_edit;
use crate::name::Sources;
use crate::room::in_brackets;
use crate::values::given_bytes;
use meson_calls::place::place_of;
use meson_calls::{CallRef, Refusal};
use meson_splice::Text;
use meson_steps::code::not_list;
use meson_steps::given::Given;
use meson_steps::statements::assigned_at;
use meson_steps::step::{ListEdit, ListStep};
use meson_syntax::{Bracket, MAX_DEPTH, parse_list_within};
use std::alloc::{AllocError, Global};

/// The place of the statement whose first child is at a place.
pub(crate) fn statement_of(alloc: Global, place: &CallRef) -> Result<CallRef, AllocError>
    ensures { IfOk result (λ p. p ≡ statement_of place.now) }
{
    let path = place.path.steps.get();
    place_of(alloc, place.file, &path[..path.len().saturating_sub(1)])
}

/// Whether the expression at a place is the value that an assignment assigns.
pub(crate) fn is_assigned(
    alloc: Global,
    sources: Sources<'_>,
    place: &CallRef,
) -> Result<bool, AllocError>
    requires { AreParsed sources.files.now sources.trees.now }
    ensures { IfOk result (λ b. b ≡ is_assigned (project (loaded_in sources.entry)) place.now) }
{
    if place.file >= sources.trees.len() {
        return Ok(false);
    }
    let statement = statement_of(alloc, place)?;
    Ok(assigned_at(&sources.trees[place.file], &statement.path).is_some())
}

/// Whether a value is on one line, if it is code.
fn is_one_line(given: &Given) -> bool
    ensures { result ≡ is_one_line given.now }
{
    match given {
        Given::Text(_) => true,
        Given::Switch(_) => true,
        Given::Code(code) => !code.get().as_bytes().contains(&b'\n'),
    }
}

/// The steps after which an assignment assigns this value.
///
/// # Errors
/// It is code of more than one line, or out of memory.
pub(crate) fn assign_steps(
    alloc: Global,
    place: &CallRef,
    given: &Given,
    key: &Text,
) -> Result<Vec<ListStep>, Refusal>
    ensures meant { (may : MayBeGiven given.now) → IfOk result (λ steps. AreMeant (assigned_if key.now place.now given.now (written_given given.now may)) steps.items) }
    ensures refused { (w : Written (Expression Nowhere)) → RefusedAs result (assigned_if key.now place.now given.now w) }
{
    if !is_one_line(given) {
        return Err(Refusal::NotLiteral(key.clone()?));
    }
    let statement = statement_of(alloc, place)?;
    let new = given_bytes(alloc, given)?;
    let mut steps = Vec::new(alloc);
    push_edit(alloc, &statement, ListEdit::Assign(new), &mut steps)?;
    Ok(steps)
}

/// Whether code nests no deeper than this.
fn nests_within(alloc: Global, code: &[u8], depth: usize) -> Result<bool, AllocError>
    requires { depth + 2 < 2 ^ 64 }
    ensures { (x : IsValue code.now) → IfOk result (λ b. b ≡ nat_le (expression_depth x.node) depth) }
{
    let whole = in_brackets(alloc, code)?;
    match parse_list_within(alloc, whole.as_slice(), Bracket::Square, depth + 1) {
        Ok(_) => Ok(true),
        Err(fault) => not_list(fault),
    }
}

/// Whether the statement around a place, with the value of a text assigned there, nests no deeper than a file may.
pub(crate) fn has_room_at(alloc: Global, place: &CallRef, text: &[u8]) -> Result<bool, AllocError>
    ensures { (x : IsValue text.now) → IfOk result (λ b. b ≡ assigned_room place.now x.node) }
{
    let above = place.path.steps.get().len().saturating_sub(1);
    let around = above / 2;
    nests_within(alloc, text, MAX_DEPTH.saturating_sub(around))
}

/// Whether the statement around a place, with a value assigned there, nests no deeper than a file may.
pub(crate) fn assigned_room(
    alloc: Global,
    place: &CallRef,
    given: &Given,
) -> Result<bool, AllocError>
    ensures { (may : MayBeGiven given.now) → IfOk result (λ b. b ≡ assigned_room place.now (given_node given.now may)) }
{
    match given {
        Given::Text(_) => Ok(true),
        Given::Switch(_) => Ok(true),
        Given::Code(code) => has_room_at(alloc, place, code.get().as_bytes()),
    }
}
