//! The calls whose names or variables are nearest to an id.

ghost use Rattle.std.specs.Prelude.{◌≡◌, ◌+◌, ◌/◌, ◌++◌, [], IfOk, OnOk, filter, length, map, option_and_then, take};
ghost use Rattle.meson_explaining.specs.Nearest.{edits_to, far, fewer, is_far, is_number, near_notes, nearer};
ghost use Rattle.meson_explaining.specs.Notes.{call_note};

use crate::calls::call_note;
use crate::distance::edits;
use crate::explanation::Note;
use meson_inventory::holdings::HeldCall;
use meson_splice::Text;
use std::alloc::{AllocError, Global};

/// The most bytes of names that are compared.
pub(crate) const MOST_BYTES: usize = 100;
/// The most calls whose names are compared.
const MOST_CALLS: usize = 5000;
/// The most calls that are reported.
const MOST_NEAR: usize = 3;

/// How many edits lead from an id to a name; None if there is no name, or one that is too long.
fn edits_to(alloc: Global, id: &str, name: &Option<Text>) -> Result<Option<usize>, AllocError>
    ensures { IfOk result (λ edits. edits ≡ option_and_then (edits_to id.now) name.now) }
{
    let Some(name) = name else {
        return Ok(None);
    };
    let name = name.get();
    if name.len() > MOST_BYTES {
        return Ok(None);
    }
    let edits = edits(alloc, id, name)?;
    Ok(Some(edits))
}

/// The smaller of two numbers, or the one that there is.
fn fewer(edits: Option<usize>, others: Option<usize>) -> Option<usize>
    ensures { result ≡ fewer edits others }
{
    match (edits, others) {
        (Some(edits), Some(others)) => Some(edits.min(others)),
        (None, others) => others,
        (edits, None) => edits,
    }
}

/// How many edits lead from an id to the literal name of a call or to its variable, whichever is nearer; None if it has neither, or only longer ones than are
/// compared.
fn far(alloc: Global, id: &str, call: &HeldCall) -> Result<Option<usize>, AllocError>
    ensures { IfOk result (λ edits. edits ≡ far id.now call.now) }
{
    let name = edits_to(alloc, id, &call.head.name)?;
    let variable = edits_to(alloc, id, &call.variable)?;
    Ok(fewer(name, variable))
}

/// Whether there is a number, and it is this one.
fn is_number(number: usize, found: &Option<usize>) -> bool
    ensures { result ≡ is_number number found.now }
{
    match found {
        Some(found) => *found == number,
        None => false,
    }
}

/// How far each call is from an id.
fn distances(alloc: Global, id: &str, calls: &[HeldCall]) -> Result<Vec<Option<usize>>, AllocError>
    ensures { IfOk result (λ distances. distances.items ≡ map (far id.now) calls.now) }
{
    let mut distances = Vec::new(alloc);
    for call in calls {
        distances.push(far(alloc, id, call)?)?;
    }
    Ok(distances)
}

/// Calls, and how far each is from an id.
#[derive(Drop)]
struct Compared<'c> {
    id: &'c str,
    calls: &'c [HeldCall],
    distances: Vec<Option<usize>>,
    ghost measured: { distances.items ≡ map (far id.now) calls.now },
}

impl<'c> Compared<'c> {
    /// Compares the names of calls with an id.
    fn new(alloc: Global, id: &'c str, calls: &'c [HeldCall]) -> Result<Self, AllocError>
        ensures id { IfOk result (λ compared. compared.id.now ≡ id.entry.now) }
        ensures calls { IfOk result (λ compared. compared.calls.now ≡ calls.entry.now) }
    {
        let distances = distances(alloc, id, calls)?;
        Ok(Compared {
            id,
            calls,
            distances,
        })
    }

    /// Adds the notes of the calls that are so far from the id.
    fn add_at(
        &self,
        alloc: Global,
        notes: &mut Vec<Note>,
        distance: usize,
    ) -> Result<(), AllocError>
        ensures { OnOk result (notes.new.items ≡ notes.old.items ++ map (call_note []) (filter (is_far self.now.id.now distance) self.now.calls.now)) }
    {
        for i in 0..self.calls.len() {
            if is_number(distance, &self.distances[i]) {
                notes.push(call_note(alloc, "", &self.calls[i])?)?;
            }
        }
        Ok(())
    }

    /// Adds the notes of the calls that are near the id, the nearest first.
    fn add_near(&self, alloc: Global, notes: &mut Vec<Note>) -> Result<(), AllocError>
        ensures { let id = self.now.id.now in
            OnOk result (notes.new.items ≡ notes.old.items ++ map (call_note []) (nearer id (length id / 3 + 1) self.now.calls.now)) }
    {
        for distance in 0..self.id.len() / 3 + 1 {
            self.add_at(alloc, notes, distance)?;
        }
        Ok(())
    }
}

/// The first calls, at most so many.
fn first(calls: &[HeldCall], most: usize) -> &[HeldCall]
    ensures { result.now ≡ take most calls.now }
{
    &calls[..most.min(calls.len())]
}

/// The notes of the calls whose names or variables are nearest to an id.
pub(crate) fn near_notes(
    alloc: Global,
    id: &str,
    calls: &[HeldCall],
) -> Result<Vec<Note>, AllocError>
    ensures { IfOk result (λ notes. notes.items ≡ near_notes id.now calls.now) }
{
    let mut notes = Vec::new(alloc);
    if id.len() > MOST_BYTES {
        return Ok(notes);
    }
    let compared = Compared::new(alloc, id, first(calls, MOST_CALLS))?;
    compared.add_near(alloc, &mut notes)?;
    notes.truncate(MOST_NEAR);
    Ok(notes)
}
