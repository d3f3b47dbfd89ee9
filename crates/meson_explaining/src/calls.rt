//! Notes of calls.

ghost use Rattle.std.specs.Prelude.{◌≡◌, ◌++◌, IfOk, OnOk, map, string_bytes};
ghost use Rattle.meson_explaining.specs.Notes.{call_note, few_notes, further, plain_note, spot_of};

use crate::explanation::{Note, Spot};
use meson_inventory::call_words;
use meson_inventory::holdings::HeldCall;
use meson_splice::Text;
use std::alloc::{AllocError, Global};

/// Where a call is.
fn spot_of(call: &HeldCall) -> Spot
    ensures { result ≡ spot_of call.now }
{
    Spot {
        file: call.file,
        at: call.head.at,
        end: call.end,
    }
}

/// The note of a call; more text may be added at its end.
///
/// # Errors
/// Out of memory.
pub fn call_note(alloc: Global, more: &str, call: &HeldCall) -> Result<Note, AllocError>
    ensures { IfOk result (λ note. note ≡ call_note more.now call.now) }
{
    let words = call_words(alloc, call)?;
    let text = format!(in alloc; "{words}{more}")?;
    Ok(Note {
        spot: Some(spot_of(call)),
        text: Text::of(text),
    })
}

/// A note of the project as a whole.
pub(crate) fn plain_note(text: String) -> Note
    ensures { result ≡ plain_note (string_bytes text) }
{
    Note {
        spot: None,
        text: Text::of(text),
    }
}

/// Adds the note of each call; more text may be added at the end of each.
///
/// # Errors
/// Out of memory.
pub fn add_each(
    alloc: Global,
    notes: &mut Vec<Note>,
    more: &str,
    calls: &[HeldCall],
) -> Result<(), AllocError>
    ensures { OnOk result (notes.new.items ≡ notes.old.items ++ map (call_note more.now) calls.now) }
{
    for call in calls {
        notes.push(call_note(alloc, more, call)?)?;
    }
    Ok(())
}

/// Adds a note of how many there are, unless there are none.
///
/// # Errors
/// Out of memory.
pub fn add_further(
    alloc: Global,
    notes: &mut Vec<Note>,
    what: &str,
    count: usize,
) -> Result<(), AllocError>
    ensures { OnOk result (notes.new.items ≡ notes.old.items ++ further what.now count) }
{
    if count > 0 {
        let text = format!(in alloc; "{what}: {count}")?;
        notes.push(plain_note(text))?;
    }
    Ok(())
}

/// How a list of calls is reported: at most so many, what else is said of each, and what the others are called.
#[derive(Clone, Copy)]
pub struct Telling<'t> {
    pub most: usize,
    pub more: &'t str,
    pub others: &'t str,
}

/// Adds the notes of the first calls, and of how many others there are.
///
/// # Errors
/// Out of memory.
pub fn add_few(
    alloc: Global,
    notes: &mut Vec<Note>,
    telling: Telling<'_>,
    calls: &[HeldCall],
) -> Result<(), AllocError>
    ensures { OnOk result (notes.new.items ≡ notes.old.items ++ few_notes telling.entry.most telling.entry.more.now telling.entry.others.now calls.now) }
{
    let shown = telling.most.min(calls.len());
    add_each(alloc, notes, telling.more, &calls[..shown])?;
    add_further(alloc, notes, telling.others, calls.len() - shown)
}
