//! The edits that make one text of another.

ghost use Rattle.std.specs.Prelude.{◌≡◌, ◌+◌, ◌++◌, ◌^◌, ◌<◌, ◌≤◌, IfOk, OnOk, drop, false, length, take, true};
ghost use Rattle.meson_diff.specs.Alignment.{IsAlignment, is_new, is_old};
ghost use Rattle.meson_ranges.specs.Edits.{AddsEdits, AreEdits, AreTrimmed, new_part, old_part, whole_edit, whole_edits};
ghost use Rattle.meson_ranges.specs.Trimming.{IsTrimmed, TextEdit};

use crate::shared_ends::{shared_back, shared_front};
use meson_diff::{Entry, align};
use std::alloc::{AllocError, Global};
use std::marker::Model;

/// Bytes at an offset of a text that become other bytes. Contracts see the offset, the bytes that are removed and those that are
/// inserted.
#[derive(Drop)]
pub struct Edit<'a> {
    at: usize,
    was: &'a [u8],
    now: &'a [u8],
}

impl<'a> Model for Edit<'a> {
    ghost use Rattle.meson_ranges.specs.Trimming.{TextEdit};

    ghost Value = { TextEdit };

    ghost view = { λ e. record { at = e.at; was = e.was.now; now = e.now.now } };
}

impl<'a> Edit<'a> {
    /// The offset of the first byte, in the text as it was.
    pub fn at(&self) -> usize
        ensures { result ≡ self.entry.now.at }
    {
        self.at
    }

    /// The bytes that are removed there.
    pub fn was(&self) -> &'a [u8]
        ensures { result.now ≡ self.entry.now.was }
    {
        self.was
    }

    /// The bytes that are inserted in their place.
    pub fn now(&self) -> &'a [u8]
        ensures { result.now ≡ self.entry.now.now }
    {
        self.now
    }

    /// The edit without the bytes that both of its texts begin and end with. No character is cut, and no line end CR LF.
    fn trimmed(at: usize, was: &'a [u8], now: &'a [u8]) -> Edit<'a>
        requires { at + length was.now < 2 ^ 64 }
        ensures { IsTrimmed (record { at = at; was = was.entry.now; now = now.entry.now }) result }
    {
        let front = shared_front(was, now);
        let (was, now) = (&was[front..], &now[front..]);
        let back = shared_back(was, now);
        Edit {
            at: at + front,
            was: &was[..was.len() - back],
            now: &now[..now.len() - back],
        }
    }
}

/// A run of changed lines: where it begins in both texts, and how many bytes are removed and added.
#[derive(Clone, Copy)]
struct Run {
    old_at: usize,
    new_at: usize,
    removed: usize,
    added: usize,
}

impl Run {
    /// The run before the first line.
    const FIRST: Run = Run {
        old_at: 0,
        new_at: 0,
        removed: 0,
        added: 0,
    };

    /// The run with one more changed line.
    fn with(self, entry: &Entry<'_>) -> Run
        requires old_fits { self.removed + length (old_part entry.now) < 2 ^ 64 }
        requires new_fits { self.added + length (new_part entry.now) < 2 ^ 64 }
        ensures { result ≡ record self { removed = self.removed + length (old_part entry.now); added = self.added + length (new_part entry.now) } }
    {
        let len = entry.line.text().len();
        let removed = if entry.mark.is_old() { len } else { 0 };
        let added = if entry.mark.is_new() { len } else { 0 };
        Run {
            removed: self.removed + removed,
            added: self.added + added,
            ..self
        }
    }

    /// The run that begins after this one and a kept line.
    fn after(self, kept: usize) -> Run
        requires old_fits { self.old_at + self.removed + kept < 2 ^ 64 }
        requires new_fits { self.new_at + self.added + kept < 2 ^ 64 }
        ensures { result ≡ record { old_at = self.old_at + self.removed + kept; new_at = self.new_at + self.added + kept; removed = 0; added = 0 } }
    {
        Run {
            old_at: self.old_at + self.removed + kept,
            new_at: self.new_at + self.added + kept,
            removed: 0,
            added: 0,
        }
    }
}

/// Adds the edit of a run, where its bytes in the two texts differ.
fn push_run<'a>(
    edits: &mut Vec<Edit<'a>>,
    run: Run,
    old: &'a [u8],
    new: &'a [u8],
) -> Result<(), AllocError>
    requires in_old { run.old_at + run.removed ≤ length old.now }
    requires in_new { run.new_at + run.added ≤ length new.now }
    ensures { OnOk result (AddsEdits
        (whole_edit run.old_at (take run.removed (drop run.old_at old.entry.now)) (take run.added (drop run.new_at new.entry.now)))
        edits.old.items edits.new.items) }
{
    let was = &old[run.old_at..run.old_at + run.removed];
    let now = &new[run.new_at..run.new_at + run.added];
    if was != now {
        edits.push(Edit::trimmed(run.old_at, was, now))?;
    }
    Ok(())
}

/// The edits of the entries of two texts.
fn edits_of<'a>(
    alloc: Global,
    old: &'a [u8],
    new: &'a [u8],
    entries: &[Entry<'a>],
) -> Result<Vec<Edit<'a>>, AllocError>
    requires { IsAlignment old.now new.now entries.now }
    ensures { IfOk result (λ v. AreTrimmed (whole_edits entries.now) v.items) }
{
    let mut edits = Vec::new(alloc);
    let mut run = Run::FIRST;
    for entry in entries {
        if entry.mark.is_changed() {
            run = run.with(entry);
        } else {
            push_run(&mut edits, run, old, new)?;
            run = run.after(entry.line.text().len());
        }
    }
    push_run(&mut edits, run, old, new)?;
    Ok(edits)
}

/// The edits that make the new text of the old one, from the first to the last: none where the texts are equal, else one for
/// each run of lines that are removed and added, without the bytes that both begin and end with.
///
/// # Errors
/// Out of memory.
pub fn find_edits<'a>(
    alloc: Global,
    old: &'a [u8],
    new: &'a [u8],
) -> Result<Vec<Edit<'a>>, AllocError>
    ensures { IfOk result (λ v. AreEdits old.entry.now new.entry.now v.items) }
{
    if old == new {
        return Ok(Vec::new(alloc));
    }
    let entries = align(alloc, old, new)?;
    edits_of(alloc, old, new, entries.as_slice())
}
