//! The hunks of an alignment.

ghost use Rattle.std.specs.Prelude.{◌≡◌, ◌+◌, ◌-◌, ◌^◌, ◌++◌, ◌<◌, ◌≤◌, IfOk, OnOk, length, string_bytes, take};
ghost use Rattle.std.specs.List.{list_any};
ghost use Rattle.meson_diff.specs.Alignment.{is_changed, new_lines, old_lines};
ghost use Rattle.meson_diff.specs.Hunks.{begins_hunk, first_line, head_text, hunk_at, hunk_text, hunks_text, is_shown, shown_len};

use crate::counts::{Counts, counted};
use crate::entry::{Entry, push_entries};
use std::alloc::{AllocError, Global};

/// The number of entries that are shown before a change and after it.
const CONTEXT: usize = 3;

/// Whether a line is removed or added.
fn any_changed(entries: &[Entry<'_>]) -> bool
    ensures { result ≡ list_any (λ e. is_changed e.mark) entries.now }
{
    entries.iter().any(|e| e.mark.is_changed())
}

/// Whether an entry is shown: it is changed, or one near it is.
fn is_shown(entries: &[Entry<'_>], i: usize) -> bool
    requires { i < length entries.now }
    ensures { result ≡ is_shown entries.now i }
{
    let from = i.saturating_sub(CONTEXT);
    let to = entries.len().min(i + 1 + CONTEXT);
    any_changed(&entries[from..to])
}

/// Whether a hunk begins with an entry.
fn begins_hunk(entries: &[Entry<'_>], i: usize) -> bool
    requires { i < length entries.now }
    ensures { result ≡ begins_hunk entries.now i }
{
    is_shown(entries, i) && (i == 0 || !is_shown(entries, i - 1))
}

/// The number of entries that are shown from this one on, up to the first that is not.
fn shown_len(entries: &[Entry<'_>], from: usize) -> usize
    requires { from ≤ length entries.now }
    ensures value { result ≡ shown_len entries.now from (length entries.now - from) }
    ensures within { from + result ≤ length entries.now }
{
    for i in from..entries.len() {
        if !is_shown(entries, i) {
            return i - from;
        }
    }
    entries.len() - from
}

/// The number of the first of `count` lines, if `before` lines are before them; for no lines, that of the line before them.
fn first_line(before: usize, count: usize) -> usize
    requires { before < 2 ^ 63 }
    ensures { result ≡ first_line before count }
{
    if count == 0 { before } else { before + 1 }
}

/// The first line of a hunk, given the number of lines of each text that are before it.
fn head(alloc: Global, before: Counts, hunk: Counts) -> Result<String, AllocError>
    requires old_fits { before.of_old < 2 ^ 63 }
    requires new_fits { before.of_new < 2 ^ 63 }
    ensures { IfOk result (λ line. string_bytes line ≡ head_text before.of_old hunk.of_old before.of_new hunk.of_new) }
{
    let old_from = first_line(before.of_old, hunk.of_old);
    let new_from = first_line(before.of_new, hunk.of_new);
    let Counts { of_old, of_new } = hunk;
    format!(in alloc; "@@ -{old_from},{of_old} +{new_from},{of_new} @@\n")
}

/// Writes the hunk that begins with an entry. `before` counts the entries before that.
fn push_hunk(
    alloc: Global,
    to: &mut Vec<u8>,
    before: Counts,
    entries: &[Entry<'_>],
    at: usize,
) -> Result<(), AllocError>
    requires within { at ≤ length entries.now }
    requires of_old { before.of_old ≡ length (old_lines (take at entries.now)) }
    requires of_new { before.of_new ≡ length (new_lines (take at entries.now)) }
    ensures { OnOk result (to.new.items ≡ to.old.items ++ hunk_text (take at entries.now) (hunk_at entries.now at)) }
{
    let hunk = &entries[at..at + shown_len(entries, at)];
    let line = head(alloc, before, counted(hunk))?;
    to.extend_from_slice(line.as_bytes())?;
    push_entries(to, hunk)?;
    Ok(())
}

/// Writes all hunks.
pub(crate) fn push_hunks(
    alloc: Global,
    to: &mut Vec<u8>,
    entries: &[Entry<'_>],
) -> Result<(), AllocError>
    ensures { OnOk result (to.new.items ≡ to.old.items ++ hunks_text entries.now) }
{
    let mut before = Counts::NONE;
    for (i, entry) in entries.iter().enumerate() {
        if begins_hunk(entries, i) {
            push_hunk(alloc, to, before, entries, i)?;
        }
        before.add(entry.mark);
    }
    Ok(())
}
