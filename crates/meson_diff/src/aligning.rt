//! The alignment of two texts: which lines are kept.

ghost use Rattle.std.specs.Prelude.{◌≡◌, ◌+◌, ◌++◌, ◌-◌, ◌<◌, ◌≤◌, IfNone, IfOk, IfSome, OnOk, drop, false, length, take, true};
ghost use Rattle.meson_diff.specs.Alignment.{GoOn, IsAlignment, IsMeeting, KeepsEnds, KeepsNearest, NoneNearer, NoneOfBoth, new_lines, old_lines};
ghost use Rattle.meson_diff.specs.Changes.{AreChanges};

use crate::entry::{Entry, Mark, push_all};
use crate::line::{Line, lines};
use std::alloc::{AllocError, Global};

/// The largest number of lines of each text that may be before the one with which both continue.
const REACH: usize = 64;

/// The number of removed and of added lines before both texts continue with one line.
#[derive(Drop)]
struct Meeting {
    gone: usize,
    come: usize,
}

/// Whether both texts continue with the same line after this number of lines of each.
fn is_meeting(old: &[Line<'_>], new: &[Line<'_>], gone: usize, come: usize) -> bool
    ensures found { result ≡ true → IsMeeting old.now new.now gone come }
    ensures apart { result ≡ false → IsMeeting old.now new.now gone come → ⊥ }
{
    gone < old.len() && come < new.len() && old[gone].text() == new[come].text()
}

/// The nearest place where both texts continue with one line: the one with the fewest lines in between.
fn next_meeting(old: &[Line<'_>], new: &[Line<'_>]) -> Option<Meeting>
    ensures found { IfSome result (λ m. IsMeeting old.now new.now m.gone m.come) }
    ensures nearest { IfSome result (λ m. NoneNearer old.now new.now (m.gone + m.come)) }
    ensures none { IfNone result (NoneOfBoth old.now new.now) }
{
    for distance in 0..2 * REACH + 1 {
        for gone in distance.saturating_sub(REACH)..distance.min(REACH) + 1 {
            let come = distance - gone;
            if is_meeting(old, new, gone, come) {
                return Some(Meeting { gone, come });
            }
        }
    }
    None
}

/// The number of lines that both texts end with.
fn common_tail(old: &[Line<'_>], new: &[Line<'_>]) -> usize
    ensures in_old { result ≤ length old.now }
    ensures in_new { result ≤ length new.now }
    ensures same { drop (length old.now - result) old.now ≡ drop (length new.now - result) new.now }
    ensures apart { result < length old.now → result < length new.now
        → IsMeeting old.now new.now (length old.now - 1 - result) (length new.now - 1 - result) → ⊥ }
{
    let most = old.len().min(new.len());
    for n in 0..most {
        if !is_meeting(old, new, old.len() - 1 - n, new.len() - 1 - n) {
            return n;
        }
    }
    most
}

/// The number of lines that both texts begin with.
fn common_head(old: &[Line<'_>], new: &[Line<'_>]) -> usize
    ensures in_old { result ≤ length old.now }
    ensures in_new { result ≤ length new.now }
    ensures same { take result old.now ≡ take result new.now }
    ensures apart { IsMeeting old.now new.now result result → ⊥ }
{
    let most = old.len().min(new.len());
    for n in 0..most {
        if !is_meeting(old, new, n, n) {
            return n;
        }
    }
    most
}

/// Adds the removed and the added lines before both texts continue with one line, and that line.
fn push_meeting<'a>(
    entries: &mut Vec<Entry<'a>>,
    old: &[Line<'a>],
    new: &[Line<'a>],
    at: &Meeting,
) -> Result<(), AllocError>
    requires { IsMeeting old.now new.now at.now.gone at.now.come }
    ensures of_old { OnOk result (old_lines entries.new.items ++ drop (at.now.gone + 1) old.now ≡ old_lines entries.old.items ++ old.now) }
    ensures of_new { OnOk result (new_lines entries.new.items ++ drop (at.now.come + 1) new.now ≡ new_lines entries.old.items ++ new.now) }
    ensures nearest { OnOk result (NoneNearer old.now new.now (at.now.gone + at.now.come) → GoOn old.now new.now entries.old.items
        → GoOn (drop (at.now.gone + 1) old.now) (drop (at.now.come + 1) new.now) entries.new.items) }
{
    push_all(entries, Mark::Gone, &old[..at.gone])?;
    push_all(entries, Mark::Come, &new[..at.come])?;
    push_all(entries, Mark::Kept, &old[at.gone..at.gone + 1])?;
    Ok(())
}

/// The lines after one of them.
fn behind<'s, 'a>(lines: &'s [Line<'a>], at: usize) -> &'s [Line<'a>]
    requires { at < length lines.now }
    ensures { result.now ≡ drop (at + 1) lines.entry.now }
{
    &lines[at + 1..]
}

/// Adds the entries of two texts, each line matched with the nearest equal one. If none is near, the rest is removed and added.
fn push_between<'a>(
    entries: &mut Vec<Entry<'a>>,
    old: &[Line<'a>],
    new: &[Line<'a>],
) -> Result<(), AllocError>
    ensures of_old { OnOk result (old_lines entries.new.items ≡ old_lines entries.old.items ++ old.now) }
    ensures of_new { OnOk result (new_lines entries.new.items ≡ new_lines entries.old.items ++ new.now) }
    ensures nearest { OnOk result (GoOn old.now new.now entries.old.items → KeepsNearest entries.new.items) }
{
    let mut old_left = old;
    let mut new_left = new;
    while let Some(at) = next_meeting(old_left, new_left) {
        push_meeting(entries, old_left, new_left, &at)?;
        old_left = behind(old_left, at.gone);
        new_left = behind(new_left, at.come);
    }
    push_all(entries, Mark::Gone, old_left)?;
    push_all(entries, Mark::Come, new_left)?;
    Ok(())
}

/// The entries of two texts. Lines that both end with are kept, and so are lines before them that both begin with. Between these, the lines that are found
/// again are kept.
fn aligned<'a>(
    alloc: Global,
    old: &[Line<'a>],
    new: &[Line<'a>],
) -> Result<Vec<Entry<'a>>, AllocError>
    ensures of_old { IfOk result (λ v. old_lines v.items ≡ old.now) }
    ensures of_new { IfOk result (λ v. new_lines v.items ≡ new.now) }
    ensures ends { IfOk result (λ v. KeepsEnds v.items) }
    ensures changes { IfOk result (λ v. AreChanges v.items) }
{
    let tail = common_tail(old, new);
    let (old_front, end) = old.split_at(old.len() - tail);
    let (new_front, _) = new.split_at(new.len() - tail);
    let head = common_head(old_front, new_front);
    let (begin, old_rest) = old_front.split_at(head);
    let (_, new_rest) = new_front.split_at(head);
    let mut between = Vec::new(alloc);
    push_between(&mut between, old_rest, new_rest)?;
    let mut entries = Vec::new(alloc);
    push_all(&mut entries, Mark::Kept, begin)?;
    entries.append(&mut between)?;
    push_all(&mut entries, Mark::Kept, end)?;
    Ok(entries)
}

/// Aligns the lines of two texts: each line of both, in order, and whether it is kept, goes or comes.
///
/// # Errors
/// Out of memory.
pub fn align<'a>(alloc: Global, old: &'a [u8], new: &'a [u8]) -> Result<Vec<Entry<'a>>, AllocError>
    ensures aligned { IfOk result (λ v. IsAlignment old.entry.now new.entry.now v.items) }
    ensures ends { IfOk result (λ v. KeepsEnds v.items) }
    ensures changes { IfOk result (λ v. AreChanges v.items) }
{
    let old_lines = lines(alloc, old)?;
    let new_lines = lines(alloc, new)?;
    aligned(alloc, old_lines.as_slice(), new_lines.as_slice())
}
