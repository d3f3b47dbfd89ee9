//! The edits of the files that differ in two file sets.

ghost use Rattle.std.specs.Prelude.{◌≡◌, IfOk, map};
ghost use Rattle.meson_ranges.specs.Files.{AreFileEdits, AreRangedEdits};

use crate::edits::find_edits;
use crate::ranges::{RangedEdit, with_ranges};
use meson_splice::FileSet;
use std::alloc::{AllocError, Global};

/// A file that differs: its name, and the edits that make its new text of the old one.
#[derive(Drop)]
pub struct FileEdits<'a> {
    pub name: &'a str,
    pub edits: Vec<RangedEdit<'a>>,
}

/// The edits that make the new text of the old one, each with its range in the old one.
fn ranged_edits<'a>(
    alloc: Global,
    old: &'a [u8],
    new: &'a [u8],
) -> Result<Vec<RangedEdit<'a>>, AllocError>
    ensures { IfOk result (λ v. AreRangedEdits old.entry.now new.entry.now v.items) }
{
    let edits = find_edits(alloc, old, new)?;
    with_ranges(alloc, old, edits)
}

/// Finds what differs in two sets of the same files: each file whose bytes differ, in order, with its edits from the first to
/// the last. Each edit and its range are those of the old text, so a client may do them in one step or from the last to the
/// first.
///
/// # Errors
/// Out of memory.
pub fn compare<'a>(
    alloc: Global,
    old: &'a FileSet,
    new: &'a FileSet,
) -> Result<Vec<FileEdits<'a>>, AllocError>
    requires same_files { map (λ f. f.name) old.now ≡ map (λ f. f.name) new.now }
    ensures { IfOk result (λ v. AreFileEdits old.entry.now new.entry.now v.items) }
{
    let mut changes = Vec::new(alloc);
    for i in 0..old.len() {
        let (was, now) = (old.bytes(i), new.bytes(i));
        if was != now {
            let edits = ranged_edits(alloc, was, now)?;
            changes.push(FileEdits {
                name: old.name(i),
                edits,
            })?;
        }
    }
    Ok(changes)
}
