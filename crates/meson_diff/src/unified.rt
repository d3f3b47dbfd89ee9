//! The diff of two sets of files.

ghost use Rattle.std.specs.Prelude.{◌≡◌, ◌==◌, IfOk, map, string_bytes};
ghost use Rattle.std.specs.List.{list_any};
ghost use Rattle.meson_diff.specs.Diff.{IsDiff, IsFileDiff, file_head, name_end};

use crate::aligning::align;
use crate::hunk::push_hunks;
use meson_splice::FileSet;
use std::alloc::{AllocError, Global};

/// Whether a name has a space.
fn has_space(name: &str) -> bool
    ensures { result ≡ list_any (λ b. b == 32) name.now }
{
    name.as_bytes().iter().any(|b| *b == b' ')
}

/// What is written after a name: a tab if the name has a space, so that a reader can see where it ends.
fn name_end(name: &str) -> &'static str
    ensures { result.now ≡ name_end name.now }
{
    if has_space(name) { "\t" } else { "" }
}

/// The two lines above the hunks of a file.
fn file_head(alloc: Global, name: &str) -> Result<String, AllocError>
    ensures { IfOk result (λ lines. string_bytes lines ≡ file_head name.now) }
{
    let end = name_end(name);
    format!(in alloc; "--- a/{name}{end}\n+++ b/{name}{end}\n")
}

/// The diff of one file; empty if its bytes are the same.
fn file_diff(alloc: Global, name: &str, old: &[u8], new: &[u8]) -> Result<Vec<u8>, AllocError>
    ensures { IfOk result (λ text. IsFileDiff name.now old.now new.now text.items) }
{
    if old == new {
        return Ok(Vec::new(alloc));
    }
    let entries = align(alloc, old, new)?;
    let mut text = file_head(alloc, name)?.into_bytes();
    push_hunks(alloc, &mut text, entries.as_slice())?;
    Ok(text)
}

/// What differs between two sets of the same files, as a unified diff with three lines of context, for `patch -p1` and `git apply`. It goes file by file in
/// order, and has nothing of a file whose bytes are the same. A name is written as it is. Where lines are replaced, the removed ones are first.
///
/// # Errors
/// Out of memory.
pub fn diff(alloc: Global, old: &FileSet, new: &FileSet) -> Result<Vec<u8>, AllocError>
    requires same_files { map (λ f. f.name) old.now ≡ map (λ f. f.name) new.now }
    ensures { IfOk result (λ text. IsDiff old.now new.now text.items) }
{
    let mut text = Vec::new(alloc);
    for i in 0..old.len() {
        let of_file = file_diff(alloc, old.name(i), old.bytes(i), new.bytes(i))?;
        text.extend_from_slice(of_file.as_slice())?;
    }
    Ok(text)
}
