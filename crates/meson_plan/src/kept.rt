//! What is kept of a project's files for commands on targets, and what stays of it after a command changed some of them.

ghost use Rattle.std.specs.Prelude.{◌≡◌, ◌≢◌, ℕ, Some, IsTrue, get_or};
ghost use Rattle.meson_calls.specs.declared.kept.Kept.TheVariants.{Unknown};
ghost use Rattle.meson_calls.specs.Loading.{AreParsed};
ghost use Rattle.meson_calls.specs.Setters.{AreKept, is_known};
ghost use Rattle.meson_plan.specs.inside.Kept.{StayKept};

use meson_calls::kept::{Kept, keep_setters};
use meson_splice::{FileSet, Splice};
use meson_syntax::Parsed;
use std::alloc::{AllocError, Global};

/// Keeps of each file what sets variables in it, from the second request on: for one command alone it costs more than it saves. An entry that says nothing
/// marks the first request. For a project of one file all notes are taken anyway.
///
/// # Errors
/// Out of memory.
pub(crate) fn keep(
    alloc: Global,
    files: &FileSet,
    trees: &[Parsed],
    kept: &mut Vec<Kept>,
) -> Result<(), AllocError>
    requires parsed { AreParsed files.now trees.now }
    requires kept { AreKept kept.old.items files.now trees.now }
    ensures { AreKept kept.new.items files.now trees.now }
{
    if files.len() < 2 {
        return Ok(());
    }
    if kept.is_empty() {
        kept.push(Kept::Unknown)?;
        return Ok(());
    }
    keep_setters(alloc, files, trees, kept)
}

/// Forgets what is kept of a file.
fn forget(kept: &mut Vec<Kept>, file: Option<usize>)
    ensures { (i : ℕ) → IsTrue (is_known (get_or kept.new.items i Unknown))
        → (get_or kept.new.items i Unknown ≡ get_or kept.old.items i Unknown) × (file ≢ Some i) }
{
    if let Some(place) = file {
        if place < kept.len() {
            kept[place] = Kept::Unknown;
        }
    }
}

/// Forgets what is kept of the files that splices change.
pub(crate) fn forget_changed(kept: &mut Vec<Kept>, files: &FileSet, splices: &[Splice])
    ensures { StayKept kept.old.items kept.new.items files.now splices.now }
{
    for i in 0..splices.len() {
        let place = files.find(splices[i].file.get());
        forget(kept, place);
    }
}
