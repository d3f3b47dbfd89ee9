//! Changes: splices one after another, all or none of them.

ghost use Rattle.std.specs.Prelude.{◌≡◌, ◌≢◌, ◌<◌, ◌≤◌, ℕ, List, [], Err, IfErr, IfOk, Ok, OnErr, OnOk, Some, drop, length};
ghost use Rattle.meson_splice.specs.inside.Borrowed.{splice_of};
ghost use Rattle.meson_splice.specs.Files.{position_of_file, with_bytes};
ghost use Rattle.meson_splice.specs.inside.Gap.{LeadsTo, StopsBy};
ghost use Rattle.meson_splice.specs.inside.Ordered.{ordered};
ghost use Rattle.meson_splice.specs.Patch.{inverses_of, patched_all, patched_in};
ghost use Rattle.meson_splice.specs.Saved.{bytes_saved, bytes_put_back};
ghost use Rattle.meson_splice.specs.declared.fault.SpliceFault.TheVariants.{OutOfMemory};

use crate::fault::SpliceFault;
use crate::file_set::FileSet;
use crate::gap_text::GapText;
use crate::splice::{Borrowed, Splice};
use crate::way::Way;
use meson_values::{Bytes, Many, Text};
use std::alloc::{AllocError, Global};

/// Splices that are done first to last. Each offset counts in the bytes that the earlier ones left.
#[derive(Debug, Drop)]
pub struct Change {
    pub splices: Many<Splice>,
    /// What the change is for. It plays no part when the change is done or taken back.
    pub title: Text,
}

impl Change {
    /// The change of these splices, without a title. Does not allocate.
    pub fn untitled(alloc: Global, splices: Many<Splice>) -> Self
        ensures { result ≡ record { splices = splices; title = [] } }
    {
        Change {
            splices,
            title: Text::of(String::new(alloc)),
        }
    }
}

/// The bytes that a file had before the first splice at it.
#[derive(Drop)]
pub struct SavedBytes {
    place: usize,
    bytes: Bytes,
}

/// Whether bytes of the file at that place are saved.
fn is_saved(saved: &[SavedBytes], place: usize) -> bool
    ensures { result ≡ bytes_saved place saved.now }
{
    saved.iter().any(|s| s.place == place)
}

/// Puts other bytes into the file at that place. Its former bytes are saved, unless bytes of it are saved already.
fn exchange(
    files: &mut FileSet,
    saved: &mut Vec<SavedBytes>,
    place: usize,
    bytes: Bytes,
) -> Result<(), AllocError>
    requires { place < length files.old }
    ensures files { OnOk result (files.new ≡ with_bytes place bytes files.old) }
    ensures saved { bytes_put_back saved.new.items files.new ≡ bytes_put_back saved.old.items files.old }
{
    if is_saved(saved, place) {
        files.exchange(place, bytes);
        return Ok(());
    }
    saved.reserve(1)?;
    let bytes = files.exchange(place, bytes);
    saved.push_reserved(SavedBytes { place, bytes });
    Ok(())
}

/// Does the splices after the first `done`, up to the first that is at another file than this, on the file's bytes. Gives the bytes, and the number of splices
/// that are done then.
fn patched_on(
    alloc: Global,
    file: &Text,
    bytes: Bytes,
    way: Way,
    splices: &[Splice],
    done: usize,
) -> Result<(Bytes, usize), SpliceFault>
    ensures ahead { IfOk result (λ r. done ≤ r.1) }
    ensures done { IfOk result (λ r. LeadsTo file.now bytes (drop done (ordered way splices.now)) r.0 (drop r.1 (ordered way splices.now))) }
    ensures refused { IfErr result (λ e. e ≢ OutOfMemory → StopsBy file.now bytes (drop done (ordered way splices.now)) e) }
{
    let mut text = GapText::of(alloc, bytes);
    let mut next = done;
    while next < splices.len() {
        let splice = way.at(splices, next);
        if splice.file != file {
            break;
        }
        text.patch(splice)?;
        next += 1;
    }
    Ok((text.close()?, next))
}

/// The place of a splice's file, and that file's bytes after the splice. If bytes of the file are saved, the result is made from the file's own bytes, and the
/// file has none then.
fn patched_at(
    alloc: Global,
    files: &mut FileSet,
    saved: &[SavedBytes],
    splice: Borrowed<'_>,
) -> Result<(usize, Bytes), SpliceFault>
    ensures place { IfOk result (λ r. (position_of_file splice.entry.file.now files.old ≡ Some r.0) × (r.0 < length files.new)) }
    ensures done { IfOk result (λ r. patched_in files.old (splice_of splice.entry) ≡ Ok (with_bytes r.0 r.1 files.old)) }
    ensures others { IfOk result (λ r. (b : List ℕ) → with_bytes r.0 b files.new ≡ with_bytes r.0 b files.old) }
    ensures refused { IfErr result (λ e. e ≢ OutOfMemory → patched_in files.old (splice_of splice.entry) ≡ Err e) }
    ensures saved { bytes_put_back saved.now files.new ≡ bytes_put_back saved.now files.old }
{
    let place = splice.place_in(files)?;
    if is_saved(saved, place) {
        let own = files.exchange(place, Bytes::of(Vec::new(alloc)));
        let bytes = splice.patched_in_place(own)?;
        return Ok((place, bytes));
    }
    let bytes = splice.patched(alloc, files.bytes(place))?;
    Ok((place, bytes))
}

/// Does the splice after the first `done`, and those after it up to the first that is at another file. Gives the number of splices that are done then.
fn step(
    alloc: Global,
    files: &mut FileSet,
    saved: &mut Vec<SavedBytes>,
    way: Way,
    splices: &[Splice],
    done: usize,
) -> Result<usize, SpliceFault>
    requires { done < length splices.now }
    ensures ahead { IfOk result (λ next. done < next) }
    ensures done { let all = ordered way splices.now in
        IfOk result (λ next. patched_all files.old (drop done all) ≡ patched_all files.new (drop next all)) }
    ensures refused { IfErr result (λ e. e ≢ OutOfMemory → patched_all files.old (drop done (ordered way splices.now)) ≡ Err e) }
    ensures saved { bytes_put_back saved.new.items files.new ≡ bytes_put_back saved.old.items files.old }
{
    let splice = way.at(splices, done);
    let (place, bytes) = patched_at(alloc, files, saved.as_slice(), splice)?;
    let (bytes, next) = patched_on(alloc, splice.file, bytes, way, splices, done + 1)?;
    exchange(files, saved, place, bytes)?;
    Ok(next)
}

/// Puts saved bytes back, the newest first. Does not allocate.
pub fn put_bytes_back(files: &mut FileSet, saved: Vec<SavedBytes>)
    ensures { files.new ≡ bytes_put_back saved.items files.old }
{
    let mut left = saved;
    while let Some(last) = left.pop() {
        let SavedBytes { place, bytes } = last;
        files.restore(place, bytes);
    }
}

/// Does all splices that way, or those before the first that is refused.
fn all_done(
    alloc: Global,
    files: &mut FileSet,
    saved: &mut Vec<SavedBytes>,
    way: Way,
    splices: &[Splice],
) -> Result<(), SpliceFault>
    ensures done { OnOk result (patched_all files.old (ordered way splices.now) ≡ Ok files.new) }
    ensures refused { IfErr result (λ e. e ≢ OutOfMemory → patched_all files.old (ordered way splices.now) ≡ Err e) }
    ensures saved { bytes_put_back saved.new.items files.new ≡ bytes_put_back saved.old.items files.old }
{
    let mut done = 0;
    while done < splices.len() {
        done = step(alloc, files, saved, way, splices, done)?;
    }
    Ok(())
}

/// Does all splices that way, or none, and gives what to put back.
fn changed(
    alloc: Global,
    files: &mut FileSet,
    way: Way,
    splices: &[Splice],
) -> Result<Vec<SavedBytes>, SpliceFault>
    ensures done { OnOk result (patched_all files.old (ordered way splices.now) ≡ Ok files.new) }
    ensures saved { IfOk result (λ saved. bytes_put_back saved.items files.new ≡ files.old) }
    ensures refused { IfErr result (λ e. e ≢ OutOfMemory → patched_all files.old (ordered way splices.now) ≡ Err e) }
    ensures kept { OnErr result (files.new ≡ files.old) }
{
    let mut saved = Vec::new(alloc);
    match all_done(alloc, files, &mut saved, way, splices) {
        Ok(()) => Ok(saved),
        Err(fault) => {
            put_bytes_back(files, saved);
            Err(fault)
        }
    }
}

/// Does all splices of a change, first to last, or none, and gives what to put back.
pub(crate) fn applied(
    alloc: Global,
    files: &mut FileSet,
    change: &Change,
) -> Result<Vec<SavedBytes>, SpliceFault>
    ensures done { OnOk result (patched_all files.old change.now.splices ≡ Ok files.new) }
    ensures saved { IfOk result (λ saved. bytes_put_back saved.items files.new ≡ files.old) }
    ensures refused { IfErr result (λ e. e ≢ OutOfMemory → patched_all files.old change.now.splices ≡ Err e) }
    ensures kept { OnErr result (files.new ≡ files.old) }
{
    changed(alloc, files, Way::Forward, change.splices.get())
}

/// Takes all splices of a change back, last to first, or none, and gives what to put back.
pub(crate) fn reverted(
    alloc: Global,
    files: &mut FileSet,
    change: &Change,
) -> Result<Vec<SavedBytes>, SpliceFault>
    ensures done { OnOk result (patched_all files.old (inverses_of change.now.splices) ≡ Ok files.new) }
    ensures saved { IfOk result (λ saved. bytes_put_back saved.items files.new ≡ files.old) }
    ensures refused { IfErr result (λ e. e ≢ OutOfMemory → patched_all files.old (inverses_of change.now.splices) ≡ Err e) }
    ensures kept { OnErr result (files.new ≡ files.old) }
{
    changed(alloc, files, Way::Backward, change.splices.get())
}

/// Does all splices of a change, first to last, or none. Splices at one file that follow one another copy it once. Then they move only what is between their
/// places.
pub fn apply_all(alloc: Global, files: &mut FileSet, change: &Change) -> Result<(), SpliceFault>
    ensures done { OnOk result (patched_all files.old change.now.splices ≡ Ok files.new) }
    ensures refused { IfErr result (λ e. e ≢ OutOfMemory → patched_all files.old change.now.splices ≡ Err e) }
    ensures kept { OnErr result (files.new ≡ files.old) }
{
    applied(alloc, files, change)?;
    Ok(())
}

/// Does all splices of a change, first to last. For each file of which no bytes are saved, it saves them, which copies the file once. If its bytes are saved
/// already, its own are changed in place.
///
/// # Errors
/// A splice can't be done, or out of memory. Splices before it may be done then, and the file may have lost its bytes, if they are saved. What is saved gives
/// all of it back.
pub fn apply_saving(
    alloc: Global,
    files: &mut FileSet,
    saved: &mut Vec<SavedBytes>,
    change: &Change,
) -> Result<(), SpliceFault>
    ensures done { OnOk result (patched_all files.old change.now.splices ≡ Ok files.new) }
    ensures refused { IfErr result (λ e. e ≢ OutOfMemory → patched_all files.old change.now.splices ≡ Err e) }
    ensures saved { bytes_put_back saved.new.items files.new ≡ bytes_put_back saved.old.items files.old }
{
    all_done(alloc, files, saved, Way::Forward, change.splices.get())
}

/// Takes all splices of a change back, last to first, or none. Splices at one file that follow one another copy it once. Then they move only what is between
/// their places.
pub fn revert(alloc: Global, files: &mut FileSet, change: &Change) -> Result<(), SpliceFault>
    ensures done { OnOk result (patched_all files.old (inverses_of change.now.splices) ≡ Ok files.new) }
    ensures refused { IfErr result (λ e. e ≢ OutOfMemory → patched_all files.old (inverses_of change.now.splices) ≡ Err e) }
    ensures kept { OnErr result (files.new ≡ files.old) }
{
    reverted(alloc, files, change)?;
    Ok(())
}
