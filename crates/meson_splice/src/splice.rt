//! One splice: bytes of a file that are replaced by other bytes.

ghost use Rattle.std.specs.Prelude.{◌≡◌, ◌≢◌, ◌+◌, ◌<◌, ◌≤◌, ◌++◌, Err, IfErr, IfOk, Ok, OnErr, OnOk, Some, drop, length, take};
ghost use Rattle.meson_splice.specs.inside.Borrowed.{splice_of};
ghost use Rattle.meson_splice.specs.Files.{bytes_at, position_of_file, with_bytes};
ghost use Rattle.meson_splice.specs.Patch.{inverse_of, patched, patched_in, then_ok};
ghost use Rattle.meson_splice.specs.declared.fault.SpliceFault.TheVariants.{OutOfMemory};

use crate::fault::SpliceFault;
use crate::file_set::FileSet;
use meson_values::{Bytes, Text};
use std::alloc::{AllocError, Global};

/// In the file of that name, the bytes `was` at offset `at` become `now`.
#[derive(Debug, Drop)]
pub struct Splice {
    pub file: Text,
    pub at: usize,
    pub was: Bytes,
    pub now: Bytes,
}

/// The splice that takes this one back. Does not allocate.
pub fn inverse(splice: Splice) -> Splice
    ensures { result ≡ inverse_of splice }
{
    let Splice { file, at, was, now } = splice;
    Splice {
        file,
        at,
        was: now,
        now: was,
    }
}

/// A front, other bytes and a rest, joined.
fn replaced(alloc: Global, front: &[u8], new: &[u8], rest: &[u8]) -> Result<Bytes, AllocError>
    ensures { IfOk result (λ b. b ≡ front.now ++ new.now ++ rest.now) }
{
    let len = front.len().saturating_add(new.len());
    let mut bytes = Vec::with_capacity(alloc, len.saturating_add(rest.len()))?;
    bytes.extend_from_slice(front)?;
    bytes.extend_from_slice(new)?;
    bytes.extend_from_slice(rest)?;
    Ok(Bytes::of(bytes))
}

/// Replaces the bytes between two offsets. What is after these is moved once, and what is before them not at all.
fn replace_between(
    bytes: &mut Vec<u8>,
    from: usize,
    to: usize,
    new: &[u8],
) -> Result<(), AllocError>
    requires order { from ≤ to }
    requires inside { to ≤ length bytes.old.items }
    ensures { OnOk result (bytes.new.items ≡ take from bytes.old.items ++ new.now ++ drop to bytes.old.items) }
{
    bytes.splice(from..to, new.iter().copied())?;
    Ok(())
}

/// A splice that is borrowed, as it is or taken back.
#[derive(Clone, Copy)]
pub(crate) struct Borrowed<'a> {
    pub file: &'a Text,
    pub at: usize,
    pub old: &'a [u8],
    pub new: &'a [u8],
}

impl<'a> Borrowed<'a> {
    pub(crate) fn forward(splice: &'a Splice) -> Self
        ensures { splice_of result ≡ splice.entry.now }
    {
        Borrowed {
            file: &splice.file,
            at: splice.at,
            old: splice.was.get(),
            new: splice.now.get(),
        }
    }

    pub(crate) fn backward(splice: &'a Splice) -> Self
        ensures { splice_of result ≡ inverse_of splice.entry.now }
    {
        Borrowed {
            file: &splice.file,
            at: splice.at,
            old: splice.now.get(),
            new: splice.was.get(),
        }
    }

    /// The offset after the old bytes, if these are there.
    fn end_in(self, bytes: &[u8]) -> Result<usize, SpliceFault>
        ensures inside { IfOk result (λ end. (self.entry.at ≤ end) × (end ≤ length bytes.now)) }
        ensures done { let s = splice_of self.entry in
            IfOk result (λ end. patched bytes.now s ≡ Ok (take s.at bytes.now ++ s.now ++ drop end bytes.now)) }
        ensures refused { IfErr result (λ e. e ≢ OutOfMemory → patched bytes.now (splice_of self.entry) ≡ Err e) }
    {
        if self.at > bytes.len() || self.old.len() > bytes.len() - self.at {
            return Err(SpliceFault::OutOfRange(self.file.clone()?, self.at));
        }
        let end = self.at + self.old.len();
        if &bytes[self.at..end] != self.old {
            return Err(SpliceFault::Stale(self.file.clone()?, self.at));
        }
        Ok(end)
    }

    /// The file's bytes after the splice, next to those before it.
    pub(crate) fn patched(self, alloc: Global, bytes: &[u8]) -> Result<Bytes, SpliceFault>
        ensures done { IfOk result (λ c. patched bytes.now (splice_of self.entry) ≡ Ok c) }
        ensures refused { IfErr result (λ e. e ≢ OutOfMemory → patched bytes.now (splice_of self.entry) ≡ Err e) }
    {
        let end = self.end_in(bytes)?;
        Ok(replaced(alloc, &bytes[..self.at], self.new, &bytes[end..])?)
    }

    /// The file's bytes after the splice, in the place of those before it.
    pub(crate) fn patched_in_place(self, bytes: Bytes) -> Result<Bytes, SpliceFault>
        ensures done { IfOk result (λ c. patched bytes (splice_of self.entry) ≡ Ok c) }
        ensures refused { IfErr result (λ e. e ≢ OutOfMemory → patched bytes (splice_of self.entry) ≡ Err e) }
    {
        let end = self.end_in(bytes.get())?;
        let mut bytes = bytes.take();
        replace_between(&mut bytes, self.at, end, self.new)?;
        Ok(Bytes::of(bytes))
    }

    /// The place of the splice's file.
    pub(crate) fn place_in(self, files: &FileSet) -> Result<usize, SpliceFault>
        ensures place { IfOk result (λ i. (position_of_file self.entry.file.now files.now ≡ Some i) × (i < length files.now)) }
        ensures does { let s = splice_of self.entry in
            IfOk result (λ i. patched_in files.now s ≡ then_ok (patched (bytes_at i files.now) s) (λ b. Ok (with_bytes i b files.now))) }
        ensures refused { IfErr result (λ e. e ≢ OutOfMemory → patched_in files.now (splice_of self.entry) ≡ Err e) }
    {
        match files.find(self.file.get()) {
            Some(place) => Ok(place),
            None => Err(SpliceFault::NoFile(self.file.clone()?)),
        }
    }
}

/// Does one splice. Copies the file once.
pub fn apply(alloc: Global, files: &mut FileSet, splice: &Splice) -> Result<(), SpliceFault>
    ensures done { OnOk result (patched_in files.old splice.entry.now ≡ Ok files.new) }
    ensures refused { IfErr result (λ e. e ≢ OutOfMemory → patched_in files.old splice.entry.now ≡ Err e) }
    ensures kept { OnErr result (files.new ≡ files.old) }
{
    let splice = Borrowed::forward(splice);
    let place = splice.place_in(files)?;
    let bytes = splice.patched(alloc, files.bytes(place))?;
    files.exchange(place, bytes);
    Ok(())
}
