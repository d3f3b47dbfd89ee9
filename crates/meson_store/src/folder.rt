//! A store of real files.

ghost use Rattle.std.specs.Prelude.{◌≡◌, ◌≤◌, IfErr};
ghost use Rattle.meson_store.specs.StoreCalls.{FailureCounted};

use crate::names::{Names, known, make_beside};
use crate::replaced::{FileId, ReplacedFiles};
use crate::{Store, StoreError};
use std::alloc::Global;
use std::fs::{Metadata, OpenFile};
use std::io::{ErrorKind, Read, Write};
use std::os::fd::AsFd;
use std::os::unix::fs::{MetadataExt, fchown};
use std::rt::Files;
use std::{fs, io};

/// The name by which standard input is read. A file of that name is `./-`.
const STANDARD_INPUT: &str = "-";

/// A longer file, or more on standard input, counts as a failed read.
const MOST_BYTES: usize = 67_108_864;

/// The mode of a new file until it gets that of the old one.
const FOR_OWNER: u32 = 0o600;

/// The mode of a new file if there is no old one, less what the process masks.
const FOR_ALL: u32 = 0o666;

/// The files of the file system, read and written through the runtime.
///
/// A file is replaced as a whole: its new bytes are written to a new file beside it, which then takes its name.
/// A file that was replaced under one name is not replaced under another: that is `Unchanged`.
/// Only regular files are read, and standard input, to its end, by the name `-`. A name below a regular file is that of an
/// absent one.
#[derive(Drop)]
pub struct Folder<R: Files + Input + Drop> {
    rt: R,
    names: Names,
    replaced: ReplacedFiles,
    failures: u64,
    reads: u64,
    replaces: u64,
}

impl<R: Files + Input + Drop> Folder<R>
where
    R::File: AsFd,
{
    /// Keeps the runtime and the allocator, and does not allocate.
    pub fn new(rt: R, alloc: Global) -> Self
        ensures failures { ⟦<Folder<R> as Store>⟧.failures result ≡ 0 }
        ensures reads { ⟦<Folder<R> as Store>⟧.reads result ≡ 0 }
        ensures replaces { ⟦<Folder<R> as Store>⟧.replaces result ≡ 0 }
    {
        Folder {
            rt,
            names: Names::new(alloc),
            replaced: ReplacedFiles::new(alloc),
            failures: 0,
            reads: 0,
            replaces: 0,
        }
    }

    /// Counts a failure of the device.
    fn count_failure(&mut self, why: StoreError)
        ensures counted { FailureCounted why self.old.failures self.new.failures }
        ensures counts { self.old.failures ≤ self.new.failures }
        ensures reads { self.new.reads ≡ self.old.reads }
        ensures replaces { self.new.replaces ≡ self.old.replaces }
    {
        match why {
            StoreError::OutOfMemory => {}
            StoreError::Device | StoreError::Unchanged => {
                self.failures = self.failures.saturating_add(1);
            }
        }
    }
}

/// What is to be read: a regular file that is open, with its number of bytes at that time; or standard input, as if it had none.
#[derive(Drop)]
struct Opened<F: Drop> {
    file: F,
    len: u64,
}

/// Opens a regular file. Nothing else is opened: reading a pipe would wait for its writer.
fn open_regular<R: Files>(rt: &R, name: &str) -> io::Result<Opened<R::File>> {
    let known = fs::metadata(rt, name)?;
    if !known.is_file() {
        return Err(io::Error::from(ErrorKind::InvalidInput));
    }
    let file = fs::open(rt, name)?;
    Ok(Opened {
        file,
        len: known.len(),
    })
}

/// Reads to the end of the file, into memory that is allocated once if the file is as long as it was.
fn contents_of<F: Read + Drop>(alloc: Global, opened: Opened<F>) -> Result<Vec<u8>, StoreError> {
    let Opened { file, len } = opened;
    // One byte more than the most that a file may have, so that a longer one is noticed.
    let limit = MOST_BYTES + 1;
    let room = usize::try_from(len).map_or(limit, |len| len.min(MOST_BYTES) + 1);
    let mut bytes = Vec::with_capacity(alloc, room)?;
    file.take(limit as u64).read_to_end(&mut bytes)?;
    if bytes.len() > MOST_BYTES {
        return Err(StoreError::Unchanged);
    }
    Ok(bytes)
}

/// There is no file of that name.
fn is_absent(kind: ErrorKind) -> bool {
    kind == ErrorKind::NotFound || kind == ErrorKind::NotADirectory
}

/// The bytes of standard input, to its end.
fn read_input<R: Input>(rt: &R, alloc: Global) -> Result<Vec<u8>, StoreError> {
    let opened = Opened {
        file: rt.reader(),
        len: 0,
    };
    contents_of(alloc, opened)
}

/// The bytes of a file, or none if there is no such file.
fn read_file<R: Files + Input>(
    rt: &R,
    alloc: Global,
    name: &str,
) -> Result<Option<Vec<u8>>, StoreError> {
    if name == STANDARD_INPUT {
        return Ok(Some(read_input(rt, alloc)?));
    }
    match open_regular(rt, name) {
        Ok(opened) => Ok(Some(contents_of(alloc, opened)?)),
        Err(e) => {
            if is_absent(e.kind()) {
                Ok(None)
            } else {
                Err(StoreError::from(e))
            }
        }
    }
}

/// Gives the new file the owner, if that is permitted, and the mode of the old one.
fn keep_owner_and_mode<F: OpenFile + AsFd>(
    new: &F,
    made: &Metadata,
    old: &Metadata,
) -> io::Result<()> {
    if made.uid() != old.uid() || made.gid() != old.gid() {
        let (owner, group) = (Some(old.uid()), Some(old.gid()));
        if fchown(new, owner, group).is_err() {
            let _ = fchown(new, None, group);
        }
    }
    if made.mode() == old.mode() {
        return Ok(());
    }
    new.set_permissions(old.permissions())
}

/// Writes the new file, and makes the device store its bytes. Returns which file it is, if that is known.
fn fill<F: Write + OpenFile + AsFd>(
    new: &mut F,
    old: Option<Metadata>,
    bytes: &[u8],
) -> io::Result<Option<FileId>> {
    let made = new.metadata()?;
    if let Some(old) = old {
        keep_owner_and_mode(new, &made, &old)?;
    }
    new.write_all(bytes)?;
    new.flush()?;
    new.sync_all()?;
    Ok(FileId::of(&made))
}

/// Why a rename failed. Of these kinds the system refuses it before it changes anything, so the old file is surely kept.
///
/// After any other kind the new file may have the name. `NotFound` is such a kind: a file server may rename, lose its
/// answer, and refuse the request when it is repeated.
fn rename_error(e: io::Error) -> StoreError {
    match e.kind() {
        ErrorKind::PermissionDenied
        | ErrorKind::ReadOnlyFilesystem
        | ErrorKind::CrossesDevices
        | ErrorKind::OutOfMemory => StoreError::from(e),
        _ => StoreError::Device,
    }
}

/// What the system knows of the file that is to be replaced under this name, or none if there is no such file.
///
/// It is refused if it was replaced under another name, since the text of that name would be lost.
fn replaceable<R: Files>(
    rt: &R,
    replaced: &mut ReplacedFiles,
    name: &str,
    path: &str,
) -> Result<Option<Metadata>, StoreError> {
    let old = known(fs::metadata(rt, path))?;
    if let Some(file) = old.as_ref().and_then(FileId::of) {
        if replaced.has_by_other_name(file, name) {
            return Err(StoreError::Unchanged);
        }
    }
    replaced.expect(name)?;
    Ok(old)
}

/// Writes a new file beside the real one, and gives it the real one's name. If that fails, what was made is removed. `Device` is an error of the last step
/// alone.
fn replace_file<R: Files>(
    rt: &R,
    names: &mut Names,
    replaced: &mut ReplacedFiles,
    name: &str,
    bytes: &[u8],
) -> Result<(), StoreError>
where
    R::File: AsFd,
{
    names.find(rt, name)?;
    let old = replaceable(rt, replaced, name, names.path())?;
    let mode = if old.is_some() { FOR_OWNER } else { FOR_ALL };
    let mut file = make_beside(rt, names, mode)?;
    let filled = fill(&mut file, old, bytes);
    drop(file);
    let renamed = match filled {
        Ok(new) => fs::rename(rt, names.beside(), names.path())
            .map(|()| new)
            .map_err(rename_error),
        Err(e) => Err(StoreError::from(e)),
    };
    match renamed {
        Ok(new) => {
            replaced.keep(name, new);
            Ok(())
        }
        Err(why) => {
            let _ = fs::remove_file(rt, names.beside());
            Err(why)
        }
    }
}

impl<R: Files + Input + Drop> Store for Folder<R>
where
    R::File: AsFd,
{
    ghost failures = { λ f. f.failures };

    ghost reads = { λ f. f.reads };

    ghost replaces = { λ f. f.replaces };

    fn read(&mut self, alloc: Global, name: &str) -> Result<Option<Vec<u8>>, StoreError> {
        self.reads = self.reads.saturating_add(1);
        match read_file(&self.rt, alloc, name) {
            Ok(bytes) => Ok(bytes),
            Err(why) => {
                self.count_failure(why);
                Err(why)
            }
        }
    }

    fn replace(&mut self, name: &str, bytes: &[u8]) -> Result<(), StoreError> {
        self.replaces = self.replaces.saturating_add(1);
        match replace_file(&self.rt, &mut self.names, &mut self.replaced, name, bytes) {
            Ok(()) => Ok(()),
            Err(why) => {
                self.count_failure(why);
                Err(why)
            }
        }
    }

    fn failures(&self) -> u64 {
        self.failures
    }

    fn reads(&self) -> u64 {
        self.reads
    }

    fn replaces(&self) -> u64 {
        self.replaces
    }
}
