//! A project's files: names and bytes in order, each name once.

ghost use Rattle.std.specs.Prelude.{◌≡◌, ◌↔◌, ◌<◌, ◌++◌, ◌∷◌, [], IfErr, IfOk, IsNone, IsSome, IsTrue, OnErr, OnOk, length, map, slice_index_or, string_bytes};
ghost use Rattle.meson_splice.specs.Files.{IsDistinct, bytes_at, differing, position_of_file, with_bytes};
ghost use Rattle.meson_splice.specs.declared.file_set.File.{File};

use crate::fault::SpliceFault;
use meson_values::{Bytes, Text};
use std::alloc::{AllocError, Global};
use std::marker::Model;
use std::mem;
use thiserror::Error;

/// A file of the project.
#[derive(Debug, Drop)]
pub struct File {
    pub name: Text,
    pub bytes: Bytes,
}

impl Clone for File {
    ghost is_clone = { λ f g. g ≡ f };

    fn clone(&self) -> Result<Self, AllocError> {
        let name = self.name.clone()?;
        let bytes = self.bytes.clone()?;
        Ok(File { name, bytes })
    }
}

/// Why a file can't be added.
#[derive(Clone, Copy, Debug, PartialEq, Eq, Error)]
pub enum PushFault {
    /// There is a file of this name already.
    #[error("F1 name twice")]
    NameTwice,
    /// An allocation failed.
    #[error("out of memory")]
    OutOfMemory,
}

impl From<AllocError> for PushFault {
    ghost use Rattle.std.specs.Prelude.{◌≡◌};
    ghost use Rattle.meson_splice.specs.declared.file_set.PushFault.TheVariants.{OutOfMemory};

    ghost from_gives = { λ _ e. e ≡ OutOfMemory };

    fn from(_: AllocError) -> PushFault {
        PushFault::OutOfMemory
    }
}

/// A file that was not added, with the reason.
#[derive(Debug, Drop)]
pub struct Unpushed {
    pub name: Text,
    pub bytes: Bytes,
    pub fault: PushFault,
}

/// Files in order, with different names. Contracts see the list of them.
#[derive(Debug, Drop)]
pub struct FileSet {
    files: Vec<File>,
}

impl Model for FileSet {
    ghost use Rattle.std.specs.Prelude.{List};
    ghost use Rattle.meson_splice.specs.Files.{IsDistinct};
    ghost use Rattle.meson_splice.specs.declared.file_set.File.{File};

    ghost Value = { List File };

    ghost view = { λ s. s.files.items };

    ghost invariant = { λ s. IsDistinct s.files.items };
}

impl Clone for FileSet {
    ghost is_clone = { λ s t. t ≡ s };

    fn clone(&self) -> Result<Self, AllocError> {
        let files = self.files.clone()?;
        Ok(FileSet { files })
    }
}

impl FileSet {
    /// No files. Does not allocate.
    pub fn new(alloc: Global) -> Self
        ensures { result ≡ [] }
    {
        FileSet {
            files: Vec::new(alloc),
        }
    }

    /// The number of files.
    pub fn len(&self) -> usize
        ensures { result ≡ length self.now }
    {
        self.files.len()
    }

    /// Whether there is no file.
    pub fn is_empty(&self) -> bool
        ensures { IsTrue result ↔ (self.now ≡ []) }
    {
        self.files.is_empty()
    }

    /// The name of file `i`, counted from 0.
    pub fn name(&self, i: usize) -> &str
        requires { i < length self.now }
        ensures { (d : File) → result.now ≡ (slice_index_or self.now i d).name }
    {
        self.files[i].name.get()
    }

    /// The bytes of file `i`, counted from 0.
    pub fn bytes(&self, i: usize) -> &[u8]
        requires { i < length self.now }
        ensures { result.now ≡ bytes_at i self.now }
    {
        self.files[i].bytes.get()
    }

    /// The place of the file of this name.
    pub fn find(&self, name: &str) -> Option<usize>
        ensures { result ≡ position_of_file name.now self.now }
    {
        self.files.iter().position(|f| f.name.get() == name)
    }

    /// Adds a file after the others, or hands both values back.
    pub fn push(&mut self, name: String, bytes: Vec<u8>) -> Result<(), Unpushed>
        ensures ok { OnOk result (self.new ≡ self.old ++ record { name = string_bytes name; bytes = bytes.items } ∷ []) }
        // The name is there exactly if the fault says so.
        ensures twice { IfErr result (λ u. (u.fault ≡ PushFault.NameTwice) ↔ IsSome (position_of_file (string_bytes name) self.old)) }
        ensures new_name { OnOk result (IsNone (position_of_file (string_bytes name) self.old)) }
        ensures handed_back { IfErr result (λ u. (u.name ≡ string_bytes name) × (u.bytes ≡ bytes.items)) }
        ensures kept { OnErr result (self.new ≡ self.old) }
    {
        let fault = if self.find(name.as_str()).is_some() {
            PushFault::NameTwice
        } else {
            match self.files.reserve(1) {
                Ok(()) => {
                    self.files.push_reserved(File {
                        name: Text::of(name),
                        bytes: Bytes::of(bytes),
                    });
                    return Ok(());
                }
                Err(refused) => PushFault::from(refused),
            }
        };
        Err(Unpushed {
            name: Text::of(name),
            bytes: Bytes::of(bytes),
            fault,
        })
    }

    /// Adds a file after the others; none of them has its name.
    ///
    /// # Errors
    /// Out of memory.
    pub fn push_new(&mut self, name: String, bytes: Vec<u8>) -> Result<(), AllocError>
        requires { IsNone (position_of_file (string_bytes name) self.old) }
        ensures ok { OnOk result (self.new ≡ self.old ++ record { name = string_bytes name; bytes = bytes.items } ∷ []) }
        ensures kept { OnErr result (self.new ≡ self.old) }
    {
        self.files.reserve(1)?;
        self.files.push_reserved(File {
            name: Text::of(name),
            bytes: Bytes::of(bytes),
        });
        Ok(())
    }

    /// An equal file set.
    pub fn copy(&self, alloc: Global) -> Result<FileSet, SpliceFault>
        ensures copied { IfOk result (λ s. s ≡ self.now) }
        ensures distinct { IfOk result IsDistinct }
        ensures refused { IfErr result (λ e. e ≡ SpliceFault.OutOfMemory) }
    {
        let files = Vec::from_clones(alloc, self.files.as_slice())?;
        Ok(FileSet { files })
    }

    /// The number of files whose bytes differ in `after`, which has the same names in the same order.
    pub fn count_differing(&self, after: &FileSet) -> usize
        requires { map (λ f. f.name) self.now ≡ map (λ f. f.name) after.now }
        ensures { result ≡ differing self.now after.now }
    {
        let mut count = 0;
        for i in 0..after.len() {
            if self.bytes(i) != after.bytes(i) {
                count += 1;
            }
        }
        count
    }

    /// Puts other bytes into file `i`, and returns its former bytes.
    pub(crate) fn exchange(&mut self, i: usize, bytes: Bytes) -> Bytes
        requires { i < length self.old }
        ensures files { self.new ≡ with_bytes i bytes self.old }
        ensures old { result ≡ bytes_at i self.old }
    {
        mem::replace(&mut self.files[i].bytes, bytes)
    }

    /// Puts bytes back into file `i`, if there is one.
    pub(crate) fn restore(&mut self, i: usize, bytes: Bytes)
        ensures { self.new ≡ with_bytes i bytes self.old }
    {
        if i < self.files.len() {
            self.exchange(i, bytes);
        }
    }
}
