//! The files that were read so far, with their names as a set.

ghost use Rattle.std.specs.Prelude.{◌≡◌, ◌<◌, ◌++◌, ◌∷◌, [], IsNone, OnErr, OnOk, is_some, length, slice_index_or};
ghost use Rattle.meson_splice.specs.Files.{bytes_at, position_of_file};
ghost use Rattle.meson_splice.specs.declared.file_set.File.{File};
ghost use Rattle.meson_gathering.specs.Gathering.{file_of};

use meson_splice::FileSet;
use std::alloc::{AllocError, Global};
use std::collections::HashSet;
use std::marker::Model;

/// Files in order, with different names, and the set of their names. Contracts see the list of the files.
#[derive(Drop)]
pub(crate) struct NamedFiles {
    files: FileSet,
    names: HashSet<String>,
}

impl Model for NamedFiles {
    ghost use Rattle.std.specs.Prelude.{List};
    ghost use Rattle.meson_splice.specs.declared.file_set.File.{File};
    ghost use Rattle.meson_gathering.specs.inside.Names.{AreNames};

    ghost Value = { List File };

    ghost view = { λ s. s.files };

    ghost invariant = { λ s. AreNames s.names s.files };
}

impl NamedFiles {
    /// No files. Does not allocate.
    pub(crate) fn new(alloc: Global) -> Self
        ensures { result ≡ [] }
    {
        NamedFiles {
            files: FileSet::new(alloc),
            names: HashSet::new(alloc),
        }
    }

    /// The files, without the set of their names.
    pub(crate) fn take(self) -> FileSet
        ensures { result ≡ self }
    {
        let NamedFiles { files, names: _ } = self;
        files
    }

    /// How many files there are.
    pub(crate) fn len(&self) -> usize
        ensures { result ≡ length self.now }
    {
        self.files.len()
    }

    /// The name of file `i`, counted from 0.
    pub(crate) fn name(&self, i: usize) -> &str
        requires { i < length self.now }
        ensures { (d : File) → result.now ≡ (slice_index_or self.now i d).name }
    {
        self.files.name(i)
    }

    /// The bytes of file `i`, counted from 0.
    pub(crate) fn bytes(&self, i: usize) -> &[u8]
        requires { i < length self.now }
        ensures { result.now ≡ bytes_at i self.now }
    {
        self.files.bytes(i)
    }

    /// Whether a file has that name.
    pub(crate) fn has(&self, name: &str) -> bool
        ensures { result ≡ is_some (position_of_file name.now self.now) }
    {
        self.names.contains(name)
    }

    /// Adds a file after the others; none of them has its name.
    ///
    /// # Errors
    /// Out of memory.
    pub(crate) fn push(
        &mut self,
        alloc: Global,
        name: &str,
        bytes: Vec<u8>,
    ) -> Result<(), AllocError>
        requires { IsNone (position_of_file name.now self.old) }
        ensures ok { OnOk result (self.new ≡ self.old ++ file_of name.now bytes.items ∷ []) }
        ensures kept { OnErr result (self.new ≡ self.old) }
    {
        let key = String::from_str(alloc, name)?;
        let own = String::from_str(alloc, name)?;
        self.names.insert(key)?;
        match self.files.push_new(own, bytes) {
            Ok(()) => Ok(()),
            Err(refused) => {
                self.names.remove(name);
                Err(refused)
            }
        }
    }
}
