//! The files that a folder replaced, so that none is replaced under two names.

use std::alloc::{AllocError, Global};
use std::fs::Metadata;
use std::os::unix::fs::MetadataExt;

/// A file of the system, whatever its names are.
#[derive(Clone, Copy, PartialEq, Eq)]
pub(crate) struct FileId {
    device: u64,
    inode: u64,
}

impl FileId {
    /// The file of which the system knows this, or none if it gives files no numbers.
    pub(crate) fn of(known: &Metadata) -> Option<Self> {
        let (device, inode) = (known.dev(), known.ino());
        if inode == 0 {
            return None;
        }
        Some(FileId { device, inode })
    }
}

/// A name by which a file is replaced.
#[derive(Drop)]
struct Replaced {
    name: String,
    /// The new file; none until it has the name, or if it has no number.
    file: Option<FileId>,
}

/// The names by which files were replaced, each with the file that it got last.
#[derive(Drop)]
pub(crate) struct ReplacedFiles {
    alloc: Global,
    names: Vec<Replaced>,
}

impl ReplacedFiles {
    /// No names. Does not allocate.
    pub(crate) fn new(alloc: Global) -> Self {
        ReplacedFiles {
            alloc,
            names: Vec::new(alloc),
        }
    }

    /// Whether another name got this file.
    pub(crate) fn has_by_other_name(&self, file: FileId, name: &str) -> bool {
        self.names
            .iter()
            .any(|r| r.file == Some(file) && r.name.as_str() != name)
    }

    /// Makes room for the file that this name is to get. Does not allocate for a name that is there.
    pub(crate) fn expect(&mut self, name: &str) -> Result<(), AllocError> {
        if self.names.iter().any(|r| r.name.as_str() == name) {
            return Ok(());
        }
        let name = String::from_str(self.alloc, name)?;
        Ok(self.names.push(Replaced { name, file: None })?)
    }

    /// Keeps that this name got this file, if the name is expected. Does not allocate.
    pub(crate) fn keep(&mut self, name: &str, file: Option<FileId>) {
        for replaced in &mut self.names {
            if replaced.name.as_str() == name {
                replaced.file = file;
            }
        }
    }
}
