//! The files of a case.

use meson_case_files::{Transcript, bytes_of, text_of};
use meson_splice::FileSet;
use std::alloc::{AllocError, Global};

/// The file in which the program keeps what it did.
pub const LOG: &str = "meson.rewrite-log";

/// A file, or a name at which a file may appear.
#[derive(Drop)]
pub struct File {
    pub name: String,
    pub bytes: Option<Vec<u8>>,
}

/// Files in order, each name once.
#[derive(Drop)]
pub struct Files {
    alloc: Global,
    all: Vec<File>,
    /// The number of the file whose lines are read.
    open: usize,
}

impl Files {
    pub fn new(alloc: Global) -> Self {
        Files {
            alloc,
            all: Vec::new(alloc),
            open: 0,
        }
    }

    pub fn get(&self) -> &[File] {
        self.all.as_slice()
    }

    fn find(&self, name: &str) -> Option<usize> {
        self.all
            .as_slice()
            .iter()
            .position(|file| file.name.as_str() == name)
    }

    /// Sets the bytes of a name, or removes them.
    pub fn set(&mut self, name: &str, bytes: Option<Vec<u8>>) -> Result<(), AllocError> {
        if let Some(place) = self.find(name) {
            if place < self.all.len() {
                self.open = place;
                self.all[place].bytes = bytes;
            }
            return Ok(());
        }
        let name = String::from_str(self.alloc, name)?;
        self.open = self.all.len();
        self.all.push(File { name, bytes })?;
        Ok(())
    }

    /// Adds an entry for a file of this name, if it is missing.
    pub fn expect(&mut self, name: &str) -> Result<(), AllocError> {
        if self.bytes(name).is_none() {
            self.set(name, None)?;
        }
        Ok(())
    }

    /// Begins a file of this name.
    pub fn begin(&mut self, name: &str) -> Result<(), AllocError> {
        let name = text_of(self.alloc, name)?;
        self.set(name.as_str(), Some(Vec::new(self.alloc)))
    }

    /// Puts a text into the root file.
    pub fn set_root(&mut self, text: &str) -> Result<(), AllocError> {
        let bytes = bytes_of(self.alloc, text)?;
        self.set("meson.build", Some(bytes))
    }

    /// Appends bytes to the file that is read.
    pub fn extend(&mut self, more: &[u8]) -> Result<(), AllocError> {
        let Some(file) = self.all.as_mut_slice().get_mut(self.open) else {
            return Ok(());
        };
        match &mut file.bytes {
            Some(bytes) => bytes.extend_from_slice(more),
            None => Ok(()),
        }
    }

    /// Begins this number of empty files, named `a`, `aa` and so on.
    pub fn begin_many(&mut self, count: &str) -> Result<(), AllocError> {
        let mut name = String::new(self.alloc);
        for _ in 0..count.parse::<u32>().unwrap_or(0) {
            name.push_str("a")?;
            self.set(name.as_str(), Some(Vec::new(self.alloc)))?;
        }
        Ok(())
    }

    /// Begins this number of build files. Each but the first is in a folder `a` of the one before, and all enter such a folder.
    pub fn begin_nested(&mut self, count: &str) -> Result<(), AllocError> {
        let mut folder = String::new(self.alloc);
        for _ in 0..count.parse::<u32>().unwrap_or(0) {
            let mut name = folder.clone()?;
            name.push_str("meson.build")?;
            let text = Vec::from_slice(self.alloc, b"subdir('a')\n")?;
            self.set(name.as_str(), Some(text))?;
            folder.push_str("a/")?;
        }
        Ok(())
    }

    /// The files as a set, without those that do not exist.
    pub fn file_set(&self) -> Result<FileSet, AllocError> {
        let mut set = FileSet::new(self.alloc);
        for file in self.all.as_slice() {
            if let Some(bytes) = &file.bytes {
                let name = file.name.clone()?;
                let _ = set.push(name, bytes.clone()?);
            }
        }
        Ok(set)
    }

    /// The bytes under a name.
    pub fn bytes(&self, name: &str) -> Option<&[u8]> {
        let file = self.all.as_slice().get(self.find(name)?)?;
        match &file.bytes {
            Some(bytes) => Some(bytes.as_slice()),
            None => None,
        }
    }

    /// Takes the current bytes of a file, and writes the file if they differ.
    pub fn change(
        &mut self,
        name: &str,
        bytes: &[u8],
        to: &mut Transcript,
    ) -> Result<(), AllocError> {
        if self.bytes(name) == Some(bytes) {
            return Ok(());
        }
        if name == LOG {
            to.lines("  log |", bytes);
        } else {
            to.put("  file ");
            to.put(name);
            to.put("\n");
            to.text(bytes);
        }
        self.set(name, Some(Vec::from_slice(self.alloc, bytes)?))
    }
}
