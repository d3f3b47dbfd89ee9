//! The names that a replace needs: that of the real file, and that of the new one beside it.

use crate::StoreError;
use std::alloc::{AllocError, Global};
use std::fs::OpenOptions;
use std::io::ErrorKind;
use std::os::unix::fs::OpenOptionsExt;
use std::rt::Files;
use std::{fs, io};

/// The suffix of a file's name while it is written: the first of these that is free.
const NEW_SUFFIXES: [&str; 9] = [
    ".rewrite-new",
    ".rewrite-new-2",
    ".rewrite-new-3",
    ".rewrite-new-4",
    ".rewrite-new-5",
    ".rewrite-new-6",
    ".rewrite-new-7",
    ".rewrite-new-8",
    ".rewrite-new-9",
];

/// The number of bytes of the longest of these.
const MOST_SUFFIX: usize = 14;

/// What the system knows of a file, or none if there is no such file.
pub(crate) fn known<T>(asked: io::Result<T>) -> io::Result<Option<T>> {
    match asked {
        Ok(known) => Ok(Some(known)),
        Err(e) => {
            if e.kind() == ErrorKind::NotFound {
                Ok(None)
            } else {
                Err(e)
            }
        }
    }
}

/// A name that is a link, and the path of the file that it leads to.
#[derive(Drop)]
struct Link {
    name: String,
    path: String,
}

/// Names of files for one replace after another. They keep their memory, so that a file that was replaced once is replaced again without allocating.
#[derive(Drop)]
pub(crate) struct Names {
    alloc: Global,
    /// The real path of the file.
    path: String,
    /// The new file beside it.
    beside: String,
    /// The links that were followed.
    links: Vec<Link>,
}

impl Names {
    /// No names. Does not allocate.
    pub(crate) fn new(alloc: Global) -> Self {
        Names {
            alloc,
            path: String::new(alloc),
            beside: String::new(alloc),
            links: Vec::new(alloc),
        }
    }

    /// The real path of the file that was found.
    pub(crate) fn path(&self) -> &str {
        self.path.as_str()
    }

    /// The new file beside it.
    pub(crate) fn beside(&self) -> &str {
        self.beside.as_str()
    }

    /// Finds the real path of a file: a link is followed once, to its file.
    pub(crate) fn find<R: Files>(&mut self, rt: &R, name: &str) -> io::Result<()> {
        self.path.clear();
        match known(fs::symlink_metadata(rt, name))? {
            Some(met) if met.is_symlink() => self.follow(rt, name),
            _ => Ok(self.path.push_str(name)?),
        }
    }

    /// The same for a link.
    fn follow<R: Files>(&mut self, rt: &R, name: &str) -> io::Result<()> {
        for link in &self.links {
            if link.name.as_str() == name {
                return Ok(self.path.push_str(link.path.as_str())?);
            }
        }
        self.follow_new(rt, name)
    }

    /// The same for a link that was not followed before.
    fn follow_new<R: Files>(&mut self, rt: &R, name: &str) -> io::Result<()> {
        let path = rt.canonicalize(self.alloc, name)?.into_string();
        self.path.push_str(path.as_str())?;
        let name = String::from_str(self.alloc, name)?;
        Ok(self.links.push(Link { name, path })?)
    }

    /// Names a new file next to the one that was found.
    fn put_beside(&mut self, suffix: &str) -> Result<(), AllocError> {
        self.beside.clear();
        // Room for each suffix, so that a longer one needs no allocation later on.
        self.beside
            .reserve(self.path.len().saturating_add(MOST_SUFFIX))?;
        self.beside.push_str(self.path.as_str())?;
        self.beside.push_str(suffix)
    }
}

/// Makes a file of that mode beside this one. Nothing that exists there is opened, and no link is followed.
pub(crate) fn make_beside<R: Files>(
    rt: &R,
    names: &mut Names,
    mode: u32,
) -> Result<R::File, StoreError> {
    for suffix in NEW_SUFFIXES {
        names.put_beside(suffix)?;
        let made = OpenOptions::new()
            .write(true)
            .create_new(true)
            .mode(mode)
            .open(rt, names.beside.as_str());
        match made {
            Ok(file) => return Ok(file),
            Err(e) => {
                if e.kind() != ErrorKind::AlreadyExists {
                    return Err(StoreError::from(e));
                }
            }
        }
    }
    Err(StoreError::Unchanged)
}
