//! The names of a project's files, as a set, and whether a file enters one of them.

ghost use Rattle.std.specs.Prelude.{◌≡◌, All, IfOk, Some};
ghost use Rattle.meson_calls.specs.FileNames.{AreFileNames, is_entered, meant_in};
ghost use Rattle.meson_calls.specs.Loading.{HasFileName};

use crate::entering::file_in;
use meson_splice::FileSet;
use std::alloc::{AllocError, Global};
use std::collections::HashSet;

/// The names of files.
///
/// # Errors
/// Out of memory.
pub fn names_of<'f>(alloc: Global, files: &'f FileSet) -> Result<HashSet<&'f str>, AllocError>
    ensures { IfOk result (λ names. AreFileNames names files.entry.now) }
{
    let mut names = HashSet::new(alloc);
    for i in 0..files.len() {
        names.insert(files.name(i))?;
    }
    Ok(names)
}

/// Whether a `subdir` of this folder in this file enters one of the files.
///
/// # Errors
/// Out of memory.
pub fn enters(
    alloc: Global,
    files: &FileSet,
    names: &HashSet<&str>,
    file: usize,
    folder: &str,
) -> Result<bool, AllocError>
    requires named { All HasFileName files.now }
    requires names { AreFileNames names.now files.now }
    ensures { IfOk result (λ there. there ≡ is_entered files.now (meant_in files.now file (Some folder.now))) }
{
    if file >= files.len() {
        return Ok(false);
    }
    match file_in(alloc, files.name(file), folder)? {
        Some(name) => Ok(names.contains(name.as_str())),
        None => Ok(false),
    }
}
