//! Files to trees.

ghost use Rattle.std.specs.Prelude.{◌≡◌, IfErr, IfOk, MatchOption, All};
ghost use Rattle.meson_calls.specs.Loading.{IsProject, MayNotLoad, HasFileName, IsFirstBadName, AreParsed};
ghost use Rattle.meson_calls.specs.inside.Loads.{MayNotParse, TellsFault};

use crate::folders::is_file_name;
use crate::load_fault::LoadFault;
use meson_splice::FileSet;
use meson_syntax::{ParseFault, Parsed, copy_tree, parse};
use std::alloc::{AllocError, Global};

/// The largest number of files in a project.
pub const MAX_FILES: usize = 1024;

/// The first file whose name is not that of a build file.
fn first_bad_name(files: &FileSet) -> Option<usize>
    ensures { MatchOption result (All HasFileName files.now) (IsFirstBadName files.now) }
{
    for i in 0..files.len() {
        if !is_file_name(files.name(i).as_bytes()) {
            return Some(i);
        }
    }
    None
}

/// The fault of a file without a tree.
fn told(index: usize, fault: ParseFault) -> LoadFault
    ensures { TellsFault index fault result }
{
    match fault {
        ParseFault::OutOfMemory => LoadFault::OutOfMemory,
        fault => LoadFault::Parse { index, fault },
    }
}

/// The tree of each file.
///
/// # Errors
/// The first file that has no tree, or out of memory.
fn trees_of(alloc: Global, files: &FileSet) -> Result<Vec<Parsed>, LoadFault>
    ensures ok { IfOk result (λ parsed. AreParsed files.now parsed.items) }
    ensures err { IfErr result (MayNotParse files.now) }
{
    let mut trees = Vec::new(alloc);
    for index in 0..files.len() {
        match parse(alloc, files.bytes(index)) {
            Ok(tree) => trees.push(tree)?,
            Err(fault) => return Err(told(index, fault)),
        }
    }
    Ok(trees)
}

/// The trees of files that are a project.
///
/// # Errors
/// The first fault in order, or out of memory.
pub fn loaded(alloc: Global, files: &FileSet) -> Result<Vec<Parsed>, LoadFault>
    ensures ok { IfOk result (λ parsed. IsProject (record { files = files.now; parsed = parsed.items })) }
    ensures err { IfErr result (MayNotLoad files.now) }
{
    if files.len() > MAX_FILES {
        return Err(LoadFault::TooManyFiles);
    }
    if let Some(i) = first_bad_name(files) {
        return Err(LoadFault::BadFileName(i));
    }
    trees_of(alloc, files)
}

/// Equal trees.
pub fn copy_trees(alloc: Global, trees: &[Parsed]) -> Result<Vec<Parsed>, AllocError>
    ensures { IfOk result (λ copies. copies.items ≡ trees.now) }
{
    let mut copies = Vec::new(alloc);
    for i in 0..trees.len() {
        let tree = copy_tree(alloc, &trees[i])?;
        copies.push(tree)?;
    }
    Ok(copies)
}
