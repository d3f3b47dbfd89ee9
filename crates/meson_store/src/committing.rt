//! Writing the files of a project that changed into a store.

ghost use Rattle.std.specs.Prelude.{◌≡◌, ◌≤◌, ◌<◌, ◌+◌, ◌^◌, ◌++◌, [], ◌∷◌, ℕ, List, length, map, option_map, reverse, vec_capacity, vec_len};
ghost use Rattle.std.specs.Prelude.{IfOk, IfErr, OnOk, string_bytes};
ghost use Rattle.meson_store.specs.Commit.{AreReplaced, CommitFails, GoBack, Stops, fault_of, path_in, puts};
ghost use Rattle.meson_store.specs.inside.Commit.{TakesBack, names_of, tries};
ghost use Rattle.meson_store.specs.Seen.{seen_by};
ghost use Rattle.meson_store.specs.inside.Planned.{put_of};

use crate::{Store, StoreError, StoreFault};
use meson_splice::{FileSet, Many, Text};
use std::alloc::{AllocError, Global};

/// A file that is to be replaced.
#[derive(Drop)]
struct Planned<'a> {
    /// Its name in the store.
    path: String,
    name: &'a str,
    was: &'a [u8],
    bytes: &'a [u8],
}

/// The number of files that were replaced, and why the next one was not.
#[derive(Clone, Copy)]
struct Halt {
    done: usize,
    error: StoreError,
}

/// The name in the store of a file of the project in this folder.
pub fn path_in(alloc: Global, folder: Option<&str>, name: &str) -> Result<String, AllocError>
    ensures { IfOk result (λ path. string_bytes path ≡ path_in (option_map (λ f. f.now) folder.entry) name.now) }
{
    let Some(folder) = folder else {
        return Ok(String::from_str(alloc, name)?);
    };
    let mut path = String::from_str(alloc, folder)?;
    path.push_str("/")?;
    path.push_str(name)?;
    Ok(path)
}

/// The files whose bytes differ, in order.
fn differing<'a>(
    alloc: Global,
    folder: Option<&str>,
    before: &'a FileSet,
    after: &'a FileSet,
) -> Result<Vec<Planned<'a>>, AllocError>
    requires { map (λ f. f.name) before.now ≡ map (λ f. f.name) after.now }
    ensures { IfOk result (λ plan. map put_of plan.items ≡ puts (option_map (λ f. f.now) folder.entry) before.now after.now) }
{
    let mut plan = Vec::new(alloc);
    for i in 0..after.len() {
        let was = before.bytes(i);
        let bytes = after.bytes(i);
        if was != bytes {
            let name = before.name(i);
            let path = path_in(alloc, folder, name)?;
            plan.push(Planned {
                path,
                name,
                was,
                bytes,
            })?;
        }
    }
    Ok(plan)
}

/// The names of the files.
fn names_of(alloc: Global, plan: &[Planned<'_>]) -> Result<Vec<Text>, AllocError>
    ensures { IfOk result (λ names. names.items ≡ names_of (map put_of plan.now)) }
{
    let mut names = Vec::with_capacity(alloc, plan.len())?;
    for file in plan {
        let name = String::from_str(alloc, file.name)?;
        names.push(Text::of(name))?;
    }
    Ok(names)
}

/// Replaces the files in order, up to the first that fails.
fn replace_all<S: Store>(store: &mut S, plan: &[Planned<'_>]) -> Result<(), Halt>
    ensures done { let known = seen_by S.content S.failures S.replaces in
        OnOk result (AreReplaced (map put_of plan.now) (known store.old) (known store.new)) }
    ensures halted { let known = seen_by S.content S.failures S.replaces in
        IfErr result (λ halt. (stops : Stops (map put_of plan.now) (known store.old) (known store.new) halt.error) × (length stops.done ≡ halt.done)) }
    ensures no_read { S.reads store.new ≡ S.reads store.old }
{
    for (done, file) in plan.iter().enumerate() {
        match store.replace(file.path.as_str(), file.bytes) {
            Ok(()) => {}
            Err(error) => return Err(Halt { done, error }),
        }
    }
    Ok(())
}

/// Puts back the bytes that these files held, the last first. `names` are their names. The names of those where that fails are added to `lost`.
fn put_back<S: Store>(
    store: &mut S,
    files: &[Planned<'_>],
    names: &mut Vec<Text>,
    lost: &mut Vec<Text>,
)
    requires named { names.old.items ≡ names_of (map put_of files.now) }
    requires room { vec_len lost.old + length files.now ≤ vec_capacity lost.old }
    ensures gone_back { let known = seen_by S.content S.failures S.replaces in (still : List (List ℕ))
        × GoBack (reverse (map put_of files.now)) (known store.old) (known store.new) still × (lost.new.items ≡ lost.old.items ++ still) }
    ensures no_read { S.reads store.new ≡ S.reads store.old }
{
    while let Some(name) = names.pop() {
        let left = names.len();
        let file = &files[left];
        match store.replace(file.path.as_str(), file.was) {
            Ok(()) => (),
            Err(_) => lost.push_reserved(name),
        }
    }
}

/// The number of files that get their old bytes again. These are the ones that were replaced, and the one that was not, unless the store knows that it is as it
/// was.
fn count_tried(halt: Halt) -> usize
    requires { halt.done + 1 < 2 ^ 64 }
    ensures { result ≡ halt.done + tries halt.error }
{
    match halt.error {
        StoreError::Device => halt.done + 1,
        StoreError::Unchanged | StoreError::OutOfMemory => halt.done,
    }
}

/// The fault of a replace that failed, if these files did not get their old bytes again.
fn fault_of(name: Text, error: StoreError, lost: Vec<Text>) -> StoreFault
    ensures { result ≡ fault_of name error lost.items }
{
    match error {
        StoreError::OutOfMemory if lost.is_empty() => StoreFault::OutOfMemory,
        _ => StoreFault::WriteFailed {
            name,
            still_new: Many::of(lost),
        },
    }
}

/// Puts back what was replaced before a replace failed, and says why. `names` and `listed` are the names of all files,
/// and `lost` has room for as many.
fn taken_back<S: Store>(
    store: &mut S,
    files: &[Planned<'_>],
    names: Vec<Text>,
    listed: Vec<Text>,
    lost: Vec<Text>,
    halt: Halt,
) -> StoreFault
    requires within { halt.done < length files.now }
    requires named { names.items ≡ names_of (map put_of files.now) }
    requires same { listed.items ≡ names.items }
    requires none { lost.items ≡ [] }
    requires room { length files.now ≤ vec_capacity lost }
    ensures gone_back { let known = seen_by S.content S.failures S.replaces in
        TakesBack (map put_of files.now) halt.done halt.error (known store.old) (known store.new) result }
    ensures no_read { S.reads store.new ≡ S.reads store.old }
{
    let mut names = names;
    let mut listed = listed;
    let mut lost = lost;
    let tried = count_tried(halt);
    listed.truncate(tried);
    put_back(store, &files[..tried], &mut listed, &mut lost);
    fault_of(names.swap_remove(halt.done), halt.error, lost)
}

/// Replaces each file whose bytes differ between two sets of the same files, in order, and no other. A file NAME of the project is DIR/NAME in the store if a
/// folder DIR is given, and else NAME. If a replace fails, the old bytes are put back, once each. First they are put into that file, unless the store knows
/// that it is as it was. Then they are put into those replaced before it, the last first.
///
/// # Errors
/// `WriteFailed` for the first file that could not be replaced. It has the files whose old bytes could not be put back, in the order in which that was tried.
/// `OutOfMemory` when an allocation failed; then each file is as it was or has its old bytes again. All allocations of `commit` itself are made before the
/// first replace.
pub fn commit<S: Store>(
    alloc: Global,
    store: &mut S,
    folder: Option<&str>,
    before: &FileSet,
    after: &FileSet,
) -> Result<(), StoreFault>
    requires same_files { map (λ f. f.name) before.now ≡ map (λ f. f.name) after.now }
    ensures done { let known = seen_by S.content S.failures S.replaces in
        OnOk result (AreReplaced (puts (option_map (λ f. f.now) folder.entry) before.now after.now) (known store.old) (known store.new)) }
    ensures failed { let known = seen_by S.content S.failures S.replaces in
        IfErr result (CommitFails (puts (option_map (λ f. f.now) folder.entry) before.now after.now) (known store.old) (known store.new)) }
    ensures counts { S.failures store.old ≤ S.failures store.new }
    ensures no_read { S.reads store.new ≡ S.reads store.old }
{
    let plan = differing(alloc, folder, before, after)?;
    let files = plan.as_slice();
    let names = names_of(alloc, files)?;
    let listed = names_of(alloc, files)?;
    let lost = Vec::with_capacity(alloc, files.len())?;
    match replace_all(store, files) {
        Ok(()) => Ok(()),
        Err(halt) => Err(taken_back(store, files, names, listed, lost, halt)),
    }
}
