//! Reading the files of a project from a store.

ghost use Rattle.std.specs.Prelude.{◌≡◌, ◌≤◌, ◌<◌, ◌∷◌, [], ℕ, List, Some, None, Option, All, IfOk, IfErr, IsNone, OnOk, length, map, option_map, string_bytes, take, drop};
ghost use Rattle.meson_splice.specs.Files.{bytes_at, position_of_file};
ghost use Rattle.meson_syntax.specs.Reads.{IsSpanned, MayNotRead};
ghost use Rattle.meson_syntax.specs.View.{view};
ghost use Rattle.meson_calls.specs.Folders.{IsFileName, build_file};
ghost use Rattle.meson_calls.specs.Loading.{HasFileName, max_files, name_of_file};
ghost use Rattle.meson_calls.specs.declared.call.Reading.{Reading};
ghost use Rattle.meson_gathering.specs.Gathering.{Enters, Finds, Gathers, Told, files_entered, file_of, held_bytes, named_folder, whole, with_more};
ghost use Rattle.meson_gathering.specs.Gathered.{IsUnread, StopsAt};
ghost use Rattle.meson_gathering.specs.inside.Gathered.{Grows, IsNotAdded, IsNotEntered, LooksAt, StopsLooking};
ghost use Rattle.meson_gathering.specs.ReadCounts.{EntersEach, EntersFor, EntersOne, MayAsk, MayAskIfNew, ReadsFiles, StopsEntering, StopsFor, StopsReading, unread_file, unread_name};
ghost use Rattle.meson_store.specs.StoreCalls.{one_more};

use crate::fault::GatherFault;
use crate::named_files::NamedFiles;
use meson_calls::{MAX_FILES, Reading};
use meson_entering::{SourceFile, entered_by};
use meson_plan::Project;
use meson_splice::{Bytes, Text};
use meson_store::{Store, StoreError, StoreFault, path_in};
use meson_syntax::{ParseFault, Parsed, parse};
use std::alloc::{AllocError, Global};

/// The root build file's name.
const ROOT: &str = "meson.build";

/// The bytes of a file NAME of the folder's project, or none if the store has no such file.
///
/// # Errors
/// The store failed to read it, or out of memory.
pub fn read_file<S: Store>(
    alloc: Global,
    store: &mut S,
    folder: Option<&str>,
    name: &str,
) -> Result<Option<Vec<u8>>, StoreFault>
    ensures read { IfOk result (λ bytes. Told (S.content store.old)
        (λ content. option_map (λ b. b.items) bytes ≡ held_bytes content (named_folder folder.entry) name.now)) }
    ensures failed { IfErr result (IsUnread (S.failures store.old) (S.failures store.new) name.now) }
    ensures kept { S.content store.new ≡ S.content store.old }
    ensures counts { S.failures store.old ≤ S.failures store.new }
    ensures no_replace { S.replaces store.new ≡ S.replaces store.old }
    ensures once { OnOk result (S.reads store.new ≡ one_more (S.reads store.old)) }
    ensures asks_at_most { IfErr result (λ fault. MayAsk name.now (S.reads store.old) (S.reads store.new) (unread_name fault)) }
{
    let told = Text::of(String::from_str(alloc, name)?);
    let path = path_in(alloc, folder, name)?;
    match store.read(alloc, path.as_str()) {
        Ok(bytes) => Ok(bytes),
        Err(StoreError::OutOfMemory) => Err(StoreFault::OutOfMemory),
        Err(StoreError::Device | StoreError::Unchanged) => Err(StoreFault::ReadFailed(told)),
    }
}

/// Adds a file after the others; none of them has its name.
fn add(alloc: Global, files: &mut NamedFiles, name: &str, bytes: Vec<u8>) -> Result<(), GatherFault>
    requires named { IsFileName name.now }
    requires few { length files.old ≤ max_files }
    requires new { IsNone (position_of_file name.now files.old) }
    ensures added { OnOk result (with_more files.old (file_of name.now bytes.items) ≡ Some files.new) }
    ensures grows { OnOk result (Grows files.old files.new) }
    ensures stopped { IfErr result (IsNotAdded files.old (file_of name.now bytes.items)) }
{
    if files.len() >= MAX_FILES {
        return Err(GatherFault::TooManyFiles);
    }
    files.push(alloc, name, bytes)?;
    Ok(())
}

/// Reads the file of a name that is entered, if it is not there yet and the store has it.
fn enter<S: Store>(
    alloc: Global,
    store: &mut S,
    folder: Option<&str>,
    files: &mut NamedFiles,
    name: &str,
) -> Result<(), GatherFault>
    requires named { IsFileName name.now }
    requires few { length files.old ≤ max_files }
    ensures entered { OnOk result (Told (S.content store.old)
        (λ content. files_entered content (named_folder folder.entry) (name.now ∷ []) files.old ≡ Some files.new)) }
    ensures grows { OnOk result (Grows files.old files.new) }
    ensures stopped { IfErr result (StopsAt (S.failures store.old) (S.failures store.new)
        (λ end. Told (S.content store.old) (λ content. IsNotEntered content (named_folder folder.entry) (name.now ∷ []) files.old end))) }
    ensures kept { S.content store.new ≡ S.content store.old }
    ensures counts { S.failures store.old ≤ S.failures store.new }
    ensures no_replace { S.replaces store.new ≡ S.replaces store.old }
    ensures asks { OnOk result (EntersOne (S.content store.old) (named_folder folder.entry) name.now files.old (S.reads store.old)
        files.new (S.reads store.new)) }
    ensures asks_at_most { IfErr result (λ fault. MayAskIfNew name.now files.old (S.reads store.old) (S.reads store.new) (unread_file fault)) }
{
    if files.has(name) {
        return Ok(());
    }
    match read_file(alloc, store, folder, name) {
        Ok(Some(bytes)) => add(alloc, files, name, bytes),
        Ok(None) => Ok(()),
        Err(fault) => Err(GatherFault::Store(fault)),
    }
}

/// Reads the files of names that are entered, in order.
fn enter_all<S: Store>(
    alloc: Global,
    store: &mut S,
    folder: Option<&str>,
    files: &mut NamedFiles,
    names: &[String],
) -> Result<(), GatherFault>
    requires named { All IsFileName (map string_bytes names.now) }
    requires few { length files.old ≤ max_files }
    ensures entered { OnOk result (Told (S.content store.old)
        (λ content. files_entered content (named_folder folder.entry) (map string_bytes names.now) files.old ≡ Some files.new)) }
    ensures grows { OnOk result (Grows files.old files.new) }
    ensures stopped { IfErr result (StopsAt (S.failures store.old) (S.failures store.new)
        (λ end. Told (S.content store.old) (λ content. IsNotEntered content (named_folder folder.entry) (map string_bytes names.now) files.old end))) }
    ensures kept { S.content store.new ≡ S.content store.old }
    ensures counts { S.failures store.old ≤ S.failures store.new }
    ensures no_replace { S.replaces store.new ≡ S.replaces store.old }
    ensures asks { OnOk result (EntersEach (S.content store.old) (named_folder folder.entry) files.old (S.reads store.old)
        (map string_bytes names.now) files.new (S.reads store.new)) }
    ensures asks_at_most { IfErr result (λ fault. StopsEntering (S.content store.old) (named_folder folder.entry) files.old (S.reads store.old)
        (map string_bytes names.now) (S.reads store.new) (unread_file fault)) }
{
    for i in 0..names.len() {
        enter(alloc, store, folder, files, names[i].as_str())?;
    }
    Ok(())
}

/// The contents of a file.
#[derive(Drop)]
struct ParsedFile {
    tree: Parsed,
    /// The names of the files that it may enter.
    names: Vec<String>,
}

/// The fault of a file that is not valid, with its name and bytes.
fn unparsed(
    alloc: Global,
    name: &str,
    bytes: &[u8],
    fault: ParseFault,
) -> Result<GatherFault, AllocError>
    ensures { IfOk result (λ stop. MayNotRead bytes.now fault → StopsLooking name.now bytes.now stop) }
{
    match fault {
        ParseFault::OutOfMemory => Err(AllocError),
        fault => Ok(GatherFault::Parse {
            name: Text::of(String::from_str(alloc, name)?),
            bytes: Bytes::of(Vec::from_slice(alloc, bytes)?),
            fault,
        }),
    }
}

/// The tree of one of the files, and the names of the files that it may enter.
fn entry_at(
    alloc: Global,
    reading: Reading,
    files: &NamedFiles,
    place: usize,
) -> Result<ParsedFile, GatherFault>
    requires within { place < length files.now }
    requires named { All HasFileName files.now }
    ensures reads { IfOk result (λ entry. IsSpanned (bytes_at place files.now) (view (bytes_at place files.now) entry.tree)) }
    ensures names { IfOk result (λ entry. Enters reading (name_of_file place files.now) (bytes_at place files.now) (map string_bytes entry.names.items)) }
    ensures named { IfOk result (λ entry. All IsFileName (map string_bytes entry.names.items)) }
    ensures stopped { IfErr result (StopsLooking (name_of_file place files.now) (bytes_at place files.now)) }
{
    let name = files.name(place);
    let bytes = files.bytes(place);
    let tree = match parse(alloc, bytes) {
        Ok(tree) => tree,
        Err(fault) => return Err(unparsed(alloc, name, bytes, fault)?),
    };
    let file = SourceFile {
        name,
        source: bytes,
        tree: &tree,
    };
    let names = entered_by(alloc, reading, file)?;
    Ok(ParsedFile { tree, names })
}

/// Reads the files that one of the files may enter, and returns its tree.
fn look<S: Store>(
    alloc: Global,
    store: &mut S,
    folder: Option<&str>,
    reading: Reading,
    files: &mut NamedFiles,
    place: usize,
) -> Result<Parsed, GatherFault>
    requires within { place < length files.old }
    requires named { All HasFileName files.old }
    requires few { length files.old ≤ max_files }
    ensures looked { OnOk result (Told (S.content store.old)
        (λ content. LooksAt reading content (named_folder folder.entry) place files.old files.new)) }
    ensures reads { IfOk result (λ tree. IsSpanned (bytes_at place files.old) (view (bytes_at place files.old) tree)) }
    ensures grows { OnOk result (Grows files.old files.new) }
    ensures stopped { IfErr result (StopsAt (S.failures store.old) (S.failures store.new)
        (λ end. Told (S.content store.old) (λ content. Gathers reading content (named_folder folder.entry) (take place files.old) (drop place files.old) end))) }
    ensures kept { S.content store.new ≡ S.content store.old }
    ensures counts { S.failures store.old ≤ S.failures store.new }
    ensures no_replace { S.replaces store.new ≡ S.replaces store.old }
    ensures asks { OnOk result (EntersFor reading (S.content store.old) (named_folder folder.entry) files.old place (S.reads store.old)
        files.new (S.reads store.new)) }
    ensures asks_at_most { IfErr result (λ fault. StopsFor reading (S.content store.old) (named_folder folder.entry) files.old place (S.reads store.old)
        (S.reads store.new) (unread_file fault)) }
{
    let ParsedFile { tree, names } = entry_at(alloc, reading, files, place)?;
    enter_all(alloc, store, folder, files, names.as_slice())?;
    Ok(tree)
}

/// The root file alone.
fn root_set<S: Store>(
    alloc: Global,
    store: &mut S,
    folder: Option<&str>,
) -> Result<NamedFiles, GatherFault>
    ensures root { IfOk result (λ files. (bytes : List ℕ) × (files ≡ file_of build_file bytes ∷ [])
        × Told (S.content store.old) (λ content. held_bytes content (named_folder folder.entry) build_file ≡ Some bytes)) }
    ensures stopped { IfErr result (λ stop. (reading : Reading) → StopsAt (S.failures store.old) (S.failures store.new)
        (Finds reading (S.content store.old) (named_folder folder.entry)) stop) }
    ensures kept { S.content store.new ≡ S.content store.old }
    ensures counts { S.failures store.old ≤ S.failures store.new }
    ensures no_replace { S.replaces store.new ≡ S.replaces store.old }
    ensures once { OnOk result (S.reads store.new ≡ one_more (S.reads store.old)) }
    ensures asks_at_most { IfErr result (λ fault. MayAsk build_file (S.reads store.old) (S.reads store.new) (unread_file fault)) }
{
    let name = Text::of(String::from_str(alloc, ROOT)?);
    let bytes = match read_file(alloc, store, folder, ROOT) {
        Ok(Some(bytes)) => bytes,
        Ok(None) => return Err(GatherFault::Store(StoreFault::NoFile(name))),
        Err(fault) => return Err(GatherFault::Store(fault)),
    };
    let mut files = NamedFiles::new(alloc);
    files.push(alloc, ROOT, bytes)?;
    Ok(files)
}

/// Reads the project in this folder: the root file, and then for each file in order those that it may enter, if build files are read so. Where they are
/// followed, a `subdir` call in a loop may enter a file for each text that is known of the loop's list.
/// A file that is entered need not exist. Each file is parsed once. The store is queried once for the root file, once for each entered name for which no file
/// was read before, and for no other.
///
/// # Errors
/// The store has no root file, a file can't be read or is not valid, there are too many, or out of memory. The file that can't be read is the last that the
/// store was queried for.
pub fn gather<S: Store>(
    alloc: Global,
    store: &mut S,
    folder: Option<&str>,
    reading: Reading,
) -> Result<Project, GatherFault>
    ensures files { IfOk result (λ project. Finds reading (S.content store.old) (named_folder folder.entry) (whole project.files)) }
    ensures stopped { IfErr result (StopsAt (S.failures store.old) (S.failures store.new)
        (Finds reading (S.content store.old) (named_folder folder.entry))) }
    ensures kept { S.content store.new ≡ S.content store.old }
    ensures counts { S.failures store.old ≤ S.failures store.new }
    ensures no_replace { S.replaces store.new ≡ S.replaces store.old }
    ensures asks { IfOk result (λ project. ReadsFiles reading (S.content store.old) (named_folder folder.entry) (S.reads store.old)
        project.files (S.reads store.new)) }
    ensures asks_at_most { IfErr result (λ fault. StopsReading reading (S.content store.old) (named_folder folder.entry) (S.reads store.old)
        (S.reads store.new) (unread_file fault)) }
{
    let mut files = root_set(alloc, store, folder)?;
    let mut trees = Vec::new(alloc);
    let mut looked = 0;
    'looking: while looked < files.len() {
        let tree = look(alloc, store, folder, reading, &mut files, looked)?;
        trees.push(tree)?;
        looked += 1;
    }
    Ok(Project::of(alloc, files.take(), trees))
}
