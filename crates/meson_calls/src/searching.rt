//! Which build files are searched for a call.

ghost use Rattle.std.specs.Prelude.{◌≡◌, IfOk, Ok, option_map, string_bytes};
ghost use Rattle.meson_calls.specs.Refusals.{RefusedAs};
ghost use Rattle.meson_calls.specs.Searching.{file_of_folder, names_of, numbered_file, places_within, position_of_name, searched_file};

use crate::call::CallRef;
use crate::refusal::Refusal;
use meson_splice::{FileSet, Text};
use std::alloc::{AllocError, Global};

/// The name of the build file of a folder.
fn file_of_folder(alloc: Global, folder: &Text) -> Result<String, AllocError>
    ensures { IfOk result (λ name. string_bytes name ≡ file_of_folder folder.now) }
{
    let folder = folder.get();
    if folder == "." {
        return String::from_str(alloc, "meson.build");
    }
    format!(in alloc; "{folder}/meson.build")
}

/// The number of the file of this name, if there is one.
fn position_of_name(files: &FileSet, name: &str) -> Option<usize>
    ensures { result ≡ position_of_name name.now (names_of files.now) }
{
    files.find(name)
}

/// The same.
///
/// # Errors
/// There is no such file.
fn numbered_file(files: &FileSet, name: &str) -> Result<usize, Refusal>
    ensures { result ≡ numbered_file (names_of files.now) name.now }
{
    position_of_name(files, name).ok_or(Refusal::NoFile)
}

/// The number of the one file that is searched, if a folder is given.
///
/// # Errors
/// The folder has no build file, or out of memory.
pub fn searched_file(
    alloc: Global,
    files: &FileSet,
    folder: Option<&Text>,
) -> Result<Option<usize>, Refusal>
    ensures found { IfOk result (λ within. searched_file (names_of files.now) (option_map (λ f. f.now) folder.entry) ≡ Ok within) }
    ensures refused { RefusedAs result (searched_file (names_of files.now) (option_map (λ f. f.now) folder.entry)) }
{
    match folder {
        Some(folder) => {
            let name = file_of_folder(alloc, folder)?;
            Ok(Some(numbered_file(files, name.as_str())?))
        }
        None => Ok(None),
    }
}

/// Those of some places that are in the file that is searched, if it is one alone.
pub fn places_within(
    alloc: Global,
    within: Option<usize>,
    places: Vec<CallRef>,
) -> Result<Vec<CallRef>, AllocError>
    ensures { IfOk result (λ kept. kept.items ≡ places_within within places.items) }
{
    let Some(file) = within else {
        return Ok(places);
    };
    let mut kept = Vec::new(alloc);
    for place in places {
        if place.file == file {
            kept.push(place)?;
        }
    }
    Ok(kept)
}
