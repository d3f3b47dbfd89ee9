//! The files that folders mean.

ghost use Rattle.std.specs.Prelude.{◌≡◌, IfOk, option_map, string_bytes};
ghost use Rattle.meson_calls.specs.Folders.{IsFileName, folder_of, file_in};
ghost use Rattle.meson_calls.specs.Entering.{folder_file};

use crate::call::Reading;
use crate::folders::{is_plain_folder, write_plainly};
use std::alloc::{AllocError, Global};

/// The folder of a build file, with the slash after it.
fn folder_of(name: &str) -> &str
    requires { IsFileName name.now }
    ensures { result.now ≡ folder_of name.now }
{
    match name.strip_suffix("meson.build") {
        Some(folder) => folder,
        None => "",
    }
}

/// The file that a `subdir` of this folder means in the file of this name.
pub fn file_in(alloc: Global, name: &str, folder: &str) -> Result<Option<String>, AllocError>
    requires { IsFileName name.now }
    ensures { IfOk result (λ file. option_map string_bytes file ≡ file_in name.now folder.now) }
{
    if !is_plain_folder(folder.as_bytes()) {
        return Ok(None);
    }
    let mut file = String::from_str(alloc, folder_of(name))?;
    file.push_str(folder)?;
    file.push_str("/meson.build")?;
    Ok(Some(file))
}

/// The file that a `subdir` of this folder means in the file of this name, where the folder may be written otherwise: `s/` and `./s` mean `s`.
fn followed_file(alloc: Global, name: &str, folder: &str) -> Result<Option<String>, AllocError>
    requires { IsFileName name.now }
    ensures { IfOk result (λ file. option_map string_bytes file ≡ folder_file Reading.Followed name.now folder.now) }
{
    if folder.starts_with('/') {
        return Ok(None);
    }
    let plain = write_plainly(alloc, folder)?;
    let file = file_in(alloc, name, plain.as_str())?;
    Ok(file)
}

/// The file that a `subdir` of this folder means in the file of this name, where build files are read so.
///
/// # Errors
/// Out of memory.
pub fn file_as(
    alloc: Global,
    reading: Reading,
    name: &str,
    folder: &str,
) -> Result<Option<String>, AllocError>
    requires { IsFileName name.now }
    ensures { IfOk result (λ file. option_map string_bytes file ≡ folder_file reading name.now folder.now) }
{
    match reading {
        Reading::Written => file_in(alloc, name, folder),
        Reading::Followed => followed_file(alloc, name, folder),
    }
}
