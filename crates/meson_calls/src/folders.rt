//! Names of folders and of build files.

ghost use Rattle.std.specs.Prelude.{◌≡◌, ◌↔◌, IfOk, IsTrue, filter, map, string_bytes};
ghost use Rattle.std.specs.List.{join_with_byte, list_any};
ghost use Rattle.meson_calls.specs.Entering.{names_folder, plainly};
ghost use Rattle.meson_calls.specs.Folders.{is_control, goes_nowhere, slash_parts, is_plain_folder, IsFileName};

use std::alloc::{AllocError, Global};

/// A control character.
fn is_control(byte: u8) -> bool
    ensures { result ≡ is_control byte }
{
    byte < 32 || byte == 127
}

/// A part between slashes that names no folder of its own.
fn goes_nowhere(part: &[u8]) -> bool
    ensures { result ≡ goes_nowhere part.now }
{
    part == b"".as_slice() || part == b".".as_slice() || part == b"..".as_slice()
}

/// Whether a part between slashes is empty, `.` or `..`.
fn has_bad_part(folder: &[u8]) -> bool
    ensures { result ≡ list_any goes_nowhere (slash_parts folder.now) }
{
    let mut from = 0;
    for i in 0..folder.len() {
        if folder[i] == b'/' {
            if goes_nowhere(&folder[from..i]) {
                return true;
            }
            from = i + 1;
        }
    }
    goes_nowhere(&folder[from..])
}

/// Whether a text has a control character of ASCII: a byte below 32, or 127.
pub fn has_control(text: &[u8]) -> bool
    ensures { result ≡ list_any is_control text.now }
{
    text.iter().any(|&byte| is_control(byte))
}

/// Whether the text names a folder below, by plain parts.
pub fn is_plain_folder(folder: &[u8]) -> bool
    ensures { result ≡ is_plain_folder folder.now }
{
    !has_control(folder) && !has_bad_part(folder)
}

/// Whether the text is the name of a build file.
pub fn is_file_name(name: &[u8]) -> bool
    ensures { IsTrue result ↔ IsFileName name.now }
{
    if name == b"meson.build".as_slice() {
        return true;
    }
    match name.strip_suffix(b"/meson.build".as_slice()) {
        Some(folder) => is_plain_folder(folder),
        None => false,
    }
}

/// Whether a part between slashes names a folder.
fn names_folder(part: &str) -> bool
    ensures { result ≡ names_folder part.now }
{
    !part.is_empty() && part != "."
}

/// The parts between slashes that name a folder.
fn parts_of(alloc: Global, folder: &str) -> Result<Vec<&str>, AllocError>
    ensures { IfOk result (λ parts. map (λ part. part.now) parts.items ≡ filter names_folder (slash_parts folder.now)) }
{
    folder
        .split('/')
        .filter(|part| names_folder(part))
        .collect(alloc)
}

/// The text of these parts, with a slash between.
fn join_parts(alloc: Global, parts: &[&str]) -> Result<String, AllocError>
    ensures { IfOk result (λ text. string_bytes text ≡ join_with_byte 47 (map (λ part. part.now) parts.now)) }
{
    let mut text = String::new(alloc);
    for i in 0..parts.len() {
        if i > 0 {
            text.push_str("/")?;
        }
        text.push_str(parts[i])?;
    }
    Ok(text)
}

/// A folder written plainly: without the parts between slashes that are empty or `.`, which name none.
pub(crate) fn write_plainly(alloc: Global, folder: &str) -> Result<String, AllocError>
    ensures { IfOk result (λ plain. string_bytes plain ≡ plainly folder.now) }
{
    let parts = parts_of(alloc, folder)?;
    join_parts(alloc, parts.as_slice())
}
