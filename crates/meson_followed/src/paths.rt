//! The paths that names of sources mean.

ghost use Rattle.std.specs.Prelude.{◌≡◌, IfOk, OnOk, map, not};
ghost use Rattle.meson_calls.specs.Entering.{names_folder};
ghost use Rattle.meson_calls.specs.Folders.{slash_parts};
ghost use Rattle.meson_followed.specs.Paths.{around, file_folder, onward, path_of, start_of, through_parts, written_path};

use meson_splice::Text;
use std::alloc::{AllocError, Global};

/// Whether a part between slashes means nothing.
fn means_nothing(part: &str) -> bool
    ensures { result ≡ not (names_folder part.now) }
{
    part.is_empty() || part == "."
}

/// Goes to the folder around.
fn go_up(parts: &mut Vec<&str>) -> Result<(), AllocError>
    ensures { OnOk result (map (λ part. part.now) parts.new.items ≡ around (map (λ part. part.now) parts.old.items)) }
{
    if let Some(last) = parts.as_slice().last().copied() {
        if last.is_empty() {
            return Ok(());
        }
        if last != ".." {
            parts.pop();
            return Ok(());
        }
    }
    parts.push("..")?;
    Ok(())
}

/// Goes one part further.
fn go_on<'t>(parts: &mut Vec<&'t str>, part: &'t str) -> Result<(), AllocError>
    ensures { OnOk result (map (λ part. part.now) parts.new.items ≡ onward (map (λ part. part.now) parts.old.items) part.now) }
{
    if means_nothing(part) {
        return Ok(());
    }
    if part == ".." {
        return go_up(parts);
    }
    parts.push(part)?;
    Ok(())
}

/// The parts of a text between slashes.
fn parts_of(alloc: Global, text: &str) -> Result<Vec<&str>, AllocError>
    ensures { IfOk result (λ parts. map (λ part. part.now) parts.items ≡ slash_parts text.now) }
{
    text.split('/').collect(alloc)
}

/// Goes through the parts of a text.
pub(crate) fn go_through<'t>(
    alloc: Global,
    parts: &mut Vec<&'t str>,
    text: &'t str,
) -> Result<(), AllocError>
    ensures { OnOk result (map (λ part. part.now) parts.new.items ≡ through_parts (map (λ part. part.now) parts.old.items) text.now) }
{
    let all = parts_of(alloc, text)?;
    for i in 0..all.len() {
        go_on(parts, all[i])?;
    }
    Ok(())
}

/// The folder of the file of this name.
pub(crate) fn file_folder(alloc: Global, file: &str) -> Result<Vec<&str>, AllocError>
    ensures { IfOk result (λ parts. map (λ part. part.now) parts.items ≡ file_folder file.now) }
{
    let mut parts = Vec::new(alloc);
    go_through(alloc, &mut parts, file)?;
    go_up(&mut parts)?;
    Ok(parts)
}

/// Where a text in the file of this name begins: at the root, or in the folder of the file.
fn start_of<'t>(alloc: Global, file: &'t str, text: &'t str) -> Result<Vec<&'t str>, AllocError>
    ensures { IfOk result (λ parts. map (λ part. part.now) parts.items ≡ start_of file.now text.now) }
{
    if text.starts_with('/') {
        let mut parts = Vec::new(alloc);
        parts.push("")?;
        return Ok(parts);
    }
    file_folder(alloc, file)
}

/// The parts as one text, each with a slash after it.
fn write_path(alloc: Global, parts: &[&str]) -> Result<Text, AllocError>
    ensures { IfOk result (λ text. text ≡ written_path (map (λ part. part.now) parts.now)) }
{
    let mut text = String::new(alloc);
    for i in 0..parts.len() {
        text.push_str(parts[i])?;
        text.push_str("/")?;
    }
    Ok(Text::of(text))
}

/// The path that a text means in the file of this name. Two texts mean the same file if their paths are equal.
pub(crate) fn path_of(alloc: Global, file: &str, text: &str) -> Result<Text, AllocError>
    ensures { IfOk result (λ path. path ≡ path_of file.now text.now) }
{
    let mut parts = start_of(alloc, file, text)?;
    go_through(alloc, &mut parts, text)?;
    let path = write_path(alloc, parts.as_slice())?;
    Ok(path)
}
