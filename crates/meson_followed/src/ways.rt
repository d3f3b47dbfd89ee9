//! Names that mean a path in the folder of another file.

ghost use Rattle.std.specs.Prelude.{◌≡◌, ◌≤◌, ◌-◌, ◌++◌, IfOk, drop, length, map, replicate};
ghost use Rattle.std.specs.List.{join_with_byte};
ghost use Rattle.meson_followed.specs.Paths.{name_from, name_of_way, upward, way_from};

use crate::paths::{file_folder, go_through};
use meson_splice::Text;
use std::alloc::{AllocError, Global};

/// How many parts a folder and a path begin with alike.
fn shared_len(folder: &[&str], path: &[&str]) -> usize
    ensures in_folder { result ≤ length folder.now }
    ensures in_path { result ≤ length path.now }
    ensures way { way_from (map (λ part. part.now) folder.now) (map (λ part. part.now) path.now)
        ≡ replicate (length folder.now - result) upward ++ map (λ part. part.now) (drop result path.now) }
{
    for i in 0..folder.len() {
        if i >= path.len() || folder[i] != path[i] {
            return i;
        }
    }
    folder.len()
}

/// The way from a folder to a path: up from each folder that is not on the way to the path, and on through the rest of the path.
fn way_from<'t>(
    alloc: Global,
    folder: &[&'t str],
    path: &[&'t str],
) -> Result<Vec<&'t str>, AllocError>
    ensures { IfOk result (λ way. map (λ part. part.now) way.items
        ≡ way_from (map (λ part. part.now) folder.now) (map (λ part. part.now) path.now)) }
{
    let shared = shared_len(folder, path);
    let mut way = Vec::new(alloc);
    way.resize(folder.len() - shared, "..")?;
    way.extend_from_slice(&path[shared..])?;
    Ok(way)
}

/// The text of these parts, with a slash between.
fn join_parts(alloc: Global, parts: &[&str]) -> Result<Text, AllocError>
    ensures { IfOk result (λ text. text ≡ join_with_byte 47 (map (λ part. part.now) parts.now)) }
{
    let mut text = String::new(alloc);
    for i in 0..parts.len() {
        if i > 0 {
            text.push_str("/")?;
        }
        text.push_str(parts[i])?;
    }
    Ok(Text::of(text))
}

/// A way as a name; `.` where it has no part.
fn name_of_way(alloc: Global, way: &[&str]) -> Result<Text, AllocError>
    ensures { IfOk result (λ name. name ≡ name_of_way (map (λ part. part.now) way.now)) }
{
    if way.is_empty() {
        return join_parts(alloc, &["."]);
    }
    join_parts(alloc, way)
}

/// A name that means in the file of the last name what the text means in the file of the first one.
pub(crate) fn name_from<'t>(
    alloc: Global,
    file: &'t str,
    text: &'t str,
    base: &'t str,
) -> Result<Text, AllocError>
    ensures { IfOk result (λ name. name ≡ name_from file.now text.now base.now) }
{
    let mut path = file_folder(alloc, file)?;
    go_through(alloc, &mut path, text)?;
    let folder = file_folder(alloc, base)?;
    let way = way_from(alloc, folder.as_slice(), path.as_slice())?;
    name_of_way(alloc, way.as_slice())
}
