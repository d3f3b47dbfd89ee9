//! Lists that replace others.

use crate::nodes::path_of;
use crate::tree::put_file_and_list;
use meson_case_files::Transcript;
use meson_syntax::{Bracket, parse, parse_list};
use std::alloc::{AllocError, Global};

/// The tree of a text with the list of the second path in place of the list of the first path, and the replaced list. If the second path names no list, an
/// empty list is put there.
pub fn put_put(
    alloc: Global,
    source: &[u8],
    words: &str,
    to: &mut Transcript,
) -> Result<(), AllocError> {
    let (place, from) = words.split_once(" :: ").unwrap_or((words, ""));
    let place = path_of(alloc, place)?;
    let from = path_of(alloc, from)?;
    let (Ok(mut file), Ok(mut other), Ok(empty)) = (
        parse(alloc, source),
        parse(alloc, source),
        parse_list(alloc, b"[]", Bracket::Square),
    ) else {
        to.line("no tree");
        return Ok(());
    };
    let list = other.put_list(&from, empty);
    let old = file.put_list(&place, list);
    put_file_and_list(source, &file, &old, to);
    Ok(())
}
