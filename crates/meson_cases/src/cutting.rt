//! A call of the program on files, one of which is cut at each length.

use crate::failures::Failures;
use crate::files::Files;
use crate::program::store_of;
use meson_case_files::Transcript;
use meson_rewrite::{Counted, Memory, rewrite};
use std::alloc::{AllocError, Global};

/// A file that is cut.
#[derive(Clone, Copy)]
struct Cut<'a> {
    name: &'a str,
    front: &'a [u8],
}

/// Writes what an output got, without the end of its last line. A place at the end of the file's front is named as such.
fn put_told(alloc: Global, told: &[u8], len: usize, to: &mut Transcript) -> Result<(), AllocError> {
    let told = told.strip_suffix(b"\n").unwrap_or(told);
    let at_end = format!(in alloc; " at {len}")?;
    match told.strip_suffix(at_end.as_bytes()) {
        Some(words) => {
            to.escape(words);
            to.put(" at its end");
        }
        None => to.escape(told),
    }
    Ok(())
}

/// Writes the names of the files that a call changed.
fn put_changed_names(store: &Memory, files: &Files, cut: Cut<'_>, to: &mut Transcript) {
    let mut is_first = true;
    for file in files.get() {
        let name = file.name.as_str();
        let before = if name == cut.name {
            Some(cut.front)
        } else {
            files.bytes(name)
        };
        if store.get(name) != before {
            to.put(if is_first { ", changed " } else { " " });
            to.put(name);
            is_first = false;
        }
    }
}

/// What a call says on a cut file, its status, and the files that it changed.
fn put_answer(
    alloc: Global,
    files: &Files,
    cut: Cut<'_>,
    words: &[String],
    to: &mut Transcript,
) -> Result<(), AllocError> {
    let mut store = store_of(files, alloc, Failures::NONE)?;
    store.put(cut.name, cut.front)?;
    let mut out = Counted::new(Vec::new(alloc));
    let mut err = Counted::new(Vec::new(alloc));
    let status = rewrite(alloc, &mut store, words, &mut out, &mut err);
    let mut told = out.take();
    told.extend_from_slice(err.take().as_slice())?;
    put_told(alloc, told.as_slice(), cut.front.len(), to)?;
    to.put(", status ");
    to.show(&status);
    put_changed_names(&store, files, cut, to);
    Ok(())
}

fn put_range(from: usize, to: usize, answer: &str, out: &mut Transcript) {
    out.put("  bytes ");
    out.show(&from);
    out.put(" to ");
    out.show(&to);
    out.put(": ");
    out.put(answer);
    out.put("\n");
}

/// The result of a call for a file that ends at each length, up to its own. Equal neighbours are written once.
pub fn put_cuts(
    alloc: Global,
    files: &Files,
    name: &str,
    words: &[String],
    to: &mut Transcript,
) -> Result<(), AllocError> {
    let bytes = files.bytes(name).unwrap_or(b"");
    let mut from = 0;
    let mut last = Transcript::new(alloc);
    for len in 0..=bytes.len() {
        let front = &bytes[..len];
        let mut next = Transcript::new(alloc);
        put_answer(alloc, files, Cut { name, front }, words, &mut next)?;
        if next.get() != last.get() {
            if len > 0 {
                put_range(from, len - 1, last.get(), to);
            }
            from = len;
            last = next;
        }
    }
    put_range(from, bytes.len(), last.get(), to);
    Ok(())
}
