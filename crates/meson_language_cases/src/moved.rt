//! Trees whose borders move.

use crate::edits::place_of;
use crate::tree::{put_file_spans, put_list_spans};
use meson_case_files::{Transcript, bytes_of};
use meson_lex::Span;
use meson_syntax::{Bracket, Parsed, parse, parse_list};
use std::alloc::{AllocError, Global};

/// The bracket that a text begins with.
fn bracket_of(text: &[u8]) -> Bracket {
    match text.first() {
        Some(b'(') => Bracket::Round,
        Some(b'[') => Bracket::Square,
        _ => Bracket::Curly,
    }
}

/// The list of a text, with each border moved by a number of bytes, over the text after as many blanks.
pub fn put_moved(
    alloc: Global,
    text: &[u8],
    words: &str,
    to: &mut Transcript,
) -> Result<(), AllocError> {
    let by = words.parse::<u16>().unwrap_or(0);
    let mut moved = Vec::new(alloc);
    for _ in 0..by {
        moved.extend_from_slice(b" ")?;
    }
    moved.extend_from_slice(text)?;
    match parse_list(alloc, text, bracket_of(text)) {
        Ok(mut list) => {
            list.move_by(by as usize);
            put_list_spans(moved.as_slice(), &list, to);
        }
        Err(fault) => to.show_line(&fault),
    }
    Ok(())
}

/// A text with other bytes at a span.
fn exchanged(alloc: Global, text: &[u8], span: Span, new: &[u8]) -> Result<Vec<u8>, AllocError> {
    let mut bytes = Vec::from_slice(alloc, text.get(..span.from).unwrap_or(&[]))?;
    bytes.extend_from_slice(new)?;
    bytes.extend_from_slice(text.get(span.to..).unwrap_or(&[]))?;
    Ok(bytes)
}

/// The tree of a text, with its borders as they are once the bytes of a span are replaced.
fn shifted(alloc: Global, text: &[u8], span: Span, new: &[u8]) -> Option<Parsed> {
    if span.from >= span.to || span.to > text.len() {
        return None;
    }
    match parse(alloc, text) {
        Ok(mut file) => {
            file.shift(span.from, span.to - span.from, new.len());
            Some(file)
        }
        Err(_) => None,
    }
}

/// That tree, over the text in which the first place of a part is replaced by what is after ` :: `.
pub fn put_shifted(
    alloc: Global,
    text: &[u8],
    words: &str,
    to: &mut Transcript,
) -> Result<(), AllocError> {
    let (part, new) = words.split_once(" :: ").unwrap_or((words, ""));
    let part = bytes_of(alloc, part)?;
    let new = bytes_of(alloc, new)?;
    let Some(span) = place_of(text, part.as_slice()) else {
        to.line("no such part");
        return Ok(());
    };
    let after = exchanged(alloc, text, span, new.as_slice())?;
    match shifted(alloc, text, span, new.as_slice()) {
        Some(file) => put_file_spans(after.as_slice(), &file, to),
        None => to.line("no tree"),
    }
    Ok(())
}
