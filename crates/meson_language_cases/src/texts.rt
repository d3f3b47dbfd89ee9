//! Questions about one text: its items, whether it parses, how deep it is, the literals.

use crate::tree::put_file_spans;
use meson_case_files::Transcript;
use meson_edit::nests_within;
use meson_lex::{Kind, is_identifier, items, literal_value, text, write_literal};
use meson_syntax::{
    Bracket, Limits, ParseFault, parse, parse_list, parse_list_within, parse_wide, parse_within,
};
use std::alloc::{AllocError, Global};

/// Each item's kind, and its end.
pub fn put_items(source: &[u8], to: &mut Transcript) {
    to.put(if source.is_empty() { "  none" } else { " " });
    for item in items(source) {
        to.put(" ");
        match item {
            Ok(item) => {
                to.debug(&item.kind);
                to.put(" ");
                to.show(&item.span.to);
            }
            Err(fault) => to.show(&fault),
        }
    }
    to.put("\n");
}

/// The number of items before the fault, and the fault.
pub fn put_first_fault(source: &[u8], to: &mut Transcript) {
    let mut count = 0u64;
    for item in items(source) {
        match item {
            Ok(_) => count = count.saturating_add(1),
            Err(fault) => {
                to.put("  items: ");
                to.show(&count);
                to.put(", then ");
                to.show(&fault);
                to.put("\n");
            }
        }
    }
}

/// Writes that a text parses, or why it does not.
fn put_fault(fault: Option<ParseFault>, to: &mut Transcript) {
    match fault {
        None => to.line("reads"),
        Some(fault) => to.show_line(&fault),
    }
}

pub fn put_read(alloc: Global, source: &[u8], to: &mut Transcript) {
    put_fault(parse(alloc, source).err(), to);
}

pub fn put_wide(alloc: Global, source: &[u8], to: &mut Transcript) {
    put_fault(parse_wide(alloc, source).err(), to);
}

/// The brackets that a word names.
fn bracket_of(word: &str) -> Bracket {
    match word {
        "round" | "round-within" => Bracket::Round,
        "square" | "square-within" => Bracket::Square,
        _ => Bracket::Curly,
    }
}

/// Whether the text is a list in these brackets.
pub fn put_list(alloc: Global, word: &str, source: &[u8], to: &mut Transcript) {
    put_fault(parse_list(alloc, source, bracket_of(word)).err(), to);
}

/// Whether it is one of at most some depth.
pub fn put_list_within(alloc: Global, word: &str, source: &[u8], depth: &str, to: &mut Transcript) {
    let depth = depth.parse::<u16>().unwrap_or(0) as usize;
    put_fault(
        parse_list_within(alloc, source, bracket_of(word), depth).err(),
        to,
    );
}

/// Whether a text parses within limits: its greatest length, if any, and its greatest depth.
pub fn put_within(alloc: Global, source: &[u8], limits: &str, to: &mut Transcript) {
    let (len, depth) = limits.split_once(' ').unwrap_or(("", ""));
    let limits = Limits {
        len: len.parse::<usize>().ok(),
        depth: depth.parse::<u16>().unwrap_or(0) as usize,
    };
    put_fault(parse_within(alloc, source, limits).err(), to);
}

/// The least depth limit that a text meets.
pub fn put_depth(alloc: Global, source: &[u8], to: &mut Transcript) {
    let file = match parse(alloc, source) {
        Ok(file) => file,
        Err(fault) => return to.show_line(&fault),
    };
    for depth in 0..65 {
        if nests_within(&file, depth) {
            return to.show_line(&depth);
        }
    }
}

/// Whether a copy of a text's tree is the tree.
pub fn put_copied(alloc: Global, source: &[u8], to: &mut Transcript) {
    match is_copied(alloc, source) {
        Some(true) => to.line("the same"),
        Some(false) => to.line("another tree"),
        None => to.line("no copy"),
    }
}

fn is_copied(alloc: Global, source: &[u8]) -> Option<bool> {
    let file = parse(alloc, source).ok()?;
    let copy = file.copy(alloc).ok()?;
    let mut one = Transcript::new(alloc);
    put_file_spans(source, &file, &mut one);
    let mut other = Transcript::new(alloc);
    put_file_spans(source, &copy, &mut other);
    Some(one.get() == other.get())
}

/// The text of the string that a source begins with.
fn value_of(alloc: Global, source: &[u8]) -> Option<Option<String>> {
    let Some(Ok(item)) = items(source).next() else {
        return None;
    };
    let token = text(source, item.span);
    match item.kind {
        Kind::PlainString => literal_value(alloc, token, Kind::PlainString).ok(),
        Kind::MultilineString => literal_value(alloc, token, Kind::MultilineString).ok(),
        Kind::FormatString => literal_value(alloc, token, Kind::FormatString).ok(),
        Kind::FormatMultilineString => {
            literal_value(alloc, token, Kind::FormatMultilineString).ok()
        }
        _ => None,
    }
}

pub fn put_value(alloc: Global, source: &[u8], to: &mut Transcript) {
    match value_of(alloc, source) {
        Some(Some(value)) => {
            to.put("  |");
            to.escape(value.as_bytes());
            to.put("|\n");
        }
        Some(None) => to.line("opaque"),
        None => to.line("no string"),
    }
}

/// The literal that is written for a text.
pub fn put_literal(alloc: Global, source: &[u8], to: &mut Transcript) {
    let source = str::from_utf8(source).unwrap_or("?");
    if let Ok(token) = write_literal(alloc, source) {
        to.put("  ");
        to.escape(token.as_slice());
        to.put("\n");
    }
}

pub fn put_identifier(source: &[u8], to: &mut Transcript) {
    let name = str::from_utf8(source).unwrap_or("?");
    to.line(if is_identifier(name) { "yes" } else { "no" });
}
