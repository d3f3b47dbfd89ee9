//! The bytes that texts of a case file stand for.

use std::alloc::{AllocError, Global};

/// A line of a file that ends in this has no line end.
const NO_LINE_END: &str = "«no line end»";

/// Appends a text to the bytes; signs in it mean control characters.
fn put_plain(bytes: &mut Vec<u8>, text: &str) -> Result<(), AllocError> {
    let mut rest = [0u8; 4];
    for c in text.chars() {
        match c {
            '⏎' => bytes.extend_from_slice(b"\n")?,
            '␍' => bytes.extend_from_slice(b"\r")?,
            '␉' => bytes.extend_from_slice(b"\t")?,
            _ => bytes.extend_from_slice(c.encode_utf8(&mut rest).as_bytes())?,
        }
    }
    Ok(())
}

/// Appends a text to the bytes a number of times: `64 [` is 64 brackets.
fn put_repeated(alloc: Global, bytes: &mut Vec<u8>, code: &str) -> Result<(), AllocError> {
    let (count, text) = code.split_once(' ').unwrap_or((code, ""));
    let mut part = Vec::new(alloc);
    put_plain(&mut part, text)?;
    for _ in 0..count.parse::<u32>().unwrap_or(0) {
        bytes.extend_from_slice(part.as_slice())?;
    }
    Ok(())
}

/// The byte of two digits of base 16.
fn byte_of(code: &str) -> Option<u8> {
    if code.len() == 2 {
        u8::from_str_radix(code, 16).ok()
    } else {
        None
    }
}

fn put_code(alloc: Global, bytes: &mut Vec<u8>, code: &str) -> Result<(), AllocError> {
    if code.is_empty() || code == "no line end" {
        return Ok(());
    }
    match byte_of(code) {
        Some(byte) => bytes.extend_from_slice(&[byte]),
        None => put_repeated(alloc, bytes, code),
    }
}

/// Appends the bytes of a code, and then those of the text after it.
fn put_piece(alloc: Global, bytes: &mut Vec<u8>, piece: &str) -> Result<(), AllocError> {
    let (code, rest) = piece.split_once('»').unwrap_or((piece, ""));
    put_code(alloc, bytes, code)?;
    put_plain(bytes, rest)
}

/// The bytes that a text stands for. It is itself, but for these signs: `⏎`, `␍` and `␉` are LF, CR and TAB. `«ff»` is the byte of these digits of base 16,
/// `«64 [»` is a text that is repeated, and `«»` is nothing.
pub fn bytes_of(alloc: Global, text: &str) -> Result<Vec<u8>, AllocError> {
    let mut bytes = Vec::new(alloc);
    let mut pieces = text.split('«');
    if let Some(first) = pieces.next() {
        put_plain(&mut bytes, first)?;
    }
    for piece in pieces {
        put_piece(alloc, &mut bytes, piece)?;
    }
    Ok(bytes)
}

/// The same as text.
pub fn text_of(alloc: Global, text: &str) -> Result<String, AllocError> {
    let bytes = bytes_of(alloc, text)?;
    String::from_str(alloc, str::from_utf8(bytes.as_slice()).unwrap_or("?"))
}

/// The bytes of a line of a file, with its line end if it has one.
pub fn line_of(alloc: Global, text: &str) -> Result<Vec<u8>, AllocError> {
    let mut bytes = bytes_of(alloc, text)?;
    if !text.ends_with(NO_LINE_END) {
        bytes.extend_from_slice(b"\n")?;
    }
    Ok(bytes)
}
