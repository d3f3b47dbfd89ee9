//! Why a file does not parse: its line, with a mark below the place.

ghost use Rattle.std.specs.Prelude.{◌≡◌, ◌++◌, IfOk, OnOk, drop, encode_utf8_all, map, option_map, option_to_list, reverse, string_bytes};
ghost use Rattle.meson_explaining.specs.Excerpts.{excerpt, fault_explanation, fault_help, fault_lines, fault_note, fault_notes, place_lines, plain_char, last_before, shown_after, shown_before};

use crate::explanation::{Explanation, Note, Spot};
use crate::lines::{add_line, before, last_line_len, line_feeds, place_words};
use crate::printable::chars_of;
use meson_lex::LexFault;
use meson_splice::{Many, Text};
use meson_syntax::ParseFault;
use std::alloc::{AllocError, Global};

/// The most characters of a line that are shown before a place.
const MOST_BEFORE: usize = 60;

/// The most that are shown from it on.
const MOST_AFTER: usize = 40;

/// A character of a line; a control character, as a tab, is shown as a blank, so that the mark is below its place.
fn plain_char(c: char) -> char
    ensures { result ≡ plain_char c }
{
    if c.is_control() { ' ' } else { c }
}

/// What is shown of a line before an offset, the last character first.
fn last_before(alloc: Global, bytes: &[u8], at: usize) -> Result<Vec<char>, AllocError>
    ensures { IfOk result (λ shown. shown.items ≡ last_before bytes.now at) }
{
    let text = String::from_utf8_lossy(alloc, before(bytes, at))?;
    let chars = chars_of(alloc, text.as_str())?;
    chars
        .iter()
        .rev()
        .take_while(|c| **c != '\n')
        .take(MOST_BEFORE)
        .map(|c| plain_char(*c))
        .collect(alloc)
}

/// What is shown of a line before an offset.
fn shown_before(alloc: Global, bytes: &[u8], at: usize) -> Result<Vec<char>, AllocError>
    ensures { IfOk result (λ shown. shown.items ≡ reverse (last_before bytes.now at)) }
{
    let mut shown = last_before(alloc, bytes, at)?;
    shown.reverse();
    Ok(shown)
}

/// The bytes from an offset on.
fn after(bytes: &[u8], at: usize) -> &[u8]
    ensures { result.now ≡ drop at bytes.now }
{
    &bytes[at.min(bytes.len())..]
}

/// What is shown of it from there on.
fn shown_after(alloc: Global, bytes: &[u8], at: usize) -> Result<Vec<char>, AllocError>
    ensures { IfOk result (λ shown. shown.items ≡ shown_after bytes.now at) }
{
    let text = String::from_utf8_lossy(alloc, after(bytes, at))?;
    text.chars()
        .take_while(|c| *c != '\n' && *c != '\r')
        .take(MOST_AFTER)
        .map(plain_char)
        .collect(alloc)
}

/// Characters as a text.
fn text_of_chars(alloc: Global, chars: &[char]) -> Result<String, AllocError>
    ensures { IfOk result (λ text. string_bytes text ≡ encode_utf8_all chars.now) }
{
    chars.iter().copied().collect(alloc)
}

/// As many blanks as there are characters.
fn blanks_for(alloc: Global, chars: &[char]) -> Result<String, AllocError>
    ensures { IfOk result (λ text. string_bytes text ≡ encode_utf8_all (map (λ c. 32) chars.now)) }
{
    chars.iter().map(|_| ' ').collect(alloc)
}

/// The line of an offset, and below it a mark.
fn excerpt(alloc: Global, bytes: &[u8], at: usize) -> Result<String, AllocError>
    ensures { IfOk result (λ text. string_bytes text ≡ excerpt bytes.now at) }
{
    let before = shown_before(alloc, bytes, at)?;
    let after = shown_after(alloc, bytes, at)?;
    let begin = text_of_chars(alloc, before.as_slice())?;
    let end = text_of_chars(alloc, after.as_slice())?;
    let blanks = blanks_for(alloc, before.as_slice())?;
    format!(in alloc; "    {begin}{end}\n    {blanks}^\n")
}

/// Where a file does not parse, and what is there. Some faults are of the file as a whole.
fn fault_note(fault: ParseFault) -> Option<(usize, &'static str)>
    ensures { option_map (λ note. (note.0, note.1.now)) result ≡ fault_note fault }
{
    match fault {
        ParseFault::Lex(LexFault::StrayByte(at)) => {
            Some((at, "no word of the language begins with this character"))
        }
        ParseFault::Lex(LexFault::OpenString(at)) => Some((at, "this string has no end")),
        ParseFault::Lex(LexFault::BadNumber(at)) => Some((at, "this is no number")),
        ParseFault::Lex(LexFault::BareCarriageReturn(at)) => {
            Some((at, "here is a carriage return without a line feed"))
        }
        ParseFault::Unexpected(at) => Some((at, "this is not allowed here")),
        ParseFault::TooDeep(at) => Some((at, "at most 64 constructs may be inside one another")),
        ParseFault::TooLarge
        | ParseFault::NotUtf8
        | ParseFault::ByteOrderMark
        | ParseFault::OutOfMemory => None,
    }
}

/// What may be done about a file that does not parse.
fn fault_help(fault: ParseFault) -> Option<&'static str>
    ensures { option_map (λ help. help.now) result ≡ fault_help fault }
{
    match fault {
        ParseFault::TooLarge => Some("a build file has at most 1048576 bytes: split it by subdir"),
        ParseFault::NotUtf8 => Some("save the file as UTF-8"),
        ParseFault::ByteOrderMark => Some("save the file without a byte order mark"),
        ParseFault::Lex(LexFault::StrayByte(_)) => {
            Some("strings are in single quotes, and comments begin with #")
        }
        ParseFault::Lex(LexFault::OpenString(_)) => {
            Some("close it by ' on its line, or write ''' around a text of several lines")
        }
        ParseFault::Lex(LexFault::BadNumber(_)) => {
            Some("digits follow one another, after 0x, 0o or 0b those of that base")
        }
        ParseFault::Lex(LexFault::BareCarriageReturn(_)) => {
            Some("save the file with LF or CR LF as line ends")
        }
        ParseFault::Unexpected(_) => {
            Some(
                "a statement ends with its line, unless a bracket is open or the line ends in a backslash",
            )
        }
        ParseFault::TooDeep(_) => Some("use a variable for what is inside"),
        ParseFault::OutOfMemory => None,
    }
}

/// Adds the lines of what is at a place.
fn add_place(
    alloc: Global,
    lines: &mut String,
    name: &str,
    bytes: &[u8],
    note: (usize, &str),
) -> Result<(), AllocError>
    ensures { OnOk result (string_bytes lines.new ≡ string_bytes lines.old ++ place_lines name.now bytes.now (note.entry.0, note.entry.1.now)) }
{
    let (at, words) = note;
    let before = before(bytes, at);
    let place = place_words(
        alloc,
        name,
        line_feeds(before) + 1,
        last_line_len(before) + 1,
    )?;
    let line = format!(in alloc; "note: {place}{words}")?;
    add_line(alloc, lines, line.as_str())?;
    let excerpt = excerpt(alloc, bytes, at)?;
    lines.push_str(excerpt.as_str())
}

/// The lines that explain why a file does not parse: `note: FILE:LINE:COLUMN: TEXT`, the line of the file, cut, with a mark below the place, and `help: TEXT`.
///
/// # Errors
/// Out of memory.
pub fn fault_lines(
    alloc: Global,
    name: &str,
    bytes: &[u8],
    fault: ParseFault,
) -> Result<String, AllocError>
    ensures { IfOk result (λ lines. string_bytes lines ≡ fault_lines name.now bytes.now fault) }
{
    let mut lines = String::new(alloc);
    if let Some(note) = fault_note(fault) {
        add_place(alloc, &mut lines, name, bytes, note)?;
    }
    if let Some(help) = fault_help(fault) {
        let line = format!(in alloc; "help: {help}")?;
        add_line(alloc, &mut lines, line.as_str())?;
    }
    Ok(lines)
}

/// Where a file does not parse, as notes of a set that has this file alone.
fn fault_notes(alloc: Global, fault: ParseFault) -> Result<Many<Note>, AllocError>
    ensures { IfOk result (λ notes. notes ≡ fault_notes (fault_note fault)) }
{
    let mut notes = Vec::new(alloc);
    if let Some((at, words)) = fault_note(fault) {
        notes.push(Note {
            spot: Some(Spot {
                file: 0,
                at,
                end: at,
            }),
            text: Text::of(String::from_str(alloc, words)?),
        })?;
    }
    Ok(Many::of(notes))
}

/// What may be done about a file that does not parse, as lines of help.
fn fault_helps(alloc: Global, fault: ParseFault) -> Result<Many<Text>, AllocError>
    ensures { IfOk result (λ help. help ≡ option_to_list (fault_help fault)) }
{
    let mut texts = Vec::new(alloc);
    if let Some(help) = fault_help(fault) {
        texts.push(Text::of(String::from_str(alloc, help)?))?;
    }
    Ok(Many::of(texts))
}

/// The same as an explanation, of a set that has this file alone. The place in the note has no bytes.
///
/// # Errors
/// Out of memory.
pub fn explain_fault(alloc: Global, fault: ParseFault) -> Result<Explanation, AllocError>
    ensures { IfOk result (λ e. e ≡ fault_explanation fault) }
{
    Ok(Explanation {
        notes: fault_notes(alloc, fault)?,
        help: fault_helps(alloc, fault)?,
    })
}
