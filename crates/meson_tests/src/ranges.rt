//! The edits of files, with their ranges.

use crate::diffs::one_file;
use meson_ranges::{FileEdits, RangedEdit, compare};
use std::alloc::{AllocError, Global};
use std::process::Abort;

/// What each case is about, the file's old and new text, and its edits: the offset, the range, what is removed and what is
/// inserted.
const CASES: [(&str, &str, &str, &str); 15] = [
    ("nothing", "a = '1'\n", "a = '1'\n", ""),
    ("a byte", "a = '1'\n", "a = '2'\n", "5 0:5-0:6 [1] [2];"),
    (
        "after two bytes",
        "ä = '1'\n",
        "ä = '2'\n",
        "6 0:5-0:6 [1] [2];",
    ),
    (
        "after three bytes",
        "€ = '1'\n",
        "€ = '2'\n",
        "7 0:5-0:6 [1] [2];",
    ),
    (
        "after four bytes",
        "😀 = '1'\n",
        "😀 = '2'\n",
        "8 0:6-0:7 [1] [2];",
    ),
    (
        "the first byte is the same",
        "'ä'\n",
        "'ö'\n",
        "1 0:1-0:2 [ä] [ö];",
    ),
    (
        "the last byte is the same",
        "'ä'\n",
        "'Ĥ'\n",
        "1 0:1-0:2 [ä] [Ĥ];",
    ),
    ("CR LF", "a\r\nb\r\n", "a\r\nc\r\n", "3 1:0-1:1 [b] [c];"),
    ("CR LF becomes LF", "a\r\n", "a\n", "1 0:1-1:0 [\r\n] [\n];"),
    (
        "at an end without a line end",
        "a\nb",
        "a\nb\nc",
        "3 1:1-1:1 [] [\nc];",
    ),
    (
        "a line is removed",
        "a\nb\nc\n",
        "a\nc\n",
        "2 1:0-2:0 [b\n] [];",
    ),
    (
        "a line is added",
        "a\nc\n",
        "a\nb\nc\n",
        "2 1:0-1:0 [] [b\n];",
    ),
    (
        "two edits",
        "a\nb\nc\n",
        "A\nb\nC\n",
        "0 0:0-0:1 [a] [A];4 2:0-2:1 [c] [C];",
    ),
    ("all is removed", "a\n", "", "0 0:0-1:0 [a\n] [];"),
    ("all is added", "", "a\n", "0 0:0-0:0 [] [a\n];"),
];

/// One edit as the cases write it.
fn written(rt: &impl Abort, alloc: Global, one: &RangedEdit<'_>) -> Result<String, AllocError> {
    let was = str::from_utf8(one.edit.was()).expect(rt, "UTF-8");
    let now = str::from_utf8(one.edit.now()).expect(rt, "UTF-8");
    let (at, start, end) = (one.edit.at(), one.range.start, one.range.end);
    let (line, character) = (start.line, start.character);
    let (last_line, last_character) = (end.line, end.character);
    format!(in alloc; "{at} {line}:{character}-{last_line}:{last_character} [{was}] [{now}];")
}

/// The edits of files as the cases write them.
fn all_written(
    rt: &impl Abort,
    alloc: Global,
    changes: &[FileEdits<'_>],
) -> Result<String, AllocError> {
    let mut text = String::new(alloc);
    for change in changes {
        for one in &change.edits {
            text.push_str(written(rt, alloc, one)?.as_str())?;
        }
    }
    Ok(text)
}

#[test]
fn a_file_has_these_edits(rt: HostRuntime) {
    let alloc = rt.alloc();
    for (title, old, new, edits) in CASES {
        let old = one_file(alloc, "f", old).expect(&rt, "memory");
        let new = one_file(alloc, "f", new).expect(&rt, "memory");
        let changes = compare(alloc, &old, &new).expect(&rt, "memory");
        let found = all_written(&rt, alloc, changes.as_slice()).expect(&rt, "memory");
        assert!(rt; found.as_str() == edits, "{title}: {found}");
    }
}
