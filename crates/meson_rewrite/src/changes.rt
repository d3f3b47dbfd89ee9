//! The lines that list a history.

ghost use Rattle.std.specs.Prelude.{◌≡◌, IfOk, length, reverse};
ghost use Rattle.meson_rewrite.specs.Changes.{AreEdited, change_head, change_line, change_lines, edited_files, history_lines, title_part};

use meson_splice::{Change, History, Splice};
use std::alloc::{AllocError, Global};
use std::collections::HashSet;

/// The number of files that the splices edit.
pub(crate) fn count_files(alloc: Global, splices: &[Splice]) -> Result<usize, AllocError>
    ensures count { IfOk result (λ files. files ≡ length (edited_files splices.now)) }
    ensures edited { AreEdited splices.now (edited_files splices.now) }
{
    let mut names = HashSet::new(alloc);
    let mut files = 0;
    for passed in 0..splices.len() {
        let splice = &splices[splices.len() - 1 - passed];
        if names.insert(splice.file.get())? {
            files += 1;
        }
    }
    Ok(files)
}

/// The text of a line for the title of a change, if it has one; else nothing.
fn title_part(alloc: Global, title: &str) -> Result<Vec<u8>, AllocError>
    ensures { IfOk result (λ text. text.items ≡ title_part title.now) }
{
    if title.is_empty() {
        return Ok(Vec::new(alloc));
    }
    let part = format!(in alloc; ", title: {title}")?;
    Ok(part.into_bytes())
}

/// What a line says of the splices of a change.
fn change_head(
    alloc: Global,
    word: &str,
    number: usize,
    splices: &[Splice],
) -> Result<Vec<u8>, AllocError>
    ensures { IfOk result (λ text. text.items ≡ change_head word.now number splices.now) }
{
    let files = count_files(alloc, splices)?;
    let many = splices.len();
    let head = format!(in alloc; "{word} {number}: files: {files}, splices: {many}")?;
    Ok(head.into_bytes())
}

/// The line of a change.
fn change_line(
    alloc: Global,
    word: &str,
    number: usize,
    change: &Change,
) -> Result<Vec<u8>, AllocError>
    ensures { IfOk result (λ text. text.items ≡ change_line word.now number change.now) }
{
    let mut text = change_head(alloc, word, number, change.splices.get())?;
    let title = title_part(alloc, change.title.get())?;
    text.extend_from_slice(title.as_slice())?;
    text.push(b'\n')?;
    Ok(text)
}

/// A line for each change, the last one first.
fn change_lines(alloc: Global, word: &str, changes: &[Change]) -> Result<Vec<u8>, AllocError>
    ensures { IfOk result (λ text. text.items ≡ change_lines word.now 1 (reverse changes.now)) }
{
    let mut text = Vec::new(alloc);
    let mut number = 1;
    for change in changes.iter().rev() {
        let line = change_line(alloc, word, number, change)?;
        text.extend_from_slice(line.as_slice())?;
        number += 1;
    }
    Ok(text)
}

/// The lines of a history.
pub(crate) fn history_text(alloc: Global, history: &History) -> Result<Vec<u8>, AllocError>
    ensures { IfOk result (λ text. text.items ≡ history_lines history.now) }
{
    let mut text = change_lines(alloc, "undo", history.past.get())?;
    let future = change_lines(alloc, "redo", history.future.get())?;
    text.extend_from_slice(future.as_slice())?;
    Ok(text)
}
