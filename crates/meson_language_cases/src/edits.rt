//! Single edits of a text, laid out.

use crate::code_places::{placed, side_of, spot_of};
use crate::readiness::is_ready;
use crate::tree::put_tree;
use meson_case_files::{Transcript, bytes_of};
use meson_layout::{BlankLines, Primitive, layout};
use meson_lex::Span;
use meson_splice::{Bytes, Change, FileSet, Many, Splice, apply_all};
use std::alloc::{AllocError, Global};

/// What is done at a part of the text.
#[derive(Clone, Copy)]
pub enum Edit {
    First,
    After,
    Remove,
    Replace,
    Wrap,
    RemoveStatement,
    /// A statement with the blank lines that would be too many without it.
    Trim { first: bool, last: bool },
    Append,
    CodeAbove,
    CodeBelow,
    CodeAtEnd,
}

impl Edit {
    /// The removal of a statement that is the first, the last or the only one of its block, or none of these.
    fn trim(first: bool, last: bool) -> Edit {
        Edit::Trim { first, last }
    }
}

/// The edit of this name.
pub fn edit_of(word: &str) -> Option<Edit> {
    match word {
        "first" => Some(Edit::First),
        "after" => Some(Edit::After),
        "remove" => Some(Edit::Remove),
        "replace" => Some(Edit::Replace),
        "wrap" => Some(Edit::Wrap),
        "remove-statement" => Some(Edit::RemoveStatement),
        "trim" => Some(Edit::trim(false, false)),
        "trim-first" => Some(Edit::trim(true, false)),
        "trim-last" => Some(Edit::trim(false, true)),
        "trim-only" => Some(Edit::trim(true, true)),
        "append" => Some(Edit::Append),
        "code-above" => Some(Edit::CodeAbove),
        "code-below" => Some(Edit::CodeBelow),
        "code-at-end" => Some(Edit::CodeAtEnd),
        _ => None,
    }
}

/// The edit of the part at a span.
fn primitive_at(edit: Edit, span: Span, new: Bytes) -> Primitive {
    match edit {
        Edit::First => Primitive::First {
            bracket: span.from,
            new,
        },
        Edit::After => Primitive::After { element: span, new },
        Edit::Remove => Primitive::Remove { element: span },
        Edit::Replace => Primitive::Replace { value: span, new },
        Edit::Wrap => Primitive::Wrap { value: span },
        Edit::RemoveStatement => Primitive::RemoveStatement {
            statement: span,
            blank: BlankLines::Stay,
        },
        Edit::Trim { first, last } => Primitive::RemoveStatement {
            statement: span,
            blank: BlankLines::Trim { first, last },
        },
        Edit::Append => Primitive::Append { new },
        Edit::CodeAbove | Edit::CodeBelow | Edit::CodeAtEnd => Primitive::Lines {
            spot: spot_of(edit, span),
            new,
        },
    }
}

/// The first place of a part in a text.
pub fn place_of(text: &[u8], part: &[u8]) -> Option<Span> {
    let text = str::from_utf8(text).ok()?;
    let part = str::from_utf8(part).ok()?;
    let from = text.find(part)?;
    let to = from.saturating_add(part.len());
    Some(Span { from, to })
}

/// The splices of an edit.
fn splices_of(alloc: Global, text: &[u8], primitive: &Primitive) -> Option<Vec<Splice>> {
    if is_ready(text, primitive) {
        layout(alloc, "f", text, primitive).ok()
    } else {
        None
    }
}

fn put_splice(splice: &Splice, to: &mut Transcript) {
    to.put("  at ");
    to.show(&splice.at);
    to.put(": |");
    to.escape(splice.was.get());
    to.put("| becomes |");
    to.escape(splice.now.get());
    to.put("|\n");
}

/// The text with the splices done.
fn spliced(alloc: Global, text: &[u8], splices: Vec<Splice>) -> Result<Vec<u8>, AllocError> {
    let mut files = FileSet::new(alloc);
    let bytes = Vec::from_slice(alloc, text)?;
    let _ = files.push(String::from_str(alloc, "f")?, bytes);
    let splices = Many::of(splices);
    if apply_all(alloc, &mut files, &Change::untitled(alloc, splices)).is_err()
        || files.is_empty()
    {
        return Vec::from_slice(alloc, b"not spliced");
    }
    Vec::from_slice(alloc, files.bytes(0))
}

/// The text with a CR before each LF.
fn with_returns(alloc: Global, text: &[u8]) -> Result<Vec<u8>, AllocError> {
    let mut bytes = Vec::new(alloc);
    for byte in text {
        if *byte == b'\n' {
            bytes.extend_from_slice(b"\r")?;
        }
        bytes.extend_from_slice(&[*byte])?;
    }
    Ok(bytes)
}

/// What is edited, and how.
#[derive(Drop)]
struct Asked {
    text: Vec<u8>,
    edit: Edit,
    part: Vec<u8>,
    new: Vec<u8>,
}

impl Asked {
    /// The edit of a text, from the words after the edit's name: the part of the text, and ` :: ` before the new text.
    fn of(alloc: Global, text: &[u8], edit: Edit, words: &str) -> Result<Self, AllocError> {
        let (part, new) = match edit {
            Edit::Append => ("", words),
            _ => words.split_once(" :: ").unwrap_or((words, "")),
        };
        let part = bytes_of(alloc, part)?;
        let new = bytes_of(alloc, new)?;
        let text = Vec::from_slice(alloc, text)?;
        Ok(Asked {
            text,
            edit,
            part,
            new,
        })
    }

    /// The same edit, with all lines ending in CR LF.
    fn with_returns(&self, alloc: Global) -> Result<Self, AllocError> {
        let text = with_returns(alloc, self.text.as_slice())?;
        let part = with_returns(alloc, self.part.as_slice())?;
        let new = Vec::from_slice(alloc, self.new.as_slice())?;
        let edit = self.edit;
        Ok(Asked {
            text,
            edit,
            part,
            new,
        })
    }

    /// What is written for the new text at the part at a span.
    fn written(&self, alloc: Global, span: Span) -> Result<Option<Vec<u8>>, AllocError> {
        match side_of(self.edit, span) {
            Some(side) => placed(alloc, self.text.as_slice(), side, self.new.as_slice()),
            None => Ok(Some(Vec::from_slice(alloc, self.new.as_slice())?)),
        }
    }

    fn primitive(&self, alloc: Global) -> Result<Option<Primitive>, AllocError> {
        let Some(span) = place_of(self.text.as_slice(), self.part.as_slice()) else {
            return Ok(None);
        };
        let Some(new) = self.written(alloc, span)? else {
            return Ok(None);
        };
        Ok(Some(primitive_at(self.edit, span, Bytes::of(new))))
    }

    fn splices(&self, alloc: Global) -> Result<Option<Vec<Splice>>, AllocError> {
        match self.primitive(alloc)? {
            Some(primitive) => Ok(splices_of(alloc, self.text.as_slice(), &primitive)),
            None => Ok(None),
        }
    }

    /// The text after the edit.
    fn after(&self, alloc: Global) -> Result<Vec<u8>, AllocError> {
        match self.splices(alloc)? {
            Some(splices) => spliced(alloc, self.text.as_slice(), splices),
            None => Vec::from_slice(alloc, b"no such part"),
        }
    }

    fn put_splices(&self, alloc: Global, to: &mut Transcript) -> Result<(), AllocError> {
        if let Some(splices) = self.splices(alloc)? {
            for splice in splices.as_slice() {
                put_splice(splice, to);
            }
        }
        Ok(())
    }

    /// Whether lines that end in CR LF are edited as those that end in LF.
    fn is_same_with_returns(&self, alloc: Global, after: &[u8]) -> Result<bool, AllocError> {
        let other = self.with_returns(alloc)?.after(alloc)?;
        let wanted = with_returns(alloc, after)?;
        Ok(other.as_slice() == wanted.as_slice())
    }
}

/// Whether lines end in LF alone.
fn has_plain_line_ends(text: &[u8]) -> bool {
    text.contains(&b'\n') && !text.contains(&b'\r')
}

/// The splices of an edit.
pub fn put_splices(
    alloc: Global,
    text: &[u8],
    edit: Edit,
    words: &str,
    to: &mut Transcript,
) -> Result<(), AllocError> {
    let asked = Asked::of(alloc, text, edit, words)?;
    asked.put_splices(alloc, to)
}

/// The splices of an edit, the text after it and its tree; and whether it is the same if all lines end in CR LF.
pub fn lay_out(
    alloc: Global,
    text: &[u8],
    edit: Edit,
    words: &str,
    to: &mut Transcript,
) -> Result<(), AllocError> {
    let asked = Asked::of(alloc, text, edit, words)?;
    asked.put_splices(alloc, to)?;
    let after = asked.after(alloc)?;
    to.text(after.as_slice());
    put_tree(alloc, after.as_slice(), to);
    if has_plain_line_ends(text) {
        let is_same = asked.is_same_with_returns(alloc, after.as_slice())?;
        to.line(if is_same {
            "the same with CR LF"
        } else {
            "not so with CR LF"
        });
    }
    Ok(())
}
