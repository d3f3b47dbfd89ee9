//! The edits from which all changes are made.

use meson_lex::Span;
use meson_values::Bytes;

/// Where whole lines are inserted. Spans are in bytes of the file.
#[derive(Clone, Copy)]
pub enum LineSpot {
    /// Before the line on which the statement at this span begins, and before the comment lines directly above that one.
    Above(Span),
    /// After the line on which the statement at this span ends.
    Below(Span),
    /// At the end of the file.
    End,
}

/// Which blank lines beside a statement are removed along with it.
#[derive(Clone, Copy, Debug)]
pub enum BlankLines {
    /// None.
    Stay,
    /// Those that would be too many then. The flags say whether the statement is the first and the last one of its block.
    Trim { first: bool, last: bool },
}

/// One edit of a build file. Spans and offsets are in bytes of the file.
#[derive(Drop)]
pub enum Primitive {
    /// The first element of an empty list, whose opening bracket is at this offset.
    First { bracket: usize, new: Bytes },
    /// An element after the one at this span.
    After { element: Span, new: Bytes },
    /// The element at this span is removed.
    Remove { element: Span },
    /// The value at this span is replaced by another one.
    Replace { value: Span, new: Bytes },
    /// The value at this span is wrapped into an array.
    Wrap { value: Span },
    /// The statement at this span is removed, with these blank lines beside it.
    RemoveStatement { statement: Span, blank: BlankLines },
    /// A statement at the end of the file.
    Append { new: Bytes },
    /// Whole lines. If what is before them does not end its line, a line end is inserted first.
    Lines { spot: LineSpot, new: Bytes },
}
