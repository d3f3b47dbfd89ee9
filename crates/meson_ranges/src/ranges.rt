//! Edits with the ranges that they have in the text as it was.

ghost use Rattle.std.specs.Prelude.{◌≡◌, IfOk, map};
ghost use Rattle.std.specs.List.{All};
ghost use Rattle.meson_ranges.specs.Edits.{AreApart, IsThere};
ghost use Rattle.meson_ranges.specs.Ranges.{ranged};

use crate::edits::Edit;
use crate::positions::Position;
use std::alloc::{AllocError, Global};

/// The part of a text from one position up to another, as in the language server protocol.
#[derive(Clone, Copy, Debug, PartialEq, Eq)]
pub struct Range {
    pub start: Position,
    pub end: Position,
}

/// An edit, and the range of the bytes that it removes.
#[derive(Drop)]
pub struct RangedEdit<'a> {
    pub edit: Edit<'a>,
    pub range: Range,
}

/// Adds to each edit of a text its range. The text is read once, up to the last edit.
///
/// # Errors
/// Out of memory.
pub fn with_ranges<'a>(
    alloc: Global,
    text: &[u8],
    edits: Vec<Edit<'a>>,
) -> Result<Vec<RangedEdit<'a>>, AllocError>
    requires apart { AreApart 0 edits.items }
    requires there { All (IsThere text.now) edits.items }
    ensures { IfOk result (λ v. v.items ≡ map (ranged text.now) edits.entry.items) }
{
    let mut all = Vec::new(alloc);
    let mut from = 0;
    let mut position = Position::START;
    for edit in edits {
        let start = position.after(&text[from..edit.at()]);
        let end = start.after(edit.was());
        from = edit.at() + edit.was().len();
        position = end;
        all.push(RangedEdit {
            edit,
            range: Range { start, end },
        })?;
    }
    Ok(all)
}
