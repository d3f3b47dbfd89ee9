//! Code beside the parts of a text.
ghost use Rattle.std.specs.Bool.{OnTrue};
ghost use Rattle.std.specs.Prelude.{length};
ghost use Rattle.meson_statements.specs.Places.{IsBeside};

use crate::edits::Edit;
use meson_layout::LineSpot;
use meson_lex::Span;
use meson_statements::{Side, StatementCode, Surroundings};
use std::alloc::{AllocError, Global};

/// The side of a statement on which an edit writes code.
pub(crate) fn side_of(edit: Edit, statement: Span) -> Option<Side> {
    match edit {
        Edit::CodeAbove => Some(Side::Above(statement)),
        Edit::CodeBelow => Some(Side::Below(statement)),
        Edit::CodeAtEnd => Some(Side::End(Some(statement))),
        _ => None,
    }
}

/// Where an edit inserts the lines of code.
pub(crate) fn spot_of(edit: Edit, statement: Span) -> LineSpot {
    match edit {
        Edit::CodeAbove => LineSpot::Above(statement),
        Edit::CodeBelow => LineSpot::Below(statement),
        _ => LineSpot::End,
    }
}

/// Whether the statement beside it is a range of a text of this length.
fn is_beside(side: Side, len: usize) -> bool
    ensures { OnTrue result (IsBeside side len) }
{
    match side {
        Side::Above(statement) => statement.from <= statement.to && statement.to <= len,
        Side::Below(statement) => statement.from <= statement.to && statement.to <= len,
        Side::End(Some(statement)) => statement.from <= statement.to && statement.to <= len,
        Side::End(None) => true,
    }
}

/// Code as it is written beside a statement of a text, if it is statements.
pub(crate) fn placed(
    alloc: Global,
    source: &[u8],
    side: Side,
    code: &[u8],
) -> Result<Option<Vec<u8>>, AllocError> {
    let Ok(text) = str::from_utf8(code) else {
        return Ok(None);
    };
    let Some(code) = StatementCode::of(alloc, text)? else {
        return Ok(None);
    };
    if !is_beside(side, source.len()) {
        return Ok(None);
    }
    let blank = None;
    let around = Surroundings {
        source,
        side,
        blank,
    };
    Ok(Some(code.placed(alloc, around)?))
}
