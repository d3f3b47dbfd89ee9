//! Whether the places of an edit are borders of the source's items, as `layout` requires.
ghost use Rattle.std.specs.Bool.{OnTrue};
ghost use Rattle.std.specs.Prelude.{◌≡◌, List};
ghost use Rattle.meson_lex.specs.Items.{IsItemList, Lexeme};
ghost use Rattle.meson_layout.specs.Layout.{IsBracketOf, IsReady, IsSpanOf};
ghost use Rattle.meson_language_cases.specs.inside.Opening.{is_open};

use meson_layout::{LineSpot, Primitive};
use meson_lex::{Kind, Span, items};

/// Whether a source has no fault, and items begin and end where the span does.
fn has_span(source: &[u8], span: Span) -> bool
    ensures { OnTrue result ((xs : List Lexeme) × IsItemList source.now xs × IsSpanOf xs span) }
{
    let mut begins = false;
    let mut ends = false;
    for item in items(source) {
        match item {
            Ok(item) => {
                begins = begins || item.span.from == span.from;
                ends = ends || item.span.to == span.to;
            }
            Err(_) => return false,
        }
    }
    if !begins || !ends {
        return false;
    }
    span.from < span.to
}

/// Whether a source has no fault, and an opening bracket is at the offset.
fn has_bracket(source: &[u8], at: usize) -> bool
    ensures { OnTrue result ((xs : List Lexeme) × IsItemList source.now xs × IsBracketOf xs at) }
{
    let mut opens = false;
    for item in items(source) {
        match item {
            Ok(item) => opens = opens || (is_open(item.kind) && item.span.from == at),
            Err(_) => return false,
        }
    }
    opens
}

fn is_open(kind: Kind) -> bool
    ensures { result ≡ is_open kind }
{
    matches!(kind, Kind::OpenRound | Kind::OpenSquare | Kind::OpenCurly)
}

/// Whether a source has no fault.
fn is_whole(source: &[u8]) -> bool
    ensures { OnTrue result ((xs : List Lexeme) × IsItemList source.now xs) }
{
    for item in items(source) {
        if item.is_err() {
            return false;
        }
    }
    true
}

/// Whether the edit's places are borders of the source's items.
pub(crate) fn is_ready(source: &[u8], primitive: &Primitive) -> bool
    ensures { OnTrue result (IsReady source.now primitive.now) }
{
    match primitive {
        Primitive::First { bracket, .. } => has_bracket(source, *bracket),
        Primitive::After { element, .. } | Primitive::Remove { element } => {
            has_span(source, *element)
        }
        Primitive::Replace { value, .. } | Primitive::Wrap { value } => has_span(source, *value),
        Primitive::RemoveStatement { statement, .. } => has_span(source, *statement),
        Primitive::Append { .. } => is_whole(source),
        Primitive::Lines { spot, .. } => match spot {
            LineSpot::Above(statement) | LineSpot::Below(statement) => {
                has_span(source, *statement)
            }
            LineSpot::End => is_whole(source),
        },
    }
}
