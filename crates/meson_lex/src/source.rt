//! The items of a text as a whole.
ghost use Rattle.std.specs.Prelude.{◌≡◌, ◌≤◌, length, slice_range};
ghost use Rattle.meson_lex.specs.Lexed.{IsLexed, Tiles};

use crate::iter::Items;
use crate::kinds::Span;

/// The items of a text in their order. They tile it: each begins where the one before it ended.
///
/// A text with a fault gives the items before it and then the fault, and nothing after that. Does not allocate.
pub fn items(source: &[u8]) -> Items<'_>
    ensures lexed { IsLexed 0 source.now result }
    ensures tiles { Tiles 0 (length source.now) result }
{
    Items::new(source)
}

/// The bytes of a span, which must be inside the source. Nothing is copied.
pub fn text(source: &[u8], span: Span) -> &[u8]
    requires inside { span.to ≤ length source.now }
    requires ordered { span.from ≤ span.to }
    ensures { result.now ≡ slice_range source.now span.from span.to }
{
    &source[span.from..span.to]
}
