//! Significant tokens, as the parser takes them.

use meson_lex::{Kind, Span};

/// A significant token.
#[derive(Clone, Copy)]
pub(crate) struct Token {
    pub kind: Kind,
    /// The bytes of the token. A line end is empty, at the end of the token before it.
    pub span: Span,
    /// The offset to report if it can't be where it is: its first byte, or the source's length for a line end that isn't written.
    pub place: usize,
}
