//! A source of a target, and all of them.

use meson_calls::call::CallRef;
use meson_lex::Span;
use meson_splice::{Many, Text};

/// A source of a target: a literal, with its file and its span in bytes.
#[derive(Debug, Drop)]
pub struct SourceItem {
    pub value: Text,
    pub file: usize,
    pub span: Span,
    /// The array or call in whose list it is. A string that is a whole value is in none.
    pub list: Option<CallRef>,
    /// The variable that was followed to it, the innermost of several.
    pub variable: Option<Text>,
}

/// The sources of a target, as far as they are known.
#[derive(Debug, Drop)]
pub struct Sources {
    pub items: Many<SourceItem>,
    /// The number of expressions whose sources are not known.
    pub opaque: usize,
    /// Where a further source is added: the list of the first item that is in one; else the first empty list that was met; else the call.
    pub home: CallRef,
}
