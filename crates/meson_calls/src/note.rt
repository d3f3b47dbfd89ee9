//! What all commands read.

use crate::call::BorrowedPlace;
use meson_lex::Span;
use meson_syntax::{Expr, List};

/// A call, an assignment or a loop.
#[derive(Clone, Copy)]
pub enum What<'t> {
    Call {
        function: Span,
        arguments: &'t List,
    },
    /// A variable, whether it is set rather than added to, and the value.
    Assign {
        name: Span,
        sets: bool,
        value: &'t Expr,
    },
    Loop {
        names: &'t [Span],
    },
}

/// The same with its place, and the source that it is in.
#[derive(Clone, Copy)]
pub struct Note<'p, 't> {
    pub place: BorrowedPlace<'p>,
    pub source: &'t [u8],
    pub what: What<'t>,
}

/// The same with its file, and the range of its path among the steps of all paths.
#[derive(Clone, Copy)]
pub struct Ranged<'t> {
    pub file: usize,
    pub from: usize,
    pub to: usize,
    pub source: &'t [u8],
    pub what: What<'t>,
}
