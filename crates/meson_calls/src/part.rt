//! Parts of trees, and the files that they are in.

use meson_syntax::{Expr, Stmt};
use std::alloc::Global;

/// An expression or a statement.
#[derive(Clone, Copy)]
pub enum Part<'t> {
    Expression(&'t Expr),
    Statement(&'t Stmt),
}

/// A walk through a file: its number, and its source.
#[derive(Clone, Copy)]
pub struct Walk<'t> {
    pub alloc: Global,
    pub file: usize,
    pub source: &'t [u8],
}
