//! Whether an expression reads a variable.

ghost use Rattle.std.specs.Prelude.{◌≡◌, ◌++◌, ◌&&◌, ◌∷◌, [], IfOk, OnOk, bytes_eq, codes};
ghost use Rattle.meson_syntax.specs.Grammar.{expression_words, listing_words};
ghost use Rattle.meson_syntax.specs.View.{expr_view, list_view, text_at};
ghost use Rattle.meson_syntax.specs.declared.operator.Bracket.TheVariants as bracket;
ghost use Rattle.meson_calls.specs.ChosenNotes.{call_with};
ghost use Rattle.meson_calls.specs.Parts.{an_expression};
ghost use Rattle.meson_calls.specs.Project.{place, placed};
ghost use Rattle.meson_calls.specs.Strings.{AreGood};
ghost use Rattle.meson_following.specs.CodeReads.{Adds};
ghost use Rattle.meson_following.specs.Names.{fits, named_by};
ghost use Rattle.meson_following.specs.Reads.{holds_text, is_format, reads_variable};

use crate::names::fit_of;
use meson_calls::CallRef;
use meson_calls::place::place_of;
use meson_calls::roles::text_of;
use meson_lex::Span;
use meson_syntax::{Expr, List, StringKind};
use std::alloc::{AllocError, Global};

/// A search of the expressions of a file for reads of a variable.
#[derive(Clone, Copy)]
pub(crate) struct Reader<'s> {
    pub alloc: Global,
    pub variable: &'s [u8],
    pub file: usize,
    pub source: &'s [u8],
}

/// Whether a string of this kind reads the variables that it names.
fn is_format(kind: StringKind) -> bool
    ensures { result ≡ is_format kind }
{
    matches!(kind, StringKind::Format | StringKind::FormatMultiline)
}

/// Whether a text is part of another.
fn holds_text(part: &[u8], text: &[u8]) -> bool
    ensures { result ≡ holds_text part.now text.now }
{
    for i in 0..text.len() {
        if text[i..].starts_with(part) {
            return true;
        }
    }
    part.is_empty()
}

impl Reader<'_> {
    /// Whether a string reads the variable.
    fn reads_in_text(&self, kind: StringKind, text: &[u8]) -> Result<bool, AllocError>
        ensures { IfOk result (λ is. is ≡ (is_format kind && holds_text (codes "@" ++ (self.now.variable.now ++ codes "@")) text.now)) }
    {
        if !is_format(kind) {
            return Ok(false);
        }
        let mut part = Vec::from_slice(self.alloc, b"@".as_slice())?;
        part.extend_from_slice(self.variable)?;
        part.extend_from_slice(b"@".as_slice())?;
        Ok(holds_text(part.as_slice(), text))
    }

    /// Whether a call gives the value of the variable, or may do so.
    fn reads_by_call(&self, function: Span, arguments: &List) -> Result<bool, AllocError>
        requires { AreGood (listing_words (list_view self.now.source.now arguments.now) bracket.Round) }
        ensures { IfOk result (λ is. is ≡ (bytes_eq (text_at self.now.source.now function) (codes "get_variable")
            && fits self.now.variable.now (named_by (call_with (text_at self.now.source.now function) (list_view self.now.source.now arguments.now))))) }
    {
        if text_of(self.source, function) != b"get_variable".as_slice() {
            return Ok(false);
        }
        let found = fit_of(self.alloc, self.variable, self.source, arguments)?;
        Ok(found.may_be())
    }

    /// Whether an expression reads the variable, other than by what is within it.
    fn reads(&self, expr: &Expr) -> Result<bool, AllocError>
        requires { AreGood (expression_words (expr_view self.now.source.now expr.now)) }
        ensures { IfOk result (λ is. is ≡ reads_variable self.now.variable.now (expr_view self.now.source.now expr.now)) }
    {
        match expr {
            Expr::Identifier(name) => Ok(text_of(self.source, *name) == self.variable),
            Expr::String { span, kind } => self.reads_in_text(*kind, text_of(self.source, *span)),
            Expr::Call {
                name,
                arguments,
                ..
            } => self.reads_by_call(*name, arguments),
            _ => Ok(false),
        }
    }

    /// Takes the place of the expression at the path, if it is a read.
    pub(crate) fn take(
        &self,
        expr: &Expr,
        path: &[usize],
        found: &mut Vec<CallRef>,
    ) -> Result<(), AllocError>
        requires { AreGood (expression_words (expr_view self.now.source.now expr.now)) }
        ensures { OnOk result (Adds self.now.variable.now found.old.items
            (placed (place self.now.file path.now) (an_expression (expr_view self.now.source.now expr.now)) ∷ []) found.new.items) }
    {
        if self.reads(expr)? {
            found.push(place_of(self.alloc, self.file, path)?)?;
        }
        Ok(())
    }
}
