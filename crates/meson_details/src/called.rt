//! The call at a place.

ghost use Rattle.std.specs.Prelude.{◌≡◌, IsTrue, MatchOption, None, Some};
ghost use Rattle.meson_lex.specs.Kinds.{IsIdentifier};
ghost use Rattle.meson_splice.specs.Files.{bytes_at};
ghost use Rattle.meson_syntax.specs.View.{expr_view, list_view, text_at};
ghost use Rattle.meson_calls.specs.Calls.{call_of};
ghost use Rattle.meson_calls.specs.GoodLists.{GoodListing};
ghost use Rattle.meson_calls.specs.Loading.{AreParsed, named_trees, views};
ghost use Rattle.meson_calls.specs.Project.{expression_at};
ghost use Rattle.meson_calls.specs.Strings.{AreGood};
ghost use Rattle.meson_syntax.specs.Grammar.{listing_words};
ghost use Rattle.meson_details.specs.Called.{called_view};
ghost use Rattle.meson_details.specs.Details.{is_call};
ghost use Rattle.meson_details.specs.ValueTexts.{ListHasTexts};

use meson_calls::CallRef;
use meson_lex::Span;
use meson_splice::FileSet;
use meson_syntax::{Bracket, Expr, List, Parsed};

/// A call in its source: its place, the name of its function, and its arguments.
#[derive(Clone, Copy)]
pub struct Called<'t> {
    pub source: &'t [u8],
    pub span: Span,
    pub name: Span,
    pub arguments: &'t List,
}

/// The call that an expression is.
fn call_in<'t>(source: &'t [u8], expr: &'t Expr) -> Option<Called<'t>>
    ensures { let stands = expr_view source.entry.now expr.entry.now in
        MatchOption result (call_of stands ≡ None) (λ called. (called.source.now ≡ source.entry.now) × (stands ≡ called_view called)) }
{
    match expr {
        Expr::Call {
            span,
            name,
            arguments,
        } => Some(Called {
            source,
            span: *span,
            name: *name,
            arguments,
        }),
        Expr::Identifier(_) => None,
        Expr::Boolean { .. } => None,
        Expr::Integer(_) => None,
        Expr::String { .. } => None,
        Expr::Paren { .. } => None,
        Expr::Array(_) => None,
        Expr::Dictionary(_) => None,
        Expr::Unary { .. } => None,
        Expr::Row { .. } => None,
        Expr::Postfix { .. } => None,
        Expr::Conditional { .. } => None,
    }
}

/// The call at a place.
pub fn call_at<'t>(files: &'t FileSet, trees: &'t [Parsed], call: &CallRef) -> Called<'t>
    requires parsed { AreParsed files.now trees.now }
    requires there { IsTrue (is_call (named_trees files.now (views files.now trees.now)) call.now) }
    ensures source { result.source.now ≡ bytes_at call.now.file files.entry.now }
    ensures at { expression_at (named_trees files.entry.now (views files.entry.now trees.entry.now)) call.now ≡ Some (called_view result) }
    ensures good { GoodListing (list_view result.source.now result.arguments.now) }
    ensures texts { ListHasTexts result.source.now (list_view result.source.now result.arguments.now) }
    ensures words { AreGood (listing_words (list_view result.source.now result.arguments.now) Bracket.Round) }
    ensures named { IsIdentifier (text_at result.source.now result.name) }
{
    if call.file >= trees.len() {
        unreachable!();
    }
    match trees[call.file].expr_at(&call.path) {
        Some(expr) => match call_in(files.bytes(call.file), expr) {
            Some(called) => called,
            None => unreachable!(),
        },
        None => unreachable!(),
    }
}
