//! The span of an expression.

ghost use Rattle.std.specs.Prelude.{◌≡◌};
ghost use Rattle.meson_syntax.specs.View.{Bytes, expr_view};
ghost use Rattle.meson_edit.specs.Standing.{expression_span};

use meson_lex::Span;
use meson_syntax::Expr;

/// The span of an expression in its source, in bytes.
pub fn span_of(expr: &Expr) -> Span
    ensures { (source : Bytes) → result ≡ expression_span (expr_view source expr.now) }
{
    match expr {
        Expr::Identifier(span) => *span,
        Expr::Boolean { span, .. } => *span,
        Expr::Integer(span) => *span,
        Expr::String { span, .. } => *span,
        Expr::Paren { span, .. } => *span,
        Expr::Array(list) => list.span,
        Expr::Dictionary(list) => list.span,
        Expr::Call { span, .. } => *span,
        Expr::Unary { span, .. } => *span,
        Expr::Row { span, .. } => *span,
        Expr::Postfix { span, .. } => *span,
        Expr::Conditional { span, .. } => *span,
    }
}
