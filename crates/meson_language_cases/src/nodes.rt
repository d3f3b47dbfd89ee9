//! The nodes that paths name.

use meson_case_files::Transcript;
use meson_lex::Span;
use meson_syntax::{Expr, Many, Path, parse};
use std::alloc::{AllocError, Global};

/// A path of numbers with blanks between them.
pub fn path_of(alloc: Global, words: &str) -> Result<Path, AllocError> {
    let mut steps = Vec::new(alloc);
    for word in words.split_whitespace() {
        if let Ok(step) = word.parse::<usize>() {
            steps.push(step)?;
        }
    }
    Ok(Path {
        steps: Many::of(steps),
    })
}

/// The span of an expression.
pub fn span_of(expr: &Expr) -> Span {
    match expr {
        Expr::Identifier(span) | Expr::Integer(span) => *span,
        Expr::Boolean { span, .. } | Expr::String { span, .. } | Expr::Paren { span, .. } => *span,
        Expr::Array(list) | Expr::Dictionary(list) => list.span,
        Expr::Call { span, .. } | Expr::Unary { span, .. } | Expr::Row { span, .. } => *span,
        Expr::Postfix { span, .. } | Expr::Conditional { span, .. } => *span,
    }
}

/// The bytes of a span of a source.
pub fn slice(source: &[u8], span: Span) -> &[u8] {
    let to = span.to.min(source.len());
    let from = span.from.min(to);
    &source[from..to]
}

/// The expression that a path names.
pub fn put_expression(
    alloc: Global,
    source: &[u8],
    words: &str,
    to: &mut Transcript,
) -> Result<(), AllocError> {
    let path = path_of(alloc, words)?;
    let Ok(file) = parse(alloc, source) else {
        to.line("no tree");
        return Ok(());
    };
    match file.expr_at(&path) {
        Some(expr) => {
            to.put("  ");
            to.escape(slice(source, span_of(expr)));
            to.put("\n");
        }
        None => to.line("none"),
    }
    Ok(())
}

/// How many elements the list has that a path names.
pub fn put_elements(
    alloc: Global,
    source: &[u8],
    words: &str,
    to: &mut Transcript,
) -> Result<(), AllocError> {
    let path = path_of(alloc, words)?;
    let Ok(file) = parse(alloc, source) else {
        to.line("no tree");
        return Ok(());
    };
    match file.list_at(&path) {
        Some(list) => to.show_line(&list.items.get().len()),
        None => to.line("none"),
    }
    Ok(())
}
