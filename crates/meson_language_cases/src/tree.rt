//! A tree written as nested lists: `x = a + f(b)` is `(= x (a + (f b)))`.

use crate::nodes::{slice, span_of};
use meson_case_files::Transcript;
use meson_lex::Span;
use meson_syntax::{
    Arg, Assignment, Block, Expr, List, Operand, Operator, Parsed, Stmt, StringKind, Tail,
    UnaryOperator, parse,
};
use std::alloc::Global;

/// Writes trees of one source; if requested, each node with its span.
#[derive(Clone, Copy)]
struct Shaper<'a> {
    source: &'a [u8],
    has_spans: bool,
}

/// The tree of a file: its statements, with a space between them.
fn put_file(shaper: Shaper<'_>, file: &Parsed, to: &mut Transcript) {
    to.put("  ");
    shaper.mark(file.span, to);
    shaper.block(&file.block, to);
    to.put("\n");
}

fn put_shape(alloc: Global, shaper: Shaper<'_>, to: &mut Transcript) {
    match parse(alloc, shaper.source) {
        Ok(file) => put_file(shaper, &file, to),
        Err(fault) => to.show_line(&fault),
    }
}

pub fn put_tree(alloc: Global, source: &[u8], to: &mut Transcript) {
    let has_spans = false;
    put_shape(alloc, Shaper { source, has_spans }, to);
}

pub fn put_spans(alloc: Global, source: &[u8], to: &mut Transcript) {
    let has_spans = true;
    put_shape(alloc, Shaper { source, has_spans }, to);
}

/// The tree of a file, and then a list, without their spans.
pub fn put_file_and_list(source: &[u8], file: &Parsed, list: &List, to: &mut Transcript) {
    let has_spans = false;
    let shaper = Shaper { source, has_spans };
    put_file(shaper, file, to);
    to.put(" ");
    shaper.list(list, to);
    to.put("\n");
}

/// The tree of a file, with its spans, over some source.
pub fn put_file_spans(source: &[u8], file: &Parsed, to: &mut Transcript) {
    let has_spans = true;
    put_file(Shaper { source, has_spans }, file, to);
}

/// A list and its elements, with their spans, over some source.
pub fn put_list_spans(source: &[u8], list: &List, to: &mut Transcript) {
    let has_spans = true;
    let shaper = Shaper { source, has_spans };
    to.put("  ");
    shaper.mark(list.span, to);
    shaper.list(list, to);
    to.put("\n");
}

fn sign(operator: Operator) -> &'static str {
    match operator {
        Operator::Or => "or",
        Operator::And => "and",
        Operator::Equal => "==",
        Operator::NotEqual => "!=",
        Operator::Less => "<",
        Operator::LessEqual => "<=",
        Operator::Greater => ">",
        Operator::GreaterEqual => ">=",
        Operator::In => "in",
        Operator::NotIn => "not-in",
        Operator::Plus => "+",
        Operator::Minus => "-",
        Operator::Times => "*",
        Operator::Divide => "/",
        Operator::Remainder => "%",
    }
}

/// The letter before a string of this kind.
fn letter(kind: StringKind) -> &'static str {
    match kind {
        StringKind::Plain => "",
        StringKind::Multiline => "m:",
        StringKind::Format => "f:",
        StringKind::FormatMultiline => "fm:",
    }
}

/// The span of a statement.
fn span_of_statement(stmt: &Stmt) -> Span {
    match stmt {
        Stmt::Expr(value) => span_of(value),
        Stmt::Assign { span, .. } | Stmt::If { span, .. } | Stmt::Foreach { span, .. } => *span,
        Stmt::Break(span) | Stmt::Continue(span) => *span,
    }
}

impl Shaper<'_> {
    /// Writes the span of a node, if that is requested.
    fn mark(self, span: Span, to: &mut Transcript) {
        if self.has_spans {
            to.show(&span.from);
            to.put("-");
            to.show(&span.to);
            to.put(":");
        }
    }

    fn name(self, span: Span, to: &mut Transcript) {
        self.mark(span, to);
        to.escape(slice(self.source, span));
    }

    #[cycle(expressions)]
    fn expr(self, expr: &Expr, to: &mut Transcript) {
        self.mark(span_of(expr), to);
        match expr {
            Expr::Identifier(span) => to.escape(slice(self.source, *span)),
            Expr::Boolean { value, .. } => to.put(if *value { "true" } else { "false" }),
            Expr::Integer(span) => to.escape(slice(self.source, *span)),
            Expr::String { span, kind } => {
                to.put(letter(*kind));
                to.escape(slice(self.source, *span))
            }
            Expr::Paren { inside, .. } => {
                to.put("(paren ");
                self.expr(inside.get(), to);
                to.put(")")
            }
            Expr::Array(list) => {
                to.put("[");
                self.list(list, to);
                to.put("]")
            }
            Expr::Dictionary(list) => {
                to.put("{");
                self.list(list, to);
                to.put("}")
            }
            Expr::Call {
                name,
                arguments,
                ..
            } => {
                to.put("(");
                self.name(*name, to);
                self.list(arguments, to);
                to.put(")")
            }
            Expr::Unary {
                operator,
                operand,
                ..
            } => {
                to.put(match operator {
                    UnaryOperator::Not => "(not ",
                    UnaryOperator::Minus => "(minus ",
                });
                self.expr(operand.get(), to);
                to.put(")")
            }
            Expr::Row { first, rest, .. } => {
                to.put("(");
                self.expr(first.get(), to);
                self.operands(rest.get(), to);
                to.put(")")
            }
            Expr::Postfix { base, tails, .. } => {
                to.put("(");
                self.expr(base.get(), to);
                self.tails(tails.get(), to);
                to.put(")")
            }
            Expr::Conditional {
                span: _,
                condition,
                yes,
                no,
            } => {
                to.put("(? ");
                self.expr(condition.get(), to);
                to.put(" ");
                self.expr(yes.get(), to);
                to.put(" ");
                self.expr(no.get(), to);
                to.put(")")
            }
        }
    }

    #[cycle(expressions)]
    fn operands(self, operands: &[Operand], to: &mut Transcript) {
        for i in 0..operands.len() {
            to.put(" ");
            to.put(sign(operands[i].operator));
            to.put(" ");
            self.expr(&operands[i].value, to);
        }
    }

    #[cycle(expressions)]
    fn tails(self, tails: &[Tail], to: &mut Transcript) {
        for i in 0..tails.len() {
            match &tails[i] {
                Tail::Method {
                    span,
                    name,
                    arguments,
                } => {
                    to.put(" ");
                    self.mark(*span, to);
                    to.put(".");
                    self.name(*name, to);
                    to.put("(");
                    self.list(arguments, to);
                    to.put(")");
                }
                Tail::Index { span, index } => {
                    to.put(" ");
                    self.mark(*span, to);
                    to.put("@");
                    self.expr(index, to);
                }
            }
        }
    }

    #[cycle(expressions)]
    fn list(self, list: &List, to: &mut Transcript) {
        let items = list.items.get();
        for i in 0..items.len() {
            to.put(" ");
            match &items[i] {
                Arg::Plain(value) => self.expr(value, to),
                Arg::Named { span, name, value } => {
                    self.mark(*span, to);
                    self.name(*name, to);
                    to.put(": ");
                    self.expr(value, to);
                }
                Arg::Pair { span, key, value } => {
                    self.mark(*span, to);
                    self.expr(key.get(), to);
                    to.put(": ");
                    self.expr(value.get(), to);
                }
            }
        }
        if list.trailing {
            to.put(",");
        }
    }

    #[cycle(statements)]
    fn stmt(self, stmt: &Stmt, to: &mut Transcript) {
        self.mark(span_of_statement(stmt), to);
        match stmt {
            Stmt::Expr(value) => self.expr(value, to),
            Stmt::Assign {
                span: _,
                name,
                assignment,
                value,
            } => {
                to.put(match assignment {
                    Assignment::Set => "(= ",
                    Assignment::Add => "(+= ",
                });
                self.name(*name, to);
                to.put(" ");
                self.expr(value, to);
                to.put(")")
            }
            Stmt::If {
                branches,
                otherwise,
                ..
            } => {
                let branches = branches.get();
                to.put("(if");
                for i in 0..branches.len() {
                    to.put(" ");
                    self.expr(&branches[i].condition, to);
                    self.body(&branches[i].block, to);
                }
                if let Some(block) = otherwise {
                    to.put(" else");
                    self.body(block, to);
                }
                to.put(")")
            }
            Stmt::Foreach {
                span: _,
                names,
                items,
                body,
            } => {
                to.put("(foreach");
                for name in names.get() {
                    to.put(" ");
                    self.name(*name, to);
                }
                to.put(" : ");
                self.expr(items, to);
                self.body(body, to);
                to.put(")")
            }
            Stmt::Break(_) => to.put("break"),
            Stmt::Continue(_) => to.put("continue"),
        }
    }

    #[cycle(statements)]
    fn body(self, block: &Block, to: &mut Transcript) {
        to.put(" {");
        self.block(block, to);
        to.put("}")
    }

    #[cycle(statements)]
    fn block(self, block: &Block, to: &mut Transcript) {
        self.mark(block.span, to);
        let statements = block.statements.get();
        for i in 0..statements.len() {
            if i > 0 {
                to.put(" ");
            }
            self.stmt(&statements[i], to);
        }
    }
}
