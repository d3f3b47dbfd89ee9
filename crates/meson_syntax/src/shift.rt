//! Trees whose borders move, in place.

ghost use Rattle.std.specs.Prelude.{◌≡◌, ◌<◌, ◌≤◌, ◌+◌, ◌-◌, ◌^◌, map, option_map};
ghost use Rattle.meson_syntax.specs.Furthest.{furthest, furthest_arg, furthest_args, furthest_block, furthest_branch, furthest_branches, furthest_expr, furthest_list, furthest_operand, furthest_operands, furthest_otherwise, furthest_spans, furthest_stmt, furthest_stmts, furthest_tail, furthest_tails};
ghost use Rattle.meson_syntax.specs.MovedCode.{moved_arg, moved_block, moved_branch, moved_expr, moved_list, moved_operand, moved_parsed, moved_stmt, moved_tail};
ghost use Rattle.meson_syntax.specs.Moving.{moved, span_by, MayMove, border_by};

use crate::moving::Move;
use crate::tree::{Arg, Block, Branch, Expr, List, Operand, Parsed, Stmt, Tail};
use meson_lex::Span;

impl Parsed {
    /// Moves the borders of all nodes and names as they move in the file when the `was_len` bytes at `from` become `now_len` bytes. Each border at `from +
    /// was_len` or after it moves by the difference, the others do not. Does not allocate.
    ///
    /// The bytes must be in the file, and at least one. No border may be after the file's end, and the new file's length must be a `usize`.
    pub fn shift(&mut self, from: usize, was_len: usize, now_len: usize)
        requires some { 1 ≤ was_len }
        requires inside { from + was_len ≤ self.old.span.to }
        requires ends { furthest self.old ≤ self.old.span.to }
        requires fits { (self.old.span.to - was_len) + now_len < 2 ^ 64 }
        ensures { self.new ≡ moved_parsed (moved (from + was_len) was_len now_len) self.old }
    {
        // The range ends no later than the file, so the sum is within a `usize`.
        let _file_end = self.span.to;
        let by = Move {
            end: from + was_len,
            was: was_len,
            now: now_len,
        };
        by.shift(&mut self.span);
        shift_block(&mut self.block, by);
    }
}

impl List {
    /// Moves the borders of the list and of all nodes and names in it by a number of bytes. Does not allocate.
    ///
    /// Each sum must be a `usize`.
    pub fn move_by(&mut self, by: usize)
        requires { furthest_list self.old + by < 2 ^ 64 }
        ensures { self.new ≡ moved_list (λ n. n + by) self.old }
    {
        let all = Move {
            end: 0,
            was: 0,
            now: by,
        };
        shift_list(self, all);
    }
}

// ---- expressions

#[cycle(shift_expression)]
fn shift_expr(expr: &mut Expr, by: Move)
    requires { MayMove by (furthest_expr expr.old) }
    ensures { expr.new ≡ moved_expr (border_by by) expr.old }
{
    match expr {
        Expr::Identifier(span) => by.shift(span),
        Expr::Boolean { span, .. } => by.shift(span),
        Expr::Integer(span) => by.shift(span),
        Expr::String { span, .. } => by.shift(span),
        Expr::Paren { span, inside } => {
            by.shift(span);
            shift_expr(inside.get_mut(), by);
        }
        Expr::Array(list) => shift_list(list, by),
        Expr::Dictionary(list) => shift_list(list, by),
        Expr::Call {
            span,
            name,
            arguments,
        } => {
            by.shift(span);
            by.shift(name);
            shift_list(arguments, by);
        }
        Expr::Unary { span, operand, .. } => {
            by.shift(span);
            shift_expr(operand.get_mut(), by);
        }
        Expr::Row { span, first, rest } => {
            by.shift(span);
            shift_expr(first.get_mut(), by);
            shift_operands(rest.get_mut(), by);
        }
        Expr::Postfix { span, base, tails } => {
            by.shift(span);
            shift_expr(base.get_mut(), by);
            shift_tails(tails.get_mut(), by);
        }
        Expr::Conditional {
            span,
            condition,
            yes,
            no,
        } => {
            by.shift(span);
            shift_expr(condition.get_mut(), by);
            shift_expr(yes.get_mut(), by);
            shift_expr(no.get_mut(), by);
        }
    }
}

#[cycle(shift_expression)]
fn shift_list(list: &mut List, by: Move)
    requires { MayMove by (furthest_list list.old) }
    ensures { list.new ≡ moved_list (border_by by) list.old }
{
    by.shift(&mut list.span);
    shift_args(list.items.get_mut(), by);
}

#[cycle(shift_expression)]
fn shift_args(args: &mut [Arg], by: Move)
    requires { MayMove by (furthest_args args.old) }
    ensures { args.new ≡ map (moved_arg (border_by by)) args.old }
{
    for i in 0..args.len() {
        shift_arg(&mut args[i], by);
    }
}

#[cycle(shift_expression)]
fn shift_arg(arg: &mut Arg, by: Move)
    requires { MayMove by (furthest_arg arg.old) }
    ensures { arg.new ≡ moved_arg (border_by by) arg.old }
{
    match arg {
        Arg::Plain(value) => shift_expr(value, by),
        Arg::Named { span, name, value } => {
            by.shift(span);
            by.shift(name);
            shift_expr(value, by);
        }
        Arg::Pair { span, key, value } => {
            by.shift(span);
            shift_expr(key.get_mut(), by);
            shift_expr(value.get_mut(), by);
        }
    }
}

#[cycle(shift_expression)]
fn shift_operands(operands: &mut [Operand], by: Move)
    requires { MayMove by (furthest_operands operands.old) }
    ensures { operands.new ≡ map (moved_operand (border_by by)) operands.old }
{
    for i in 0..operands.len() {
        shift_operand(&mut operands[i], by);
    }
}

#[cycle(shift_expression)]
fn shift_operand(operand: &mut Operand, by: Move)
    requires { MayMove by (furthest_operand operand.old) }
    ensures { operand.new ≡ moved_operand (border_by by) operand.old }
{
    shift_expr(&mut operand.value, by);
}

#[cycle(shift_expression)]
fn shift_tails(tails: &mut [Tail], by: Move)
    requires { MayMove by (furthest_tails tails.old) }
    ensures { tails.new ≡ map (moved_tail (border_by by)) tails.old }
{
    for i in 0..tails.len() {
        shift_tail(&mut tails[i], by);
    }
}

#[cycle(shift_expression)]
fn shift_tail(tail: &mut Tail, by: Move)
    requires { MayMove by (furthest_tail tail.old) }
    ensures { tail.new ≡ moved_tail (border_by by) tail.old }
{
    match tail {
        Tail::Method {
            span,
            name,
            arguments,
        } => {
            by.shift(span);
            by.shift(name);
            shift_list(arguments, by);
        }
        Tail::Index { span, index } => {
            by.shift(span);
            shift_expr(index, by);
        }
    }
}

// ---- statements

#[cycle(shift_statement)]
fn shift_block(block: &mut Block, by: Move)
    requires { MayMove by (furthest_block block.old) }
    ensures { block.new ≡ moved_block (border_by by) block.old }
{
    by.shift(&mut block.span);
    shift_stmts(block.statements.get_mut(), by);
}

#[cycle(shift_statement)]
fn shift_stmts(stmts: &mut [Stmt], by: Move)
    requires { MayMove by (furthest_stmts stmts.old) }
    ensures { stmts.new ≡ map (moved_stmt (border_by by)) stmts.old }
{
    for i in 0..stmts.len() {
        shift_stmt(&mut stmts[i], by);
    }
}

#[cycle(shift_statement)]
fn shift_stmt(stmt: &mut Stmt, by: Move)
    requires { MayMove by (furthest_stmt stmt.old) }
    ensures { stmt.new ≡ moved_stmt (border_by by) stmt.old }
{
    match stmt {
        Stmt::Expr(value) => shift_expr(value, by),
        Stmt::Assign {
            span,
            name,
            value,
            ..
        } => {
            by.shift(span);
            by.shift(name);
            shift_expr(value, by);
        }
        Stmt::If {
            span,
            branches,
            otherwise,
        } => {
            by.shift(span);
            shift_branches(branches.get_mut(), by);
            shift_otherwise(otherwise, by);
        }
        Stmt::Foreach {
            span,
            names,
            items,
            body,
        } => {
            by.shift(span);
            shift_spans(names.get_mut(), by);
            shift_expr(items, by);
            shift_block(body, by);
        }
        Stmt::Break(span) => by.shift(span),
        Stmt::Continue(span) => by.shift(span),
    }
}

#[cycle(shift_statement)]
fn shift_otherwise(otherwise: &mut Option<Block>, by: Move)
    requires { MayMove by (furthest_otherwise otherwise.old) }
    ensures { otherwise.new ≡ option_map (moved_block (border_by by)) otherwise.old }
{
    if let Some(block) = otherwise {
        shift_block(block, by);
    }
}

#[cycle(shift_statement)]
fn shift_branches(branches: &mut [Branch], by: Move)
    requires { MayMove by (furthest_branches branches.old) }
    ensures { branches.new ≡ map (moved_branch (border_by by)) branches.old }
{
    for i in 0..branches.len() {
        shift_branch(&mut branches[i], by);
    }
}

#[cycle(shift_statement)]
fn shift_branch(branch: &mut Branch, by: Move)
    requires { MayMove by (furthest_branch branch.old) }
    ensures { branch.new ≡ moved_branch (border_by by) branch.old }
{
    shift_expr(&mut branch.condition, by);
    shift_block(&mut branch.block, by);
}

fn shift_spans(spans: &mut [Span], by: Move)
    requires { MayMove by (furthest_spans spans.old) }
    ensures { spans.new ≡ map (span_by (border_by by)) spans.old }
{
    for i in 0..spans.len() {
        by.shift(&mut spans[i]);
    }
}
