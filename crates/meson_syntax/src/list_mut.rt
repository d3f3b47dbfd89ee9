//! Lists that replace others.

ghost use Rattle.std.specs.Prelude.{◌≡◌, ◌∷◌, length, Some, None};
ghost use Rattle.meson_lex.specs.declared.kinds.Span.{Span};
ghost use Rattle.meson_syntax.specs.View.{Bytes, arg_view, block_view, branch_view, branches_view, expr_view, list_view, operand_view, operands_view, otherwise_view, stmt_view, stmts_view, tail_view, tails_view, view};
ghost use Rattle.meson_syntax.specs.Children.{argument_parts, tail_parts};
ghost use Rattle.meson_syntax.specs.ListPut.{with_list};
ghost use Rattle.meson_syntax.specs.Paths.{ListAt, argument_children, block_children, branches_children, expression_children, list_at, list_in, listing_children, of_block, of_expression, of_statement, operands_children, otherwise_children, statement_children, statements_children, tail_children, tails_children};
ghost use Rattle.meson_syntax.specs.inside.Putting.{IsSpot, branch_child, only_child, operand_child, put_child, put_in, put_own};
ghost use Rattle.meson_syntax.specs.Tree.{branches_of, operands_of, statements_of, tails_of};
ghost use Rattle.meson_syntax.specs.declared.operator.Bracket.{Bracket};
ghost use Rattle.meson_lex.specs.declared.kinds.Kind.{Kind};

use crate::path::{Found, Path, in_arg, in_tail};
use crate::tree::{Arg, Block, Branch, Expr, List, Operand, Parsed, Stmt, Tail};
use meson_values::Many;
use std::mem;

/// Which element has a child, and which of the element's children it is.
#[derive(Clone, Copy)]
struct Spot {
    index: usize,
    left: usize,
}

/// The element that has the child of this number.
fn arg_spot(args: &[Arg], n: usize) -> Spot
    ensures { (source : Bytes) → IsSpot (λ a. length (argument_parts (arg_view source a))) args.now n result.index result.left }
{
    let mut left = n;
    for i in 0..args.len() {
        match in_arg(&args[i], left) {
            Found::Node(_) => return Spot { index: i, left },
            Found::Left(rest) => left = rest,
        }
    }
    Spot {
        index: args.len(),
        left,
    }
}

/// The method call or index that has the child of this number.
fn tail_spot(tails: &[Tail], n: usize) -> Spot
    ensures { (source : Bytes) → IsSpot (λ t. length (tail_parts (tail_view source t))) tails.now n result.index result.left }
{
    let mut left = n;
    for i in 0..tails.len() {
        match in_tail(&tails[i], left) {
            Found::Node(_) => return Spot { index: i, left },
            Found::Left(rest) => left = rest,
        }
    }
    Spot {
        index: tails.len(),
        left,
    }
}

/// Swaps the expression's own list with the other one.
fn put_here(expr: &mut Expr, list: &mut List)
    ensures { (source : Bytes) → (list_view source list.new, expr_view source expr.new)
        ≡ put_own (list_view source list.old) (expr_view source expr.old) (list_in (expr_view source expr.old)) }
{
    match expr {
        Expr::Array(own) => mem::swap(own, list),
        Expr::Dictionary(own) => mem::swap(own, list),
        Expr::Call {
            span: _,
            name: _,
            arguments,
        } => mem::swap(arguments, list),
        _ => {}
    }
}

// ---- expressions

#[cycle(put_expression)]
fn put_in_expr(expr: &mut Expr, steps: &[usize], list: &mut List)
    ensures { (source : Bytes) → (list_view source list.new, expr_view source expr.new)
        ≡ put_in Span of_expression (expr_view source expr.old) steps.now (list_view source list.old) }
{
    match steps {
        [] => put_here(expr, list),
        [n, rest @ ..] => put_below(expr, *n, rest, list),
    }
}

#[cycle(put_expression)]
fn put_below(expr: &mut Expr, n: usize, steps: &[usize], list: &mut List)
    ensures { (source : Bytes) → (list_view source list.new, expr_view source expr.new)
        ≡ put_child steps.now (list_view source list.old) expression_children (expr_view source expr.old) n }
{
    match expr {
        Expr::Identifier(_) => {}
        Expr::Boolean { span: _, value: _ } => {}
        Expr::Integer(_) => {}
        Expr::String { span: _, kind: _ } => {}
        Expr::Paren { span: _, inside } => put_in_only(inside.get_mut(), n, steps, list),
        Expr::Array(own) => put_in_list(own, n, steps, list),
        Expr::Dictionary(own) => put_in_list(own, n, steps, list),
        Expr::Call {
            span: _,
            name: _,
            arguments,
        } => put_in_list(arguments, n, steps, list),
        Expr::Unary {
            span: _,
            operator: _,
            operand,
        } => put_in_only(operand.get_mut(), n, steps, list),
        Expr::Row {
            span: _,
            first,
            rest,
        } => {
            if n == 0 {
                put_in_expr(first.get_mut(), steps, list);
            } else {
                put_in_operands(rest, n - 1, steps, list);
            }
        }
        Expr::Postfix {
            span: _,
            base,
            tails,
        } => {
            if n == 0 {
                put_in_expr(base.get_mut(), steps, list);
            } else {
                put_in_tails(tails, n - 1, steps, list);
            }
        }
        Expr::Conditional {
            span: _,
            condition,
            yes,
            no,
        } => {
            if n == 0 {
                put_in_expr(condition.get_mut(), steps, list);
            } else if n == 1 {
                put_in_expr(yes.get_mut(), steps, list);
            } else {
                put_in_only(no.get_mut(), n - 2, steps, list);
            }
        }
    }
}

#[cycle(put_expression)]
fn put_in_only(expr: &mut Expr, n: usize, steps: &[usize], list: &mut List)
    ensures { (source : Bytes) → (list_view source list.new, expr_view source expr.new)
        ≡ put_child steps.now (list_view source list.old) only_child (expr_view source expr.old) n }
{
    if n == 0 {
        put_in_expr(expr, steps, list);
    }
}

#[cycle(put_expression)]
fn put_in_list(own: &mut List, n: usize, steps: &[usize], list: &mut List)
    ensures { (source : Bytes) (b : Bracket) → (list_view source list.new, list_view source own.new)
        ≡ put_child steps.now (list_view source list.old) (λ m. listing_children m b) (list_view source own.old) n }
{
    let args = own.items.get_mut();
    let spot = arg_spot(args, n);
    if spot.index < args.len() {
        put_in_arg(&mut args[spot.index], spot.left, steps, list);
    }
}

#[cycle(put_expression)]
fn put_in_arg(arg: &mut Arg, n: usize, steps: &[usize], list: &mut List)
    ensures { (source : Bytes) → (list_view source list.new, arg_view source arg.new)
        ≡ put_child steps.now (list_view source list.old) argument_children (arg_view source arg.old) n }
{
    match arg {
        Arg::Plain(value) => put_in_only(value, n, steps, list),
        Arg::Named {
            span: _,
            name: _,
            value,
        } => put_in_only(value, n, steps, list),
        Arg::Pair {
            span: _,
            key,
            value,
        } => {
            if n == 0 {
                put_in_expr(key.get_mut(), steps, list);
            } else {
                put_in_only(value.get_mut(), n - 1, steps, list);
            }
        }
    }
}

#[cycle(put_expression)]
fn put_in_operands(rest: &mut Many<Operand>, n: usize, steps: &[usize], list: &mut List)
    ensures { (source : Bytes) → (list_view source list.new, operands_of (operands_view source rest.new))
        ≡ put_child steps.now (list_view source list.old) operands_children (operands_of (operands_view source rest.old)) n }
{
    let operands = rest.get_mut();
    if n < operands.len() {
        put_in_operand(&mut operands[n], steps, list);
    }
}

#[cycle(put_expression)]
fn put_in_operand(operand: &mut Operand, steps: &[usize], list: &mut List)
    ensures { (source : Bytes) → (list_view source list.new, operand_view source operand.new)
        ≡ put_child steps.now (list_view source list.old) operand_child (operand_view source operand.old) 0 }
{
    put_in_expr(&mut operand.value, steps, list);
}

#[cycle(put_expression)]
fn put_in_tails(behind: &mut Many<Tail>, n: usize, steps: &[usize], list: &mut List)
    ensures { (source : Bytes) → (list_view source list.new, tails_of (tails_view source behind.new))
        ≡ put_child steps.now (list_view source list.old) tails_children (tails_of (tails_view source behind.old)) n }
{
    let tails = behind.get_mut();
    let spot = tail_spot(tails, n);
    if spot.index < tails.len() {
        put_in_tail(&mut tails[spot.index], spot.left, steps, list);
    }
}

#[cycle(put_expression)]
fn put_in_tail(tail: &mut Tail, n: usize, steps: &[usize], list: &mut List)
    ensures { (source : Bytes) → (list_view source list.new, tail_view source tail.new)
        ≡ put_child steps.now (list_view source list.old) tail_children (tail_view source tail.old) n }
{
    match tail {
        Tail::Method {
            span: _,
            name: _,
            arguments,
        } => put_in_list(arguments, n, steps, list),
        Tail::Index { span: _, index } => put_in_only(index, n, steps, list),
    }
}

// ---- statements

#[cycle(put_statement)]
fn put_in_block(block: &mut Block, steps: &[usize], list: &mut List)
    ensures { (source : Bytes) → (list_view source list.new, block_view source block.new)
        ≡ put_in Span of_block (block_view source block.old) steps.now (list_view source list.old) }
{
    match steps {
        [] => {}
        [n, rest @ ..] => put_in_statements(block, *n, rest, list),
    }
}

#[cycle(put_statement)]
fn put_in_statements(block: &mut Block, n: usize, steps: &[usize], list: &mut List)
    ensures { (source : Bytes) → (list_view source list.new, block_view source block.new)
        ≡ put_child steps.now (list_view source list.old) block_children (block_view source block.old) n }
{
    let statements = block.statements.get_mut();
    if n < statements.len() {
        put_in_stmt(&mut statements[n], steps, list);
    }
}

#[cycle(put_statement)]
fn put_in_stmt(stmt: &mut Stmt, steps: &[usize], list: &mut List)
    ensures { (source : Bytes) → (list_view source list.new, stmt_view source stmt.new)
        ≡ put_in Span of_statement (stmt_view source stmt.old) steps.now (list_view source list.old) }
{
    match steps {
        [] => {}
        [n, rest @ ..] => put_below_stmt(stmt, *n, rest, list),
    }
}

#[cycle(put_statement)]
fn put_below_stmt(stmt: &mut Stmt, n: usize, steps: &[usize], list: &mut List)
    ensures { (source : Bytes) → (list_view source list.new, stmt_view source stmt.new)
        ≡ put_child steps.now (list_view source list.old) statement_children (stmt_view source stmt.old) n }
{
    match stmt {
        Stmt::Expr(value) => put_in_only(value, n, steps, list),
        Stmt::Assign {
            span: _,
            name: _,
            assignment: _,
            value,
        } => put_in_only(value, n, steps, list),
        Stmt::If {
            span: _,
            branches,
            otherwise,
        } => {
            let count = branches.get().len();
            if n / 2 < count {
                put_in_branches(branches, n, steps, list);
            } else {
                put_in_otherwise(otherwise, n - 2 * count, steps, list);
            }
        }
        Stmt::Foreach {
            span: _,
            names: _,
            items,
            body,
        } => {
            if n == 0 {
                put_in_expr(items, steps, list);
            } else if n == 1 {
                put_in_block(body, steps, list);
            }
        }
        Stmt::Break(_) => {}
        Stmt::Continue(_) => {}
    }
}

#[cycle(put_statement)]
fn put_in_otherwise(otherwise: &mut Option<Block>, n: usize, steps: &[usize], list: &mut List)
    ensures { (source : Bytes) → (list_view source list.new, otherwise_view source otherwise.new)
        ≡ put_child steps.now (list_view source list.old) otherwise_children (otherwise_view source otherwise.old) n }
{
    if n == 0
        && let Some(block) = otherwise
    {
        put_in_block(block, steps, list);
    }
}

#[cycle(put_statement)]
fn put_in_branches(all: &mut Many<Branch>, n: usize, steps: &[usize], list: &mut List)
    ensures { (source : Bytes) (word : Kind) → (list_view source list.new, branches_of (branches_view source all.new))
        ≡ put_child steps.now (list_view source list.old) (λ t. branches_children t word) (branches_of (branches_view source all.old)) n }
{
    let branches = all.get_mut();
    if n / 2 < branches.len() {
        put_in_branch(&mut branches[n / 2], n % 2, steps, list);
    }
}

#[cycle(put_statement)]
fn put_in_branch(branch: &mut Branch, n: usize, steps: &[usize], list: &mut List)
    ensures { (source : Bytes) → (list_view source list.new, branch_view source branch.new)
        ≡ put_child steps.now (list_view source list.old) branch_child (branch_view source branch.old) n }
{
    if n == 0 {
        put_in_expr(&mut branch.condition, steps, list);
    } else if n == 1 {
        put_in_block(&mut branch.block, steps, list);
    }
}

impl Parsed {
    /// Puts a list where the path names one, of an array, a dictionary or a call, and gives the one that was there. If the path names none, the tree stays, and
    /// the list is returned. Does not allocate.
    pub fn put_list(&mut self, path: &Path, list: List) -> List
        ensures put { (source : Bytes) (p : ListAt Span) → list_at (view source self.old) path.now.steps ≡ Some p
            → view source self.new ≡ p.back (list_view source list) }
        ensures gives { (source : Bytes) (p : ListAt Span) → list_at (view source self.old) path.now.steps ≡ Some p → list_view source result ≡ p.list }
        ensures stays { (source : Bytes) → list_at (view source self.old) path.now.steps ≡ None → view source self.new ≡ view source self.old }
        ensures returns { (source : Bytes) → list_at (view source self.old) path.now.steps ≡ None → list_view source result ≡ list_view source list }
        ensures is { self.new ≡ with_list path.now.steps list self.old }
    {
        let mut other = list;
        put_in_block(&mut self.block, path.steps.get(), &mut other);
        other
    }
}
