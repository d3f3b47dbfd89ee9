//! How deep the constructs of a tree nest.

ghost use Rattle.std.specs.Prelude.{◌≡◌, nat_le};
ghost use Rattle.meson_edit.specs.inside.Depths.{branch_depth};
ghost use Rattle.meson_syntax.specs.View.{Bytes, expr_view, operands_view, tail_view, tails_view, list_view, arg_view, args_view, stmt_view, branch_view, stmts_view, branches_view, otherwise_view, block_view, view};
ghost use Rattle.meson_syntax.specs.Grammar.{expression_depth, operands_depth, tail_depth, tails_depth, listing_depth, argument_depth, arguments_depth, statement_depth, branches_depth, otherwise_depth, statements_depth, block_depth, file_depth};
ghost use Rattle.meson_syntax.specs.Tree.{operands_of, tails_of, arguments_of, branches_of, statements_of};

use meson_syntax::{Arg, Block, Branch, Expr, List, Operand, Parsed, Stmt, Tail};

/// Whether at most this number of brackets, conditionals, selections and iterations of the tree are inside one another.
pub fn nests_within(tree: &Parsed, most: usize) -> bool
    ensures { (source : Bytes) → result ≡ nat_le (file_depth (view source tree.now)) most }
{
    block_fits(&tree.block, most)
}

// Below: whether a part fits if there is room for this number of constructs inside one another.

#[cycle(expressions)]
fn expr_fits(expr: &Expr, room: usize) -> bool
    ensures { (source : Bytes) → result ≡ nat_le (expression_depth (expr_view source expr.now)) room }
{
    match expr {
        Expr::Identifier(_) | Expr::Integer(_) => true,
        Expr::Boolean { .. } | Expr::String { .. } => true,
        Expr::Paren { inside, .. } => 0 < room && expr_fits(inside.get(), room - 1),
        Expr::Array(list) => list_fits(list, room),
        Expr::Dictionary(list) => list_fits(list, room),
        Expr::Call { arguments, .. } => list_fits(arguments, room),
        Expr::Unary { operand, .. } => expr_fits(operand.get(), room),
        Expr::Row { first, rest, .. } => expr_fits(first.get(), room)
            && operands_fit(rest.get(), room),
        Expr::Postfix { base, tails, .. } => expr_fits(base.get(), room)
            && tails_fit(tails.get(), room),
        Expr::Conditional {
            condition,
            yes,
            no,
            ..
        } => {
            0 < room
                && (expr_fits(condition.get(), room)
                    && (expr_fits(yes.get(), room - 1) && expr_fits(no.get(), room - 1)))
        }
    }
}

#[cycle(expressions)]
fn operands_fit(operands: &[Operand], room: usize) -> bool
    ensures { (source : Bytes) → result ≡ nat_le (operands_depth (operands_of (operands_view source operands.now))) room }
{
    for i in 0..operands.len() {
        if !expr_fits(&operands[i].value, room) {
            return false;
        }
    }
    true
}

#[cycle(expressions)]
fn tails_fit(tails: &[Tail], room: usize) -> bool
    ensures { (source : Bytes) → result ≡ nat_le (tails_depth (tails_of (tails_view source tails.now))) room }
{
    for i in 0..tails.len() {
        if !tail_fits(&tails[i], room) {
            return false;
        }
    }
    true
}

#[cycle(expressions)]
fn tail_fits(tail: &Tail, room: usize) -> bool
    ensures { (source : Bytes) → result ≡ nat_le (tail_depth (tail_view source tail.now)) room }
{
    match tail {
        Tail::Method { arguments, .. } => list_fits(arguments, room),
        Tail::Index { index, .. } => 0 < room && expr_fits(index, room - 1),
    }
}

#[cycle(expressions)]
fn list_fits(list: &List, room: usize) -> bool
    ensures { (source : Bytes) → result ≡ nat_le (listing_depth (list_view source list.now)) room }
{
    0 < room && args_fit(list.items.get(), room - 1)
}

#[cycle(expressions)]
fn args_fit(args: &[Arg], room: usize) -> bool
    ensures { (source : Bytes) → result ≡ nat_le (arguments_depth (arguments_of (args_view source args.now))) room }
{
    for i in 0..args.len() {
        if !arg_fits(&args[i], room) {
            return false;
        }
    }
    true
}

#[cycle(expressions)]
fn arg_fits(arg: &Arg, room: usize) -> bool
    ensures { (source : Bytes) → result ≡ nat_le (argument_depth (arg_view source arg.now)) room }
{
    match arg {
        Arg::Plain(value) => expr_fits(value, room),
        Arg::Named { value, .. } => expr_fits(value, room),
        Arg::Pair { key, value, .. } => expr_fits(key.get(), room) && expr_fits(value.get(), room),
    }
}

#[cycle(statements)]
fn stmt_fits(stmt: &Stmt, room: usize) -> bool
    ensures { (source : Bytes) → result ≡ nat_le (statement_depth (stmt_view source stmt.now)) room }
{
    match stmt {
        Stmt::Expr(value) => expr_fits(value, room),
        Stmt::Assign { value, .. } => expr_fits(value, room),
        Stmt::If {
            branches,
            otherwise,
            ..
        } => 0 < room
            && (branches_fit(branches.get(), room - 1) && otherwise_fits(otherwise, room - 1)),
        Stmt::Foreach { items, body, .. } => 0 < room
            && (expr_fits(items, room - 1) && block_fits(body, room - 1)),
        Stmt::Break(_) | Stmt::Continue(_) => true,
    }
}

#[cycle(statements)]
fn branch_fits(branch: &Branch, room: usize) -> bool
    ensures { (source : Bytes) → result ≡ nat_le (branch_depth (branch_view source branch.now)) room }
{
    expr_fits(&branch.condition, room) && block_fits(&branch.block, room)
}

#[cycle(statements)]
fn branches_fit(branches: &[Branch], room: usize) -> bool
    ensures { (source : Bytes) → result ≡ nat_le (branches_depth (branches_of (branches_view source branches.now))) room }
{
    for i in 0..branches.len() {
        if !branch_fits(&branches[i], room) {
            return false;
        }
    }
    true
}

#[cycle(statements)]
fn otherwise_fits(otherwise: &Option<Block>, room: usize) -> bool
    ensures { (source : Bytes) → result ≡ nat_le (otherwise_depth (otherwise_view source otherwise.now)) room }
{
    match otherwise {
        Some(block) => block_fits(block, room),
        None => true,
    }
}

#[cycle(statements)]
fn block_fits(block: &Block, room: usize) -> bool
    ensures { (source : Bytes) → result ≡ nat_le (block_depth (block_view source block.now)) room }
{
    let stmts = block.statements.get();
    for i in 0..stmts.len() {
        if !stmt_fits(&stmts[i], room) {
            return false;
        }
    }
    true
}
