//! Paths to nodes.

ghost use Rattle.std.specs.Prelude.{◌≡◌, ◌∷◌, ◌++◌, [], option_map};
ghost use Rattle.meson_syntax.specs.View.{Bytes, arg_view, block_view, branch_view, expr_view, list_view, operand_view, otherwise_view, stmt_view, tail_view, view};
ghost use Rattle.meson_syntax.specs.Children.{Any, a_block, an_expression, argument_parts, tail_parts};
ghost use Rattle.meson_syntax.specs.inside.Children.{args_parts, block_parts, branch_parts, expression_any, expression_parts, found_view, look, node_at, node_view, operand_parts, child_nodes, option_of, otherwise_parts, rust_branches_parts, rust_operands_parts, rust_statements_parts, rust_tails_parts, statement_parts};
ghost use Rattle.meson_syntax.specs.Paths.{expression_on_path, list_at, list_in, nth};

use crate::tree::{Arg, Block, Branch, Expr, List, Operand, Parsed, Stmt, Tail};
use meson_values::Many;

/// The path from a file's block to a node: each step is the number of a child, from 0 in the order of the source.
#[derive(Debug, Drop)]
pub struct Path {
    pub steps: Many<usize>,
}

/// A node of any sort.
#[derive(Clone, Copy)]
pub(crate) enum Node<'t> {
    Expr(&'t Expr),
    Stmt(&'t Stmt),
    Block(&'t Block),
}

/// What a number names among some nodes: one of them, or what is left of the number after the last of them.
#[derive(Clone, Copy)]
pub(crate) enum Found<'t> {
    Node(Node<'t>),
    Left(usize),
}

impl<'t> Found<'t> {
    /// The node, if it is one of them.
    fn node(self) -> Option<Node<'t>>
        ensures { (source : Bytes) → option_map (node_view source) result ≡ option_of (found_view source self.entry) }
    {
        match self {
            Found::Node(node) => Some(node),
            Found::Left(_) => None,
        }
    }
}

/// The first of one node.
fn only<'t>(node: Node<'t>, n: usize) -> Found<'t>
    ensures { (source : Bytes) → found_view source result ≡ look (node_view source node.entry ∷ []) n }
{
    if n == 0 {
        Found::Node(node)
    } else {
        Found::Left(n - 1)
    }
}

/// The first or the second of two nodes.
fn either<'t>(first: Node<'t>, second: Node<'t>, n: usize) -> Found<'t>
    ensures { (source : Bytes) → found_view source result ≡ look (node_view source first.entry ∷ node_view source second.entry ∷ []) n }
{
    if n == 0 {
        Found::Node(first)
    } else {
        only(second, n - 1)
    }
}

/// A child of an element of a list.
pub(crate) fn in_arg(arg: &Arg, n: usize) -> Found<'_>
    ensures { (source : Bytes) → found_view source result ≡ look (argument_parts (arg_view source arg.now)) n }
{
    match arg {
        Arg::Plain(value) => only(Node::Expr(value), n),
        Arg::Named {
            span: _,
            name: _,
            value,
        } => only(Node::Expr(value), n),
        Arg::Pair {
            span: _,
            key,
            value,
        } => either(Node::Expr(key.get()), Node::Expr(value.get()), n),
    }
}

/// A child of the elements of a list.
fn in_args(args: &[Arg], n: usize) -> Found<'_>
    ensures { (source : Bytes) → found_view source result ≡ look (args_parts source args.now) n }
{
    let mut left = n;
    for i in 0..args.len() {
        match in_arg(&args[i], left) {
            Found::Node(node) => return Found::Node(node),
            Found::Left(rest) => left = rest,
        }
    }
    Found::Left(left)
}

/// A child of a method call or an index.
pub(crate) fn in_tail(tail: &Tail, n: usize) -> Found<'_>
    ensures { (source : Bytes) → found_view source result ≡ look (tail_parts (tail_view source tail.now)) n }
{
    match tail {
        Tail::Method {
            span: _,
            name: _,
            arguments,
        } => in_args(arguments.items.get(), n),
        Tail::Index { span: _, index } => only(Node::Expr(index), n),
    }
}

/// A child of the method calls and indexes after an expression.
fn in_tails(tails: &[Tail], n: usize) -> Found<'_>
    ensures { (source : Bytes) → found_view source result ≡ look (rust_tails_parts source tails.now) n }
{
    let mut left = n;
    for i in 0..tails.len() {
        match in_tail(&tails[i], left) {
            Found::Node(node) => return Found::Node(node),
            Found::Left(rest) => left = rest,
        }
    }
    Found::Left(left)
}

/// The child of an operand after the first.
fn in_operand(operand: &Operand, n: usize) -> Found<'_>
    ensures { (source : Bytes) → found_view source result ≡ look (operand_parts (operand_view source operand.now)) n }
{
    let Operand { operator: _, value } = operand;
    only(Node::Expr(value), n)
}

/// A child of the operands after the first.
fn in_operands(operands: &[Operand], n: usize) -> Found<'_>
    ensures { (source : Bytes) → found_view source result ≡ look (rust_operands_parts source operands.now) n }
{
    let mut left = n;
    for i in 0..operands.len() {
        match in_operand(&operands[i], left) {
            Found::Node(node) => return Found::Node(node),
            Found::Left(rest) => left = rest,
        }
    }
    Found::Left(left)
}

/// A child of a branch: its condition or its block.
fn in_branch(branch: &Branch, n: usize) -> Found<'_>
    ensures { (source : Bytes) → found_view source result ≡ look (branch_parts (branch_view source branch.now)) n }
{
    either(Node::Expr(&branch.condition), Node::Block(&branch.block), n)
}

/// A child of the branches of a selection.
fn in_branches(branches: &[Branch], n: usize) -> Found<'_>
    ensures { (source : Bytes) → found_view source result ≡ look (rust_branches_parts source branches.now) n }
{
    let mut left = n;
    for i in 0..branches.len() {
        match in_branch(&branches[i], left) {
            Found::Node(node) => return Found::Node(node),
            Found::Left(rest) => left = rest,
        }
    }
    Found::Left(left)
}

/// A child of a row: one of its operands.
fn in_row<'t>(first: &'t Expr, rest: &'t [Operand], n: usize) -> Found<'t>
    ensures { (source : Bytes) → found_view source result ≡ look (an_expression (expr_view source first.now) ∷ rust_operands_parts source rest.now) n }
{
    match only(Node::Expr(first), n) {
        Found::Node(node) => Found::Node(node),
        Found::Left(left) => in_operands(rest, left),
    }
}

/// A child of a postfix row: its base, or a child of a method call or index.
fn in_postfix<'t>(base: &'t Expr, tails: &'t [Tail], n: usize) -> Found<'t>
    ensures { (source : Bytes) → found_view source result ≡ look (an_expression (expr_view source base.now) ∷ rust_tails_parts source tails.now) n }
{
    match only(Node::Expr(base), n) {
        Found::Node(node) => Found::Node(node),
        Found::Left(left) => in_tails(tails, left),
    }
}

/// One of the three parts of a conditional.
fn in_conditional<'t>(condition: &'t Expr, yes: &'t Expr, no: &'t Expr, n: usize) -> Found<'t>
    ensures { (source : Bytes) → found_view source result ≡ look
        (an_expression (expr_view source condition.now) ∷ an_expression (expr_view source yes.now) ∷ an_expression (expr_view source no.now) ∷ []) n }
{
    match only(Node::Expr(condition), n) {
        Found::Node(node) => Found::Node(node),
        Found::Left(left) => either(Node::Expr(yes), Node::Expr(no), left),
    }
}

/// A child of an expression.
fn in_expr(expr: &Expr, n: usize) -> Found<'_>
    ensures { (source : Bytes) → found_view source result ≡ look (expression_parts (expr_view source expr.now)) n }
{
    match expr {
        Expr::Identifier(_) => Found::Left(n),
        Expr::Boolean { span: _, value: _ } => Found::Left(n),
        Expr::Integer(_) => Found::Left(n),
        Expr::String { span: _, kind: _ } => Found::Left(n),
        Expr::Paren { span: _, inside } => only(Node::Expr(inside.get()), n),
        Expr::Array(list) => in_args(list.items.get(), n),
        Expr::Dictionary(list) => in_args(list.items.get(), n),
        Expr::Call {
            span: _,
            name: _,
            arguments,
        } => in_args(arguments.items.get(), n),
        Expr::Unary {
            span: _,
            operator: _,
            operand,
        } => only(Node::Expr(operand.get()), n),
        Expr::Row {
            span: _,
            first,
            rest,
        } => in_row(first.get(), rest.get(), n),
        Expr::Postfix {
            span: _,
            base,
            tails,
        } => in_postfix(base.get(), tails.get(), n),
        Expr::Conditional {
            span: _,
            condition,
            yes,
            no,
        } => in_conditional(condition.get(), yes.get(), no.get(), n),
    }
}

/// A child of a selection: in its branches, or the block after `else`.
fn in_selection<'t>(branches: &'t [Branch], otherwise: &'t Option<Block>, n: usize) -> Found<'t>
    ensures { (source : Bytes) → found_view source result
        ≡ look (rust_branches_parts source branches.now ++ otherwise_parts (otherwise_view source otherwise.now)) n }
{
    match in_branches(branches, n) {
        Found::Node(node) => Found::Node(node),
        Found::Left(left) => match otherwise {
            Some(block) => only(Node::Block(block), left),
            None => Found::Left(left),
        },
    }
}

/// A child of a statement.
fn in_stmt(stmt: &Stmt, n: usize) -> Found<'_>
    ensures { (source : Bytes) → found_view source result ≡ look (statement_parts (stmt_view source stmt.now)) n }
{
    match stmt {
        Stmt::Expr(value) => only(Node::Expr(value), n),
        Stmt::Assign {
            span: _,
            name: _,
            assignment: _,
            value,
        } => only(Node::Expr(value), n),
        Stmt::If {
            span: _,
            branches,
            otherwise,
        } => in_selection(branches.get(), otherwise, n),
        Stmt::Foreach {
            span: _,
            names: _,
            items,
            body,
        } => either(Node::Expr(items), Node::Block(body), n),
        Stmt::Break(_) => Found::Left(n),
        Stmt::Continue(_) => Found::Left(n),
    }
}

/// A child of a block: one of its statements.
fn in_statements(statements: &[Stmt], n: usize) -> Option<Node<'_>>
    ensures { (source : Bytes) → option_map (node_view source) result ≡ nth (rust_statements_parts source statements.now) n }
{
    match statements.get(n) {
        Some(statement) => Some(Node::Stmt(statement)),
        None => None,
    }
}

/// A child of a block.
fn in_block(block: &Block, n: usize) -> Option<Node<'_>>
    ensures { (source : Bytes) → option_map (node_view source) result ≡ nth (block_parts (block_view source block.now)) n }
{
    let Block {
        statements,
        span: _,
    } = block;
    in_statements(statements.get(), n)
}

impl<'t> Node<'t> {
    /// The child of this number.
    fn child(self, n: usize) -> Option<Node<'t>>
        ensures { (source : Bytes) → option_map (node_view source) result ≡ nth (child_nodes (node_view source self.entry)) n }
    {
        match self {
            Node::Expr(expr) => in_expr(expr, n).node(),
            Node::Stmt(stmt) => in_stmt(stmt, n).node(),
            Node::Block(block) => in_block(block, n),
        }
    }

    /// The node, if it is an expression.
    fn expr(self) -> Option<&'t Expr>
        ensures { (source : Bytes) → option_map (λ e. expr_view source e.now) result ≡ expression_any (node_view source self.entry) }
    {
        match self {
            Node::Expr(expr) => Some(expr),
            Node::Stmt(_) => None,
            Node::Block(_) => None,
        }
    }
}

/// The list of an array, a dictionary or a call.
fn list_of(expr: &Expr) -> Option<&List>
    ensures { (source : Bytes) → option_map (λ l. list_view source l.now) result ≡ option_map (λ l. l.list) (list_in (expr_view source expr.now)) }
{
    match expr {
        Expr::Array(list) => Some(list),
        Expr::Dictionary(list) => Some(list),
        Expr::Call {
            span: _,
            name: _,
            arguments,
        } => Some(arguments),
        _ => None,
    }
}

impl Parsed {
    /// The node that the path names.
    fn node_at(&self, path: &Path) -> Option<Node<'_>>
        ensures { (source : Bytes) → option_map (node_view source) result ≡ node_at (a_block (block_view source self.now.block)) path.now.steps }
    {
        let mut node = Node::Block(&self.block);
        let steps = path.steps.get();
        for i in 0..steps.len() {
            match node.child(steps[i]) {
                Some(child) => node = child,
                None => return None,
            }
        }
        Some(node)
    }

    /// The expression that the path names.
    pub fn expr_at(&self, path: &Path) -> Option<&Expr>
        ensures { (source : Bytes) → option_map (λ e. expr_view source e.now) result ≡ expression_on_path (view source self.now) path.now.steps }
    {
        match self.node_at(path) {
            Some(node) => node.expr(),
            None => None,
        }
    }

    /// The list of the array, dictionary or call that the path names.
    pub fn list_at(&self, path: &Path) -> Option<&List>
        ensures { (source : Bytes) → option_map (λ l. list_view source l.now) result
            ≡ option_map (λ p. p.list) (list_at (view source self.now) path.now.steps) }
    {
        match self.expr_at(path) {
            Some(expr) => list_of(expr),
            None => None,
        }
    }
}
