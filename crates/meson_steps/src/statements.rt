//! Statements, by the path of their block and their number there, and assigned values, by the path of their assignment.

ghost use Rattle.std.specs.Prelude.{◌≡◌, ◌++◌, option_and_then, option_map};
ghost use Rattle.meson_edit.specs.Assigned.{assigned_at, assigned_in};
ghost use Rattle.meson_edit.specs.Blocks.{block_at, statement_in};
ghost use Rattle.meson_syntax.specs.Children.{a_block};
ghost use Rattle.meson_syntax.specs.inside.Children.{node_at, otherwise_parts, rust_branches_parts, statement_parts};
ghost use Rattle.meson_syntax.specs.Paths.{nth};
ghost use Rattle.meson_edit.specs.Standing.{statement_span};
ghost use Rattle.meson_syntax.specs.View.{block_view, expr_view, otherwise_view, stmt_view, view};
ghost use Rattle.meson_edit.specs.Places.{assigned_span, span_of_statement};
ghost use Rattle.meson_steps.specs.inside.Layers.{assigned_any, block_any, layer_any, layer_view, next_layer};
ghost use Rattle.meson_calls.specs.ChosenNotes.{Source};

use meson_edit::span_of;
use meson_lex::Span;
use meson_syntax::{Block, Branch, Expr, Parsed, Path, Stmt};

/// A block or a statement, as they are met on the way down a path.
#[derive(Clone, Copy)]
pub enum Layer<'t> {
    Block(&'t Block),
    Stmt(&'t Stmt),
}

/// The block that is the n-th child of a selection.
fn block_of_selection<'t>(
    branches: &'t [Branch],
    otherwise: &'t Option<Block>,
    n: usize,
) -> Option<&'t Block>
    ensures { (source : Source) → option_map (λ b. block_view source b.now) result
        ≡ option_and_then block_any (nth (rust_branches_parts source branches.now ++ otherwise_parts (otherwise_view source otherwise.now)) n) }
{
    let mut left = n;
    for i in 0..branches.len() {
        if left == 0 {
            return None;
        }
        if left == 1 {
            return Some(&branches[i].block);
        }
        left -= 2;
    }
    if left > 0 {
        return None;
    }
    match otherwise {
        Some(block) => Some(block),
        None => None,
    }
}

/// The block that is the n-th child of a statement.
fn block_of(stmt: &Stmt, n: usize) -> Option<&Block>
    ensures { (source : Source) → option_map (λ b. block_view source b.now) result
        ≡ option_and_then block_any (nth (statement_parts (stmt_view source stmt.now)) n) }
{
    match stmt {
        Stmt::Expr(_) => None,
        Stmt::Assign {
            span: _,
            name: _,
            assignment: _,
            value: _,
        } => None,
        Stmt::If {
            span: _,
            branches,
            otherwise,
        } => block_of_selection(branches.get(), otherwise, n),
        Stmt::Foreach {
            span: _,
            names: _,
            items: _,
            body,
        } => { if n == 1 { Some(body) } else { None } }
        Stmt::Break(_) => None,
        Stmt::Continue(_) => None,
    }
}

/// The n-th statement of a block.
fn stmt_in(block: &Block, n: usize) -> Option<&Stmt>
    ensures { (source : Source) → option_map (λ s. stmt_view source s.now) result ≡ statement_in (block_view source block.now) n }
{
    let stmts = block.statements.get();
    if n < stmts.len() {
        Some(&stmts[n])
    } else {
        None
    }
}

/// The value that a statement assigns.
fn assigned_by(stmt: &Stmt) -> Option<&Expr>
    ensures { (source : Source) → option_map (λ e. expr_view source e.now) result ≡ option_map (λ a. a.value) (assigned_in (stmt_view source stmt.now)) }
{
    match stmt {
        Stmt::Assign { value, .. } => Some(value),
        _ => None,
    }
}

impl<'t> Layer<'t> {
    /// Its n-th child.
    fn child(self, n: usize) -> Option<Layer<'t>>
        ensures { (source : Source) → option_map (layer_view source) result ≡ next_layer (layer_view source self.entry) n }
    {
        match self {
            Layer::Block(block) => match stmt_in(block, n) {
                Some(stmt) => Some(Layer::Stmt(stmt)),
                None => None,
            },
            Layer::Stmt(stmt) => match block_of(stmt, n) {
                Some(block) => Some(Layer::Block(block)),
                None => None,
            },
        }
    }

    /// The block, if this is a block.
    fn block(self) -> Option<&'t Block>
        ensures { (source : Source) → option_map (λ b. block_view source b.now) result ≡ block_any (layer_view source self.entry) }
    {
        match self {
            Layer::Block(block) => Some(block),
            Layer::Stmt(_) => None,
        }
    }

    /// The value that it assigns, if this is an assignment.
    fn assigned(self) -> Option<&'t Expr>
        ensures { (source : Source) → option_map (λ e. expr_view source e.now) result ≡ assigned_any (layer_view source self.entry) }
    {
        match self {
            Layer::Block(_) => None,
            Layer::Stmt(stmt) => assigned_by(stmt),
        }
    }
}

/// The block or the statement that the path names.
fn layer_at<'t>(tree: &'t Parsed, path: &Path) -> Option<Layer<'t>>
    ensures { (source : Source) → option_map (layer_view source) result
        ≡ option_and_then layer_any (node_at (a_block (block_view source tree.now.block)) path.now.steps) }
{
    let mut layer = Layer::Block(&tree.block);
    let steps = path.steps.get();
    for i in 0..steps.len() {
        match layer.child(steps[i]) {
            Some(child) => layer = child,
            None => return None,
        }
    }
    Some(layer)
}

/// The block that the path names.
fn block_at<'t>(tree: &'t Parsed, path: &Path) -> Option<&'t Block>
    ensures { (source : Source) → option_map (λ b. block_view source b.now) result
        ≡ option_map (λ b. b.inside) (block_at (view source tree.now) path.now.steps) }
{
    match layer_at(tree, path) {
        Some(layer) => layer.block(),
        None => None,
    }
}

/// The value that the assignment at the path assigns.
pub fn assigned_at<'t>(tree: &'t Parsed, path: &Path) -> Option<&'t Expr>
    ensures { (source : Source) → option_map (λ e. expr_view source e.now) result
        ≡ option_map (λ p. p.value) (assigned_at (view source tree.now) path.now.steps) }
{
    match layer_at(tree, path) {
        Some(layer) => layer.assigned(),
        None => None,
    }
}

/// The span of that value, in bytes.
pub(crate) fn assigned_span(tree: &Parsed, path: &Path) -> Option<Span>
    ensures { (source : Source) → result ≡ assigned_span (view source tree.now) path.now.steps }
{
    match assigned_at(tree, path) {
        Some(value) => Some(span_of(value)),
        None => None,
    }
}

/// The n-th statement of the block that the path names.
pub fn stmt_at<'t>(tree: &'t Parsed, path: &Path, n: usize) -> Option<&'t Stmt>
    ensures { (source : Source) → option_map (λ s. stmt_view source s.now) result
        ≡ option_and_then (λ b. statement_in b.inside n) (block_at (view source tree.now) path.now.steps) }
{
    match block_at(tree, path) {
        Some(block) => stmt_in(block, n),
        None => None,
    }
}

/// The span of a statement in its source, in bytes.
pub fn span_of_stmt(stmt: &Stmt) -> Span
    ensures { (source : Source) → result ≡ statement_span (stmt_view source stmt.now) }
{
    match stmt {
        Stmt::Expr(value) => span_of(value),
        Stmt::Assign { span, .. } => *span,
        Stmt::If { span, .. } => *span,
        Stmt::Foreach { span, .. } => *span,
        Stmt::Break(span) => *span,
        Stmt::Continue(span) => *span,
    }
}

/// The span of the n-th statement of a block, if it is there.
pub fn statement_span(tree: &Parsed, path: &Path, n: usize) -> Option<Span>
    ensures { (source : Source) → result ≡ span_of_statement (view source tree.now) path.now.steps n }
{
    match stmt_at(tree, path, n) {
        Some(stmt) => Some(span_of_stmt(stmt)),
        None => None,
    }
}
