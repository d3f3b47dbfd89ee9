//! Equal statements in their own memory.

ghost use Rattle.std.specs.Prelude.{◌≡◌, IfOk};

use crate::copy::copy_expr;
use crate::tree::{Block, Branch, Stmt};
use meson_lex::Span;
use meson_values::Many;
use std::alloc::{AllocError, Global};

#[cycle(copy_statement)]
pub(crate) fn copy_block(alloc: Global, block: &Block) -> Result<Block, AllocError>
    ensures { IfOk result (λ b. b ≡ block.now) }
{
    let statements = copy_stmts(alloc, block.statements.get())?;
    Ok(Block {
        statements,
        span: block.span,
    })
}

#[cycle(copy_statement)]
fn copy_stmts(alloc: Global, stmts: &[Stmt]) -> Result<Many<Stmt>, AllocError>
    ensures { IfOk result (λ copies. copies ≡ stmts.now) }
{
    let mut copies = Many::new(alloc);
    for i in 0..stmts.len() {
        let copy = copy_stmt(alloc, &stmts[i])?;
        copies.push_sparing(copy)?;
    }
    Ok(copies)
}

#[cycle(copy_statement)]
fn copy_stmt(alloc: Global, stmt: &Stmt) -> Result<Stmt, AllocError>
    ensures { IfOk result (λ s. s ≡ stmt.now) }
{
    match stmt {
        Stmt::Expr(value) => Ok(Stmt::Expr(copy_expr(alloc, value)?)),
        Stmt::Assign {
            span,
            name,
            assignment,
            value,
        } => Ok(Stmt::Assign {
            span: *span,
            name: *name,
            assignment: *assignment,
            value: copy_expr(alloc, value)?,
        }),
        Stmt::If {
            span,
            branches,
            otherwise,
        } => Ok(Stmt::If {
            span: *span,
            branches: copy_branches(alloc, branches.get())?,
            otherwise: copy_otherwise(alloc, otherwise)?,
        }),
        Stmt::Foreach {
            span,
            names,
            items,
            body,
        } => Ok(Stmt::Foreach {
            span: *span,
            names: copy_spans(alloc, names.get())?,
            body: copy_block(alloc, body)?,
            items: copy_expr(alloc, items)?,
        }),
        Stmt::Break(span) => Ok(Stmt::Break(*span)),
        Stmt::Continue(span) => Ok(Stmt::Continue(*span)),
    }
}

#[cycle(copy_statement)]
fn copy_otherwise(alloc: Global, otherwise: &Option<Block>) -> Result<Option<Block>, AllocError>
    ensures { IfOk result (λ o. o ≡ otherwise.now) }
{
    match otherwise {
        Some(block) => Ok(Some(copy_block(alloc, block)?)),
        None => Ok(None),
    }
}

#[cycle(copy_statement)]
fn copy_branches(alloc: Global, branches: &[Branch]) -> Result<Many<Branch>, AllocError>
    ensures { IfOk result (λ copies. copies ≡ branches.now) }
{
    let mut copies = Many::new(alloc);
    for i in 0..branches.len() {
        let copy = copy_branch(alloc, &branches[i])?;
        copies.push_sparing(copy)?;
    }
    Ok(copies)
}

#[cycle(copy_statement)]
fn copy_branch(alloc: Global, branch: &Branch) -> Result<Branch, AllocError>
    ensures { IfOk result (λ b. b ≡ branch.now) }
{
    let block = copy_block(alloc, &branch.block)?;
    let condition = copy_expr(alloc, &branch.condition)?;
    Ok(Branch { condition, block })
}

fn copy_spans(alloc: Global, spans: &[Span]) -> Result<Many<Span>, AllocError>
    ensures { IfOk result (λ copies. copies ≡ spans.now) }
{
    let copies = Vec::from_slice(alloc, spans)?;
    Ok(Many::of(copies))
}
