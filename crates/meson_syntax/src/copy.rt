//! Equal trees in their own memory.

ghost use Rattle.std.specs.Prelude.{◌≡◌, IfErr, IfOk};

use crate::boxed::Boxed;
use crate::copy_statements::copy_block;
use crate::fault::ParseFault;
use crate::operator::UnaryOperator;
use crate::tree::{Arg, Expr, List, Operand, Parsed, Tail};
use meson_lex::Span;
use meson_values::Many;
use std::alloc::{AllocError, Global};

impl Parsed {
    /// An equal tree. It fails only when out of memory.
    pub fn copy(&self, alloc: Global) -> Result<Parsed, ParseFault>
        ensures equal { IfOk result (λ p. p ≡ self.now) }
        ensures refused { IfErr result (λ e. e ≡ ParseFault.OutOfMemory) }
    {
        Ok(copy_tree(alloc, self)?)
    }
}

/// An equal tree; only an allocation can fail.
pub fn copy_tree(alloc: Global, tree: &Parsed) -> Result<Parsed, AllocError>
    ensures { IfOk result (λ p. p ≡ tree.now) }
{
    let block = copy_block(alloc, &tree.block)?;
    Ok(Parsed {
        block,
        span: tree.span,
    })
}

// ---- expressions

#[cycle(copy_expression)]
pub(crate) fn copy_expr(alloc: Global, expr: &Expr) -> Result<Expr, AllocError>
    ensures { IfOk result (λ e. e ≡ expr.now) }
{
    match expr {
        Expr::Identifier(span) => Ok(Expr::Identifier(*span)),
        Expr::Boolean { span, value } => Ok(Expr::Boolean {
            span: *span,
            value: *value,
        }),
        Expr::Integer(span) => Ok(Expr::Integer(*span)),
        Expr::String { span, kind } => Ok(Expr::String {
            span: *span,
            kind: *kind,
        }),
        Expr::Paren { span, inside } => copy_paren(alloc, *span, inside.get()),
        Expr::Array(list) => copy_array(alloc, list),
        Expr::Dictionary(list) => copy_dictionary(alloc, list),
        Expr::Call {
            span,
            name,
            arguments,
        } => copy_call(alloc, *span, *name, arguments),
        Expr::Unary {
            span,
            operator,
            operand,
        } => copy_unary(alloc, *span, *operator, operand.get()),
        Expr::Row { span, first, rest } => {
            let first = copy_boxed(alloc, first.get())?;
            copy_row(alloc, *span, rest.get(), first)
        }
        Expr::Postfix { span, base, tails } => {
            let base = copy_boxed(alloc, base.get())?;
            copy_postfix(alloc, *span, tails.get(), base)
        }
        Expr::Conditional {
            span,
            condition,
            yes,
            no,
        } => {
            let condition = copy_boxed(alloc, condition.get())?;
            let yes = copy_boxed(alloc, yes.get())?;
            copy_conditional(alloc, *span, no.get(), condition, yes)
        }
    }
}

#[cycle(copy_expression)]
fn copy_array(alloc: Global, list: &List) -> Result<Expr, AllocError>
    ensures { IfOk result (λ e. e ≡ Expr.Array list.now) }
{
    let list = copy_list(alloc, list)?;
    Ok(Expr::Array(list))
}

#[cycle(copy_expression)]
fn copy_dictionary(alloc: Global, list: &List) -> Result<Expr, AllocError>
    ensures { IfOk result (λ e. e ≡ Expr.Dictionary list.now) }
{
    let list = copy_list(alloc, list)?;
    Ok(Expr::Dictionary(list))
}

#[cycle(copy_expression)]
fn copy_paren(alloc: Global, span: Span, inside: &Expr) -> Result<Expr, AllocError>
    ensures { IfOk result (λ e. e ≡ Expr.Paren span inside.now) }
{
    let inside = copy_boxed(alloc, inside)?;
    Ok(Expr::Paren { span, inside })
}

#[cycle(copy_expression)]
fn copy_call(alloc: Global, span: Span, name: Span, arguments: &List) -> Result<Expr, AllocError>
    ensures { IfOk result (λ e. e ≡ Expr.Call span name arguments.now) }
{
    let arguments = copy_list(alloc, arguments)?;
    Ok(Expr::Call {
        span,
        name,
        arguments,
    })
}

#[cycle(copy_expression)]
fn copy_unary(
    alloc: Global,
    span: Span,
    operator: UnaryOperator,
    operand: &Expr,
) -> Result<Expr, AllocError>
    ensures { IfOk result (λ e. e ≡ Expr.Unary span operator operand.now) }
{
    let operand = copy_boxed(alloc, operand)?;
    Ok(Expr::Unary {
        span,
        operator,
        operand,
    })
}

#[cycle(copy_expression)]
fn copy_row(
    alloc: Global,
    span: Span,
    rest: &[Operand],
    first: Boxed<Expr>,
) -> Result<Expr, AllocError>
    ensures { IfOk result (λ e. e ≡ Expr.Row span first rest.now) }
{
    let rest = copy_operands(alloc, rest)?;
    Ok(Expr::Row { span, first, rest })
}

#[cycle(copy_expression)]
fn copy_postfix(
    alloc: Global,
    span: Span,
    tails: &[Tail],
    base: Boxed<Expr>,
) -> Result<Expr, AllocError>
    ensures { IfOk result (λ e. e ≡ Expr.Postfix span base tails.now) }
{
    let tails = copy_tails(alloc, tails)?;
    Ok(Expr::Postfix { span, base, tails })
}

#[cycle(copy_expression)]
fn copy_conditional(
    alloc: Global,
    span: Span,
    no: &Expr,
    condition: Boxed<Expr>,
    yes: Boxed<Expr>,
) -> Result<Expr, AllocError>
    ensures { IfOk result (λ e. e ≡ Expr.Conditional span condition yes no.now) }
{
    let no = copy_boxed(alloc, no)?;
    Ok(Expr::Conditional {
        span,
        condition,
        yes,
        no,
    })
}

#[cycle(copy_expression)]
fn copy_boxed(alloc: Global, expr: &Expr) -> Result<Boxed<Expr>, AllocError>
    ensures { IfOk result (λ e. e ≡ expr.now) }
{
    let copy = copy_expr(alloc, expr)?;
    Boxed::new(alloc, copy)
}

#[cycle(copy_expression)]
fn copy_list(alloc: Global, list: &List) -> Result<List, AllocError>
    ensures { IfOk result (λ l. l ≡ list.now) }
{
    let items = copy_args(alloc, list.items.get())?;
    Ok(List {
        items,
        trailing: list.trailing,
        span: list.span,
    })
}

#[cycle(copy_expression)]
fn copy_args(alloc: Global, args: &[Arg]) -> Result<Many<Arg>, AllocError>
    ensures { IfOk result (λ copies. copies ≡ args.now) }
{
    let mut copies = Many::new(alloc);
    for i in 0..args.len() {
        let copy = copy_arg(alloc, &args[i])?;
        copies.push_sparing(copy)?;
    }
    Ok(copies)
}

#[cycle(copy_expression)]
fn copy_arg(alloc: Global, arg: &Arg) -> Result<Arg, AllocError>
    ensures { IfOk result (λ a. a ≡ arg.now) }
{
    match arg {
        Arg::Plain(value) => Ok(Arg::Plain(copy_expr(alloc, value)?)),
        Arg::Named { span, name, value } => {
            let value = copy_expr(alloc, value)?;
            Ok(Arg::Named {
                span: *span,
                name: *name,
                value,
            })
        }
        Arg::Pair { span, key, value } => {
            let key = copy_boxed(alloc, key.get())?;
            let value = copy_boxed(alloc, value.get())?;
            Ok(Arg::Pair {
                span: *span,
                key,
                value,
            })
        }
    }
}

#[cycle(copy_expression)]
fn copy_operands(alloc: Global, operands: &[Operand]) -> Result<Many<Operand>, AllocError>
    ensures { IfOk result (λ copies. copies ≡ operands.now) }
{
    let mut copies = Many::new(alloc);
    for i in 0..operands.len() {
        let copy = copy_operand(alloc, &operands[i])?;
        copies.push_sparing(copy)?;
    }
    Ok(copies)
}

#[cycle(copy_expression)]
fn copy_operand(alloc: Global, operand: &Operand) -> Result<Operand, AllocError>
    ensures { IfOk result (λ o. o ≡ operand.now) }
{
    let value = copy_expr(alloc, &operand.value)?;
    Ok(Operand {
        operator: operand.operator,
        value,
    })
}

#[cycle(copy_expression)]
fn copy_tails(alloc: Global, tails: &[Tail]) -> Result<Many<Tail>, AllocError>
    ensures { IfOk result (λ copies. copies ≡ tails.now) }
{
    let mut copies = Many::new(alloc);
    for i in 0..tails.len() {
        let copy = copy_tail(alloc, &tails[i])?;
        copies.push_sparing(copy)?;
    }
    Ok(copies)
}

#[cycle(copy_expression)]
fn copy_tail(alloc: Global, tail: &Tail) -> Result<Tail, AllocError>
    ensures { IfOk result (λ t. t ≡ tail.now) }
{
    match tail {
        Tail::Method {
            span,
            name,
            arguments,
        } => {
            let arguments = copy_list(alloc, arguments)?;
            Ok(Tail::Method {
                span: *span,
                name: *name,
                arguments,
            })
        }
        Tail::Index { span, index } => {
            let index = copy_expr(alloc, index)?;
            Ok(Tail::Index { span: *span, index })
        }
    }
}
