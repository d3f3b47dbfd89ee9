//! What calls do to a variable.

ghost use Rattle.std.specs.Prelude.{◌≡◌, IfOk};
ghost use Rattle.std.specs.List.{list_any};
ghost use Rattle.meson_syntax.specs.Grammar.{argument_words, expression_words, listing_words, operands_words, tail_words, tails_words};
ghost use Rattle.meson_syntax.specs.Tree.{operands_of, tails_of};
ghost use Rattle.meson_syntax.specs.View.{arg_view, expr_view, list_view, operands_view, tail_view, tails_view, text_at};
ghost use Rattle.meson_syntax.specs.declared.operator.Bracket.TheVariants as bracket;
ghost use Rattle.meson_calls.specs.ChosenNotes.{call_with};
ghost use Rattle.meson_calls.specs.GoodLists.{GoodListing};
ghost use Rattle.meson_calls.specs.Roles.{one_of};
ghost use Rattle.meson_calls.specs.Strings.{AreGood};
ghost use Rattle.meson_following.specs.CodeEffects.{does};
ghost use Rattle.meson_following.specs.Effects.{calls_of, calls_of_argument, calls_of_listing, calls_of_operands, calls_of_tail, calls_of_tails, may_set, setting_functions};

use crate::names::fit_of;
use meson_calls::roles::text_of;
use meson_lex::Span;
use meson_splice::Many;
use meson_syntax::{Arg, Expr, List, Operand, Tail};
use std::alloc::{AllocError, Global};

/// What a call that is a statement does to a variable.
#[derive(Debug, Drop)]
pub enum Effect {
    Nothing,
    /// Sets it to something that is not known.
    Sets,
    /// Sets it to something that is not known, or leaves it as it is.
    MaySet,
    Unsets,
    /// Ends the evaluation.
    Stops,
    /// Ends the evaluation of the file.
    Leaves,
    /// Enters the file of this number, perhaps under a condition.
    Enters { file: usize, condition: bool },
    /// May enter each of the files of these numbers, and others that are not known.
    MayEnter(Many<usize>),
}

/// What calls within an expression are searched for.
#[derive(Clone, Copy)]
pub(crate) enum Deed {
    /// They may set the variable.
    Set,
    /// They leave the file.
    Leave,
}

/// A search for such calls.
#[derive(Clone, Copy)]
pub(crate) struct Search<'s> {
    pub alloc: Global,
    pub deed: Deed,
    pub variable: &'s [u8],
    pub source: &'s [u8],
}

/// Whether a function sets a variable of the name that it is given, or unsets it.
fn is_setting(function: &[u8]) -> bool
    ensures { result ≡ one_of setting_functions function.now }
{
    b"set_variable".as_slice() == function || b"unset_variable".as_slice() == function
}

impl Search<'_> {
    /// Whether a call may set the variable.
    fn may_set(&self, function: &[u8], arguments: &List) -> Result<bool, AllocError>
        requires { AreGood (listing_words (list_view self.now.source.now arguments.now) bracket.Round) }
        ensures { IfOk result (λ is. is ≡ may_set self.now.variable.now (call_with function.now (list_view self.now.source.now arguments.now))) }
    {
        if function == b"subdir".as_slice() {
            return Ok(true);
        }
        if !is_setting(function) {
            return Ok(false);
        }
        let found = fit_of(self.alloc, self.variable, self.source, arguments)?;
        Ok(found.may_be())
    }

    /// Whether a call is one that is searched for.
    fn has_call(&self, function: Span, arguments: &List) -> Result<bool, AllocError>
        requires { AreGood (listing_words (list_view self.now.source.now arguments.now) bracket.Round) }
        ensures { IfOk result (λ is. is ≡ does self.now.deed self.now.variable.now
            (call_with (text_at self.now.source.now function) (list_view self.now.source.now arguments.now))) }
    {
        let function = text_of(self.source, function);
        match self.deed {
            Deed::Set => self.may_set(function, arguments),
            Deed::Leave => Ok(function == b"subdir_done".as_slice()),
        }
    }

    /// Whether such a call is in an expression.
    #[cycle(search)]
    pub(crate) fn in_expr(&self, expr: &Expr) -> Result<bool, AllocError>
        requires { AreGood (expression_words (expr_view self.now.source.now expr.now)) }
        ensures { IfOk result (λ is. is ≡ list_any (does self.now.deed self.now.variable.now) (calls_of (expr_view self.now.source.now expr.now))) }
    {
        match expr {
            Expr::Identifier(_) => Ok(false),
            Expr::Boolean { .. } => Ok(false),
            Expr::Integer(_) => Ok(false),
            Expr::String { .. } => Ok(false),
            Expr::Paren { inside, .. } => self.in_expr(inside.get()),
            Expr::Array(list) => self.in_list(list),
            Expr::Dictionary(list) => self.in_list(list),
            Expr::Call {
                name,
                arguments,
                ..
            } => {
                if self.has_call(*name, arguments)? {
                    return Ok(true);
                }
                self.in_list(arguments)
            }
            Expr::Unary { operand, .. } => self.in_expr(operand.get()),
            Expr::Row { first, rest, .. } => {
                if self.in_expr(first.get())? {
                    return Ok(true);
                }
                self.in_operands(rest.get())
            }
            Expr::Postfix { base, tails, .. } => {
                if self.in_expr(base.get())? {
                    return Ok(true);
                }
                self.in_tails(tails.get())
            }
            Expr::Conditional {
                condition,
                yes,
                no,
                ..
            } => {
                if self.in_expr(condition.get())? {
                    return Ok(true);
                }
                if self.in_expr(yes.get())? {
                    return Ok(true);
                }
                self.in_expr(no.get())
            }
        }
    }

    /// Whether one is in an element of a list.
    #[cycle(search)]
    pub(crate) fn in_list(&self, list: &List) -> Result<bool, AllocError>
        requires { GoodListing (list_view self.now.source.now list.now) }
        ensures { IfOk result (λ is. is ≡ list_any (does self.now.deed self.now.variable.now) (calls_of_listing (list_view self.now.source.now list.now))) }
    {
        let args = list.items.get();
        for i in 0..args.len() {
            if self.in_arg(&args[i])? {
                return Ok(true);
            }
        }
        Ok(false)
    }

    #[cycle(search)]
    fn in_arg(&self, arg: &Arg) -> Result<bool, AllocError>
        requires { AreGood (argument_words (arg_view self.now.source.now arg.now)) }
        ensures { IfOk result (λ is. is ≡ list_any (does self.now.deed self.now.variable.now) (calls_of_argument (arg_view self.now.source.now arg.now))) }
    {
        match arg {
            Arg::Plain(value) => self.in_expr(value),
            Arg::Named { value, .. } => self.in_expr(value),
            Arg::Pair { key, value, .. } => {
                if self.in_expr(key.get())? {
                    return Ok(true);
                }
                self.in_expr(value.get())
            }
        }
    }

    #[cycle(search)]
    fn in_operands(&self, operands: &[Operand]) -> Result<bool, AllocError>
        requires { AreGood (operands_words (operands_of (operands_view self.now.source.now operands.now))) }
        ensures { IfOk result (λ is. is ≡ list_any (does self.now.deed self.now.variable.now)
            (calls_of_operands (operands_of (operands_view self.now.source.now operands.now)))) }
    {
        for i in 0..operands.len() {
            if self.in_expr(&operands[i].value)? {
                return Ok(true);
            }
        }
        Ok(false)
    }

    #[cycle(search)]
    fn in_tails(&self, tails: &[Tail]) -> Result<bool, AllocError>
        requires { AreGood (tails_words (tails_of (tails_view self.now.source.now tails.now))) }
        ensures { IfOk result (λ is. is ≡ list_any (does self.now.deed self.now.variable.now)
            (calls_of_tails (tails_of (tails_view self.now.source.now tails.now)))) }
    {
        for i in 0..tails.len() {
            if self.in_tail(&tails[i])? {
                return Ok(true);
            }
        }
        Ok(false)
    }

    #[cycle(search)]
    fn in_tail(&self, tail: &Tail) -> Result<bool, AllocError>
        requires { AreGood (tail_words (tail_view self.now.source.now tail.now)) }
        ensures { IfOk result (λ is. is ≡ list_any (does self.now.deed self.now.variable.now) (calls_of_tail (tail_view self.now.source.now tail.now))) }
    {
        match tail {
            Tail::Method { arguments, .. } => self.in_list(arguments),
            Tail::Index { index, .. } => self.in_expr(index),
        }
    }
}
