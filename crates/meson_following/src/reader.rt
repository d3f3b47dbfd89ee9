//! The reads of a variable within expressions.
//!
//! Each child has a word of its own. So if the number of a node's words is small enough for a `usize`, so are the numbers of its children.

ghost use Rattle.std.specs.Prelude.{◌≡◌, ◌+◌, ◌<◌, ◌^◌, false, IfOk, OnOk, length};
ghost use Rattle.meson_syntax.specs.Grammar.{argument_words, arguments_words, expression_words, operands_words, tail_words, tails_words};
ghost use Rattle.meson_syntax.specs.Tree.{arguments_of, operands_of, tails_of};
ghost use Rattle.meson_syntax.specs.View.{arg_view, args_view, expr_view, list_view, operands_view, tail_view, tails_view};
ghost use Rattle.meson_calls.specs.GoodLists.{GoodArgs, GoodListing};
ghost use Rattle.meson_calls.specs.Parts.{argument_child_count, arguments_child_count, parts_of_argument, parts_of_arguments, parts_of_expression, parts_of_listing, parts_of_operands, parts_of_tail, parts_of_tails, tail_child_count};
ghost use Rattle.meson_calls.specs.Project.{child, place};
ghost use Rattle.meson_calls.specs.Strings.{AreGood};
ghost use Rattle.meson_calls.specs.inside.Walks.{parts_within};
ghost use Rattle.meson_following.specs.CodeReads.{Adds};

use crate::reads::Reader;
use meson_calls::CallRef;
use meson_syntax::{Arg, Expr, List, Operand, Tail};
use std::alloc::AllocError;

impl Reader<'_> {
    /// Takes the reads in the expression that is the n-th child.
    #[cycle(reading)]
    pub(crate) fn in_child(
        &self,
        number: usize,
        expr: &Expr,
        path: &mut Vec<usize>,
        found: &mut Vec<CallRef>,
    ) -> Result<(), AllocError>
        requires good { AreGood (expression_words (expr_view self.now.source.now expr.now)) }
        requires fits { length (expression_words (expr_view self.now.source.now expr.now)) < 2 ^ 64 }
        ensures back { OnOk result (path.new.items ≡ path.old.items) }
        ensures all { OnOk result (Adds self.now.variable.now found.old.items
            (parts_of_expression (child (place self.now.file path.old.items) number) (expr_view self.now.source.now expr.now)) found.new.items) }
    {
        path.push(number)?;
        self.take(expr, path.as_slice(), found)?;
        self.in_expr(expr, path, found)?;
        path.pop();
        Ok(())
    }

    /// Takes the reads within the expression at the path.
    #[cycle(reading)]
    fn in_expr(
        &self,
        expr: &Expr,
        path: &mut Vec<usize>,
        found: &mut Vec<CallRef>,
    ) -> Result<(), AllocError>
        requires good { AreGood (expression_words (expr_view self.now.source.now expr.now)) }
        requires fits { length (expression_words (expr_view self.now.source.now expr.now)) < 2 ^ 64 }
        ensures back { OnOk result (path.new.items ≡ path.old.items) }
        ensures all { OnOk result (Adds self.now.variable.now found.old.items
            (parts_within (place self.now.file path.old.items) (expr_view self.now.source.now expr.now)) found.new.items) }
    {
        match expr {
            Expr::Identifier(_) => Ok(()),
            Expr::Boolean { .. } => Ok(()),
            Expr::Integer(_) => Ok(()),
            Expr::String { .. } => Ok(()),
            Expr::Paren { inside, .. } => self.in_child(0, inside.get(), path, found),
            Expr::Array(list) => self.in_list(list, path, found),
            Expr::Dictionary(list) => self.in_list(list, path, found),
            Expr::Call { arguments, .. } => self.in_list(arguments, path, found),
            Expr::Unary { operand, .. } => self.in_child(0, operand.get(), path, found),
            Expr::Row { first, rest, .. } => {
                self.in_child(0, first.get(), path, found)?;
                self.in_operands(rest.get(), path, found)
            }
            Expr::Postfix { base, tails, .. } => {
                self.in_child(0, base.get(), path, found)?;
                self.in_tails(tails.get(), path, found)
            }
            Expr::Conditional {
                condition,
                yes,
                no,
                ..
            } => {
                self.in_child(0, condition.get(), path, found)?;
                self.in_child(1, yes.get(), path, found)?;
                self.in_child(2, no.get(), path, found)
            }
        }
    }

    #[cycle(reading)]
    fn in_list(
        &self,
        list: &List,
        path: &mut Vec<usize>,
        found: &mut Vec<CallRef>,
    ) -> Result<(), AllocError>
        requires good { GoodListing (list_view self.now.source.now list.now) }
        requires fits { length (arguments_words (arguments_of (args_view self.now.source.now list.now.items)) false) < 2 ^ 64 }
        ensures back { OnOk result (path.new.items ≡ path.old.items) }
        ensures all { OnOk result (Adds self.now.variable.now found.old.items
            (parts_of_listing (place self.now.file path.old.items) 0 (list_view self.now.source.now list.now)) found.new.items) }
    {
        self.in_args(0, list.items.get(), path, found)?;
        Ok(())
    }

    /// Takes those in elements from the n-th child on, and returns the number after theirs.
    #[cycle(reading)]
    fn in_args(
        &self,
        first: usize,
        args: &[Arg],
        path: &mut Vec<usize>,
        found: &mut Vec<CallRef>,
    ) -> Result<usize, AllocError>
        requires good { GoodArgs self.now.source.now args.now }
        requires fits { first + length (arguments_words (arguments_of (args_view self.now.source.now args.now)) false) < 2 ^ 64 }
        ensures back { OnOk result (path.new.items ≡ path.old.items) }
        ensures all { OnOk result (Adds self.now.variable.now found.old.items
            (parts_of_arguments (place self.now.file path.old.items) first (arguments_of (args_view self.now.source.now args.now))) found.new.items) }
        ensures after { IfOk result (λ n. n ≡ first + arguments_child_count (arguments_of (args_view self.now.source.now args.now))) }
    {
        let mut number = first;
        for i in 0..args.len() {
            number = self.in_arg(number, &args[i], path, found)?;
        }
        Ok(number)
    }

    /// Takes those in one element, and returns the number after its own.
    #[cycle(reading)]
    fn in_arg(
        &self,
        number: usize,
        arg: &Arg,
        path: &mut Vec<usize>,
        found: &mut Vec<CallRef>,
    ) -> Result<usize, AllocError>
        requires good { AreGood (argument_words (arg_view self.now.source.now arg.now)) }
        requires fits { number + length (argument_words (arg_view self.now.source.now arg.now)) < 2 ^ 64 }
        ensures back { OnOk result (path.new.items ≡ path.old.items) }
        ensures all { OnOk result (Adds self.now.variable.now found.old.items
            (parts_of_argument (place self.now.file path.old.items) number (arg_view self.now.source.now arg.now)) found.new.items) }
        ensures after { IfOk result (λ n. n ≡ number + argument_child_count (arg_view self.now.source.now arg.now)) }
    {
        match arg {
            Arg::Plain(value) => {
                self.in_child(number, value, path, found)?;
                Ok(number + 1)
            }
            Arg::Named { value, .. } => {
                self.in_child(number, value, path, found)?;
                Ok(number + 1)
            }
            Arg::Pair { key, value, .. } => {
                self.in_child(number, key.get(), path, found)?;
                self.in_child(number + 1, value.get(), path, found)?;
                Ok(number + 2)
            }
        }
    }

    #[cycle(reading)]
    fn in_operands(
        &self,
        operands: &[Operand],
        path: &mut Vec<usize>,
        found: &mut Vec<CallRef>,
    ) -> Result<(), AllocError>
        requires good { AreGood (operands_words (operands_of (operands_view self.now.source.now operands.now))) }
        requires fits { length (operands_words (operands_of (operands_view self.now.source.now operands.now))) < 2 ^ 64 }
        ensures back { OnOk result (path.new.items ≡ path.old.items) }
        ensures all { OnOk result (Adds self.now.variable.now found.old.items
            (parts_of_operands (place self.now.file path.old.items) 1 (operands_of (operands_view self.now.source.now operands.now))) found.new.items) }
    {
        for i in 0..operands.len() {
            self.in_child(i + 1, &operands[i].value, path, found)?;
        }
        Ok(())
    }

    #[cycle(reading)]
    fn in_tails(
        &self,
        tails: &[Tail],
        path: &mut Vec<usize>,
        found: &mut Vec<CallRef>,
    ) -> Result<(), AllocError>
        requires good { AreGood (tails_words (tails_of (tails_view self.now.source.now tails.now))) }
        requires fits { 1 + length (tails_words (tails_of (tails_view self.now.source.now tails.now))) < 2 ^ 64 }
        ensures back { OnOk result (path.new.items ≡ path.old.items) }
        ensures all { OnOk result (Adds self.now.variable.now found.old.items
            (parts_of_tails (place self.now.file path.old.items) 1 (tails_of (tails_view self.now.source.now tails.now))) found.new.items) }
    {
        let mut number = 1;
        for i in 0..tails.len() {
            number = self.in_tail(number, &tails[i], path, found)?;
        }
        Ok(())
    }

    #[cycle(reading)]
    fn in_tail(
        &self,
        number: usize,
        tail: &Tail,
        path: &mut Vec<usize>,
        found: &mut Vec<CallRef>,
    ) -> Result<usize, AllocError>
        requires good { AreGood (tail_words (tail_view self.now.source.now tail.now)) }
        requires fits { number + length (tail_words (tail_view self.now.source.now tail.now)) < 2 ^ 64 }
        ensures back { OnOk result (path.new.items ≡ path.old.items) }
        ensures all { OnOk result (Adds self.now.variable.now found.old.items
            (parts_of_tail (place self.now.file path.old.items) number (tail_view self.now.source.now tail.now)) found.new.items) }
        ensures after { IfOk result (λ n. n ≡ number + tail_child_count (tail_view self.now.source.now tail.now)) }
    {
        match tail {
            Tail::Method { arguments, .. } => {
                self.in_args(number, arguments.items.get(), path, found)
            }
            Tail::Index { index, .. } => {
                self.in_child(number, index, path, found)?;
                Ok(number + 1)
            }
        }
    }
}
