//! The walk through the expressions of a file.
//!
//! Each child has a word of its own. So if the number of a node's words is small enough for a `usize`, so are the numbers of its children.

ghost use Rattle.std.specs.Prelude.{◌≡◌, ◌+◌, ◌<◌, ◌^◌, false, IfOk, OnOk, length};
ghost use Rattle.meson_syntax.specs.Grammar.{expression_words, operands_words, tail_words, tails_words, argument_words, arguments_words};
ghost use Rattle.meson_syntax.specs.Tree.{arguments_of, operands_of, tails_of};
ghost use Rattle.meson_syntax.specs.View.{expr_view, arg_view, args_view, tail_view, tails_view, operands_view, list_view};
ghost use Rattle.meson_calls.specs.Project.{place, child};
ghost use Rattle.meson_calls.specs.Parts.{parts_of_expression, parts_of_argument, parts_of_arguments, parts_of_operands, parts_of_tail, parts_of_tails, parts_of_listing, argument_child_count, arguments_child_count, tail_child_count};
ghost use Rattle.meson_calls.specs.Walks.{KeepsParts};
ghost use Rattle.meson_calls.specs.inside.Walks.{parts_within};

use crate::keeper::Keeper;
use crate::part::{Part, Walk};
use meson_syntax::{Arg, Expr, List, Operand, Tail};
use std::alloc::AllocError;

impl<'t> Walk<'t> {
    /// Visits the expression that is the n-th child, and the parts within it.
    #[cycle(walk)]
    pub(crate) fn in_child(
        &self,
        number: usize,
        expr: &'t Expr,
        path: &mut Vec<usize>,
        keeper: &mut Keeper<'_, 't>,
    ) -> Result<(), AllocError>
        requires fits { length (expression_words (expr_view self.now.source.now expr.now)) < 2 ^ 64 }
        ensures back { OnOk result (path.new.items ≡ path.old.items) }
        ensures all { OnOk result (KeepsParts keeper.old
            (parts_of_expression (child (place self.now.file path.old.items) number) (expr_view self.now.source.now expr.now)) keeper.new) }
    {
        if keeper.passes(expr) {
            return Ok(());
        }
        path.push(number)?;
        self.visit(path.as_slice(), Part::Expression(expr), keeper)?;
        self.in_expr(expr, path, keeper)?;
        path.pop();
        Ok(())
    }

    /// Visits the parts within the expression at the path.
    #[cycle(walk)]
    fn in_expr(
        &self,
        expr: &'t Expr,
        path: &mut Vec<usize>,
        keeper: &mut Keeper<'_, 't>,
    ) -> Result<(), AllocError>
        requires fits { length (expression_words (expr_view self.now.source.now expr.now)) < 2 ^ 64 }
        ensures back { OnOk result (path.new.items ≡ path.old.items) }
        ensures all { OnOk result (KeepsParts keeper.old
            (parts_within (place self.now.file path.old.items) (expr_view self.now.source.now expr.now)) keeper.new) }
    {
        match expr {
            Expr::Identifier(_) => Ok(()),
            Expr::Boolean { .. } => Ok(()),
            Expr::Integer(_) => Ok(()),
            Expr::String { .. } => Ok(()),
            Expr::Paren { inside, .. } => self.in_child(0, inside.get(), path, keeper),
            Expr::Array(list) => self.in_list(list, path, keeper),
            Expr::Dictionary(list) => self.in_list(list, path, keeper),
            Expr::Call { arguments, .. } => self.in_list(arguments, path, keeper),
            Expr::Unary { operand, .. } => self.in_child(0, operand.get(), path, keeper),
            Expr::Row { first, rest, .. } => {
                self.in_child(0, first.get(), path, keeper)?;
                self.in_operands(rest.get(), path, keeper)
            }
            Expr::Postfix { base, tails, .. } => {
                self.in_child(0, base.get(), path, keeper)?;
                self.in_tails(tails.get(), path, keeper)
            }
            Expr::Conditional {
                condition,
                yes,
                no,
                ..
            } => {
                self.in_child(0, condition.get(), path, keeper)?;
                self.in_child(1, yes.get(), path, keeper)?;
                self.in_child(2, no.get(), path, keeper)
            }
        }
    }

    #[cycle(walk)]
    fn in_list(
        &self,
        list: &'t List,
        path: &mut Vec<usize>,
        keeper: &mut Keeper<'_, 't>,
    ) -> Result<(), AllocError>
        requires fits { length (arguments_words (arguments_of (args_view self.now.source.now list.now.items)) false) < 2 ^ 64 }
        ensures back { OnOk result (path.new.items ≡ path.old.items) }
        ensures all { OnOk result (KeepsParts keeper.old
            (parts_of_listing (place self.now.file path.old.items) 0 (list_view self.now.source.now list.now)) keeper.new) }
    {
        self.in_args(0, list.items.get(), path, keeper)?;
        Ok(())
    }

    /// Visits those of elements from the n-th child on, and returns the number after theirs.
    #[cycle(walk)]
    fn in_args(
        &self,
        first: usize,
        args: &'t [Arg],
        path: &mut Vec<usize>,
        keeper: &mut Keeper<'_, 't>,
    ) -> Result<usize, AllocError>
        requires fits { first + length (arguments_words (arguments_of (args_view self.now.source.now args.now)) false) < 2 ^ 64 }
        ensures back { OnOk result (path.new.items ≡ path.old.items) }
        ensures all { OnOk result (KeepsParts keeper.old
            (parts_of_arguments (place self.now.file path.old.items) first (arguments_of (args_view self.now.source.now args.now))) keeper.new) }
        ensures after { IfOk result (λ n. n ≡ first + arguments_child_count (arguments_of (args_view self.now.source.now args.now))) }
    {
        let mut number = first;
        for i in 0..args.len() {
            number = self.in_arg(number, &args[i], path, keeper)?;
        }
        Ok(number)
    }

    /// Visits those of one element, and returns the number after its own.
    #[cycle(walk)]
    fn in_arg(
        &self,
        number: usize,
        arg: &'t Arg,
        path: &mut Vec<usize>,
        keeper: &mut Keeper<'_, 't>,
    ) -> Result<usize, AllocError>
        requires fits { number + length (argument_words (arg_view self.now.source.now arg.now)) < 2 ^ 64 }
        ensures back { OnOk result (path.new.items ≡ path.old.items) }
        ensures all { OnOk result (KeepsParts keeper.old
            (parts_of_argument (place self.now.file path.old.items) number (arg_view self.now.source.now arg.now)) keeper.new) }
        ensures after { IfOk result (λ n. n ≡ number + argument_child_count (arg_view self.now.source.now arg.now)) }
    {
        match arg {
            Arg::Plain(value) => {
                self.in_child(number, value, path, keeper)?;
                Ok(number + 1)
            }
            Arg::Named { value, .. } => {
                self.in_child(number, value, path, keeper)?;
                Ok(number + 1)
            }
            Arg::Pair { key, value, .. } => {
                self.in_child(number, key.get(), path, keeper)?;
                self.in_child(number + 1, value.get(), path, keeper)?;
                Ok(number + 2)
            }
        }
    }

    #[cycle(walk)]
    fn in_operands(
        &self,
        operands: &'t [Operand],
        path: &mut Vec<usize>,
        keeper: &mut Keeper<'_, 't>,
    ) -> Result<(), AllocError>
        requires fits { length (operands_words (operands_of (operands_view self.now.source.now operands.now))) < 2 ^ 64 }
        ensures back { OnOk result (path.new.items ≡ path.old.items) }
        ensures all { OnOk result (KeepsParts keeper.old
            (parts_of_operands (place self.now.file path.old.items) 1 (operands_of (operands_view self.now.source.now operands.now))) keeper.new) }
    {
        for i in 0..operands.len() {
            self.in_child(i + 1, &operands[i].value, path, keeper)?;
        }
        Ok(())
    }

    #[cycle(walk)]
    fn in_tails(
        &self,
        tails: &'t [Tail],
        path: &mut Vec<usize>,
        keeper: &mut Keeper<'_, 't>,
    ) -> Result<(), AllocError>
        requires fits { 1 + length (tails_words (tails_of (tails_view self.now.source.now tails.now))) < 2 ^ 64 }
        ensures back { OnOk result (path.new.items ≡ path.old.items) }
        ensures all { OnOk result (KeepsParts keeper.old
            (parts_of_tails (place self.now.file path.old.items) 1 (tails_of (tails_view self.now.source.now tails.now))) keeper.new) }
    {
        let mut number = 1;
        for i in 0..tails.len() {
            number = self.in_tail(number, &tails[i], path, keeper)?;
        }
        Ok(())
    }

    #[cycle(walk)]
    fn in_tail(
        &self,
        number: usize,
        tail: &'t Tail,
        path: &mut Vec<usize>,
        keeper: &mut Keeper<'_, 't>,
    ) -> Result<usize, AllocError>
        requires fits { number + length (tail_words (tail_view self.now.source.now tail.now)) < 2 ^ 64 }
        ensures back { OnOk result (path.new.items ≡ path.old.items) }
        ensures all { OnOk result (KeepsParts keeper.old
            (parts_of_tail (place self.now.file path.old.items) number (tail_view self.now.source.now tail.now)) keeper.new) }
        ensures after { IfOk result (λ n. n ≡ number + tail_child_count (tail_view self.now.source.now tail.now)) }
    {
        match tail {
            Tail::Method { arguments, .. } => {
                self.in_args(number, arguments.items.get(), path, keeper)
            }
            Tail::Index { index, .. } => {
                self.in_child(number, index, path, keeper)?;
                Ok(number + 1)
            }
        }
    }
}
