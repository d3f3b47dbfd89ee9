//! Uses: the ways of the arguments of methods, and of calls that make no target and pass nothing on.
//!
//! Each child has a word of its own. So if the number of a node's words is small enough for a `usize`, so are the numbers of its children.

ghost use Rattle.std.specs.Prelude.{◌≡◌, ◌+◌, ◌<◌, ◌^◌, ◌++◌, false, IfOk, OnOk, length};
ghost use Rattle.meson_syntax.specs.Grammar.{argument_words, arguments_words, expression_words, tail_words, tails_words};
ghost use Rattle.meson_syntax.specs.Tree.{arguments_of, tails_of};
ghost use Rattle.meson_syntax.specs.View.{arg_view, args_view, expr_view, tail_view, tails_view};
ghost use Rattle.meson_calls.specs.Loading.{IsProject, loaded_from};
ghost use Rattle.meson_calls.specs.Parts.{argument_child_count, arguments_child_count, tail_child_count};
ghost use Rattle.meson_calls.specs.Project.{place};
ghost use Rattle.meson_following.specs.CodeFollowing.{followed_project};
ghost use Rattle.meson_sharing.specs.CodeUses.{uses_at};
ghost use Rattle.meson_sharing.specs.Sharing.{is_use, passes_on, uses_of_argument, uses_of_arguments, uses_of_expression, uses_of_tail, uses_of_tails};

use crate::ways::Ways;
use meson_calls::CallRef;
use meson_calls::place::place_of;
use meson_calls::roles::{makes_target, text_of};
use meson_following::Follower;
use meson_following::makers::is_one_of;
use meson_syntax::{Arg, Expr, Tail};
use std::alloc::AllocError;

/// Whether a function makes a target, or gives its arguments to others.
fn passes_on(function: &[u8]) -> bool
    ensures { result ≡ passes_on function.now }
{
    makes_target(function)
        || b"declare_dependency".as_slice() == function
        || b"set_variable".as_slice() == function
        || b"files".as_slice() == function
}

impl Ways<'_> {
    /// Takes those of the value of an argument, with a name or without one, that is the n-th child of what is at the path, and returns the number after it.
    fn in_given(
        &self,
        number: usize,
        arg: &Arg,
        path: &mut Vec<usize>,
        found: &mut Vec<CallRef>,
    ) -> Result<usize, AllocError>
        requires { number + length (argument_words (arg_view self.now.source.now arg.now)) < 2 ^ 64 }
        ensures back { OnOk result (path.new.items ≡ path.old.items) }
        ensures all { OnOk result (found.new.items
            ≡ found.old.items ++ uses_of_argument (place self.now.file path.old.items) number (arg_view self.now.source.now arg.now)) }
        ensures after { IfOk result (λ n. n ≡ number + argument_child_count (arg_view self.now.source.now arg.now)) }
    {
        match arg {
            Arg::Plain(value) => {
                self.in_child(number, value, path, found)?;
                Ok(number + 1)
            }
            Arg::Named { value, .. } => {
                self.in_child(number, value, path, found)?;
                Ok(number + 1)
            }
            Arg::Pair { .. } => Ok(number + 2),
        }
    }

    /// Takes those of the values of arguments, of which the first is this child of what is at the path, and returns the number after them.
    fn in_all_given(
        &self,
        first: usize,
        args: &[Arg],
        path: &mut Vec<usize>,
        found: &mut Vec<CallRef>,
    ) -> Result<usize, AllocError>
        requires { first + length (arguments_words (arguments_of (args_view self.now.source.now args.now)) false) < 2 ^ 64 }
        ensures back { OnOk result (path.new.items ≡ path.old.items) }
        ensures all { OnOk result (found.new.items
            ≡ found.old.items ++ uses_of_arguments (place self.now.file path.old.items) first (arguments_of (args_view self.now.source.now args.now))) }
        ensures after { IfOk result (λ n. n ≡ first + arguments_child_count (arguments_of (args_view self.now.source.now args.now))) }
    {
        let mut number = first;
        for i in 0..args.len() {
            number = self.in_given(number, &args[i], path, found)?;
        }
        Ok(number)
    }

    /// Takes those of a method's arguments, of which the first is this child of what is at the path, and returns the number after them.
    fn in_tail(
        &self,
        number: usize,
        tail: &Tail,
        path: &mut Vec<usize>,
        found: &mut Vec<CallRef>,
    ) -> Result<usize, AllocError>
        requires { number + length (tail_words (tail_view self.now.source.now tail.now)) < 2 ^ 64 }
        ensures back { OnOk result (path.new.items ≡ path.old.items) }
        ensures all { OnOk result (found.new.items
            ≡ found.old.items ++ uses_of_tail (place self.now.file path.old.items) number (tail_view self.now.source.now tail.now)) }
        ensures after { IfOk result (λ n. n ≡ number + tail_child_count (tail_view self.now.source.now tail.now)) }
    {
        match tail {
            Tail::Method { arguments, .. } => {
                self.in_all_given(number, arguments.items.get(), path, found)
            }
            Tail::Index { .. } => Ok(number + 1),
        }
    }

    fn in_tails(
        &self,
        tails: &[Tail],
        path: &mut Vec<usize>,
        found: &mut Vec<CallRef>,
    ) -> Result<(), AllocError>
        requires { 1 + length (tails_words (tails_of (tails_view self.now.source.now tails.now))) < 2 ^ 64 }
        ensures back { OnOk result (path.new.items ≡ path.old.items) }
        ensures all { OnOk result (found.new.items
            ≡ found.old.items ++ uses_of_tails (place self.now.file path.old.items) 1 (tails_of (tails_view self.now.source.now tails.now))) }
    {
        let mut number = 1;
        for i in 0..tails.len() {
            number = self.in_tail(number, &tails[i], path, found)?;
        }
        Ok(())
    }

    /// Takes the uses of the calls that the expression at the path makes itself, not of those within it.
    fn in_use(
        &self,
        expr: &Expr,
        path: &mut Vec<usize>,
        found: &mut Vec<CallRef>,
    ) -> Result<(), AllocError>
        requires { length (expression_words (expr_view self.now.source.now expr.now)) < 2 ^ 64 }
        ensures { OnOk result (found.new.items
            ≡ found.old.items ++ uses_of_expression (place self.now.file path.old.items) (expr_view self.now.source.now expr.now)) }
    {
        match expr {
            Expr::Call {
                name,
                arguments,
                ..
            } => {
                if passes_on(text_of(self.source, *name)) {
                    return Ok(());
                }
                self.in_all_given(0, arguments.items.get(), path, found)?;
                Ok(())
            }
            Expr::Postfix { tails, .. } => self.in_tails(tails.get(), path, found),
            _ => Ok(()),
        }
    }
}

/// The uses of the calls that the expression at a place makes itself.
fn uses_at(follower: &Follower<'_>, place: &CallRef) -> Result<Vec<CallRef>, AllocError>
    requires { IsProject (loaded_from follower.now.files.now follower.now.trees.now) }
    ensures { IfOk result (λ uses. uses.items ≡ uses_at (followed_project follower.now) place.now) }
{
    let mut found = Vec::new(follower.alloc);
    let Some(value) = follower.value_at(place) else {
        return Ok(found);
    };
    let ways = Ways {
        alloc: follower.alloc,
        file: place.file,
        source: value.source,
    };
    let mut path = Vec::from_slice(follower.alloc, place.path.steps.get())?;
    ways.in_use(value.expr, &mut path, &mut found)?;
    Ok(found)
}

/// Whether a place is a use. Only calls around it can make it one.
pub(crate) fn is_use(follower: &Follower<'_>, place: &CallRef) -> Result<bool, AllocError>
    requires { IsProject (loaded_from follower.now.files.now follower.now.trees.now) }
    ensures { IfOk result (λ is. is ≡ is_use (followed_project follower.now) place.now) }
{
    let steps = place.path.steps.get();
    for n in 0..steps.len() {
        let around = place_of(follower.alloc, place.file, &steps[..n])?;
        let uses = uses_at(follower, &around)?;
        if is_one_of(uses.as_slice(), place) {
            return Ok(true);
        }
    }
    Ok(false)
}
