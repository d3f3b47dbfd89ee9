//! What expressions hold, where variables are followed.

ghost use Rattle.std.specs.Prelude.{◌≡◌, ◌<◌, OnOk};
ghost use Rattle.meson_syntax.specs.Grammar.{argument_words, expression_words};
ghost use Rattle.meson_syntax.specs.Tree.{arguments_of, operands_of};
ghost use Rattle.meson_syntax.specs.View.{arg_view, args_view, expr_view, list_view, operands_view, text_at};
ghost use Rattle.meson_calls.specs.Calls.{literal_of};
ghost use Rattle.meson_calls.specs.GoodLists.{GoodArgs, GoodListing, GoodRow};
ghost use Rattle.meson_calls.specs.Loading.{IsProject, loaded_from};
ghost use Rattle.meson_calls.specs.Project.{place};
ghost use Rattle.meson_calls.specs.Strings.{AreGood};
ghost use Rattle.meson_following.specs.CodeFollowing.{Follows, route_view, stand_on};
ghost use Rattle.meson_following.specs.CodeMakers.{made_view, maker_view};
ghost use Rattle.meson_following.specs.CodeSites.{answers_met, argument_met, call_met, each_met, expression_met, known_met, listing_met, maker_met, sum_met, variable_met};
ghost use Rattle.meson_following.specs.Following.{element, inside, literal_met, within};

use crate::follower::Follower;
use crate::makers::{Made, Maker};
use crate::marks::{Following, Route};
use meson_calls::call::BorrowedPlace;
use meson_calls::literals::literal;
use meson_calls::roles::text_of;
use meson_lex::Span;
use meson_syntax::{Arg, Expr, List, Operand};
use meson_variables::meeting::is_files;
use std::alloc::AllocError;

/// A file whose expressions are gone through, how they were come to, and the number of makers that may still be followed inside one another.
#[derive(Clone, Copy)]
pub(crate) struct Site<'t> {
    pub follower: Follower<'t>,
    pub left: usize,
    pub file: usize,
    pub source: &'t [u8],
    pub route: Route<'t>,
}

impl<'t> Site<'t> {
    /// Meets what the expression at the path holds, which is an element of a list or is not.
    #[cycle(following)]
    pub(crate) fn meet(
        &self,
        listed: bool,
        expr: &Expr,
        path: &mut Vec<usize>,
        found: &mut Following,
    ) -> Result<(), AllocError>
        requires project { IsProject (loaded_from self.now.follower.files.now self.now.follower.trees.now) }
        requires good { AreGood (expression_words (expr_view self.now.source.now expr.now)) }
        ensures back { OnOk result (path.new.items ≡ path.old.items) }
        ensures all { OnOk result (Follows found.old (expression_met self.now (expr_view self.now.source.now expr.now)
            (stand_on self.now.route (place self.now.file path.old.items) listed)) found.new) }
    {
        match expr {
            Expr::String { span, .. } => self.meet_string(
                listed,
                *span,
                expr,
                path.as_slice(),
                found,
            ),
            Expr::Array(list) => self.meet_list(list, path, found),
            Expr::Call {
                name,
                arguments,
                ..
            } => self.meet_call(*name, arguments, path, found),
            Expr::Identifier(name) => {
                self.meet_variable(text_of(self.source, *name), path.as_slice(), found)
            }
            Expr::Paren { inside, .. } => self.meet_child(0, inside.get(), path, found),
            Expr::Conditional { yes, no, .. } => self.meet_answers(
                yes.get(),
                no.get(),
                path,
                found,
            ),
            Expr::Row { first, rest, .. } => {
                if !self.follower.is_list(self.file, self.source, expr, path)? {
                    return found.miss();
                }
                self.meet_sum(first.get(), rest.get(), path, found)
            }
            _ => found.miss(),
        }
    }

    /// Meets a string at the path.
    fn meet_string(
        &self,
        listed: bool,
        span: Span,
        expr: &Expr,
        path: &[usize],
        found: &mut Following,
    ) -> Result<(), AllocError>
        requires { AreGood (expression_words (expr_view self.now.source.now expr.now)) }
        ensures { OnOk result (Follows found.old (λ followed. literal_met span (stand_on self.now.route (place self.now.file path.now) listed) followed
            (literal_of (expr_view self.now.source.now expr.now))) found.new) }
    {
        let alloc = self.follower.alloc;
        let place = BorrowedPlace {
            file: self.file,
            path,
        };
        match literal(alloc, self.source, expr)? {
            Some(text) => found.meet_literal(alloc, self.route, place, listed, span, text),
            None => found.miss(),
        }
    }

    /// Meets what the n-th child of what is at the path holds, which is in no list.
    #[cycle(following)]
    fn meet_child(
        &self,
        number: usize,
        expr: &Expr,
        path: &mut Vec<usize>,
        found: &mut Following,
    ) -> Result<(), AllocError>
        requires project { IsProject (loaded_from self.now.follower.files.now self.now.follower.trees.now) }
        requires good { AreGood (expression_words (expr_view self.now.source.now expr.now)) }
        ensures back { OnOk result (path.new.items ≡ path.old.items) }
        ensures all { OnOk result (Follows found.old (expression_met self.now (expr_view self.now.source.now expr.now)
            (inside (place self.now.file path.old.items) (route_view self.now.route) number)) found.new) }
    {
        path.push(number)?;
        self.meet(false, expr, path, found)?;
        path.pop();
        Ok(())
    }

    /// Meets what a call at the path holds, if it is one of `files` without names.
    #[cycle(following)]
    fn meet_call(
        &self,
        function: Span,
        arguments: &List,
        path: &mut Vec<usize>,
        found: &mut Following,
    ) -> Result<(), AllocError>
        requires project { IsProject (loaded_from self.now.follower.files.now self.now.follower.trees.now) }
        requires good { GoodListing (list_view self.now.source.now arguments.now) }
        ensures back { OnOk result (path.new.items ≡ path.old.items) }
        ensures all { OnOk result (Follows found.old (call_met self.now (text_at self.now.source.now function) (list_view self.now.source.now arguments.now)
            (place self.now.file path.old.items)) found.new) }
    {
        if !is_files(self.source, function, arguments) {
            return found.miss();
        }
        let site = Site {
            follower: self.follower,
            left: self.left,
            file: self.file,
            source: self.source,
            route: self.route.in_files(self.file),
        };
        site.meet_list(arguments, path, found)
    }

    /// Meets what the two answers of a conditional at the path hold, of which neither is sure.
    #[cycle(following)]
    fn meet_answers(
        &self,
        yes: &Expr,
        no: &Expr,
        path: &mut Vec<usize>,
        found: &mut Following,
    ) -> Result<(), AllocError>
        requires project { IsProject (loaded_from self.now.follower.files.now self.now.follower.trees.now) }
        requires yes { AreGood (expression_words (expr_view self.now.source.now yes.now)) }
        requires no { AreGood (expression_words (expr_view self.now.source.now no.now)) }
        ensures back { OnOk result (path.new.items ≡ path.old.items) }
        ensures all { OnOk result (Follows found.old (answers_met self.now (expr_view self.now.source.now yes.now) (expr_view self.now.source.now no.now)
            (place self.now.file path.old.items)) found.new) }
    {
        let site = Site {
            follower: self.follower,
            left: self.left,
            file: self.file,
            source: self.source,
            route: self.route.unsure(),
        };
        site.meet_child(1, yes, path, found)?;
        site.meet_child(2, no, path, found)
    }

    /// Meets what the list of an array or a call at the path holds.
    #[cycle(following)]
    fn meet_list(
        &self,
        list: &List,
        path: &mut Vec<usize>,
        found: &mut Following,
    ) -> Result<(), AllocError>
        requires project { IsProject (loaded_from self.now.follower.files.now self.now.follower.trees.now) }
        requires good { GoodListing (list_view self.now.source.now list.now) }
        ensures back { OnOk result (path.new.items ≡ path.old.items) }
        ensures all { OnOk result (Follows found.old (λ followed. within (place self.now.file path.old.items) (route_view self.now.route)
            (listing_met self.now (list_view self.now.source.now list.now) (place self.now.file path.old.items) followed)) found.new) }
    {
        let args = list.items.get();
        let before = found.count();
        self.meet_elements(args, path, found)?;
        let after = found.count();
        if after > before {
            return Ok(());
        }
        let place = BorrowedPlace {
            file: self.file,
            path: path.as_slice(),
        };
        found.meet_empty(self.follower.alloc, self.route, place)
    }

    /// Meets what the elements of a list at the path hold.
    #[cycle(following)]
    fn meet_elements(
        &self,
        args: &[Arg],
        path: &mut Vec<usize>,
        found: &mut Following,
    ) -> Result<(), AllocError>
        requires project { IsProject (loaded_from self.now.follower.files.now self.now.follower.trees.now) }
        requires good { GoodArgs self.now.source.now args.now }
        ensures back { OnOk result (path.new.items ≡ path.old.items) }
        ensures all { OnOk result (Follows found.old (each_met self.now (arguments_of (args_view self.now.source.now args.now)) 0
            (place self.now.file path.old.items)) found.new) }
    {
        for i in 0..args.len() {
            self.meet_element(i, &args[i], path, found)?;
        }
        Ok(())
    }

    /// Meets what the n-th element of a list at the path holds.
    #[cycle(following)]
    fn meet_element(
        &self,
        number: usize,
        arg: &Arg,
        path: &mut Vec<usize>,
        found: &mut Following,
    ) -> Result<(), AllocError>
        requires project { IsProject (loaded_from self.now.follower.files.now self.now.follower.trees.now) }
        requires good { AreGood (argument_words (arg_view self.now.source.now arg.now)) }
        ensures back { OnOk result (path.new.items ≡ path.old.items) }
        ensures all { OnOk result (Follows found.old (argument_met self.now (arg_view self.now.source.now arg.now)
            (element (place self.now.file path.old.items) (route_view self.now.route) number)) found.new) }
    {
        match arg {
            Arg::Plain(value) => {
                path.push(number)?;
                self.meet(true, value, path, found)?;
                path.pop();
                Ok(())
            }
            _ => found.miss(),
        }
    }

    /// Meets what the operands of a sum at the path hold.
    #[cycle(following)]
    fn meet_sum(
        &self,
        first: &Expr,
        rest: &[Operand],
        path: &mut Vec<usize>,
        found: &mut Following,
    ) -> Result<(), AllocError>
        requires project { IsProject (loaded_from self.now.follower.files.now self.now.follower.trees.now) }
        requires good { GoodRow self.now.source.now first.now rest.now }
        ensures back { OnOk result (path.new.items ≡ path.old.items) }
        ensures all { OnOk result (Follows found.old (sum_met self.now (expr_view self.now.source.now first.now)
            (operands_of (operands_view self.now.source.now rest.now)) (place self.now.file path.old.items)) found.new) }
    {
        self.meet_child(0, first, path, found)?;
        for i in 0..rest.len() {
            self.meet_child(i + 1, &rest[i].value, path, found)?;
        }
        Ok(())
    }

    /// Meets what a variable that is read at the path holds.
    #[cycle(following)]
    fn meet_variable(
        &self,
        name: &[u8],
        path: &[usize],
        found: &mut Following,
    ) -> Result<(), AllocError>
        requires { IsProject (loaded_from self.now.follower.files.now self.now.follower.trees.now) }
        ensures { OnOk result (Follows found.old (variable_met self.now (place self.now.file path.now) name.now) found.new) }
    {
        let left = self.left;
        if left == 0 {
            return found.miss();
        }
        let place = BorrowedPlace {
            file: self.file,
            path,
        };
        match self.follower.known(name, place)? {
            Some(made) => self.meet_made(&made, found),
            None => found.miss(),
        }
    }

    /// Meets what a variable holds that is made so.
    #[cycle(following)]
    fn meet_made(&self, made: &Made<'_>, found: &mut Following) -> Result<(), AllocError>
        requires project { IsProject (loaded_from self.now.follower.files.now self.now.follower.trees.now) }
        requires more { 0 < self.now.left }
        ensures { OnOk result (Follows found.old (known_met self.now (made_view made.now)) found.new) }
    {
        let mixed = self.follower.mixes(made)?;
        for maker in &made.makers {
            self.meet_maker(mixed, maker, found)?;
        }
        if made.unknown {
            return found.miss();
        }
        Ok(())
    }

    /// Meets what the value of a maker holds, if it was not followed before.
    #[cycle(following)]
    fn meet_maker(
        &self,
        mixed: bool,
        maker: &Maker<'_>,
        found: &mut Following,
    ) -> Result<(), AllocError>
        requires project { IsProject (loaded_from self.now.follower.files.now self.now.follower.trees.now) }
        requires more { 0 < self.now.left }
        ensures { OnOk result (Follows found.old (maker_met self.now mixed (maker_view maker.now)) found.new) }
    {
        if found.has_followed(&maker.place) {
            return Ok(());
        }
        if self.follower.hides(mixed, maker)? {
            return found.miss();
        }
        let alloc = self.follower.alloc;
        found.follow(alloc, &maker.place)?;
        let Some(value) = self.follower.value_at(&maker.place) else {
            return found.miss();
        };
        let through = self.route.with(alloc, &maker.place)?;
        let site = Site {
            follower: self.follower,
            left: self.left - 1,
            file: maker.place.file,
            source: value.source,
            route: Route {
                sure: self.route.sure && maker.sure,
                files: self.route.files,
                through: through.as_slice(),
            },
        };
        let mut path = Vec::from_slice(alloc, maker.place.path.steps.get())?;
        site.meet(false, value.expr, &mut path, found)
    }
}
