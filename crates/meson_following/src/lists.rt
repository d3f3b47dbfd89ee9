//! Whether values are lists.

ghost use Rattle.std.specs.Prelude.{◌≡◌, ℕ, IfOk, OnOk, map};
ghost use Rattle.std.specs.List.{list_any};
ghost use Rattle.meson_syntax.specs.Tree.{operands_of};
ghost use Rattle.meson_syntax.specs.View.{expr_view, operands_view};
ghost use Rattle.meson_calls.specs.Loading.{IsProject, loaded_from};
ghost use Rattle.meson_calls.specs.Project.{child, place};
ghost use Rattle.meson_following.specs.CodeFollowing.{followed_project};
ghost use Rattle.meson_following.specs.CodeLists.{Answers, has_list_at, is_list_at, is_made_at, is_maker_at, is_variable_at, seen_at};
ghost use Rattle.meson_following.specs.CodeMakers.{made_view, maker_view};
ghost use Rattle.meson_following.specs.Lists.{has_plain_list, hides, is_list, is_plain_list, mixes, seen_with, told};

use crate::follower::Follower;
use crate::makers::{Made, Maker};
use meson_calls::call::BorrowedPlace;
use meson_calls::roles::text_of;
use meson_syntax::{Expr, Operand};
use meson_variables::call_sources::MAX_FOLLOWED;
use meson_variables::meeting::is_files;
use meson_variables::sums::are_plus;
use std::alloc::AllocError;

/// A question whether expressions of a file are lists, which may go through this number of variables inside one another.
#[derive(Clone, Copy)]
pub(crate) struct Lists<'t> {
    pub follower: Follower<'t>,
    pub depth: usize,
    pub file: usize,
    pub source: &'t [u8],
}

/// Of the makers so far: whether one is a list and has a part for sure, and whether each that sets the variable is one.
#[derive(Clone, Copy)]
pub(crate) struct Seen {
    pub sure: bool,
    pub each: bool,
}

impl Seen {
    /// With a further maker, which is a list or is not.
    fn with(self, maker: &Maker<'_>, is: bool) -> Seen
        ensures { (before left : ℕ) → seen_at result left ≡ seen_with (maker_view maker.now) (seen_at self before) (told is left) }
    {
        Seen {
            sure: self.sure || (maker.sure && is),
            each: self.each && (maker.adds || is),
        }
    }
}

/// Whether an expression is a list whatever variables hold.
fn is_plain_list(source: &[u8], expr: &Expr) -> bool
    ensures { result ≡ is_plain_list (expr_view source.now expr.now) }
{
    match expr {
        Expr::Array(_) => true,
        Expr::Call {
            name,
            arguments,
            ..
        } => is_files(source, *name, arguments),
        _ => false,
    }
}

/// Whether one of the operands after the first is a list whatever variables hold.
fn has_plain_list(source: &[u8], rest: &[Operand]) -> bool
    ensures { result ≡ has_plain_list (operands_of (operands_view source.now rest.now)) }
{
    for operand in rest {
        if is_plain_list(source, &operand.value) {
            return true;
        }
    }
    false
}

impl Lists<'_> {
    /// Whether the expression at the path is a list, if this number of variables may still be looked up.
    #[cycle(lists)]
    fn is_list(
        &self,
        expr: &Expr,
        path: &mut Vec<usize>,
        left: &mut usize,
    ) -> Result<bool, AllocError>
        requires { IsProject (loaded_from self.now.follower.files.now self.now.follower.trees.now) }
        ensures back { OnOk result (path.new.items ≡ path.old.items) }
        ensures told { IfOk result (λ is. Answers is left.new
            (is_list_at self.now (place self.now.file path.old.items) (expr_view self.now.source.now expr.now) left.old)) }
    {
        match expr {
            Expr::Array(_) => Ok(true),
            Expr::Call {
                name,
                arguments,
                ..
            } => Ok(is_files(self.source, *name, arguments)),
            Expr::Paren { inside, .. } => self.is_child(0, inside.get(), path, left),
            Expr::Conditional { yes, no, .. } => {
                if !self.is_child(1, yes.get(), path, left)? {
                    return Ok(false);
                }
                self.is_child(2, no.get(), path, left)
            }
            Expr::Row { first, rest, .. } => {
                if !are_plus(rest.get()) {
                    return Ok(false);
                }
                if has_plain_list(self.source, rest.get()) {
                    return Ok(true);
                }
                if self.is_child(0, first.get(), path, left)? {
                    return Ok(true);
                }
                self.has_list(rest.get(), path, left)
            }
            Expr::Identifier(name) => {
                self.is_variable(text_of(self.source, *name), path.as_slice(), left)
            }
            _ => Ok(false),
        }
    }

    /// Whether the n-th child of what is at the path is a list.
    #[cycle(lists)]
    fn is_child(
        &self,
        number: usize,
        expr: &Expr,
        path: &mut Vec<usize>,
        left: &mut usize,
    ) -> Result<bool, AllocError>
        requires { IsProject (loaded_from self.now.follower.files.now self.now.follower.trees.now) }
        ensures back { OnOk result (path.new.items ≡ path.old.items) }
        ensures told { IfOk result (λ is. Answers is left.new
            (is_list_at self.now (child (place self.now.file path.old.items) number) (expr_view self.now.source.now expr.now) left.old)) }
    {
        path.push(number)?;
        let is = self.is_list(expr, path, left)?;
        path.pop();
        Ok(is)
    }

    /// Whether one of the operands after the first is a list.
    #[cycle(lists)]
    fn has_list(
        &self,
        rest: &[Operand],
        path: &mut Vec<usize>,
        left: &mut usize,
    ) -> Result<bool, AllocError>
        requires { IsProject (loaded_from self.now.follower.files.now self.now.follower.trees.now) }
        ensures back { OnOk result (path.new.items ≡ path.old.items) }
        ensures told { IfOk result (λ is. Answers is left.new
            (has_list_at self.now (place self.now.file path.old.items) 1 (operands_of (operands_view self.now.source.now rest.now)) left.old)) }
    {
        for i in 0..rest.len() {
            if self.is_child(i + 1, &rest[i].value, path, left)? {
                return Ok(true);
            }
        }
        Ok(false)
    }

    /// Whether a variable that is read at the path is a list.
    #[cycle(lists)]
    fn is_variable(&self, name: &[u8], path: &[usize], left: &mut usize) -> Result<bool, AllocError>
        requires { IsProject (loaded_from self.now.follower.files.now self.now.follower.trees.now) }
        ensures { IfOk result (λ is. Answers is left.new (is_variable_at self.now (place self.now.file path.now) name.now left.old)) }
    {
        let depth = self.depth;
        if depth == 0 || *left == 0 {
            return Ok(false);
        }
        *left -= 1;
        let place = BorrowedPlace {
            file: self.file,
            path,
        };
        match self.follower.known(name, place)? {
            Some(made) => self.follower.is_made(depth - 1, &made, left),
            None => Ok(false),
        }
    }
}

/// Whether one of the makers adds its value.
fn has_addition(makers: &[Maker<'_>]) -> bool
    ensures { result ≡ list_any (λ m. m.adds) (map maker_view makers.now) }
{
    for maker in makers {
        if maker.adds {
            return true;
        }
    }
    false
}

impl Follower<'_> {
    /// Whether a variable that is made so is a list.
    #[cycle(lists)]
    fn is_made(&self, depth: usize, made: &Made<'_>, left: &mut usize) -> Result<bool, AllocError>
        requires { IsProject (loaded_from self.now.files.now self.now.trees.now) }
        ensures { IfOk result (λ is. Answers is left.new (is_made_at self.now depth (made_view made.now) left.old)) }
    {
        let mut seen = Seen {
            sure: false,
            each: true,
        };
        for maker in &made.makers {
            let lists = self.is_maker(depth, maker, left)?;
            seen = seen.with(maker, lists);
        }
        Ok(seen.sure || (!made.unknown && seen.each))
    }

    /// Whether the value of a maker is a list.
    #[cycle(lists)]
    fn is_maker(
        &self,
        depth: usize,
        maker: &Maker<'_>,
        left: &mut usize,
    ) -> Result<bool, AllocError>
        requires { IsProject (loaded_from self.now.files.now self.now.trees.now) }
        ensures { IfOk result (λ is. Answers is left.new (is_maker_at self.now depth (maker_view maker.now) left.old)) }
    {
        let Some(value) = self.value_at(&maker.place) else {
            return Ok(false);
        };
        let mut path = Vec::from_slice(self.alloc, maker.place.path.steps.get())?;
        let lists = Lists {
            follower: *self,
            depth,
            file: maker.place.file,
            source: value.source,
        };
        lists.is_list(value.expr, &mut path, left)
    }

    /// Whether the expression at a path of a file is a list.
    pub(crate) fn is_list(
        &self,
        file: usize,
        source: &[u8],
        expr: &Expr,
        path: &mut Vec<usize>,
    ) -> Result<bool, AllocError>
        requires { IsProject (loaded_from self.now.files.now self.now.trees.now) }
        ensures back { OnOk result (path.new.items ≡ path.old.items) }
        ensures is { IfOk result (λ is. is ≡ is_list (followed_project self.now) (place file path.old.items) (expr_view source.now expr.now)) }
    {
        let lists = Lists {
            follower: *self,
            depth: MAX_FOLLOWED,
            file,
            source,
        };
        let mut left = MAX_FOLLOWED;
        lists.is_list(expr, path, &mut left)
    }

    /// Whether lists may be added to a variable that is made so and is perhaps no list.
    pub(crate) fn mixes(&self, made: &Made<'_>) -> Result<bool, AllocError>
        requires { IsProject (loaded_from self.now.files.now self.now.trees.now) }
        ensures { IfOk result (λ is. is ≡ mixes (followed_project self.now) (made_view made.now)) }
    {
        if !has_addition(made.makers.as_slice()) {
            return Ok(false);
        }
        let mut left = MAX_FOLLOWED;
        let lists = self.is_made(MAX_FOLLOWED, made, &mut left)?;
        Ok(!lists)
    }

    /// Whether the value of a maker of a variable to which lists may be added so is no list.
    pub(crate) fn hides(&self, mixed: bool, maker: &Maker<'_>) -> Result<bool, AllocError>
        requires { IsProject (loaded_from self.now.files.now self.now.trees.now) }
        ensures { IfOk result (λ is. is ≡ hides (followed_project self.now) mixed (maker_view maker.now)) }
    {
        if !mixed {
            return Ok(false);
        }
        let mut left = MAX_FOLLOWED;
        let lists = self.is_maker(MAX_FOLLOWED, maker, &mut left)?;
        Ok(!lists)
    }
}
