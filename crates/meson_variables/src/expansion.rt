//! What a list of sources holds.

ghost use Rattle.std.specs.Prelude.{◌≡◌, OnOk};
ghost use Rattle.meson_lex.specs.Kinds.{IsIdentifier};
ghost use Rattle.meson_syntax.specs.Grammar.{expression_words, argument_words};
ghost use Rattle.meson_syntax.specs.Tree.{arguments_of, operands_of};
ghost use Rattle.meson_syntax.specs.View.{arg_view, args_view, expr_view, list_view, operands_view};
ghost use Rattle.meson_variables.specs.Expansion.{element, operand_at};
ghost use Rattle.meson_variables.specs.CodeVariables.{AreVariables, project_of};
ghost use Rattle.meson_calls.specs.Strings.{AreGood};
ghost use Rattle.meson_calls.specs.GoodLists.{GoodArgs, GoodListing, GoodRow};
ghost use Rattle.meson_variables.specs.Tallies.{Meets, stand_at, expand_left};
ghost use Rattle.meson_variables.specs.inside.Tallies.{variable_left, list_left, each_left, argument_left, sum_left, row_left};

use crate::marks::{Marks, Site};
use crate::meeting::{is_files, meet_string};
use crate::variables::Variables;
use meson_calls::roles::{identifier_text, text_of};
use meson_syntax::{Arg, Expr, List, Operand};
use std::alloc::AllocError;

impl<'t> Variables<'t> {
    /// Meets what an expression holds, if `left` variables may still be followed inside one another.
    #[cycle(expansion)]
    pub fn expand(
        &self,
        left: usize,
        site: Site<'t>,
        slot: Option<usize>,
        expr: &'t Expr,
        path: &mut Vec<usize>,
        marks: &mut Marks<'t>,
    ) -> Result<(), AllocError>
        requires holds { AreVariables self.now }
        requires good { AreGood (expression_words (expr_view site.source.now expr.now)) }
        ensures back { OnOk result (path.new.items ≡ path.old.items) }
        ensures all { OnOk result (Meets marks.old
            (expand_left (project_of self.now) left (expr_view site.entry.source.now expr.now) (stand_at site.entry path.old.items slot)) marks.new) }
    {
        match expr {
            Expr::String { span, .. } => {
                meet_string(self.alloc, site, slot, *span, expr, path.as_slice(), marks)
            }
            Expr::Array(list) => self.expand_list(left, site, slot, list, path, marks),
            Expr::Call {
                name,
                arguments,
                ..
            } => {
                if is_files(site.source, *name, arguments) {
                    self.expand_list(left, site, slot, arguments, path, marks)
                } else {
                    marks.miss(site.file)
                }
            }
            Expr::Identifier(name) => {
                self.follow(left, site.file, text_of(site.source, *name), marks)
            }
            Expr::Row { first, rest, .. } => {
                self.expand_row(left, site, slot, first.get(), rest.get(), path, marks)
            }
            _ => marks.miss(site.file),
        }
    }

    /// Those of the list of an array or a call at this place.
    #[cycle(expansion)]
    fn expand_list(
        &self,
        left: usize,
        site: Site<'t>,
        slot: Option<usize>,
        list: &'t List,
        path: &mut Vec<usize>,
        marks: &mut Marks<'t>,
    ) -> Result<(), AllocError>
        requires holds { AreVariables self.now }
        requires good { GoodListing (list_view site.source.now list.now) }
        ensures back { OnOk result (path.new.items ≡ path.old.items) }
        ensures all { OnOk result (Meets marks.old
            (list_left (project_of self.now) left (list_view site.entry.source.now list.now) (stand_at site.entry path.old.items slot)) marks.new) }
    {
        match slot {
            Some(number) => {
                path.push(number)?;
                self.expand_own(left, site, list, path, marks)?;
                path.pop();
                Ok(())
            }
            None => self.expand_own(left, site, list, path, marks),
        }
    }

    /// Those of the list of an array or a call at the path.
    #[cycle(expansion)]
    fn expand_own(
        &self,
        left: usize,
        site: Site<'t>,
        list: &'t List,
        path: &mut Vec<usize>,
        marks: &mut Marks<'t>,
    ) -> Result<(), AllocError>
        requires holds { AreVariables self.now }
        requires good { GoodListing (list_view site.source.now list.now) }
        ensures back { OnOk result (path.new.items ≡ path.old.items) }
        ensures all { OnOk result (Meets marks.old
            (list_left (project_of self.now) left (list_view site.entry.source.now list.now) (stand_at site.entry path.old.items None)) marks.new) }
    {
        let args = list.items.get();
        if args.is_empty() {
            marks.meet_vacant(self.alloc, site.file, path.as_slice())
        } else {
            self.expand_args(left, site, args, path, marks)
        }
    }

    /// Those of the elements of a list at the path.
    #[cycle(expansion)]
    fn expand_args(
        &self,
        left: usize,
        site: Site<'t>,
        args: &'t [Arg],
        path: &mut Vec<usize>,
        marks: &mut Marks<'t>,
    ) -> Result<(), AllocError>
        requires holds { AreVariables self.now }
        requires good { GoodArgs site.source.now args.now }
        ensures back { OnOk result (path.new.items ≡ path.old.items) }
        ensures all { OnOk result (Meets marks.old (each_left (project_of self.now) left
            (arguments_of (args_view site.entry.source.now args.now)) 0 (stand_at site.entry path.old.items None)) marks.new) }
    {
        for i in 0..args.len() {
            self.expand_arg(left, site, i, &args[i], path, marks)?;
        }
        Ok(())
    }

    /// Those of the n-th element of a list at the path.
    #[cycle(expansion)]
    fn expand_arg(
        &self,
        left: usize,
        site: Site<'t>,
        number: usize,
        arg: &'t Arg,
        path: &mut Vec<usize>,
        marks: &mut Marks<'t>,
    ) -> Result<(), AllocError>
        requires holds { AreVariables self.now }
        requires good { AreGood (argument_words (arg_view site.source.now arg.now)) }
        ensures back { OnOk result (path.new.items ≡ path.old.items) }
        ensures all { OnOk result (Meets marks.old (argument_left (project_of self.now) left
            (arg_view site.entry.source.now arg.now) (element (stand_at site.entry path.old.items None) number)) marks.new) }
    {
        match arg {
            Arg::Plain(value) => self.expand(left, site, Some(number), value, path, marks),
            _ => marks.miss(site.file),
        }
    }

    /// Those of the operands of a row, if it is a sum.
    #[cycle(expansion)]
    fn expand_row(
        &self,
        left: usize,
        site: Site<'t>,
        slot: Option<usize>,
        first: &'t Expr,
        rest: &'t [Operand],
        path: &mut Vec<usize>,
        marks: &mut Marks<'t>,
    ) -> Result<(), AllocError>
        requires holds { AreVariables self.now }
        requires good { GoodRow site.source.now first.now rest.now }
        ensures back { OnOk result (path.new.items ≡ path.old.items) }
        ensures all { OnOk result (Meets marks.old (row_left (project_of self.now) left (expr_view site.entry.source.now first.now)
            (operands_of (operands_view site.entry.source.now rest.now)) (stand_at site.entry path.old.items slot)) marks.new) }
    {
        if !self.is_sum(site.source, first, rest)? {
            return marks.miss(site.file);
        }
        match slot {
            Some(number) => {
                path.push(number)?;
                self.expand_operands(left, site, first, rest, path, marks)?;
                path.pop();
                Ok(())
            }
            None => self.expand_operands(left, site, first, rest, path, marks),
        }
    }

    /// Those of the operands of a sum at the path.
    #[cycle(expansion)]
    fn expand_operands(
        &self,
        left: usize,
        site: Site<'t>,
        first: &'t Expr,
        rest: &'t [Operand],
        path: &mut Vec<usize>,
        marks: &mut Marks<'t>,
    ) -> Result<(), AllocError>
        requires holds { AreVariables self.now }
        requires good { GoodRow site.source.now first.now rest.now }
        ensures back { OnOk result (path.new.items ≡ path.old.items) }
        ensures all { OnOk result (Meets marks.old (sum_left (project_of self.now) left (expr_view site.entry.source.now first.now)
            (operands_of (operands_view site.entry.source.now rest.now)) (stand_at site.entry path.old.items None)) marks.new) }
    {
        self.expand_operand(left, site, 0, first, path, marks)?;
        for i in 0..rest.len() {
            self.expand_operand(left, site, i + 1, &rest[i].value, path, marks)?;
        }
        Ok(())
    }

    /// Those of the n-th operand of a sum at the path, which is in no list.
    #[cycle(expansion)]
    fn expand_operand(
        &self,
        left: usize,
        site: Site<'t>,
        number: usize,
        operand: &'t Expr,
        path: &mut Vec<usize>,
        marks: &mut Marks<'t>,
    ) -> Result<(), AllocError>
        requires holds { AreVariables self.now }
        requires good { AreGood (expression_words (expr_view site.source.now operand.now)) }
        ensures back { OnOk result (path.new.items ≡ path.old.items) }
        ensures all { OnOk result (Meets marks.old (expand_left (project_of self.now) left
            (expr_view site.entry.source.now operand.now) (operand_at (stand_at site.entry path.old.items None) number)) marks.new) }
    {
        path.push(number)?;
        self.expand(left, site, None, operand, path, marks)?;
        path.pop();
        Ok(())
    }

    /// Those of the value of a variable that is read in this file.
    #[cycle(expansion)]
    fn follow(
        &self,
        left: usize,
        file: usize,
        name: &'t [u8],
        marks: &mut Marks<'t>,
    ) -> Result<(), AllocError>
        requires holds { AreVariables self.now }
        requires named { IsIdentifier name.now }
        ensures { OnOk result (Meets marks.old (variable_left (project_of self.now) left name.entry.now) marks.new) }
    {
        if marks.has_followed(name) || left == 0 {
            return marks.miss(file);
        }
        match self.single(name)? {
            Some(value) => {
                let mut path = Vec::new(self.alloc);
                path.push(value.statement)?;
                path.push(0)?;
                marks.follow(name)?;
                let site = Site {
                    file: value.file,
                    source: value.source,
                    variable: Some(identifier_text(name)),
                };
                self.expand(left - 1, site, None, value.value, &mut path, marks)
            }
            None => marks.miss(file),
        }
    }
}
