//! The ways of expressions: the places of the variables whose elements are elements of their values.

ghost use Rattle.std.specs.Prelude.{◌≡◌, ◌∷◌, ◌++◌, [], OnOk, drop, option_map};
ghost use Rattle.meson_syntax.specs.Tree.{arguments_of, operands_of};
ghost use Rattle.meson_syntax.specs.View.{arg_view, args_view, expr_view, list_view, operands_view, text_at};
ghost use Rattle.meson_calls.specs.NamedArguments.{kept_arg, kept_args};
ghost use Rattle.meson_calls.specs.Project.{child, place};
ghost use Rattle.meson_following.specs.CodeArguments.{value_by};
ghost use Rattle.meson_sharing.specs.CodeWays.{call_ways, value_ways};
ghost use Rattle.meson_sharing.specs.Sharing.{ways, ways_of_element, ways_of_elements, ways_of_listing, ways_of_operands, ways_of_values};

use meson_calls::CallRef;
use meson_calls::place::place_of;
use meson_calls::roles::text_of;
use meson_following::arguments::value_of;
use meson_lex::Span;
use meson_syntax::{Arg, Expr, List, Operand};
use meson_variables::meeting::is_files;
use meson_variables::sums::are_plus;
use std::alloc::{AllocError, Global};

/// A search of the expressions of a file for ways.
#[derive(Clone, Copy)]
pub(crate) struct Ways<'s> {
    pub alloc: Global,
    pub file: usize,
    pub source: &'s [u8],
}

impl Ways<'_> {
    /// Takes the path as that of a way.
    fn take(&self, path: &[usize], found: &mut Vec<CallRef>) -> Result<(), AllocError>
        ensures { OnOk result (found.new.items ≡ found.old.items ++ place self.now.file path.now ∷ []) }
    {
        found.push(place_of(self.alloc, self.file, path)?)?;
        Ok(())
    }

    /// Takes the ways of the expression at the path.
    #[cycle(ways)]
    pub(crate) fn in_expr(
        &self,
        expr: &Expr,
        path: &mut Vec<usize>,
        found: &mut Vec<CallRef>,
    ) -> Result<(), AllocError>
        ensures back { OnOk result (path.new.items ≡ path.old.items) }
        ensures all { OnOk result (found.new.items
            ≡ found.old.items ++ ways (place self.now.file path.old.items) (expr_view self.now.source.now expr.now)) }
    {
        match expr {
            Expr::Identifier(_) => self.take(path.as_slice(), found),
            Expr::Array(list) => self.in_list(list, path, found),
            Expr::Call {
                name,
                arguments,
                ..
            } => self.in_call(*name, arguments, path, found),
            Expr::Paren { inside, .. } => self.in_child(0, inside.get(), path, found),
            Expr::Conditional { yes, no, .. } => {
                self.in_child(1, yes.get(), path, found)?;
                self.in_child(2, no.get(), path, found)
            }
            Expr::Row { first, rest, .. } => {
                if !are_plus(rest.get()) {
                    return Ok(());
                }
                self.in_child(0, first.get(), path, found)?;
                self.in_operands(rest.get(), path, found)
            }
            _ => Ok(()),
        }
    }

    /// Takes those of the n-th child of what is at the path.
    #[cycle(ways)]
    pub(crate) fn in_child(
        &self,
        number: usize,
        expr: &Expr,
        path: &mut Vec<usize>,
        found: &mut Vec<CallRef>,
    ) -> Result<(), AllocError>
        ensures back { OnOk result (path.new.items ≡ path.old.items) }
        ensures all { OnOk result (found.new.items
            ≡ found.old.items ++ ways (child (place self.now.file path.old.items) number) (expr_view self.now.source.now expr.now)) }
    {
        path.push(number)?;
        self.in_expr(expr, path, found)?;
        path.pop();
        Ok(())
    }

    /// Takes those of the call at the path.
    #[cycle(ways)]
    fn in_call(
        &self,
        function: Span,
        arguments: &List,
        path: &mut Vec<usize>,
        found: &mut Vec<CallRef>,
    ) -> Result<(), AllocError>
        ensures back { OnOk result (path.new.items ≡ path.old.items) }
        ensures all { OnOk result (found.new.items ≡ found.old.items
            ++ call_ways (place self.now.file path.old.items) (text_at self.now.source.now function) (list_view self.now.source.now arguments.now)) }
    {
        if text_of(self.source, function) == b"get_variable".as_slice() {
            return self.take(path.as_slice(), found);
        }
        if !is_files(self.source, function, arguments) {
            return Ok(());
        }
        self.in_list(arguments, path, found)
    }

    /// Takes those of the list of the array or the call at the path.
    #[cycle(ways)]
    fn in_list(
        &self,
        list: &List,
        path: &mut Vec<usize>,
        found: &mut Vec<CallRef>,
    ) -> Result<(), AllocError>
        ensures back { OnOk result (path.new.items ≡ path.old.items) }
        ensures all { OnOk result (found.new.items
            ≡ found.old.items ++ ways_of_listing (place self.now.file path.old.items) (list_view self.now.source.now list.now)) }
    {
        self.in_elements(list.items.get(), path, found)
    }

    #[cycle(ways)]
    fn in_elements(
        &self,
        args: &[Arg],
        path: &mut Vec<usize>,
        found: &mut Vec<CallRef>,
    ) -> Result<(), AllocError>
        ensures back { OnOk result (path.new.items ≡ path.old.items) }
        ensures all { OnOk result (found.new.items
            ≡ found.old.items ++ ways_of_elements (place self.now.file path.old.items) 0 (arguments_of (args_view self.now.source.now args.now))) }
    {
        for i in 0..args.len() {
            self.in_element(i, &args[i], path, found)?;
        }
        Ok(())
    }

    /// Takes those of the n-th element of the list at the path.
    #[cycle(ways)]
    fn in_element(
        &self,
        number: usize,
        arg: &Arg,
        path: &mut Vec<usize>,
        found: &mut Vec<CallRef>,
    ) -> Result<(), AllocError>
        ensures back { OnOk result (path.new.items ≡ path.old.items) }
        ensures all { OnOk result (found.new.items
            ≡ found.old.items ++ ways_of_element (place self.now.file path.old.items) number (arg_view self.now.source.now arg.now)) }
    {
        match arg {
            Arg::Plain(value) => self.in_child(number, value, path, found),
            _ => Ok(()),
        }
    }

    #[cycle(ways)]
    fn in_operands(
        &self,
        rest: &[Operand],
        path: &mut Vec<usize>,
        found: &mut Vec<CallRef>,
    ) -> Result<(), AllocError>
        ensures back { OnOk result (path.new.items ≡ path.old.items) }
        ensures all { OnOk result (found.new.items
            ≡ found.old.items ++ ways_of_operands (place self.now.file path.old.items) 1 (operands_of (operands_view self.now.source.now rest.now))) }
    {
        for i in 0..rest.len() {
            self.in_child(i + 1, &rest[i].value, path, found)?;
        }
        Ok(())
    }

    /// Takes those of the value of an argument of the call at the path, if it has no name, or this one.
    fn in_argument(
        &self,
        key: Option<&[u8]>,
        number: usize,
        arg: &Arg,
        path: &mut Vec<usize>,
        found: &mut Vec<CallRef>,
    ) -> Result<(), AllocError>
        ensures back { OnOk result (path.new.items ≡ path.old.items) }
        ensures all { OnOk result (found.new.items ≡ found.old.items ++ (let k = option_map (λ k. k.now) key.entry in
            value_ways (place self.now.file path.old.items) (kept_arg self.now.source.now (value_by k) number arg.now))) }
    {
        match value_of(self.source, arg, key) {
            Some(value) => self.in_child(number, value, path, found),
            None => Ok(()),
        }
    }

    /// Takes those of the values of the arguments of the call at the path that have no name, or this one, from this number on.
    pub(crate) fn in_arguments(
        &self,
        key: Option<&[u8]>,
        from: usize,
        args: &[Arg],
        path: &mut Vec<usize>,
        found: &mut Vec<CallRef>,
    ) -> Result<(), AllocError>
        ensures back { OnOk result (path.new.items ≡ path.old.items) }
        ensures all { OnOk result (found.new.items ≡ found.old.items ++ (let k = option_map (λ k. k.now) key.entry in
            ways_of_values (place self.now.file path.old.items) 0 (kept_args self.now.source.now (value_by k) from (drop from args.now)))) }
    {
        for i in from..args.len() {
            self.in_argument(key, i, &args[i], path, found)?;
        }
        Ok(())
    }
}
