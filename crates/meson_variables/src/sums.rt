//! Which rows are sums of lists.

ghost use Rattle.std.specs.Prelude.{◌≡◌, ◌&&◌, IfOk};
ghost use Rattle.meson_syntax.specs.Tree.{operands_of};
ghost use Rattle.meson_syntax.specs.View.{expr_view, operands_view};
ghost use Rattle.meson_variables.specs.Expansion.{is_plus, are_plus, is_operand_by, is_value_by, is_list_variable, is_list_operand};
ghost use Rattle.meson_variables.specs.CodeVariables.{AreVariables, project_of};
ghost use Rattle.meson_calls.specs.ChosenNotes.{Source};

use crate::call_sources::MAX_FOLLOWED;
use crate::meeting::is_files;
use crate::variables::Variables;
use meson_calls::roles::text_of;
use meson_syntax::{Expr, Operand, Operator};
use std::alloc::AllocError;

/// Whether the operator before an operand is `+`.
fn is_plus(operand: &Operand) -> bool
    ensures { result ≡ is_plus operand.now.operator }
{
    match operand.operator {
        Operator::Plus => true,
        _ => false,
    }
}

/// Whether all operators of a row are `+`.
pub fn are_plus(rest: &[Operand]) -> bool
    ensures { (source : Source) → result ≡ are_plus (operands_of (operands_view source rest.now)) }
{
    for i in 0..rest.len() {
        if !is_plus(&rest[i]) {
            return false;
        }
    }
    true
}

impl<'t> Variables<'t> {
    /// Whether a row is a sum of lists: all its operators are `+`, and its first operand is a list.
    ///
    /// # Errors
    /// Out of memory.
    pub fn is_sum(&self, source: &[u8], first: &Expr, rest: &[Operand]) -> Result<bool, AllocError>
        requires { AreVariables self.now }
        ensures { IfOk result (λ is. is
            ≡ (are_plus (operands_of (operands_view source.now rest.now)) && is_list_operand (project_of self.now) (expr_view source.now first.now))) }
    {
        if are_plus(rest) {
            self.is_list_operand(MAX_FOLLOWED, source, first)
        } else {
            Ok(false)
        }
    }

    /// Whether an operand is a list, by a chain of at most this number of variables.
    #[cycle(operands)]
    fn is_list_operand(
        &self,
        left: usize,
        source: &[u8],
        operand: &Expr,
    ) -> Result<bool, AllocError>
        requires { AreVariables self.now }
        ensures { IfOk result (λ is. is ≡ is_operand_by (is_list_variable (project_of self.now) left) (expr_view source.now operand.now)) }
    {
        match operand {
            Expr::Array(_) => Ok(true),
            Expr::Call {
                name,
                arguments,
                ..
            } => Ok(is_files(source, *name, arguments)),
            Expr::Identifier(name) => self.is_list_variable(left, text_of(source, *name)),
            _ => Ok(false),
        }
    }

    /// Whether a variable holds a list, or a sum that begins with one.
    #[cycle(operands)]
    fn is_list_variable(&self, left: usize, name: &[u8]) -> Result<bool, AllocError>
        requires { AreVariables self.now }
        ensures { IfOk result (λ is. is ≡ is_list_variable (project_of self.now) left name.now) }
    {
        if left == 0 {
            return Ok(false);
        }
        match self.single(name)? {
            Some(value) => self.is_list_value(left - 1, value.source, value.value),
            None => Ok(false),
        }
    }

    #[cycle(operands)]
    fn is_list_value(&self, left: usize, source: &[u8], value: &Expr) -> Result<bool, AllocError>
        requires { AreVariables self.now }
        ensures { IfOk result (λ is. is
            ≡ is_value_by (is_operand_by (is_list_variable (project_of self.now) left)) (expr_view source.now value.now)) }
    {
        match value {
            Expr::Array(_) => Ok(true),
            Expr::Call {
                name,
                arguments,
                ..
            } => Ok(is_files(source, *name, arguments)),
            Expr::Row { first, rest, .. } => {
                if are_plus(rest.get()) {
                    self.is_list_operand(left, source, first.get())
                } else {
                    Ok(false)
                }
            }
            _ => Ok(false),
        }
    }
}
