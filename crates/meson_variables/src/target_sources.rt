//! The sources of the target at a place.

ghost use Rattle.std.specs.Prelude.{◌≡◌, Some, Ok, Err, IfOk, IsTrue, option_map};
ghost use Rattle.meson_syntax.specs.View.{expr_view, list_view};
ghost use Rattle.meson_calls.specs.Calls.{call_of};
ghost use Rattle.meson_calls.specs.Loading.{AreParsed};
ghost use Rattle.meson_variables.specs.CodeVariables.{AreVariables, project_of};
ghost use Rattle.meson_calls.specs.ChosenNotes.{Source};
ghost use Rattle.meson_calls.specs.Refusals.{IfRefused};
ghost use Rattle.meson_calls.specs.Roles.{is_target};
ghost use Rattle.meson_variables.specs.TargetSources.{sources};

use crate::call_sources::sources_of;
use crate::source::Sources;
use crate::variables::Variables;
use meson_calls::call::CallRef;
use meson_calls::refusal::Refusal;
use meson_syntax::{Expr, List};

/// The arguments of an expression, if it is a call.
pub(crate) fn arguments_of(expr: &Expr) -> Option<&List>
    ensures { (source : Source) → option_map (λ l. list_view source l.now) result ≡ option_map (λ c. c.arguments) (call_of (expr_view source expr.now)) }
{
    match expr {
        Expr::Call { arguments, .. } => Some(arguments),
        _ => None,
    }
}

/// The sources of the target at a place.
///
/// # Errors
/// `sources:` is there twice, or out of memory.
pub fn sources_at(variables: &Variables<'_>, call: &CallRef) -> Result<Sources, Refusal>
    requires holds { AreVariables variables.now }
    requires parsed { AreParsed variables.now.files.now variables.now.trees.now }
    requires target { IsTrue (is_target (project_of variables.now) call.now) }
    ensures found { IfOk result (λ s. sources (project_of variables.now) call.now ≡ Some (Ok s)) }
    ensures refused { IfRefused result (λ e. sources (project_of variables.now) call.now ≡ Some (Err e)) }
{
    let trees = variables.trees;
    if call.file >= trees.len() {
        unreachable!();
    }
    match trees[call.file].expr_at(&call.path) {
        Some(expr) => match arguments_of(expr) {
            Some(arguments) => {
                sources_of(variables, call, variables.files.bytes(call.file), arguments)
            }
            None => unreachable!(),
        },
        None => unreachable!(),
    }
}
