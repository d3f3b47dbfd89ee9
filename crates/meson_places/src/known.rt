//! What says values already, and which values are new.

ghost use Rattle.std.specs.Prelude.{◌≡◌, ◌++◌, ◌∷◌, [], IfErr, IfOk, OnOk, map};
ghost use Rattle.std.specs.List.{list_all, list_any};
ghost use Rattle.meson_syntax.specs.View.{expr_view};
ghost use Rattle.meson_calls.specs.declared.refusal.Refusal.TheVariants.{OutOfMemory};
ghost use Rattle.meson_places.specs.Equality.{fresh, is_old};
ghost use Rattle.meson_places.specs.inside.Found.{IsGoodKnown, is_known};

use crate::equality::{is_given, lists_say, says};
use crate::value_lists::FoundList;
use meson_calls::Refusal;
use meson_steps::given::Given;
use meson_syntax::Expr;
use std::alloc::{AllocError, Global};

/// What says values already.
#[derive(Clone, Copy)]
pub enum Known<'t> {
    /// The elements of lists.
    Lists(&'t [FoundList<'t>]),
    /// A lone value.
    Value(&'t Expr),
}

/// Whether a value is said already.
fn is_known(
    alloc: Global,
    source: &[u8],
    known: Known<'_>,
    given: &Given,
) -> Result<bool, AllocError>
    requires { IsGoodKnown source.now known }
    ensures { IfOk result (λ b. b ≡ is_known source.now known.entry given.now) }
{
    match known {
        Known::Lists(lists) => lists_say(alloc, source, given, lists),
        Known::Value(value) => says(alloc, source, given, value),
    }
}

/// Whether a value is said already, or is given before too.
fn is_old(
    alloc: Global,
    source: &[u8],
    known: Known<'_>,
    before: &[Given],
    given: &Given,
) -> Result<bool, Refusal>
    requires { IsGoodKnown source.now known }
    ensures is { IfOk result (λ b. b ≡ is_old (is_known source.now known.entry) before.now given.now) }
    ensures refused { IfErr result (λ e. e ≡ OutOfMemory) }
{
    if is_known(alloc, source, known, given)? {
        return Ok(true);
    }
    is_given(alloc, given, before)
}

/// Adds a value to others.
fn push_value<'v>(all: &mut Vec<&'v Given>, given: &'v Given) -> Result<(), AllocError>
    ensures { OnOk result (map (λ x. x.now) all.new.items ≡ map (λ x. x.now) all.old.items ++ given.entry.now ∷ []) }
{
    all.push(given)?;
    Ok(())
}

/// The values that are not said already, each once.
pub(crate) fn fresh<'v>(
    alloc: Global,
    source: &[u8],
    known: Known<'_>,
    values: &'v [Given],
) -> Result<Vec<&'v Given>, Refusal>
    requires { IsGoodKnown source.now known }
    ensures fresh { IfOk result (λ v. map (λ x. x.now) v.items ≡ fresh (is_known source.now known.entry) [] values.entry.now) }
    ensures refused { IfErr result (λ e. e ≡ OutOfMemory) }
{
    let mut all = Vec::new(alloc);
    for i in 0..values.len() {
        let given = &values[i];
        if !is_old(alloc, source, known, &values[..i], given)? {
            push_value(&mut all, given)?;
        }
    }
    Ok(all)
}

/// Whether each of some values is said.
pub(crate) fn are_known(
    alloc: Global,
    source: &[u8],
    known: Known<'_>,
    values: &[Given],
) -> Result<bool, AllocError>
    requires { IsGoodKnown source.now known }
    ensures { IfOk result (λ b. b ≡ list_all (is_known source.now known.entry) values.now) }
{
    for i in 0..values.len() {
        if !is_known(alloc, source, known, &values[i])? {
            return Ok(false);
        }
    }
    Ok(true)
}

/// Whether one of some values is said.
///
/// # Errors
/// Out of memory.
pub fn any_known(
    alloc: Global,
    source: &[u8],
    known: Known<'_>,
    values: &[Given],
) -> Result<bool, AllocError>
    requires { IsGoodKnown source.now known }
    ensures { IfOk result (λ b. b ≡ list_any (is_known source.now known.entry) values.now) }
{
    for i in 0..values.len() {
        if is_known(alloc, source, known, &values[i])? {
            return Ok(true);
        }
    }
    Ok(false)
}
