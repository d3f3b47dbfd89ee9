//! Where all that sets or reads variables is known.

ghost use Rattle.std.specs.Prelude.{◌≡◌, IfOk};
ghost use Rattle.std.specs.List.{list_any};
ghost use Rattle.meson_explaining.specs.Removals.{has_no_name};
ghost use Rattle.meson_calls.specs.Calls.{is};
ghost use Rattle.meson_warnings.specs.Known.{all_named, is_whole, names_one, readers_known, setters_known};

use meson_calls::Reading;
use meson_inventory::holdings::{HeldCall, calls_held, holdings_of};
use meson_plan::Project;
use std::alloc::{AllocError, Global};

/// Whether all build files of a project are known.
fn is_whole(alloc: Global, project: &Project) -> Result<bool, AllocError>
    ensures { IfOk result (λ whole. whole ≡ is_whole project.now) }
{
    let calls = calls_held(alloc, project, "project")?;
    if calls.get().is_empty() {
        return Ok(false);
    }
    let held = holdings_of(alloc, Reading::Written, project)?;
    Ok(held.not_entered.get().is_empty())
}

/// Whether one of some calls has no literal name.
fn any_unnamed(calls: &[HeldCall]) -> bool
    ensures { result ≡ list_any has_no_name calls.now }
{
    calls.iter().any(|call| call.head.name.is_none())
}

/// Whether each call of a function has a literal name.
fn all_named(alloc: Global, project: &Project, function: &str) -> Result<bool, AllocError>
    ensures { IfOk result (λ named. named ≡ all_named project.now function.now) }
{
    let calls = calls_held(alloc, project, function)?;
    Ok(!any_unnamed(calls.get()))
}

/// Whether all that sets variables is known.
pub(crate) fn setters_known(alloc: Global, project: &Project) -> Result<bool, AllocError>
    ensures { IfOk result (λ known. known ≡ setters_known project.now) }
{
    if !is_whole(alloc, project)? {
        return Ok(false);
    }
    all_named(alloc, project, "set_variable")
}

/// Whether all that reads variables is known.
pub(crate) fn readers_known(alloc: Global, project: &Project) -> Result<bool, AllocError>
    ensures { IfOk result (λ known. known ≡ readers_known project.now) }
{
    if !is_whole(alloc, project)? {
        return Ok(false);
    }
    if !all_named(alloc, project, "get_variable")? {
        return Ok(false);
    }
    all_named(alloc, project, "is_variable")
}

/// Whether a call has this literal name.
fn is_named(call: &HeldCall, name: &str) -> bool
    ensures { result ≡ is name.now call.now.head.name }
{
    match &call.head.name {
        Some(text) => name == text.get(),
        None => false,
    }
}

/// Whether one of some calls has this literal name.
pub(crate) fn names_one(calls: &[HeldCall], name: &str) -> bool
    ensures { result ≡ names_one name.now calls.now }
{
    calls.iter().any(|call| is_named(call, name))
}
