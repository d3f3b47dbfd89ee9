//! New sources that `target add` adds to the call itself.

ghost use Rattle.std.specs.Prelude.{◌≡◌, IfOk, IsTrue};
ghost use Rattle.std.specs.List.{list_any};
ghost use Rattle.meson_calls.specs.Loading.{project as trees_of};
ghost use Rattle.meson_calls.specs.Roles.{is_target};
ghost use Rattle.meson_explaining.specs.Sources.{is_missing};
ghost use Rattle.meson_variables.specs.TargetSources.{sources};
ghost use Rattle.meson_warnings.specs.Additions.{goes_into_call, into_call, into_one, is_into_call, is_place};
ghost use Rattle.meson_calls.specs.Searching.{name_at};

use meson_calls::{BorrowedName, CallRef, Refusal};
use meson_explaining::Note;
use meson_explaining::calls::add_each;
use meson_explaining::sources::is_missing;
use meson_inventory::holdings::calls_named;
use meson_plan::{Project, Role};
use meson_splice::Text;
use meson_variables::{SourceItem, Sources};
use std::alloc::{AllocError, Global};

/// Whether two places are one.
fn is_place(a: &CallRef, b: &CallRef) -> bool
    ensures { result ≡ is_place a.now b.now }
{
    a.file == b.file && a.path.steps.get() == b.path.steps.get()
}

/// Whether a name is that of no item.
pub(crate) fn has_new(names: &[Text], items: &[SourceItem]) -> bool
    ensures { result ≡ list_any (is_missing items.now) names.now }
{
    names.iter().any(|name| is_missing(items, name.get()))
}

/// Whether a new source is added to the call itself though some of its sources are not known.
fn is_into_call(names: &[Text], call: &CallRef, found: &Sources) -> bool
    ensures { result ≡ is_into_call names.now call.now found.now }
{
    has_new(names, found.items.get()) && found.opaque > 0 && is_place(&found.home, call)
}

/// The same of a target.
fn into_one(
    alloc: Global,
    project: &Project,
    call: &CallRef,
    names: &[Text],
) -> Result<bool, AllocError>
    requires { IsTrue (is_target (trees_of project.now) call.now) }
    ensures { IfOk result (λ yes. yes ≡ into_one names.now call.now (sources (trees_of project.now) call.now)) }
{
    match project.sources(alloc, call) {
        Ok(found) => Ok(is_into_call(names, call, &found)),
        Err(Refusal::OutOfMemory) => Err(AllocError),
        Err(_) => Ok(false),
    }
}

/// The same of the target that an id names.
#[tactic(auto, unfolding(crate::specs::Additions::goes_into_call))]
fn goes_into_call(
    alloc: Global,
    project: &Project,
    target: BorrowedName<'_>,
    names: &[Text],
) -> Result<bool, AllocError>
    ensures { IfOk result (λ yes. yes ≡ goes_into_call project.now (name_at target.entry) names.now) }
{
    match project.find_one(alloc, Role::Target, target) {
        Ok(call) => into_one(alloc, project, &call, names),
        Err(Refusal::OutOfMemory) => Err(AllocError),
        Err(_) => Ok(false),
    }
}

/// The warning of a new source that is added to the call itself.
pub(crate) fn into_call(
    alloc: Global,
    project: &Project,
    target: BorrowedName<'_>,
    names: &[Text],
) -> Result<Vec<Note>, AllocError>
    ensures { IfOk result (λ notes. notes.items ≡ into_call project.now (name_at target.entry) names.now) }
{
    let mut notes = Vec::new(alloc);
    if !goes_into_call(alloc, project, target, names)? {
        return Ok(notes);
    }
    let calls = calls_named(alloc, project, Role::Target, target)?;
    let more = ": the new source is added to this call, since some of its sources are not known";
    add_each(alloc, &mut notes, more, calls.get())?;
    Ok(notes)
}
