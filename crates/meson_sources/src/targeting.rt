//! The steps of commands on the sources and the extra files of a target.

ghost use Rattle.std.specs.Prelude.{All, IfOk};
ghost use Rattle.std.specs.Str.{IsUtf8};
ghost use Rattle.meson_calls.specs.NotedProjects.{IsNotedFor, loaded_in, project_in};
ghost use Rattle.meson_calls.specs.Refusals.{RefusedAs};
ghost use Rattle.meson_calls.specs.Searching.{name_at};
ghost use Rattle.meson_steps.specs.Plans.{ArePlanned};
ghost use Rattle.meson_sources.specs.Targeted.{target_steps};
ghost use Rattle.meson_steps.specs.Meanings.{AreMeant};

use crate::editing::{sources_added, sources_removed};
use crate::extra_edits::{extra_added, extra_removed};
use meson_calls::finding::{list_of_call, the_call};
use meson_calls::noted::Noted;
use meson_calls::{BorrowedName, Refusal, Role};
use meson_splice::{Many, Text};
use meson_steps::step::ListStep;
use meson_variables::variables::Variables;
use std::alloc::Global;

/// What is done to the sources or the extra files of a target.
#[derive(Clone, Copy)]
pub enum TargetChange {
    SourcesAdded,
    SourcesRemoved,
    ExtraAdded,
    ExtraRemoved,
}

/// The steps that add names to a target or remove them from it.
///
/// # Errors
/// There is no such target or more than one, or the names can't be added or removed, or out of memory.
fn target_steps(
    alloc: Global,
    noted: &Noted<'_>,
    target: BorrowedName<'_>,
    change: TargetChange,
    names: &[Text],
) -> Result<Vec<ListStep>, Refusal>
    requires { IsNotedFor Role.Target target.id.now noted.now }
    ensures meant { IfOk result (λ steps. AreMeant (target_steps (project_in noted.now) (name_at target.entry) change names.now) steps.items) }
    ensures refused { RefusedAs result (target_steps (project_in noted.now) (name_at target.entry) change names.now) }
    ensures utf8 { IfOk result (λ steps. All IsUtf8 names.now) }
{
    let call = the_call(alloc, Role::Target, target, noted.files, noted.notes)?;
    let arguments = list_of_call(noted.trees, &call);
    let source = noted.files.bytes(call.file);
    let variables = Variables::near_noted(alloc, noted, &call)?;
    match change {
        TargetChange::SourcesAdded => sources_added(&variables, &call, source, arguments, names),
        TargetChange::SourcesRemoved => sources_removed(
            &variables, &call, source, arguments, names,
        ),
        TargetChange::ExtraAdded => extra_added(&variables, &call, source, arguments, names),
        TargetChange::ExtraRemoved => extra_removed(&variables, &call, source, arguments, names),
    }
}

/// A change of a target.
///
/// # Errors
/// Why it is refused, or out of memory.
pub fn on_target(
    alloc: Global,
    noted: &Noted<'_>,
    target: BorrowedName<'_>,
    change: TargetChange,
    names: &Many<Text>,
) -> Result<Vec<ListStep>, Refusal>
    requires { IsNotedFor Role.Target target.id.now noted.now }
    ensures plan { IfOk result (λ steps.
        ArePlanned (loaded_in noted.now) (target_steps (project_in noted.now) (name_at target.entry) change names.now) steps.items) }
    ensures refused { RefusedAs result (target_steps (project_in noted.now) (name_at target.entry) change names.now) }
{
    target_steps(alloc, noted, target, change, names.get())
}
