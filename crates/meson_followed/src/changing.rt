//! The steps of a change of a target's sources, where variables are followed.

ghost use Rattle.std.specs.Prelude.{◌≡◌, All, IfOk, Ok};
ghost use Rattle.std.specs.Str.{IsUtf8};
ghost use Rattle.meson_lex.specs.declared.kinds.Span.{Span};
ghost use Rattle.meson_calls.specs.Calls.{Call};
ghost use Rattle.meson_calls.specs.Finding.{the_call};
ghost use Rattle.meson_calls.specs.NotedProjects.{IsNotedFor, loaded_in, project_in};
ghost use Rattle.meson_calls.specs.Project.{Placed};
ghost use Rattle.meson_calls.specs.Refusals.{RefusedAs};
ghost use Rattle.meson_calls.specs.Searching.{name_at};
ghost use Rattle.meson_steps.specs.Meanings.{AreMeant};
ghost use Rattle.meson_steps.specs.Plans.{ArePlanned};
ghost use Rattle.meson_followed.specs.Changes.{target_changed};
ghost use Rattle.meson_followed.specs.CodeRenamings.{names_written};

use crate::adding::sources_added;
use crate::removing::sources_removed;
use crate::renaming::sources_renamed;
use meson_calls::finding::{list_of_call, the_call};
use meson_calls::noted::Noted;
use meson_calls::{BorrowedName, Refusal, Role};
use meson_following::Follower;
use meson_sources::renaming::Renaming;
use meson_steps::source_change::{SharedLists, SourceChange};
use meson_steps::step::ListStep;
use std::alloc::Global;

/// The steps that change the sources of a target.
fn steps_of(
    alloc: Global,
    noted: &Noted<'_>,
    target: BorrowedName<'_>,
    change: &SourceChange,
    shared: SharedLists,
) -> Result<Vec<ListStep>, Refusal>
    requires { IsNotedFor Role.Target target.id.now noted.now }
    ensures meant { IfOk result (λ steps. AreMeant (target_changed (project_in noted.now) (name_at target.entry) change.now shared) steps.items) }
    ensures refused { RefusedAs result (target_changed (project_in noted.now) (name_at target.entry) change.now shared) }
    ensures utf8 { (c : Placed (Call Span)) → the_call (project_in noted.now) Role.Target (name_at target.entry) ≡ Ok c
        → IfOk result (λ steps. All IsUtf8 (names_written (project_in noted.now) c change.now)) }
{
    let call = the_call(alloc, Role::Target, target, noted.files, noted.notes)?;
    let arguments = list_of_call(noted.trees, &call);
    let source = noted.files.bytes(call.file);
    let follower = Follower {
        alloc,
        files: noted.files,
        trees: noted.trees,
    };
    match change {
        SourceChange::Add(names) => sources_added(
            &follower,
            &call,
            source,
            arguments,
            shared,
            names.get(),
        ),
        SourceChange::Remove(names) => sources_removed(
            &follower,
            &call,
            source,
            arguments,
            shared,
            names.get(),
        ),
        SourceChange::Rename { old, new } => sources_renamed(
            &follower,
            &call,
            source,
            arguments,
            shared,
            Renaming { old, new },
        ),
    }
}

/// A change of the sources of a target, where variables are followed.
///
/// # Errors
/// There is no such target or more than one, `sources:` is there twice, a name is empty, or out of memory. Or a name that is to be removed or renamed is not one of
/// the sources, or is one that is in no list, or in one that another target gets too; or the new name is that of a source.
pub fn change_sources(
    alloc: Global,
    noted: &Noted<'_>,
    target: BorrowedName<'_>,
    change: &SourceChange,
    shared: SharedLists,
) -> Result<Vec<ListStep>, Refusal>
    requires { IsNotedFor Role.Target target.id.now noted.now }
    ensures plan { IfOk result (λ steps.
        ArePlanned (loaded_in noted.now) (target_changed (project_in noted.now) (name_at target.entry) change.now shared) steps.items) }
    ensures refused { RefusedAs result (target_changed (project_in noted.now) (name_at target.entry) change.now shared) }
{
    steps_of(alloc, noted, target, change, shared)
}
