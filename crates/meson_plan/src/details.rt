//! What is reported of a target.

ghost use Rattle.std.specs.Prelude.{◌≡◌, IfOk, IsTrue};
ghost use Rattle.meson_calls.specs.Loading.{AreParsed};
ghost use Rattle.meson_variables.specs.CodeVariables.{AreVariables, project_of};
ghost use Rattle.meson_calls.specs.Refusals.{IfRefused};
ghost use Rattle.meson_calls.specs.Roles.{is_target};
ghost use Rattle.meson_sharing.specs.CodeTold.{told_view};
ghost use Rattle.meson_plan.specs.Details.{AreDetails, NoDetails, told_sources};

use crate::project::Project;
use meson_calls::{CallRef, Refusal};
use meson_details::Head;
use meson_details::called::call_at;
use meson_details::showing::head_of;
use meson_following::Follower;
use meson_sharing::{Told, tell_sources};
use meson_sources::extra_files::extra_files_of;
use meson_variables::Sources;
use meson_variables::target_sources::sources_at;
use meson_variables::variables::Variables;
use std::alloc::{AllocError, Global};

/// A target: the place of its call, and what is reported of it.
#[derive(Drop)]
pub struct TargetDetails {
    pub place: CallRef,
    pub head: Head,
    pub sources: Sources,
    /// If none is in a list, and no empty list is met, a further one would be added to the call.
    pub extra_files: Sources,
}

/// What is reported of the target at a place.
///
/// # Errors
/// It has `sources:` or `extra_files:` twice, or out of memory.
pub(crate) fn details_at(
    variables: &Variables<'_>,
    place: CallRef,
) -> Result<TargetDetails, Refusal>
    requires holds { AreVariables variables.now }
    requires parsed { AreParsed variables.now.files.now variables.now.trees.now }
    requires target { IsTrue (is_target (project_of variables.now) place) }
    ensures told { IfOk result (AreDetails (project_of variables.now) place) }
    ensures refused { IfRefused result (NoDetails (project_of variables.now) place) }
{
    let sources = sources_at(variables, &place)?;
    let called = call_at(variables.files, variables.trees, &place);
    let extra_files = extra_files_of(variables, &place, called.source, called.arguments)?;
    let head = head_of(variables.alloc, called)?;
    Ok(TargetDetails {
        place,
        head,
        sources,
        extra_files,
    })
}

/// What is reported of the sources of the target whose call is at a place, where variables are followed. Nothing is reported where no call stands there.
///
/// # Errors
/// Out of memory.
pub fn told_sources(alloc: Global, project: &Project, call: &CallRef) -> Result<Told, AllocError>
    ensures { IfOk result (λ told. told_view told ≡ told_sources project.now call.now) }
{
    project.reads();
    let follower = Follower {
        alloc,
        files: project.files(),
        trees: project.trees(),
    };
    tell_sources(&follower, call)
}
