//! What is said of a step that only reports.

ghost use Rattle.std.specs.Prelude.{◌⊎◌, IfOk, IfErr};
ghost use Rattle.meson_rewrite.specs.inside.Edited.{OnlyTells};
ghost use Rattle.meson_rewrite.specs.Steps.{IsTitled, MayRefuseStep};
ghost use Rattle.meson_rewrite.specs.Stops.{WantsMemory};

use crate::opening::{StoredSession, leave};
use crate::request::Step;
use crate::said::Said;
use crate::steps::{act, object_of};
use crate::stop::Stop;
use meson_command::Flags;
use meson_script::Session;
use std::alloc::Global;

/// What is to be said for a step on a borrowed session that only reports.
fn told_of(alloc: Global, session: &mut Session, step: &Step, flags: Flags) -> Result<Said, Stop>
    requires { IsTitled step.now }
    ensures told { IfOk result (OnlyTells session.old step.now flags.json) }
    ensures refused { IfErr result (λ why. WantsMemory why ⊎ MayRefuseStep flags step.now session.old why) }
{
    if flags.json {
        return object_of(alloc, session, step, flags);
    }
    let report = act(alloc, session, step, flags)?;
    Ok(Said::of(alloc, step, report)?)
}

/// What is to be said for a step on a session that only reports.
pub(crate) fn told(
    alloc: Global,
    opened: StoredSession,
    step: &Step,
    flags: Flags,
) -> Result<Said, Stop>
    requires { IsTitled step.now }
    ensures told { IfOk result (OnlyTells opened.session step.now flags.json) }
    ensures refused { IfErr result (λ why. WantsMemory why ⊎ MayRefuseStep flags step.now opened.session why) }
{
    let StoredSession {
        mut session,
        log: _,
    } = opened;
    let said = told_of(alloc, &mut session, step, flags);
    leave(session);
    said
}
