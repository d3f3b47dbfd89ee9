//! A change taken back or done again on the files of a project.

ghost use Rattle.std.specs.Prelude.{◌≡◌, ◌≢◌, IfErr, IfOk, Err, Ok};
ghost use Rattle.meson_script.specs.Undoing.{MayNotChange};
ghost use Rattle.meson_splice.specs.declared.fault.SpliceFault.TheVariants.{OutOfMemory};
ghost use Rattle.meson_splice.specs.Patch.{inverses_of, patched_all};

use crate::fault::UndoFault;
use meson_plan::Project;
use meson_splice::{Change, FileSet, SpliceFault, apply_all, revert};
use std::alloc::Global;

/// The project of files that splices gave, if they gave any.
pub(crate) fn loaded(
    alloc: Global,
    files: Result<FileSet, SpliceFault>,
) -> Result<Project, UndoFault>
    ensures done { IfOk result (λ p. files ≡ Ok p.files) }
    ensures refused { IfErr result (MayNotChange files) }
{
    match files {
        Ok(files) => match Project::load(alloc, files) {
            Ok(project) => Ok(project),
            Err(unloaded) => Err(UndoFault::Load(unloaded.fault)),
        },
        Err(fault) => Err(UndoFault::Splice(fault)),
    }
}

/// The files before a change.
pub(crate) fn files_before(
    alloc: Global,
    files: &FileSet,
    change: &Change,
) -> Result<FileSet, SpliceFault>
    ensures done { IfOk result (λ f. patched_all files.now (inverses_of change.now.splices) ≡ Ok f) }
    ensures refused { IfErr result (λ e. e ≢ OutOfMemory → patched_all files.now (inverses_of change.now.splices) ≡ Err e) }
{
    let mut files = files.copy(alloc)?;
    revert(alloc, &mut files, change)?;
    Ok(files)
}

/// The files after a change.
pub(crate) fn files_after(
    alloc: Global,
    files: &FileSet,
    change: &Change,
) -> Result<FileSet, SpliceFault>
    ensures done { IfOk result (λ f. patched_all files.now change.now.splices ≡ Ok f) }
    ensures refused { IfErr result (λ e. e ≢ OutOfMemory → patched_all files.now change.now.splices ≡ Err e) }
{
    let mut files = files.copy(alloc)?;
    apply_all(alloc, &mut files, change)?;
    Ok(files)
}
