//! The runs of the log, and why one of them is not taken back or done again.

ghost use Rattle.std.specs.Prelude.{◌≡◌, ◌<◌, ◌⊎◌, IfOk, length, reverse};
ghost use Rattle.meson_calls.specs.Loading.{name_of_file};
ghost use Rattle.meson_rewrite.specs.LoggedRuns.{newest_run};
ghost use Rattle.meson_rewrite.specs.Stops.{undo_stop};
ghost use Rattle.meson_rewrite.specs.inside.Edited.{IsWithin};
ghost use Rattle.meson_rewrite.specs.declared.advice.Advice.TheVariants.{Nothing};
ghost use Rattle.meson_rewrite.specs.declared.stop.FileText.TheVariants.{After};

use crate::advice::Advice;
use crate::stop::{FileText, Stop};
use meson_plan::LoadFault;
use meson_script::UndoFault;
use meson_splice::{Change, FileSet, SpliceFault, Text};
use meson_store::StoreFault;
use meson_syntax::ParseFault;
use std::alloc::{AllocError, Global};

/// Which runs of a history.
#[derive(Clone, Copy)]
pub(crate) enum Side {
    /// Those that can be undone.
    Undo,
    /// Those that can be redone.
    Redo,
}

/// A run of the log, as `history` lists it.
#[derive(Drop)]
pub(crate) struct LoggedRun {
    pub side: Side,
    /// Its number on this side. The next one to be undone or redone is 1.
    pub number: usize,
    /// What it is for; empty if no title says so.
    pub title: Text,
}

/// The newest of these runs of a side, which has this number, if there is one.
pub(crate) fn newest_run(
    side: Side,
    number: usize,
    runs: &[Change],
) -> Result<Option<LoggedRun>, AllocError>
    ensures { IfOk result (λ run. run ≡ newest_run side number (reverse runs.now)) }
{
    let Some(run) = runs.last() else {
        return Ok(None);
    };
    let title = run.title.clone()?;
    Ok(Some(LoggedRun {
        side,
        number,
        title,
    }))
}

/// The file of this number would not be valid after the run.
fn unparsed(
    alloc: Global,
    files: &FileSet,
    run: Option<LoggedRun>,
    place: usize,
    fault: ParseFault,
) -> Stop
    requires { place < length files.now }
    ensures { (result ≡ Stop.Parse (name_of_file place files.now) (After run) fault Nothing) ⊎ (result ≡ Stop.Splice SpliceFault.OutOfMemory None Nothing) }
{
    match String::from_str(alloc, files.name(place)) {
        Ok(name) => Stop::Parse {
            name: Text::of(name),
            text: FileText::After(run),
            fault,
            advice: Advice::Nothing,
        },
        Err(refused) => Stop::from(SpliceFault::from(refused)),
    }
}

/// Why the run is not taken back or done again on these files.
pub(crate) fn undo_stop(
    alloc: Global,
    files: &FileSet,
    run: Option<LoggedRun>,
    fault: UndoFault,
) -> Stop
    requires { IsWithin fault (length files.now) }
    ensures { (result ≡ undo_stop files.now run fault) ⊎ (result ≡ Stop.Splice SpliceFault.OutOfMemory None Nothing) }
{
    match fault {
        UndoFault::Splice(fault) => Stop::Splice(fault, run, Advice::Nothing),
        UndoFault::Load(LoadFault::TooManyFiles) => Stop::TooManyFiles(Advice::Nothing),
        UndoFault::Load(LoadFault::BadFileName(place)) => Stop::BadFileName(place),
        UndoFault::Load(LoadFault::Parse { index, fault }) => {
            unparsed(alloc, files, run, index, fault)
        }
        UndoFault::Load(LoadFault::OutOfMemory) => Stop::from(StoreFault::OutOfMemory),
    }
}
