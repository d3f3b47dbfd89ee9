//! Why a session does not start, and why a script, an undo or a redo is refused.

use meson_plan::{LoadFault, Refusal};
use meson_splice::{FileSet, History, SpliceFault};
use std::alloc::AllocError;
use std::fmt;
use thiserror::Error;

/// Files and a history from which no session was made, with the reason.
#[derive(Debug, Drop)]
pub struct Unstarted {
    pub files: FileSet,
    pub history: History,
    pub fault: LoadFault,
}

/// Why a script is refused. Nothing was changed then.
#[derive(Debug, Drop, PartialEq)]
pub struct RunFault {
    /// The command that is refused, counted from 0. Those before it were performed. If memory ran out before any command was performed, it is 0; nothing is
    /// allocated after the last one.
    pub index: usize,
    pub refusal: Refusal,
}

impl RunFault {
    ghost use Rattle.std.specs.Prelude.{◌≡◌};
    ghost use Rattle.meson_calls.specs.declared.refusal.Refusal.TheVariants.{OutOfMemory};

    /// Out of memory before any command was performed.
    pub(crate) fn unmade(refused: AllocError) -> RunFault
        ensures { result ≡ record { index = 0; refusal = OutOfMemory } }
    {
        RunFault {
            index: 0,
            refusal: Refusal::from(refused),
        }
    }
}

impl fmt::Display for RunFault {
    ghost use Rattle.std.specs.Prelude.{Some};
    ghost use Rattle.meson_script.specs.Messages.{refused_text};

    ghost output = { λ fault. Some (refused_text fault.index fault.refusal) };

    fn fmt<W: fmt::Write>(&self, f: &mut fmt::Formatter<W>) -> fmt::Result {
        let RunFault { index, refusal } = self;
        match refusal {
            Refusal::OutOfMemory => write!(f, "{refusal}"),
            _ => write!(f, "command {index}: {refusal}"),
        }
    }
}

impl std::error::Error for RunFault {}

/// Why a change is not undone or redone. Nothing was changed then.
#[derive(Debug, Drop, PartialEq, Error)]
pub enum UndoFault {
    /// There is no such change, or the files are not as it left them.
    #[error("{0}")]
    Splice(SpliceFault),
    /// The files would not be a project then.
    #[error("{0}")]
    Load(LoadFault),
}

impl From<AllocError> for UndoFault {
    ghost use Rattle.std.specs.Prelude.{◌≡◌};
    ghost use Rattle.meson_splice.specs.declared.fault.SpliceFault.TheVariants.{OutOfMemory};
    ghost use Rattle.meson_script.specs.declared.fault.UndoFault.TheVariants.{Splice};

    ghost from_gives = { λ _ e. e ≡ Splice OutOfMemory };

    fn from(refused: AllocError) -> UndoFault {
        UndoFault::Splice(SpliceFault::from(refused))
    }
}
