//! Why a splice or a step of the history is refused.

ghost use Rattle.std.specs.Prelude.{◌≡◌};
ghost use Rattle.meson_splice.specs.declared.fault.SpliceFault.TheVariants.{OutOfMemory};

use meson_values::Text;
use std::alloc::AllocError;
use std::error::Error;
use std::fmt;

/// Why files can't be changed as requested. Offsets are in bytes.
#[derive(Debug, Drop, PartialEq)]
pub enum SpliceFault {
    /// The set has no file of this name.
    NoFile(Text),
    /// The replaced range, from this offset on, extends past the end of the file.
    OutOfRange(Text, usize),
    /// Other bytes than the replaced ones are at this offset.
    Stale(Text, usize),
    /// There is no change to take back.
    NothingToUndo,
    /// There is no undone change to do again.
    NothingToRedo,
    /// An allocation failed.
    OutOfMemory,
}

impl fmt::Display for SpliceFault {
    ghost use Rattle.std.specs.Prelude.{Some};
    ghost use Rattle.meson_splice.specs.Messages.{splice_fault_text};

    ghost output = { λ fault. Some (splice_fault_text fault) };

    fn fmt<W: fmt::Write>(&self, f: &mut fmt::Formatter<W>) -> fmt::Result {
        match self {
            SpliceFault::NoFile(file) => write!(f, "P1 no file {file}"),
            SpliceFault::OutOfRange(file, at) => write!(f, "P2 out of range in {file} at {at}"),
            SpliceFault::Stale(file, at) => write!(f, "P3 stale {file} at {at}"),
            SpliceFault::NothingToUndo => f.write_str("P4 nothing to undo"),
            SpliceFault::NothingToRedo => f.write_str("P5 nothing to redo"),
            SpliceFault::OutOfMemory => f.write_str("out of memory"),
        }
    }
}

impl Error for SpliceFault {}

impl From<AllocError> for SpliceFault {
    ghost from_gives = { λ _ e. e ≡ OutOfMemory };

    fn from(_: AllocError) -> SpliceFault {
        SpliceFault::OutOfMemory
    }
}
