//! Why a script or a log is refused.

use meson_splice::Text;
use std::alloc::{AllocError, AllocFailed};
use std::error::Error;
use std::fmt;

/// Why a text is not a valid script or log. Entries of a script are counted from 0.
#[derive(Debug, Drop, PartialEq)]
pub enum ScriptFault {
    /// The text is not JSON.
    NotJson,
    /// Its value is not an array.
    NotArray,
    /// More than `MAX_COMMANDS` entries.
    TooMany,
    /// This entry, counted from 0, is not an object.
    NotObject(usize),
    /// Its `type` is missing or unknown.
    UnknownType(usize),
    /// Its member of this name is missing or of another kind.
    BadField(usize, Text),
    /// Its `operation` is unknown.
    UnknownOperation(usize),
    /// The operation is known, but not done here.
    Unsupported(usize),
    /// Its member of this name is not known, where such members are refused.
    UnknownMember(usize, Text),
    /// The text is not a valid log.
    BadLog,
    /// An allocation failed.
    OutOfMemory,
}

impl fmt::Display for ScriptFault {
    ghost use Rattle.std.specs.Prelude.{Some};
    ghost use Rattle.meson_json.specs.Messages.{script_fault_text};

    ghost output = { λ fault. Some (script_fault_text fault) };

    fn fmt<W: fmt::Write>(&self, f: &mut fmt::Formatter<W>) -> fmt::Result {
        match self {
            ScriptFault::NotJson => f.write_str("J1 not json"),
            ScriptFault::NotArray => f.write_str("J2 not an array"),
            ScriptFault::TooMany => f.write_str("J3 too many"),
            ScriptFault::NotObject(index) => write!(f, "entry {index}: J4 not an object"),
            ScriptFault::UnknownType(index) => write!(f, "entry {index}: J5 unknown type"),
            ScriptFault::BadField(index, member) => {
                write!(f, "entry {index}: J6 bad field {member}")
            }
            ScriptFault::UnknownOperation(index) => {
                write!(f, "entry {index}: J7 unknown operation")
            }
            ScriptFault::Unsupported(index) => write!(f, "entry {index}: J8 unsupported"),
            ScriptFault::UnknownMember(index, member) => {
                write!(f, "entry {index}: J12 unknown member {member}")
            }
            ScriptFault::BadLog => f.write_str("J9 bad log"),
            ScriptFault::OutOfMemory => f.write_str("out of memory"),
        }
    }
}

impl Error for ScriptFault {}

impl From<AllocError> for ScriptFault {
    ghost use Rattle.std.specs.Prelude.{◌≡◌};
    ghost use Rattle.meson_json.specs.declared.fault.ScriptFault.TheVariants.{OutOfMemory};

    ghost from_gives = { λ _ e. e ≡ OutOfMemory };

    fn from(_: AllocError) -> ScriptFault {
        ScriptFault::OutOfMemory
    }
}

impl From<serde_json::Error> for ScriptFault {
    ghost use Rattle.std.specs.Prelude.{◌≡◌, ◌≢◌};
    ghost use Rattle.serde_json.specs.Errors.{IsMemory};
    ghost use Rattle.meson_json.specs.declared.fault.ScriptFault.TheVariants.{NotJson, OutOfMemory};

    ghost from_gives = { λ error fault. (fault ≡ OutOfMemory → IsMemory error) × (fault ≢ OutOfMemory → ¬ IsMemory error × (fault ≡ NotJson)) };

    fn from(error: serde_json::Error) -> ScriptFault {
        if error.is_memory() {
            ScriptFault::OutOfMemory
        } else {
            ScriptFault::NotJson
        }
    }
}

impl<T: Drop> From<AllocFailed<T>> for ScriptFault {
    ghost use Rattle.std.specs.Prelude.{◌≡◌};
    ghost use Rattle.meson_json.specs.declared.fault.ScriptFault.TheVariants.{OutOfMemory};

    ghost from_gives = { λ _ e. e ≡ OutOfMemory };

    fn from(_: AllocFailed<T>) -> ScriptFault {
        ScriptFault::OutOfMemory
    }
}
