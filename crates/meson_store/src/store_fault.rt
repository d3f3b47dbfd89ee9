//! What can go wrong between the program and its store or its writers.

use meson_splice::{Many, Text};
use std::alloc::AllocError;
use std::error::Error;
use std::fmt;

/// A fault of the store, of a writer, or out of memory.
#[derive(Debug, Drop)]
pub enum StoreFault {
    /// The store failed to read the file.
    ReadFailed(Text),
    /// The store failed to write the file; the files `still_new`, last first, may have their new bytes.
    WriteFailed { name: Text, still_new: Many<Text> },
    /// The store has no file of that name.
    NoFile(Text),
    /// What the program had to print could not be written. No line reports it: the program ends with status 3.
    OutputFailed,
    /// An allocation failed.
    OutOfMemory,
}

impl fmt::Display for StoreFault {
    ghost use Rattle.std.specs.Prelude.{Some};
    ghost use Rattle.meson_store.specs.Messages.{store_fault_text};

    ghost output = { λ fault. Some (store_fault_text fault) };

    fn fmt<W: fmt::Write>(&self, f: &mut fmt::Formatter<W>) -> fmt::Result {
        match self {
            StoreFault::ReadFailed(name) => write!(f, "W1 cannot read {name}"),
            StoreFault::WriteFailed { name, .. } => write!(f, "W2 cannot write {name}"),
            StoreFault::NoFile(name) => write!(f, "W3 no file {name}"),
            StoreFault::OutputFailed => f.write_str("W4 output failed"),
            StoreFault::OutOfMemory => f.write_str("out of memory"),
        }
    }
}

impl Error for StoreFault {}

impl From<AllocError> for StoreFault {
    ghost use Rattle.std.specs.Prelude.{◌≡◌};
    ghost use Rattle.meson_store.specs.declared.store_fault.StoreFault.TheVariants.{OutOfMemory};

    ghost from_gives = { λ _ fault. fault ≡ OutOfMemory };

    fn from(_: AllocError) -> StoreFault {
        StoreFault::OutOfMemory
    }
}
