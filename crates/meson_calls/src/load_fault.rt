//! Why a set of files cannot be loaded.

use meson_splice::FileSet;
use meson_syntax::ParseFault;
use std::alloc::AllocFailed;
use std::error::Error;
use std::fmt;

/// Why a set of files cannot be loaded as a project. The faults are in the order in which they are checked.
#[derive(Clone, Copy, Debug, PartialEq, Eq)]
pub enum LoadFault {
    /// More than `MAX_FILES` files.
    TooManyFiles,
    /// The name of this file, counted from 0, is not that of a build file.
    BadFileName(usize),
    /// This file, counted from 0, is the first one without a tree.
    Parse { index: usize, fault: ParseFault },
    /// An allocation failed.
    OutOfMemory,
}

impl fmt::Display for LoadFault {
    ghost use Rattle.std.specs.Prelude.{Some};
    ghost use Rattle.meson_calls.specs.Messages.{load_fault_text};

    ghost output = { λ fault. Some (load_fault_text fault) };

    fn fmt<W: fmt::Write>(&self, f: &mut fmt::Formatter<W>) -> fmt::Result {
        match self {
            LoadFault::TooManyFiles => f.write_str("M1 too many files"),
            LoadFault::BadFileName(index) => write!(f, "M2 bad file name {index}"),
            LoadFault::Parse { fault, .. } => write!(f, "{fault}"),
            LoadFault::OutOfMemory => f.write_str("out of memory"),
        }
    }
}

impl Error for LoadFault {}

impl<T: Drop> From<AllocFailed<T>> for LoadFault {
    ghost use Rattle.std.specs.Prelude.{◌≡◌};
    ghost use Rattle.meson_calls.specs.declared.load_fault.LoadFault.TheVariants.{OutOfMemory};

    ghost from_gives = { λ _ e. e ≡ OutOfMemory };

    fn from(_: AllocFailed<T>) -> LoadFault {
        LoadFault::OutOfMemory
    }
}

/// Files that were not loaded, with the reason.
#[derive(Debug, Drop)]
pub struct Unloaded {
    pub files: FileSet,
    pub fault: LoadFault,
}
