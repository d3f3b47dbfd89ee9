//! Why the files of a project cannot be gathered.

use meson_splice::{Bytes, Text};
use meson_store::StoreFault;
use meson_syntax::ParseFault;
use std::alloc::{AllocError, AllocFailed};

/// Why a store's files are not a project.
#[derive(Debug, Drop)]
pub enum GatherFault {
    /// The file of this name, which has these bytes, is not a valid build file.
    Parse {
        name: Text,
        bytes: Bytes,
        fault: ParseFault,
    },
    /// The project has more files than it may have.
    TooManyFiles,
    /// The store failed or has no root file, or memory ran out.
    Store(StoreFault),
}

impl From<AllocError> for GatherFault {
    ghost use Rattle.std.specs.Prelude.{◌≡◌};
    ghost use Rattle.meson_gathering.specs.declared.fault.GatherFault.TheVariants.{Store};
    ghost use Rattle.meson_store.specs.declared.store_fault.StoreFault.TheVariants.{OutOfMemory};

    ghost from_gives = { λ _ fault. fault ≡ Store OutOfMemory };

    fn from(refused: AllocError) -> GatherFault {
        GatherFault::Store(StoreFault::from(refused))
    }
}

impl<T: Drop> From<AllocFailed<T>> for GatherFault {
    ghost use Rattle.std.specs.Prelude.{◌≡◌};
    ghost use Rattle.meson_gathering.specs.declared.fault.GatherFault.TheVariants.{Store};
    ghost use Rattle.meson_store.specs.declared.store_fault.StoreFault.TheVariants.{OutOfMemory};

    ghost from_gives = { λ _ fault. fault ≡ Store OutOfMemory };

    fn from(refused: AllocFailed<T>) -> GatherFault {
        GatherFault::from(AllocError::from(refused))
    }
}
