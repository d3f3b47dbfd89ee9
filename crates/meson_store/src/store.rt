//! What a store of named files offers.

ghost use Rattle.std.specs.Prelude.{◌≡◌, ◌≤◌, ℕ, Option, None, IfOk, IfSome, IfErr, OnOk, option_map};
ghost use Rattle.std.specs.FinMap.{get};
ghost use Rattle.meson_store.specs.Content.{Content, content_with};

use std::alloc::{AllocError, Global};
use std::io;
use std::io::ErrorKind;
use thiserror::Error;

/// Why a call of a store failed.
#[derive(Clone, Copy, Debug, PartialEq, Eq, Error)]
pub enum StoreError {
    /// The device failed. A file that was to be replaced may have its new bytes.
    #[error("the device failed")]
    Device,
    /// The device failed, and every file is surely as it was.
    #[error("the device failed before any file changed")]
    Unchanged,
    /// An allocation failed. Every file is as it was.
    #[error("out of memory")]
    OutOfMemory,
}

impl From<AllocError> for StoreError {
    ghost use Rattle.std.specs.Prelude.{◌≡◌};
    ghost use Rattle.meson_store.specs.declared.store.StoreError.TheVariants.{OutOfMemory};

    ghost from_gives = { λ _ e. e ≡ OutOfMemory };

    fn from(_: AllocError) -> StoreError {
        StoreError::OutOfMemory
    }
}

impl From<io::Error> for StoreError {
    ghost use Rattle.std.specs.Prelude.{◌≡◌, ◌≢◌, ◌⊎◌};
    ghost use Rattle.std.specs.IoError.{error_kind};
    ghost use Rattle.std.specs.declared.io.ErrorKind.TheVariants as kind;
    ghost use Rattle.meson_store.specs.declared.store.StoreError.TheVariants.{OutOfMemory, Unchanged};

    ghost from_gives = { λ error e. ((error_kind error ≡ kind.OutOfMemory) × (e ≡ OutOfMemory)) ⊎ ((error_kind error ≢ kind.OutOfMemory) × (e ≡ Unchanged)) };

    fn from(e: io::Error) -> StoreError {
        match e.kind() {
            ErrorKind::OutOfMemory => StoreError::OutOfMemory,
            _ => StoreError::Unchanged,
        }
    }
}

/// A store of files by name.
///
/// A store that knows what it holds gives it as `content`; a folder of the file system gives none.
pub trait Store {
    ghost use Rattle.meson_store.specs.StoreCalls.{FailureCounted, Leaves, one_more};

    ghost content: { Self → Option Content } = { λ _. None };

    ghost failures: { Self → ℕ };

    ghost reads: { Self → ℕ };

    ghost replaces: { Self → ℕ };

    /// The bytes of a file, or none if there is no such file.
    ///
    /// # Errors
    /// `OutOfMemory` when an allocation failed; else the device failed, and `failures` rose.
    fn read(&mut self, alloc: Global, name: &str) -> Result<Option<Vec<u8>>, StoreError>
        ensures value { IfOk result (λ read. IfSome (content self.old)
            (λ files. option_map (λ bytes. bytes.items) read ≡ get files name.now)) }
        ensures kept { content self.new ≡ content self.old }
        ensures counts { failures self.old ≤ failures self.new }
        ensures failed { IfErr result (λ why. FailureCounted why (failures self.old) (failures self.new)) }
        ensures counted { reads self.new ≡ one_more (reads self.old) }
        ensures no_replace { replaces self.new ≡ replaces self.old };

    /// Puts the bytes in place of the file's, or makes the file. Every other file stays.
    ///
    /// # Errors
    /// `OutOfMemory` when an allocation failed; else the device failed, and `failures` rose. The file is as it was; after `Device` it may have the new bytes.
    fn replace(&mut self, name: &str, bytes: &[u8]) -> Result<(), StoreError>
        ensures ok { OnOk result (content self.new ≡ content_with (content self.old) name.now bytes.now) }
        ensures err { IfErr result (λ why. Leaves why name.now bytes.now (content self.old) (content self.new)) }
        ensures counts { failures self.old ≤ failures self.new }
        ensures failed { IfErr result (λ why. FailureCounted why (failures self.old) (failures self.new)) }
        ensures counted { replaces self.new ≡ one_more (replaces self.old) }
        ensures no_read { reads self.new ≡ reads self.old };

    /// The number of calls that failed for another cause than memory. The count stops at `u64::MAX`.
    fn failures(&self) -> u64
        ensures { result ≡ failures self.now };

    /// The number of calls of `read`, whatever they answered. The count stops at `u64::MAX`.
    fn reads(&self) -> u64
        ensures { result ≡ reads self.now };

    /// The number of calls of `replace`, whatever they answered. The count stops at `u64::MAX`.
    fn replaces(&self) -> u64
        ensures { result ≡ replaces self.now };
}
