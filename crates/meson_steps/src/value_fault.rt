//! Why a word stands for no value.

use std::alloc::AllocError;
use std::error::Error;
use std::fmt;

/// Why a word stands for no value.
#[derive(Debug, Drop, PartialEq)]
pub enum ValueFault {
    /// The text after the colon is not one expression.
    NotCode,
    /// An allocation failed.
    OutOfMemory,
}

impl fmt::Display for ValueFault {
    ghost use Rattle.std.specs.Prelude.{Some};
    ghost use Rattle.meson_steps.specs.ValueFaults.{value_fault_text};

    ghost output = { λ fault. Some (value_fault_text fault) };

    fn fmt<W: fmt::Write>(&self, f: &mut fmt::Formatter<W>) -> fmt::Result {
        f.write_str(match self {
            ValueFault::NotCode => "U7 not code",
            ValueFault::OutOfMemory => "out of memory",
        })
    }
}

impl Error for ValueFault {}

impl From<AllocError> for ValueFault {
    ghost use Rattle.std.specs.Prelude.{◌≡◌};
    ghost use Rattle.meson_steps.specs.declared.value_fault.ValueFault.TheVariants.{OutOfMemory};

    ghost from_gives = { λ _ e. e ≡ OutOfMemory };

    fn from(_: AllocError) -> ValueFault {
        ValueFault::OutOfMemory
    }
}
