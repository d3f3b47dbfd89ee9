//! Why words are refused.

use meson_json::ScriptFault;
use meson_steps::value_fault::ValueFault;
use std::alloc::{AllocError, AllocFailed};
use std::error::Error;
use std::fmt;

/// Why the words of a command line are refused.
#[derive(Debug, Drop)]
pub enum UsageFault {
    /// A word is missing, one too many or unknown, a number or a place is not valid, two listings are requested, the folder or the function is empty, or a
    /// folder, `--follow` or texts do not fit the request.
    Usage,
    /// The last name has no value.
    OddWords,
    /// Two names are the same.
    RepeatedKey,
    /// The operation is known, but not done here.
    Unsupported,
    /// The text is not a valid title.
    BadTitle,
    /// The text after a colon is not one expression, or the code of `code` is not statements.
    NotCode,
    /// An allocation failed.
    OutOfMemory,
}

impl fmt::Display for UsageFault {
    ghost use Rattle.std.specs.Prelude.{Some};
    ghost use Rattle.meson_command.specs.Messages.{usage_fault_text};

    ghost output = { λ fault. Some (usage_fault_text fault) };

    fn fmt<W: fmt::Write>(&self, f: &mut fmt::Formatter<W>) -> fmt::Result {
        match self {
            UsageFault::Usage => f.write_str("U1 usage"),
            UsageFault::OddWords => f.write_str("U2 odd words"),
            UsageFault::RepeatedKey => f.write_str("U3 repeated key"),
            UsageFault::Unsupported => f.write_str("U4 unsupported"),
            UsageFault::BadTitle => f.write_str("U6 bad title"),
            UsageFault::NotCode => f.write_str("U7 not code"),
            UsageFault::OutOfMemory => f.write_str("out of memory"),
        }
    }
}

impl Error for UsageFault {}

impl From<AllocError> for UsageFault {
    ghost use Rattle.std.specs.Prelude.{◌≡◌};
    ghost use Rattle.meson_command.specs.declared.fault.UsageFault.TheVariants.{OutOfMemory};

    ghost from_gives = { λ _ e. e ≡ OutOfMemory };

    fn from(_: AllocError) -> UsageFault {
        UsageFault::OutOfMemory
    }
}

impl<T: Drop> From<AllocFailed<T>> for UsageFault {
    ghost use Rattle.std.specs.Prelude.{◌≡◌};
    ghost use Rattle.meson_command.specs.declared.fault.UsageFault.TheVariants.{OutOfMemory};

    ghost from_gives = { λ _ e. e ≡ OutOfMemory };

    fn from(_: AllocFailed<T>) -> UsageFault {
        UsageFault::OutOfMemory
    }
}

// A script from the words of a command line is refused only when out of memory. Any other fault would be one of the words.
impl From<ScriptFault> for UsageFault {
    ghost use Rattle.std.specs.Prelude.{◌≡◌, ◌↔◌};
    ghost use Rattle.meson_command.specs.declared.fault.UsageFault.TheVariants.{OutOfMemory};
    ghost use Rattle.meson_json.specs.declared.fault.ScriptFault.TheVariants as script;

    ghost from_gives = { λ fault usage. (fault ≡ script.OutOfMemory) ↔ (usage ≡ OutOfMemory) };

    fn from(fault: ScriptFault) -> UsageFault {
        match fault {
            ScriptFault::OutOfMemory => UsageFault::OutOfMemory,
            _ => UsageFault::Usage,
        }
    }
}

impl From<ValueFault> for UsageFault {
    ghost use Rattle.std.specs.Prelude.{◌≡◌};
    ghost use Rattle.meson_command.specs.Messages.{usage_by_value};

    ghost from_gives = { λ fault usage. usage ≡ usage_by_value fault };

    fn from(fault: ValueFault) -> UsageFault {
        match fault {
            ValueFault::NotCode => UsageFault::NotCode,
            ValueFault::OutOfMemory => UsageFault::OutOfMemory,
        }
    }
}
