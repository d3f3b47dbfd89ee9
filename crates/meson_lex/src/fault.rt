//! The faults of this crate's calls.
use std::alloc::AllocError;
use std::fmt;
use thiserror::Error;

/// Why no item can be read, with the offset of the byte in the source.
#[derive(Clone, Copy, Debug, PartialEq, Eq)]
pub enum LexFault {
    /// No item begins with this byte.
    StrayByte(usize),
    /// The string that begins here has no end.
    OpenString(usize),
    /// No integer begins with this digit: a letter, a digit or `_` follows, or there is no digit after `0x`, `0o` or `0b`.
    BadNumber(usize),
    /// A CR is here, and no LF after it.
    BareCarriageReturn(usize),
}

impl fmt::Display for LexFault {
    ghost use Rattle.std.specs.Prelude.{Some};
    ghost use Rattle.meson_lex.specs.Messages.{lex_fault_text};

    ghost output = { λ fault. Some (lex_fault_text fault) };

    fn fmt<W: fmt::Write>(&self, f: &mut fmt::Formatter<W>) -> fmt::Result {
        match self {
            LexFault::StrayByte(at) => write!(f, "L1 stray byte at {at}"),
            LexFault::OpenString(at) => write!(f, "L2 open string at {at}"),
            LexFault::BadNumber(at) => write!(f, "L3 bad number at {at}"),
            LexFault::BareCarriageReturn(at) => write!(f, "L4 bare carriage return at {at}"),
        }
    }
}

impl std::error::Error for LexFault {}

/// Why no literal could be read or written.
#[derive(Clone, Copy, Debug, PartialEq, Eq, Error)]
pub enum LiteralFault {
    /// An allocation failed.
    #[error("out of memory")]
    OutOfMemory,
}

impl From<AllocError> for LiteralFault {
    ghost use Rattle.std.specs.Prelude.{◌≡◌};
    ghost use Rattle.meson_lex.specs.declared.fault.LiteralFault.TheVariants.{OutOfMemory};

    ghost from_gives = { λ _ e. e ≡ OutOfMemory };

    fn from(_: AllocError) -> LiteralFault {
        LiteralFault::OutOfMemory
    }
}

// A literal is refused only when out of memory.
impl From<LiteralFault> for AllocError {
    fn from(_: LiteralFault) -> AllocError {
        AllocError
    }
}
