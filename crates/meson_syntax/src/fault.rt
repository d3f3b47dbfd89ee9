//! Why a text is not a valid build file.

use meson_lex::LexFault;
use std::alloc::AllocError;
use std::error::Error;
use std::fmt;

/// Why a text has no tree. Offsets are in bytes.
#[derive(Debug, Clone, Copy, PartialEq, Eq)]
pub enum ParseFault {
    /// More than `MAX_LEN` bytes.
    TooLarge,
    /// The text is not UTF-8.
    NotUtf8,
    /// The text begins with a byte order mark.
    ByteOrderMark,
    /// The first place where no item can be read.
    Lex(LexFault),
    /// The first token that can't be where it is begins here; at the end of the text, its length.
    Unexpected(usize),
    /// The bracket, `if`, `foreach` or question mark that is here opens a construct inside as many as may be inside one another.
    TooDeep(usize),
    /// An allocation failed.
    OutOfMemory,
}

impl fmt::Display for ParseFault {
    ghost use Rattle.std.specs.Prelude.{Some};
    ghost use Rattle.meson_syntax.specs.Messages.{parse_fault_text};

    ghost output = { λ fault. Some (parse_fault_text fault) };

    fn fmt<W: fmt::Write>(&self, f: &mut fmt::Formatter<W>) -> fmt::Result {
        match self {
            ParseFault::TooLarge => f.write_str("S1 too large"),
            ParseFault::NotUtf8 => f.write_str("S2 not utf-8"),
            ParseFault::ByteOrderMark => f.write_str("S3 byte order mark"),
            ParseFault::Lex(fault) => write!(f, "{fault}"),
            ParseFault::Unexpected(at) => write!(f, "S5 unexpected at {at}"),
            ParseFault::TooDeep(at) => write!(f, "S6 too deep at {at}"),
            ParseFault::OutOfMemory => f.write_str("out of memory"),
        }
    }
}

impl Error for ParseFault {}

impl From<AllocError> for ParseFault {
    ghost use Rattle.std.specs.Prelude.{◌≡◌};
    ghost use Rattle.meson_syntax.specs.declared.fault.ParseFault.TheVariants.{OutOfMemory};

    ghost from_gives = { λ _ e. e ≡ OutOfMemory };

    fn from(_: AllocError) -> ParseFault {
        ParseFault::OutOfMemory
    }
}
