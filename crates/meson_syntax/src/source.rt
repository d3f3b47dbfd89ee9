//! What is checked of a source before its grammar.

ghost use Rattle.std.specs.Prelude.{◌≡◌, true, false, IfErr, OnOk};
ghost use Rattle.meson_syntax.specs.Reads.{Exceeds, Fits, IsSourceWithin, IsUnreadableWithin};

use crate::fault::ParseFault;
use std::str;

/// The largest number of bytes of a file.
pub const MAX_LEN: usize = 1_048_576;

/// The number of constructs that may be inside one another in a file.
pub const MAX_DEPTH: usize = 64;

/// The number of bytes that a text may have, if that is limited, and the number of constructs that may be inside one another.
#[derive(Clone, Copy)]
pub struct Limits {
    pub len: Option<usize>,
    pub depth: usize,
}

/// Whether `len` bytes are more than the limit, if there is one.
fn is_too_long(len: usize, most: Option<usize>) -> bool
    ensures long { result ≡ true → Exceeds most len }
    ensures short { result ≡ false → Fits most len }
{
    match most {
        None => false,
        Some(most) => len > most,
    }
}

/// Size, coding and byte order mark, in this order.
pub(crate) fn check_source(source: &[u8], limits: Limits) -> Result<(), ParseFault>
    ensures ok { OnOk result (IsSourceWithin limits source.now) }
    ensures err { IfErr result (IsUnreadableWithin limits source.now) }
{
    if is_too_long(source.len(), limits.len) {
        return Err(ParseFault::TooLarge);
    }
    if let Err(_) = str::from_utf8(source) {
        return Err(ParseFault::NotUtf8);
    }
    if let [0xEF, 0xBB, 0xBF, ..] = source {
        return Err(ParseFault::ByteOrderMark);
    }
    Ok(())
}
