//! The digests of files, one a line.

ghost use Rattle.std.specs.Prelude.{◌≡◌, IfOk, string_bytes};
ghost use Rattle.std.specs.Str.{bytes_eq};
ghost use Rattle.meson_sums.specs.Sums.{digest, sum_line, sums};

use hex::encode;
use meson_splice::FileSet;
use sha2::{Digest, Sha256};
use std::alloc::{AllocError, Global};

/// The SHA-256 digest of bytes, in hexadecimal digits.
///
/// # Errors
/// Out of memory.
pub fn digest(alloc: Global, bytes: &[u8]) -> Result<String, AllocError>
    ensures { IfOk result (λ text. string_bytes text ≡ digest bytes.now) }
{
    encode(alloc, Sha256::digest(bytes))
}

/// The line of a file.
fn line(alloc: Global, name: &str, bytes: &[u8]) -> Result<Vec<u8>, AllocError>
    ensures { IfOk result (λ text. text.items ≡ sum_line (record { name = name.now; bytes = bytes.now })) }
{
    let digest = digest(alloc, bytes)?;
    let line = format!(in alloc; "{digest}  {name}\n")?;
    Ok(line.into_bytes())
}

/// The SHA-256 digests of files in order, a line each. The format is that of `sha256sum`, if no name has a backslash or a line feed.
///
/// # Errors
/// Out of memory.
pub fn sums(alloc: Global, files: &FileSet) -> Result<Vec<u8>, AllocError>
    ensures { IfOk result (λ text. text.items ≡ sums files.now) }
{
    let mut text = Vec::new(alloc);
    for i in 0..files.len() {
        let line = line(alloc, files.name(i), files.bytes(i))?;
        text.extend_from_slice(line.as_slice())?;
    }
    Ok(text)
}

/// Whether these are the digests of the files, to the byte.
///
/// # Errors
/// Out of memory.
pub fn are_kept(alloc: Global, files: &FileSet, kept: &[u8]) -> Result<bool, AllocError>
    ensures { IfOk result (λ same. same ≡ bytes_eq (sums files.now) kept.now) }
{
    let text = sums(alloc, files)?;
    Ok(text.as_slice() == kept)
}
