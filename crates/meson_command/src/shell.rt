//! Words as a shell takes them.

use std::alloc::{AllocError, Global};

/// Whether a shell takes a byte as it is.
fn is_plain(byte: u8) -> bool {
    byte.is_ascii_alphanumeric() || byte >= 128 || b"/._-+:,@%=".contains(&byte)
}

/// A word as a shell takes it: in quotes, unless it takes it as it is.
pub(crate) fn quoted(alloc: Global, word: &str) -> Result<String, AllocError> {
    if !word.is_empty() && word.as_bytes().iter().all(|byte| is_plain(*byte)) {
        return String::from_str(alloc, word);
    }
    let mut quoted = String::from_str(alloc, "'")?;
    for (i, part) in word.split('\'').enumerate() {
        if i > 0 {
            quoted.push_str("'\\''")?;
        }
        quoted.push_str(part)?;
    }
    quoted.push('\'')?;
    Ok(quoted)
}
