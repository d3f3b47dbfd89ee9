//! What explains words that are not a request, for people.

use crate::clap_faults::explain_untaken;
use crate::fault::UsageFault;
use crate::program::named_program;
use crate::spelling::clap_words;
use crate::word_faults::explain_taken;
use clap::error::ErrorKind;
use meson_json::Remarks;
use std::alloc::{AllocError, Global};

/// What explains that the words of a command line, of which the first is the program's name, are refused for this fault. Texts are as they are in the words,
/// with their control characters.
///
/// # Errors
/// Out of memory.
pub fn explain_words(
    alloc: Global,
    words: &[String],
    fault: &UsageFault,
) -> Result<Remarks, AllocError> {
    let mut remarks = Remarks::new(alloc);
    let given = clap_words(alloc, words)?;
    let command = named_program(alloc)?;
    match command.try_get_matches_from(given.as_slice()) {
        Ok(matches) => explain_taken(alloc, &mut remarks, &matches, fault)?,
        Err(error) => match error.kind() {
            ErrorKind::OutOfMemory => return Err(AllocError),
            _ => explain_untaken(alloc, &mut remarks, words, &error)?,
        },
    }
    Ok(remarks)
}
