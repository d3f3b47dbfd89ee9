//! What is said for people of words or a script that are refused.

use crate::members::owned;
use meson_splice::Text;
use std::alloc::{AllocError, Global};

/// What was seen, and what may be done. Texts are as they are in words and scripts, with their control characters.
#[derive(Drop)]
pub struct Remarks {
    pub notes: Vec<Text>,
    pub help: Vec<Text>,
}

impl Remarks {
    /// Nothing yet.
    pub fn new(alloc: Global) -> Self {
        Remarks {
            notes: Vec::new(alloc),
            help: Vec::new(alloc),
        }
    }

    /// Adds what was seen.
    pub fn note(&mut self, text: String) -> Result<(), AllocError> {
        self.notes.push(Text::of(text))?;
        Ok(())
    }

    /// Adds what may be done.
    pub fn help(&mut self, text: String) -> Result<(), AllocError> {
        self.help.push(Text::of(text))?;
        Ok(())
    }

    /// Adds a copy of what was seen.
    pub fn note_words(&mut self, alloc: Global, text: &str) -> Result<(), AllocError> {
        self.notes.push(owned(alloc, text)?)?;
        Ok(())
    }

    /// Adds a copy of what may be done.
    pub fn help_words(&mut self, alloc: Global, text: &str) -> Result<(), AllocError> {
        self.help.push(owned(alloc, text)?)?;
        Ok(())
    }
}
