//! What is said of a refusal.

use meson_splice::{Many, Text};

/// Bytes of a file.
#[derive(Clone, Copy, Debug)]
pub struct Spot {
    /// The number of the file in its project.
    pub file: usize,
    /// The offset in bytes of the first of them.
    pub at: usize,
    /// The offset in bytes after the last of them.
    pub end: usize,
}

/// What was seen, and where.
#[derive(Debug, Drop)]
pub struct Note {
    /// None for what is said of the project as a whole.
    pub spot: Option<Spot>,
    pub text: Text,
}

/// What was seen, and what may be done.
#[derive(Debug, Drop)]
pub struct Explanation {
    pub notes: Many<Note>,
    pub help: Many<Text>,
}
