//! The files that a build file enters.
#![tactic(auto)]

pub mod entering;
pub mod laws;
pub mod lists;
pub mod loops;

pub use entering::{SourceFile, SubdirCall, entered_by, files_meant};
