//! Whole targets added at the end of a build file and removed from the project.
#![tactic(auto)]

pub mod holder;
pub mod laws;
pub mod target_adding;
pub mod target_removing;
mod uses;
pub mod variable;

pub use uses::{StatementPlace, is_used_outside};
