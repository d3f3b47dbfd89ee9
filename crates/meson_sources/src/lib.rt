//! Sources and extra files added to a target and removed from it, sources added in order, and sources renamed.
#![tactic(auto)]

pub mod editing;
mod extra_edits;
pub mod extra_files;
pub mod inserting;
pub mod laws;
pub mod removing;
pub mod renaming;
pub mod sorting;
pub mod targeting;
