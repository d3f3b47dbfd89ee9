//! Code that is inserted into a project or removed from it, and the statement by which it is found.
#![tactic(auto)]

pub mod anchors;
mod insertion;
pub mod laws;
mod removal;
pub mod removing;
mod statements;
mod unused;

pub use insertion::{FileLines, Insertion, insertion_steps};
