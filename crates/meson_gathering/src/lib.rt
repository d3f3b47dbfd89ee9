//! A project's files as a store has them: the root file, and those that `subdir` calls enter.
#![tactic(auto)]

mod fault;
mod gathering;
mod named_files;

pub use fault::GatherFault;
pub use gathering::{gather, read_file};
