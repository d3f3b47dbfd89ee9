//! Digests of files, which show whether the files are still as they were.
#![tactic(auto)]

mod digests;
pub mod laws;

pub use digests::{are_kept, digest, sums};
