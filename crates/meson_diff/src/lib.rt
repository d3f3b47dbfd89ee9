//! Which lines two texts have in common, and what differs between two sets of files, as a unified diff.
#![tactic(auto)]

mod aligning;
mod counts;
mod entry;
mod hunk;
pub mod laws;
mod line;
mod unified;

pub use aligning::align;
pub use entry::{Entry, Mark};
pub use line::Line;
pub use unified::diff;
