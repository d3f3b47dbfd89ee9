//! Edits of the trees of build files. The laws say that the splices of an edit's layout give the text of the edited tree.
#![tactic(auto)]

mod depth;
pub mod laws;
mod spans;
pub mod trees;

pub use depth::nests_within;
pub use spans::span_of;
